//! What packets of a capture are handed to.
use crate::stamp::Stamp;
use std::io::Write;
use xns_lines::RunFault;

/// Takes the packets of a capture, one after the other, as `take_packets` hands them on. It may write meanwhile.
///
/// An `impl` names four relations: `stands`, what holds of it and of what is written once it has taken some packets;
/// `fails`, what is left of that after a failed write; `wants`, when a packet may be refused for want of memory; and
/// `rests`, when nothing is to be done before more of the file is awaited.
pub trait PacketTaker {
    ghost use Rattle.std.specs.Prelude.{◌≡◌, ◌≤◌, ◌<◌, ◌++◌, ℕ, List, [], ◌∷◌, Option, IfErr, OnOk, length};
    ghost use Rattle.xns_captures.specs.Captures.{NumberedPacket};
    ghost use Rattle.xns_captures.specs.Reading.{StandsAfterPacket, most_frames};
    ghost use Rattle.xns_lines.specs.Faults.{IfWants};

    // The taker has taken these packets, and the writer, which held the first bytes, holds the second.
    ghost stands: { Self → Option (List ℕ) → Option (List ℕ) → List NumberedPacket → Type 0 };

    // The taker has taken these packets, but a write failed.
    ghost fails: { Self → Option (List ℕ) → Option (List ℕ) → List NumberedPacket → Type 0 };

    // Memory may be refused for this packet.
    ghost wants: { Self → NumberedPacket → Type 0 };

    // Nothing is to be done before more of the file is awaited.
    ghost rests: { Self → Type 0 };

    /// Takes the packet in the frame of that stamp, with all bytes of the frame behind it.
    ///
    /// # Errors
    /// `NoMemory` where memory is refused: it then stands for the packets before this one; `Write` where a write fails.
    fn take_packet<W: Write>(
        &mut self,
        stamp: Stamp,
        packet: &[u8],
        writer: &mut W,
    ) -> Result<(), RunFault>
        requires few { stamp.number ≤ most_frames }
        ensures ok { OnOk result ((before : Option (List ℕ)) (packets : List NumberedPacket) → length packets < stamp.number
            → stands self.old before (W.contents writer.old) packets
            → stands self.new before (W.contents writer.new) (packets ++ (stamp, packet.now) ∷ [])) }
        ensures err { IfErr result (λ fault. (before : Option (List ℕ)) (packets : List NumberedPacket) → length packets < stamp.number
            → stands self.old before (W.contents writer.old) packets
            → StandsAfterPacket fault (stands self.new before (W.contents writer.new))
            (fails self.new before (W.contents writer.new)) packets (stamp, packet.now)) }
        ensures memory { IfErr result (λ fault. IfWants fault (wants self.old (stamp, packet.now))) };

    /// Does what is to be done before more of the file is awaited.
    ///
    /// The only error is `Write`, where a write fails.
    fn pause<W: Write>(&mut self, writer: &mut W) -> Result<(), RunFault>
        ensures ok { OnOk result ((before : Option (List ℕ)) (packets : List NumberedPacket)
            → stands self.old before (W.contents writer.old) packets → stands self.new before (W.contents writer.new) packets) }
        ensures rests { OnOk result (rests self.new) }
        ensures err { IfErr result (λ fault. (fault ≡ RunFault.Write)
            × ((before : Option (List ℕ)) (packets : List NumberedPacket) → stands self.old before (W.contents writer.old) packets
            → fails self.new before (W.contents writer.new) packets)) };
}
