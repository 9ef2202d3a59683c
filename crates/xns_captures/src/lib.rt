//! Capture files, classic pcap and pcapng: the frames that they hold, and the internet packets in these frames.
#![tactic(auto)]

mod block;
mod by_packet;
mod byte_order;
mod fault;
mod file_fault;
mod format;
mod frame;
mod frame_time;
mod interface;
mod limits;
mod link;
mod link_name;
mod magic;
mod options;
mod packet_block;
mod packet_printer;
mod part;
mod passing;
mod places;
mod printing;
mod reading;
mod record;
mod stamp;
mod step;
mod taker;
mod taking;
mod window;

pub use byte_order::ByteOrder;
pub use fault::CaptureFault;
pub use file_fault::{FileFault, FileResult};
pub use format::Format;
pub use frame::Frame;
pub use frame_time::FrameTime;
pub use interface::Interface;
pub use limits::{MOST_BLOCK_BYTES, MOST_FRAME_BYTES, MOST_FRAMES, MOST_INTERFACES};
pub use link::packet_in;
pub use magic::is_capture;
pub use packet_printer::PacketPrinter;
pub use part::Part;
pub use printing::print_packets;
pub use stamp::Stamp;
pub use step::{head_bytes, part_bytes, read_part};
pub use taker::PacketTaker;
pub use taking::take_packets;
