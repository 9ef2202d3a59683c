//! A host, which C holds by its handle: many Courier conversations behind one address. `host_asking` has what it is asked.

ghost use Rattle.std.specs.Prelude.{◌≡◌, ◌≢◌, length, IfOk, OnErr, Some, None, Err};
ghost use Rattle.courier_messages.specs.RawCalls.{words_call};
ghost use Rattle.xns_host.specs.Settings.{wrong_setting};
ghost use Rattle.xns_host.specs.Standing.{IsNewHost};
ghost use Rattle.xns_host.specs.declared.host_fault.HostFault.TheVariants.{NoMemory, OutOfRange};
ghost use Rattle.xns_host.specs.declared.setting.Setting.{Setting};
ghost use Rattle.xns_c.specs.Handle.{kept_of};
ghost use Rattle.xns_c.specs.Heads.{answer_of_kind};
ghost use Rattle.xns_c.specs.Hosts.{AbandonsOne, Does, HostCalls, AnswersCall, Closes, Connects, HostMoves, HostServes, TagsOne, Receives, FetchesEvent, FetchesPacket};
ghost use Rattle.xns_c.specs.Hosts.{IsNew};
ghost use Rattle.xns_c.specs.Results.{ok, no_memory, bad_argument};
ghost use Rattle.xns_c.specs.Settings.{settings_in};
ghost use Rattle.xns_c.specs.Structs.{address_of_struct};
ghost use Rattle.xns_c.specs.declared.kept_host.KeptHost.{KeptHost};

use crate::address::XnsAddress;
use crate::event::XnsEvent;
use crate::faults::host_fault_number;
use crate::handling::Handle;
use crate::host_handle::XnsHost;
use crate::kept_host::KeptHost;
use crate::results::{NO_HOST, OK};
use crate::settings::XnsSettings;
use courier_sessions::Program;
use std::alloc::Global;
use xns_host::{Call, HostFault, Settings};

/// The host in a box. Where memory is refused it is freed.
fn boxed(alloc: Global, host: KeptHost) -> Result<Box<KeptHost>, HostFault>
    ensures is { IfOk result (λ b. b.value ≡ host) }
    ensures fault { OnErr result (result ≡ Err NoMemory) }
{
    match Box::new(alloc, host) {
        Ok(host) => Ok(host),
        Err(_) => Err(HostFault::NoMemory),
    }
}

/// A host in a box.
fn make_host(
    alloc: Global,
    own: &XnsAddress,
    settings: Settings,
    secret: &[u8; 32],
) -> Result<Box<KeptHost>, HostFault>
    ensures made { IfOk result (λ b. IsNewHost own.now.network own.now.host settings secret.now b.value.host) }
    ensures room { IfOk result (λ b. length b.value.host.guests.items ≡ settings.connections) }
    ensures empty { IfOk result (λ b. (b.value.event ≡ None) × (b.value.packet ≡ None)) }
    ensures settings { (s : Setting) → wrong_setting settings ≡ Some s → result ≡ Err (OutOfRange s) }
    ensures fault { OnErr result (wrong_setting settings ≡ None → result ≡ Err NoMemory) }
{
    let host = KeptHost::new(alloc, own, settings, secret)?;
    boxed(alloc, host)
}

/// Makes a host at this address in the place of the one that the handle had, which is freed in any case. The socket of `own` is not looked
/// at. A setting that is 0 has its default. The identifiers of its connections come in an order that the secret gives.
///
/// `BAD_ARGUMENT` where a setting is out of its range; `NO_MEMORY` where memory is refused. The handle then has no host.
#[unsafe(no_mangle)]
pub extern "C" fn xns_host_new(
    alloc: Global,
    handle: &mut XnsHost,
    own: &XnsAddress,
    settings: &XnsSettings,
    secret: &[u8; 32],
) -> u32
    ensures made { result ≡ ok → IsNew (kept_of handle.new) (address_of_struct own.now) (settings_in settings.now) secret.now }
    ensures settings { (s : Setting) → wrong_setting (settings_in settings.now) ≡ Some s → result ≡ bad_argument }
    ensures fault { result ≢ ok → wrong_setting (settings_in settings.now) ≡ None → result ≡ no_memory }
    ensures none { result ≢ ok → kept_of handle.new ≡ None }
{
    let _ = handle.take(alloc);
    match make_host(alloc, own, settings.settings(), secret) {
        Ok(host) => {
            handle.put(host);
            OK
        }
        Err(fault) => host_fault_number(fault),
    }
}

/// Frees the host, if there is one. The handle then has none, and may be used again.
#[unsafe(no_mangle)]
pub extern "C" fn xns_host_clear(alloc: Global, handle: &mut XnsHost)
    ensures { kept_of handle.new ≡ None }
{
    let _freed = handle.take(alloc);
}

/// The host is at this network from now on: new connections and Echo replies have its number. Those that are there keep theirs.
///
/// `NO_HOST`.
#[unsafe(no_mangle)]
pub extern "C" fn xns_host_set_network(alloc: Global, handle: &mut XnsHost, network: u32) -> u32
    ensures moves { Does (kept_of handle.old) (kept_of handle.new) result (λ k n. (result ≡ ok) × HostMoves k n network) }
{
    let Some(mut kept) = handle.take(alloc) else {
        return NO_HOST;
    };
    kept.set_network(network);
    handle.put(kept);
    OK
}

/// From now on connections that peers open to this socket are answered, for these programs, which are copied; where there are none, each
/// call is handed. If the socket is served already, its list is replaced for new connections.
///
/// `NO_HOST`; `ECHO_SOCKET` for socket 2; `NO_VERSION` where the lowest version of a program is above its highest; `TOO_MANY_SERVICES`
/// where 16 other sockets are served; `NO_MEMORY`. What is served is then as it was.
#[unsafe(no_mangle)]
pub extern "C" fn xns_host_serve(
    alloc: Global,
    handle: &mut XnsHost,
    socket: u16,
    programs: &[Program],
) -> u32
    ensures serves { Does (kept_of handle.old) (kept_of handle.new) result (λ k n. HostServes k n socket programs.now result) }
{
    let Some(mut kept) = handle.take(alloc) else {
        return NO_HOST;
    };
    let result = kept.serve(socket, programs);
    handle.put(kept);
    result
}

/// Opens a connection from this socket of ours to the peer, whose side calls, and tells its number. Its packets go out by this `via`.
///
/// `NO_HOST`; `EVERY_HOST` to or from the broadcast host; `NO_SOCKET` to or from socket 0; `NO_SLOT` where as many connections are there as
/// the host may have, and none gives way; `NO_MEMORY`.
#[unsafe(no_mangle)]
pub extern "C" fn xns_host_connect(
    alloc: Global,
    handle: &mut XnsHost,
    now: u64,
    via: u64,
    socket: u16,
    peer: &XnsAddress,
    number: &mut usize,
) -> u32
    ensures connects { Does (kept_of handle.old) (kept_of handle.new) result
        (λ k n. Connects k n now socket (address_of_struct peer.now) via number.new result) }
    ensures untold { result ≢ ok → number.new ≡ number.old }
{
    let Some(mut kept) = handle.take(alloc) else {
        return NO_HOST;
    };
    let made = kept.host.connect(now, via, socket, peer.address());
    handle.put(kept);
    match made {
        Ok(made) => {
            *number = made;
            OK
        }
        Err(fault) => host_fault_number(fault),
    }
}

/// Puts out a call on a connection of our own, whose words are copied.
///
/// `NO_HOST`; `NO_CONNECTION`; `CLOSING` where the connection is closed or closes; `PEER_CALLS` where the peer opened it; `BUSY` while a
/// call waits for its answer, or the answer was not fetched or had no room; `TOO_LONG` over 65,530 words; `NO_MEMORY`.
#[unsafe(no_mangle)]
pub extern "C" fn xns_host_call(
    alloc: Global,
    handle: &mut XnsHost,
    now: u64,
    number: usize,
    program: u32,
    version: u16,
    procedure: u16,
    words: &[u16],
) -> u32
    ensures calls { Does (kept_of handle.old) (kept_of handle.new) result
        (λ k n. HostCalls k n now number (words_call program version procedure words.now) result) }
{
    let Some(mut kept) = handle.take(alloc) else {
        return NO_HOST;
    };
    let call = Call {
        program,
        version,
        procedure,
        words,
    };
    let result = kept.call(now, number, &call);
    handle.put(kept);
    result
}

/// Answers the call that was handed of this connection: 2 a return, 3 an abort with its error's number, 1 a reject with its reason
/// (XSIS 038112, Courier, Return, Abort and Reject message). A call that had no room in the buffer, and is kept, counts as handed: it goes.
///
/// `NO_HOST`; `BAD_ARGUMENT` for another kind; `NO_CONNECTION`; `CLOSING` where the connection is closed; `NOTHING` where no call waits for
/// an answer; `TOO_LONG` over 131,072 bytes; `NO_MEMORY`.
#[unsafe(no_mangle)]
pub extern "C" fn xns_host_answer(
    alloc: Global,
    handle: &mut XnsHost,
    now: u64,
    number: usize,
    kind: u8,
    code: u16,
    words: &[u16],
) -> u32
    ensures answers { Does (kept_of handle.old) (kept_of handle.new) result
        (λ k n. AnswersCall k n now number (answer_of_kind kind code) words.now result) }
{
    let Some(mut kept) = handle.take(alloc) else {
        return NO_HOST;
    };
    let result = kept.answer(now, number, kind, code, words);
    handle.put(kept);
    result
}

/// Closes a connection once all that it has to say is said. An answer on it that is kept goes; a call that is kept stays, to be answered.
///
/// `NO_HOST`; `NO_CONNECTION`.
#[unsafe(no_mangle)]
pub extern "C" fn xns_host_close(
    alloc: Global,
    handle: &mut XnsHost,
    now: u64,
    number: usize,
) -> u32
    ensures closes { Does (kept_of handle.old) (kept_of handle.new) result (λ k n. Closes k n now number result) }
{
    let Some(mut kept) = handle.take(alloc) else {
        return NO_HOST;
    };
    let result = kept.close(now, number);
    handle.put(kept);
    result
}

/// Abandons a connection: it is gone at once, and its closing is not told. An event of it that is kept goes; a packet that is kept stays.
///
/// `NO_HOST`; `NO_CONNECTION`.
#[unsafe(no_mangle)]
pub extern "C" fn xns_host_abandon(alloc: Global, handle: &mut XnsHost, number: usize) -> u32
    ensures abandons { Does (kept_of handle.old) (kept_of handle.new) result (λ k n. AbandonsOne k n number result) }
{
    let Some(mut kept) = handle.take(alloc) else {
        return NO_HOST;
    };
    let result = kept.abandon(number);
    handle.put(kept);
    result
}

/// Gives a connection a tag: a number of the program's own, which its events have from now on, also one that is kept. It is 0 until then.
///
/// `NO_HOST`; `NO_CONNECTION`.
#[unsafe(no_mangle)]
pub extern "C" fn xns_host_set_tag(
    alloc: Global,
    handle: &mut XnsHost,
    number: usize,
    tag: u64,
) -> u32
    ensures tags { Does (kept_of handle.old) (kept_of handle.new) result (λ k n. TagsOne k n number tag result) }
{
    let Some(mut kept) = handle.take(alloc) else {
        return NO_HOST;
    };
    let result = kept.set_tag(number, tag);
    handle.put(kept);
    result
}

/// Takes in the bytes of a packet that came by this `via`.
///
/// `NO_HOST`; `NOTHING` where it was not for the host, which changes nothing: it is the program's to use.
#[unsafe(no_mangle)]
pub extern "C" fn xns_host_receive(
    alloc: Global,
    handle: &mut XnsHost,
    now: u64,
    via: u64,
    bytes: &[u8],
) -> u32
    ensures receives { Does (kept_of handle.old) (kept_of handle.new) result (λ k n. Receives k n now via bytes.now result) }
{
    let Some(mut kept) = handle.take(alloc) else {
        return NO_HOST;
    };
    let result = kept.receive(now, via, bytes);
    handle.put(kept);
    result
}

/// Tells the next event, once, its words to the front of a buffer.
///
/// `NO_HOST`; `NOTHING` where there is none; `SHORT_BUFFER` where it has more words than the buffer has room for: `count` is then their
/// number, all but the words is told, and the event stays.
#[unsafe(no_mangle)]
pub extern "C" fn xns_host_next_event(
    alloc: Global,
    handle: &mut XnsHost,
    event: &mut XnsEvent,
    words: &mut [u16],
    count: &mut usize,
) -> u32
    ensures fetches { Does (kept_of handle.old) (kept_of handle.new) result
        (λ k n. FetchesEvent k n event.old event.new words.old words.new count.old count.new result) }
    ensures none { kept_of handle.old ≡ None → (event.new ≡ event.old) × (words.new ≡ words.old) × (count.new ≡ count.old) }
{
    let Some(mut kept) = handle.take(alloc) else {
        return NO_HOST;
    };
    let result = kept.next_event(event, words, count);
    handle.put(kept);
    result
}

/// Puts the next packet that is to go out to the front of a buffer, and tells its `via`; also what is due at this time is done.
///
/// `NO_HOST`; `NO_MEMORY`, and what is to go out stays so; `NOTHING` where there is none; `SHORT_BUFFER` where it is longer than the
/// buffer: `written` is then its length, and the packet stays.
#[unsafe(no_mangle)]
pub extern "C" fn xns_host_next_packet(
    alloc: Global,
    handle: &mut XnsHost,
    now: u64,
    buffer: &mut [u8],
    written: &mut usize,
    via: &mut u64,
) -> u32
    ensures fetches { Does (kept_of handle.old) (kept_of handle.new) result
        (λ k n. FetchesPacket k n now buffer.old buffer.new written.old written.new via.old via.new result) }
    ensures none { kept_of handle.old ≡ None → (buffer.new ≡ buffer.old) × (written.new ≡ written.old) × (via.new ≡ via.old) }
{
    let Some(mut kept) = handle.take(alloc) else {
        return NO_HOST;
    };
    let result = kept.next_packet(now, buffer, written, via);
    handle.put(kept);
    result
}
