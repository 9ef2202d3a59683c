//! The sockets of a host: those at which connections are answered, and those from which it made some.

ghost use Rattle.std.specs.Prelude.{◌≡◌, ◌<◌, ◌≤◌, ℕ, length, true, false, IfOk, OnOk, OnErr, Some, None, Err, option_map, slice_set};
ghost use Rattle.std.specs.BTreeMap.{IsEmpty, btree_map_len};
ghost use Rattle.xns_host.specs.Refusing.{wrong_service};
ghost use Rattle.xns_host.specs.Services.{Serves, WantsMemory, has_called, most_services, programs_at, sockets};
ghost use Rattle.xns_host.specs.declared.host_fault.HostFault.{HostFault};
ghost use Rattle.xns_host.specs.declared.host_fault.HostFault.TheVariants.{NoMemory};

use crate::host_fault::HostFault;
use crate::refusing::{ECHO_SOCKET, lacks_version};
use courier_sessions::Program;
use std::alloc::{AllocError, Global};
use std::collections::BTreeMap;

/// How many sockets are served at most.
const MOST_SERVICES: usize = 16;

/// How many sockets there are.
const SOCKETS: usize = 65_536;

/// The sockets of a host: those at which connections are answered, each with its programs, at most 16; and those from which connections
/// were made.
#[derive(Drop)]
pub struct Services {
    programs: BTreeMap<u16, Vec<Program>>,
    /// By socket, whether a connection was made from it.
    callers: Vec<bool>,
    ghost few: { btree_map_len programs ≤ most_services },
    ghost room: { length callers.items ≡ sockets },
}

/// Of so many sockets none has called.
#[tactic(auto, using(crate::proofs::Serving::none_called))]
fn no_callers(alloc: Global, count: usize) -> Result<Vec<bool>, AllocError>
    ensures room { IfOk result (λ v. length v.items ≡ count) }
    ensures none { IfOk result (λ v. (socket : ℕ) → has_called v.items socket ≡ false) }
{
    let callers = vec![in alloc; false; count]?;
    Ok(callers)
}

/// A copy of programs. Memory is refused only where there is a program.
fn copied(alloc: Global, programs: &[Program]) -> Result<Vec<Program>, AllocError>
    ensures items { IfOk result (λ v. v.items ≡ programs.now) }
    ensures memory { OnErr result (0 < length programs.now) }
{
    let mut copy = Vec::with_capacity(alloc, programs.len())?;
    copy.extend_from_slice(programs)?;
    Ok(copy)
}

impl Services {
    /// No socket is served, and no connection was made. The only error is want of memory.
    pub fn new(alloc: Global) -> Result<Services, AllocError>
        ensures unserved { IfOk result (λ s. IsEmpty s.programs) }
        ensures uncalled { IfOk result (λ s. (socket : ℕ) → has_called s.callers.items socket ≡ false) }
    {
        Ok(Services {
            programs: BTreeMap::new(alloc),
            callers: no_callers(alloc, SOCKETS)?,
        })
    }

    /// Why these programs are not served at a socket. A `None`: they may be.
    fn wrong(&self, socket: u16, programs: &[Program]) -> Option<HostFault>
        ensures { result ≡ wrong_service self.now.programs socket programs.now }
    {
        if socket == ECHO_SOCKET {
            return Some(HostFault::EchoSocket);
        }
        if lacks_version(programs) {
            return Some(HostFault::NoVersion);
        }
        if self.programs.len() == MOST_SERVICES && !self.programs.contains_key(&socket) {
            return Some(HostFault::TooManyServices);
        }
        None
    }

    /// From now on connections to this socket are answered for these programs; where there are none, each call is handed. If the socket is
    /// served already, its list is replaced.
    ///
    /// An `Err`, which leaves all as it was, is [`HostFault::EchoSocket`] for socket 2, [`HostFault::NoVersion`] where the lowest version of
    /// a program is above its highest, [`HostFault::TooManyServices`] where 16 other sockets are served, and [`HostFault::NoMemory`] where
    /// memory is refused for a program, or for a socket that was not served.
    #[tactic(auto, using(crate::proofs::Serving::serves))]
    pub fn serve(
        &mut self,
        alloc: Global,
        socket: u16,
        programs: &[Program],
    ) -> Result<(), HostFault>
        ensures served { OnOk result (Serves self.old.programs self.new.programs socket programs.now) }
        ensures wrong { (f : HostFault) → wrong_service self.old.programs socket programs.now ≡ Some f → result ≡ Err f }
        ensures memory { OnErr result (wrong_service self.old.programs socket programs.now ≡ None
            → (result ≡ Err NoMemory) × WantsMemory self.old.programs socket programs.now) }
        ensures unchanged { OnErr result (self.new.programs.entries ≡ self.old.programs.entries) }
        ensures callers { self.new.callers ≡ self.old.callers }
    {
        if let Some(fault) = self.wrong(socket, programs) {
            return Err(fault);
        }
        let Ok(programs) = copied(alloc, programs) else {
            return Err(HostFault::NoMemory);
        };
        match self.programs.insert(socket, programs) {
            Ok(_) => Ok(()),
            Err(_) => Err(HostFault::NoMemory),
        }
    }

    /// The programs that are served at a socket. A `None`: none is.
    pub fn at(&self, socket: u16) -> Option<&Vec<Program>>
        ensures { option_map (λ v. v.now.items) result ≡ programs_at self.now.programs socket }
    {
        self.programs.get(&socket)
    }

    /// Notes that a connection was made from a socket.
    pub fn note_caller(&mut self, socket: u16)
        ensures callers { self.new.callers.items ≡ slice_set self.old.callers.items socket true }
        ensures programs { self.new.programs ≡ self.old.programs }
    {
        self.callers[usize::from(socket)] = true;
    }

    /// Whether a connection was made from a socket.
    pub fn has_called(&self, socket: u16) -> bool
        ensures { result ≡ has_called self.now.callers.items socket }
    {
        self.callers[usize::from(socket)]
    }
}
