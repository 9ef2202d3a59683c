//! A new connection.

ghost use Rattle.std.specs.Prelude.{◌≡◌, ◌<◌, true, false, IfOk, Some, None};
ghost use Rattle.xns_spp.specs.State.{initiator_state, responder_state};
ghost use Rattle.xns_connection.specs.Moving.{HasHistory};
ghost use Rattle.xns_connection.specs.Story.{is_stopped, new_story};
ghost use Rattle.xns_connection.specs.Telling.{Tells};

use crate::connection::Connection;
use crate::conversation::Conversation;
use crate::owed::Owed;
use crate::settling::wait_on;
use crate::side::Side;
use crate::terms::Terms;
use courier_sessions::{Program, WordCaller, WordServer};
use std::alloc::{AllocError, Global};
use xns_agenda::{Pace, Wait};
use xns_idp::Address;
use xns_spp::Endpoint;

impl Connection {
    ghost use Rattle.xns_connection.specs.Step.{IsMade};
    ghost use Rattle.xns_connection.specs.declared.closing.TheConstants.Closing.{NONE};

    /// A connection with this endpoint and this side, in which nothing was said.
    fn new(
        alloc: Global,
        endpoint: Endpoint,
        side: Side,
        pace: Pace,
        again: bool,
        now: u64,
    ) -> Connection
        requires { HasHistory endpoint × (is_stopped side ≡ false) }
        ensures ends { (result.conversation.endpoint ≡ endpoint) × (result.conversation.side ≡ side) }
        ensures unsaid { result.conversation.closing ≡ NONE }
        ensures made { IsMade pace now again result }
    {
        let conversation = Conversation::new(alloc, endpoint, side);
        let mut wait = Wait::new(pace, now);
        wait_on(&conversation, &mut wait, now);
        Connection {
            conversation,
            wait,
            owed: Owed {
                again,
                ..Owed::NONE
            },
            closed: None,
            told: false,
        }
    }

    /// A connection whose side calls. Its first packet opens it.
    pub fn calling(
        alloc: Global,
        terms: &Terms,
        own: Address,
        id: u16,
        peer: Address,
        now: u64,
    ) -> Result<Connection, AllocError>
        requires id { 0 < id }
        ensures tells { IfOk result (λ t. Tells t.conversation
            (new_story None (initiator_state own id peer terms.now.window terms.now.backlog))) }
        ensures made { IfOk result (IsMade terms.now.pace now true) }
    {
        courier_sessions::laws::a_session_is_its_conversation();
        let endpoint = Endpoint::initiator(alloc, own, id, peer, terms.window, terms.backlog)?;
        let caller = WordCaller::new(alloc)?;
        Ok(Connection::new(alloc, endpoint, Side::Calls(caller), terms.pace, true, now))
    }

    /// A connection that a peer opened, whose side is called. The packet that opened it is to be taken in next.
    pub fn answering(
        alloc: Global,
        terms: &Terms,
        own: Address,
        id: u16,
        peer: Address,
        peer_id: u16,
        programs: Vec<Program>,
        now: u64,
    ) -> Result<Connection, AllocError>
        requires id { 0 < id }
        requires peer_id { 0 < peer_id }
        ensures tells { IfOk result (λ t. Tells t.conversation
            (new_story (Some programs.items)
            (responder_state own id peer peer_id terms.now.window terms.now.backlog))) }
        ensures made { IfOk result (IsMade terms.now.pace now false) }
    {
        courier_sessions::laws::a_server_session_is_its_conversation();
        let endpoint = Endpoint::responder(
            alloc,
            own,
            id,
            peer,
            peer_id,
            terms.window,
            terms.backlog,
        )?;
        let server = WordServer::new(alloc, programs)?;
        Ok(Connection::new(
            alloc,
            endpoint,
            Side::Answers(server),
            terms.pace,
            false,
            now,
        ))
    }
}
