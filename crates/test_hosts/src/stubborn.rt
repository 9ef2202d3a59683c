use courier_messages::{PiecedMessage, Words};
use courier_sessions::Answer;
use host_scenes::player::SERVER;
use host_scenes::station::{LISTED, Station, both};
use std::alloc::{AllocError, Global};
use xns_host::{Event, HostFault, Settings, Why};

/// The words of a call: of some items, so that it does not fit in one packet.
const LONG: [u16; 1_000] = [7; 1_000];

/// The programs that are called, one after the other: the second is not listed.
const CALLED: [u32; 3] = [7, 8, 7];

/// How often both hosts talk at most.
const TURNS: usize = 200;

/// Two hosts that talk in memory. A function that is refused memory is called once more, and must have left all as it
/// was before.
#[derive(Drop)]
pub struct Stubborn {
    alloc: Global,
    client: Station,
    server: Station,
    now: u64,
    number: usize,
    /// How many calls were made.
    made: usize,
    /// Answers with the words of their call, and rejects of a program that is not listed.
    returned: usize,
    rejected: usize,
    /// How often something came that should not.
    wrong: usize,
    client_closed: Option<Why>,
    server_closed: Option<Why>,
}

/// A host, which is asked for once more where memory is refused.
fn host_at(alloc: Global, host: [u8; 6]) -> Result<Station, HostFault> {
    match Station::new(alloc, host, Settings::default(), [5; 32]) {
        Err(HostFault::NoMemory) => Station::new(alloc, host, Settings::default(), [5; 32]),
        made => made,
    }
}

/// Serves the program, once more where memory is refused.
fn serve(host: &mut Station) -> Result<(), HostFault> {
    match host.serve(SERVER.socket, &[LISTED]) {
        Err(HostFault::NoMemory) => host.serve(SERVER.socket, &[LISTED]),
        served => served,
    }
}

/// Connects to the server, once more where memory is refused.
fn connect(host: &mut Station) -> Result<usize, HostFault> {
    match host.connect(0, 1_024, SERVER) {
        Err(HostFault::NoMemory) => host.connect(0, 1_024, SERVER),
        number => number,
    }
}

/// Calls a program, once more where memory is refused.
fn call(host: &mut Station, now: u64, number: usize, program: u32) -> Result<(), HostFault> {
    match host.call(now, number, program, &LONG) {
        Err(HostFault::NoMemory) => host.call(now, number, program, &LONG),
        made => made,
    }
}

/// Answers a call, once more where memory is refused.
fn answer(host: &mut Station, now: u64, number: usize, words: &[u16]) -> Result<(), HostFault> {
    match host.answer(now, number, words) {
        Err(HostFault::NoMemory) => host.answer(now, number, words),
        given => given,
    }
}

/// The words of a message, which are asked for once more where memory is refused.
fn words_of(alloc: Global, message: &PiecedMessage) -> Result<Words, AllocError> {
    match message.words(alloc) {
        Err(_) => message.words(alloc),
        words => words,
    }
}

/// Carries the packets of one host to the other. A packet that is refused memory is asked for once more.
fn carry(now: u64, from: &mut Station, to: &mut Station) {
    for _ in 0..100 {
        match from.next_packet(now) {
            Ok(Some(out)) => {
                to.receive(now, out.via, out.packet.as_slice());
            }
            Ok(None) => return,
            Err(_) => {}
        }
    }
}

impl Stubborn {
    pub fn new(alloc: Global) -> Result<Stubborn, HostFault> {
        let client = host_at(alloc, [0, 0, 170, 0, 5, 0])?;
        let (client, server) = both(client, host_at(alloc, SERVER.host))?;
        Ok(Stubborn {
            alloc,
            client,
            server,
            now: 0,
            number: 0,
            made: 0,
            returned: 0,
            rejected: 0,
            wrong: 0,
            client_closed: None,
            server_closed: None,
        })
    }

    /// Serves the program, and connects to it.
    fn open(&mut self) -> Result<(), HostFault> {
        serve(&mut self.server)?;
        self.number = connect(&mut self.client)?;
        Ok(())
    }

    /// Makes the next call, or closes the connection.
    fn next(&mut self) -> Result<(), HostFault> {
        let Some(program) = CALLED.get(self.made) else {
            return self.client.close(self.now, self.number);
        };
        self.made = self.made.saturating_add(1);
        call(&mut self.client, self.now, self.number, *program)
    }

    /// Takes in the events of the server.
    fn serve_next(&mut self) -> Result<(), anyhow::Error> {
        match self.server.next_event() {
            Some(event) => self.serve_event(&event),
            None => Ok(()),
        }
    }

    fn serve_event(&mut self, event: &Event) -> Result<(), anyhow::Error> {
        match event {
            Event::Call {
                number,
                message,
                ..
            } => return self.answer(*number, message),
            Event::Opened { .. } | Event::Answer { .. } => {
                self.wrong = self.wrong.saturating_add(1);
            }
            Event::Closed { why, .. } => self.server_closed = Some(*why),
        }
        Ok(())
    }

    /// Answers a call by its own words.
    fn answer(&mut self, number: usize, message: &PiecedMessage) -> Result<(), anyhow::Error> {
        let words = words_of(self.alloc, message)?;
        Ok(answer(&mut self.server, self.now, number, words.as_slice())?)
    }

    /// Takes an answer.
    fn take(&mut self, answer: Answer, words: &[u16]) {
        match answer {
            Answer::Return if words == LONG.as_slice() => {
                self.returned = self.returned.saturating_add(1);
            }
            Answer::Reject { .. } => self.rejected = self.rejected.saturating_add(1),
            Answer::Return | Answer::Abort { .. } => self.wrong = self.wrong.saturating_add(1),
        }
    }

    /// Takes in the events of the client.
    fn hear_next(&mut self) -> Result<(), anyhow::Error> {
        match self.client.next_event() {
            Some(event) => self.hear_event(&event),
            None => Ok(()),
        }
    }

    fn hear_event(&mut self, event: &Event) -> Result<(), anyhow::Error> {
        match event {
            Event::Opened { .. } | Event::Call { .. } => {
                self.wrong = self.wrong.saturating_add(1);
            }
            Event::Answer {
                answer,
                message,
                ..
            } => return self.hear_answer(*answer, message),
            Event::Closed { why, .. } => self.client_closed = Some(*why),
        }
        Ok(())
    }

    /// Takes an answer, and makes the next call.
    fn hear_answer(
        &mut self,
        answer: Answer,
        message: &PiecedMessage,
    ) -> Result<(), anyhow::Error> {
        let words = words_of(self.alloc, message)?;
        self.take(answer, words.as_slice());
        Ok(self.next()?)
    }

    /// When something is to be done next. `None`: both are at rest.
    fn next_time(&self) -> Option<u64> {
        host_scenes::player::earlier(self.client.wake(), self.server.wake())
    }

    /// Lets both do what they can, and goes on to when they want to be asked again. Returns whether there is such a
    /// time.
    fn turn(&mut self) -> Result<bool, anyhow::Error> {
        carry(self.now, &mut self.client, &mut self.server);
        self.serve_next()?;
        carry(self.now, &mut self.server, &mut self.client);
        self.hear_next()?;
        let Some(at) = self.next_time() else {
            return Ok(false);
        };
        self.now = self.now.max(at);
        Ok(true)
    }

    /// Lets both hosts talk until both are at rest.
    fn run(&mut self) -> Result<(), anyhow::Error> {
        self.open()?;
        self.next()?;
        for _ in 0..TURNS {
            if !self.turn()? {
                break;
            }
        }
        Ok(())
    }

    /// Whether all came as it should: the connections are closed, and both hosts at rest.
    fn is_done(&self) -> bool {
        self.wrong == 0
            && self.returned == 2
            && self.rejected == 1
            && self.client_closed == Some(Why::Asked)
            && self.server_closed == Some(Why::ByPeer)
            && self.client.connections() == 0
            && self.server.connections() == 0
    }

    /// Runs the play to its end, and returns whether all came as it should.
    pub fn run_and_judge(&mut self) -> Result<bool, anyhow::Error> {
        self.run()?;
        Ok(self.is_done())
    }
}
