use crate::parting::Parting;
use crate::phase::Phase;
use crate::restart::Restart;

/// A scene: clients that each make calls, one after the other, to one server.
#[derive(Clone, Copy)]
pub struct Scene {
    pub name: &'static str,
    pub clients: usize,
    /// How many calls each client makes.
    pub calls: usize,
    pub window: usize,
    pub backlog: usize,
    /// How long a peer is silent before it is asked, in milliseconds; 0: it is never asked.
    pub idle: u32,
    /// How many words a call has at least and at most.
    pub least_words: usize,
    pub most_words: usize,
    /// Of 100 packets, how many are lost, repeated and corrupted.
    pub lost: u64,
    pub repeated: u64,
    pub corrupted: u64,
    /// How long a packet takes at least, in milliseconds, and how much longer it may take: less than the second number.
    pub distance: u64,
    pub delay: u64,
    /// Of 100 packets, how many take up to 100 milliseconds more.
    pub late: u64,
    /// When the network is another one.
    pub phase: Phase,
    /// What the network's choices begin with.
    pub seed: u64,
    /// How long the server's program takes for an answer, in milliseconds.
    pub thinking: u64,
    /// How many strangers open a connection and say no more.
    pub strangers: usize,
    pub restart: Restart,
    pub parting: Parting,
}

impl Scene {
    pub const CALM: Scene = Scene {
        name: "5 clients of 40 calls, nothing lost",
        clients: 5,
        calls: 40,
        window: 8,
        backlog: 16,
        idle: 10_000,
        least_words: 0,
        most_words: 20,
        lost: 0,
        repeated: 0,
        corrupted: 0,
        distance: 1,
        delay: 40,
        late: 0,
        phase: Phase::NEVER,
        seed: 1,
        thinking: 0,
        strangers: 0,
        restart: Restart::Never,
        parting: Parting::Answered,
    };

    const ROUGH: Scene = Scene {
        name: "5 clients of 40 calls, 1 in 10 lost, 1 in 20 repeated and corrupted",
        lost: 10,
        repeated: 5,
        corrupted: 5,
        delay: 500,
        ..Scene::CALM
    };

    pub const ALL: [Scene; 14] = [
        Scene::CALM,
        Scene {
            name: "the same, window 1",
            window: 1,
            ..Scene::CALM
        },
        Scene::ROUGH,
        Scene {
            name: "the same, 1 in 3 lost",
            lost: 33,
            ..Scene::ROUGH
        },
        Scene {
            name: "the same, window 1",
            window: 1,
            ..Scene::ROUGH
        },
        Scene {
            name: "50 clients of 10 calls",
            clients: 50,
            calls: 10,
            ..Scene::ROUGH
        },
        Scene {
            name: "2 clients of 5 calls of up to 5,000 words",
            clients: 2,
            calls: 5,
            most_words: 5_000,
            ..Scene::ROUGH
        },
        Scene {
            name: "answers after a minute",
            clients: 2,
            calls: 3,
            thinking: 60_000,
            ..Scene::ROUGH
        },
        Scene {
            name: "2 clients of 3 calls of up to 5,000 words, window 1",
            clients: 2,
            calls: 3,
            window: 1,
            most_words: 5_000,
            ..Scene::ROUGH
        },
        Scene {
            name: "10 clients of 40 calls, and 10,000 strangers that open a connection meanwhile",
            clients: 10,
            strangers: 10_000,
            ..Scene::ROUGH
        },
        Scene {
            name: "a client that is started anew with another identifier",
            clients: 1,
            restart: Restart::OtherIdentifier,
            ..Scene::CALM
        },
        Scene {
            name: "a client that is started anew with the same identifier",
            clients: 1,
            restart: Restart::SameIdentifier,
            ..Scene::CALM
        },
        Scene {
            name: "5 clients of 40 calls, 1 or 2 ms away, 1 in 10 lost, 1 in 20 repeated and corrupted",
            delay: 2,
            ..Scene::ROUGH
        },
        Scene {
            name: "the same, 1 in 3 lost",
            delay: 2,
            lost: 33,
            ..Scene::ROUGH
        },
    ];
}
