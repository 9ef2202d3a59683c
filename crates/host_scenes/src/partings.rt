//! Scenes in which a client closes right behind its last call.

use crate::parting::Parting;
use crate::scene::Scene;

/// One call of each client, which is answered after a minute.
const LATE: Scene = Scene {
    name: "a call that is answered after a minute, and a close right behind it",
    clients: 2,
    calls: 1,
    thinking: 60_000,
    parting: Parting::Called,
    ..Scene::CALM
};

/// All scenes of partings.
pub const ALL: [Scene; 6] = [
    LATE,
    Scene {
        name: "the same, 1 in 3 lost, 1 in 20 repeated and corrupted",
        lost: 33,
        repeated: 5,
        corrupted: 5,
        ..LATE
    },
    Scene {
        name: "the same, of 5,000 words, window 1",
        window: 1,
        least_words: 5_000,
        most_words: 5_000,
        lost: 10,
        ..LATE
    },
    Scene {
        name: "the same, and the server closes when the call comes",
        parting: Parting::Both,
        ..LATE
    },
    Scene {
        name: "the same, 1 in 3 lost, 1 in 20 repeated and corrupted",
        parting: Parting::Both,
        lost: 33,
        repeated: 5,
        corrupted: 5,
        ..LATE
    },
    Scene {
        name: "a call that is never answered, and a close right behind it",
        thinking: 1_000_000,
        ..LATE
    },
];
