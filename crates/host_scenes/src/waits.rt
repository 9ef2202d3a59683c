//! Plays that show how long hosts wait for packets that are lost or late, by a fixed network whose packets take as long each way as the
//! scene says.

use crate::phase::Phase;
use crate::scene::Scene;

/// The end of a phase that lasts for good.
const FOR_GOOD: u64 = u64::MAX;

/// A client that makes ten calls of 130,000 bytes, a millisecond away.
const LONG: Scene = Scene {
    name: "10 calls of 130,000 bytes, 1 ms away",
    clients: 1,
    calls: 10,
    least_words: 65_000,
    most_words: 65_000,
    delay: 0,
    ..Scene::CALM
};

/// The client of `LONG`, with more room at both ends.
const ROOMY: Scene = Scene {
    name: "the same, windows and backlogs of 64",
    window: 64,
    backlog: 64,
    ..LONG
};

/// A client that makes a thousand short calls, a millisecond away.
const SHORT: Scene = Scene {
    name: "1,000 short calls, 1 ms away",
    clients: 1,
    calls: 1_000,
    delay: 0,
    ..Scene::CALM
};

/// The client of `SHORT`, while one packet in ten has each harm.
const HARMED: Scene = Scene {
    name: "the same, 1 in 10 lost, repeated, corrupted and late",
    lost: 10,
    repeated: 10,
    corrupted: 10,
    late: 10,
    ..SHORT
};

/// From a tenth of a second on packets take a quarter of a second.
const FAR: Phase = Phase {
    from: 100,
    until: FOR_GOOD,
    distance: Some(250),
};

pub const ALL: [Scene; 19] = [
    LONG,
    Scene {
        name: "the same, 1 in 10 lost",
        lost: 10,
        ..LONG
    },
    ROOMY,
    Scene {
        name: "the same, 1 in 10 lost",
        lost: 10,
        ..ROOMY
    },
    Scene {
        name: "the same, 3 in 10 lost",
        lost: 30,
        ..ROOMY
    },
    Scene {
        name: "the same, 25 ms away, 1 in 100 lost",
        distance: 25,
        lost: 1,
        ..ROOMY
    },
    Scene {
        name: "the same, up to 500 ms away, 1 in 100 lost",
        delay: 500,
        lost: 1,
        ..ROOMY
    },
    SHORT,
    Scene {
        name: "the same, 1 in 10 lost",
        lost: 10,
        ..SHORT
    },
    HARMED,
    Scene {
        name: "50 clients of 20 such calls",
        clients: 50,
        calls: 20,
        ..HARMED
    },
    Scene {
        name: "200 short calls, 1 ms away, and 250 ms from 0.1 s on",
        calls: 200,
        phase: FAR,
        ..SHORT
    },
    Scene {
        name: "the same, and 100 ms",
        calls: 200,
        phase: Phase {
            distance: Some(100),
            ..FAR
        },
        ..SHORT
    },
    Scene {
        name: "10 calls of 130,000 bytes, 1 ms away, and 250 ms for a second",
        phase: Phase {
            until: 1_100,
            ..FAR
        },
        ..ROOMY
    },
    Scene {
        name: "200 short calls, up to 250 ms away, 3 in 10 lost",
        calls: 200,
        delay: 250,
        lost: 30,
        ..SHORT
    },
    Scene {
        name: "answers after a minute, 1 in 10 lost",
        calls: 5,
        thinking: 60_000,
        lost: 10,
        ..SHORT
    },
    Scene {
        name: "300 short calls, and nothing arrives for 25 s",
        calls: 300,
        delay: 20,
        phase: Phase {
            from: 1_000,
            until: 26_000,
            distance: None,
        },
        ..SHORT
    },
    Scene {
        name: "1,000 short calls, and nothing arrives from 0.1 s on",
        phase: Phase {
            distance: None,
            ..FAR
        },
        ..SHORT
    },
    Scene {
        name: "a call that came, and nothing arrives then; idle peers are never asked",
        calls: 1,
        thinking: 60_000,
        idle: 0,
        phase: Phase {
            distance: None,
            ..FAR
        },
        ..SHORT
    },
];
