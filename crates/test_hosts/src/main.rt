//! Hosts over a network in played time that loses, repeats, delays and corrupts packets, and hosts whose peers are odd.
//!
//! A line says the outcome of each play: how many answers were right and wrong, how many connections were closed as asked, by the peer
//! and else, both ends counted, how many packets went out, how many of them were items or openings that had gone out before, and how
//! long it took in played time.
//!
//! With the word `crowd` and a number only the thousand connections are played, for so many seconds. With the word `refused` only two hosts
//! are played that ask once more where memory is refused: a test runs them with each growth refused in turn. With `hosts` or `parts`, and a
//! number of connections and of calls, `bench/compare.py` times calls in memory.
#![tactic(auto)]

mod abandoned;
mod clocked;
mod manner;
mod meeting;
mod speed;
mod stubborn;

use abandoned::Abandoned;
use clocked::{Clocked, Shown};
use host_scenes::crowd::Crowd;
use host_scenes::play::Play;
use host_scenes::scene::Scene;
use host_scenes::{partings, waits};
use manner::Manner;
use meeting::Meeting;
use speed::Made;
use std::alloc::{AllocError, Global};
use std::env;
use stubborn::Stubborn;

/// How long the crowd is played, in seconds, where no word says it.
const SECONDS: u32 = 2;

fn main(rt: HostRuntime) -> Result<(), anyhow::Error> {
    let arguments: Vec<String> = env::args(&rt)?.skip(1).collect(rt.alloc())?;
    match word(&arguments, 0) {
        "crowd" => show_crowd(&rt, number(&arguments, 1)),
        "hosts" => speed::run(
            &rt,
            Made::Hosts,
            number(&arguments, 1),
            number(&arguments, 2),
        ),
        "parts" => speed::run(
            &rt,
            Made::ByHand,
            number(&arguments, 1),
            number(&arguments, 2),
        ),
        "refused" => show_stubborn(&rt),
        _ => show_all(&rt),
    }
}

/// The word in this place; an empty one where there is none.
fn word(words: &[String], place: usize) -> &str {
    match words.get(place) {
        Some(word) => word.as_str(),
        None => "",
    }
}

/// The number in this place; 0 where there is none.
fn number(words: &[String], place: usize) -> u32 {
    word(words, place).parse::<u32>().unwrap_or(0)
}

/// Plays all scenes of a network, and prints the outcome of each.
fn show_scenes(rt: &HostRuntime) -> Result<(), anyhow::Error> {
    for scene in Scene::ALL {
        show_play(rt, scene)?;
    }
    Ok(())
}

/// Plays all scenes that show waits, and prints the outcome of each.
fn show_waits(rt: &HostRuntime) -> Result<(), anyhow::Error> {
    for scene in &waits::ALL {
        show_play(rt, *scene)?;
    }
    Ok(())
}

/// Plays all scenes that close behind a call, and prints the outcome of each.
fn show_partings(rt: &HostRuntime) -> Result<(), anyhow::Error> {
    for scene in partings::ALL {
        show_play(rt, scene)?;
    }
    Ok(())
}

/// Runs all plays, and prints their outcomes.
fn show_all(rt: &HostRuntime) -> Result<(), anyhow::Error> {
    show_scenes(rt)?;
    show_waits(rt)?;
    show_partings(rt)?;
    for manner in Manner::ALL {
        show_meeting(rt, manner)?;
    }
    for shown in Shown::ALL {
        show_clock(rt, shown)?;
    }
    show_abandoned(rt)?;
    show_crowd(rt, SECONDS)?;
    show_stubborn(rt)?;
    speed::run(rt, Made::Hosts, 3, 20)?;
    speed::run(rt, Made::ByHand, 1, 20)
}

/// Prints the outcome of a play.
fn say(rt: &HostRuntime, name: &str, text: &str) -> Result<(), anyhow::Error> {
    println!(rt; "{name}: {text}")?;
    Ok(())
}

/// Plays a scene, and prints the outcome.
fn show_play(rt: &HostRuntime, scene: Scene) -> Result<(), anyhow::Error> {
    let mut text = String::new(rt.alloc());
    play_scene(rt.alloc(), scene, &mut text)?;
    say(rt, scene.name, text.as_str())
}

/// Plays a scene, and appends the outcome.
fn play_scene(alloc: Global, scene: Scene, text: &mut String) -> Result<(), anyhow::Error> {
    let mut play = Play::new(alloc, scene);
    play.run_and_tell(text)
}

/// Has a host meet an odd peer, and prints the outcome.
fn show_meeting(rt: &HostRuntime, manner: Manner) -> Result<(), anyhow::Error> {
    let mut text = String::new(rt.alloc());
    play_meeting(rt.alloc(), manner, &mut text)?;
    say(rt, manner.name(), text.as_str())
}

/// Has a host meet an odd peer, and appends the outcome.
fn play_meeting(alloc: Global, manner: Manner, text: &mut String) -> Result<(), anyhow::Error> {
    let mut meetings = room(alloc)?;
    meetings.push(Meeting::new(alloc, manner)?)?;
    for meeting in &mut meetings {
        meeting.run_and_tell(text)?;
    }
    Ok(())
}

/// Has a host call a peer that is not there, by such a clock, and prints the outcome.
fn show_clock(rt: &HostRuntime, shown: Shown) -> Result<(), anyhow::Error> {
    let mut text = String::new(rt.alloc());
    play_clock(rt.alloc(), shown, &mut text)?;
    say(rt, shown.name(), text.as_str())
}

/// Has a host call a peer that is not there, and appends the outcome.
fn play_clock(alloc: Global, shown: Shown, text: &mut String) -> Result<(), anyhow::Error> {
    let mut clocks = room(alloc)?;
    clocks.push(Clocked::new(alloc, shown)?)?;
    for clocked in &mut clocks {
        clocked.run_and_tell(text)?;
    }
    Ok(())
}

/// Has a host abandon a call, and prints the outcome.
fn show_abandoned(rt: &HostRuntime) -> Result<(), anyhow::Error> {
    let mut text = String::new(rt.alloc());
    play_abandoned(rt.alloc(), &mut text)?;
    say(rt, "a call that is abandoned", text.as_str())
}

/// Has a host abandon a call, and appends the outcome.
fn play_abandoned(alloc: Global, text: &mut String) -> Result<(), anyhow::Error> {
    let mut pairs = room(alloc)?;
    pairs.push(Abandoned::new(alloc)?)?;
    for hosts in &mut pairs {
        hosts.run_and_tell(text)?;
    }
    Ok(())
}

/// Plays a thousand connections for this many seconds, and prints the outcome.
fn show_crowd(rt: &HostRuntime, seconds: u32) -> Result<(), anyhow::Error> {
    let mut text = String::new(rt.alloc());
    play_crowd(rt.alloc(), seconds, &mut text)?;
    say(
        rt,
        "1,000 connections with a call every second, 1 in 100 lost",
        text.as_str(),
    )
}

/// Plays a thousand connections for this many seconds, and appends the outcome.
fn play_crowd(alloc: Global, seconds: u32, text: &mut String) -> Result<(), anyhow::Error> {
    let mut crowds = room(alloc)?;
    crowds.push(Crowd::new(alloc)?)?;
    for crowd in &mut crowds {
        crowd.run_and_tell(u64::from(seconds), text)?;
    }
    Ok(())
}

/// Has two hosts talk that ask once more where memory is refused, and prints whether all came as it should.
fn show_stubborn(rt: &HostRuntime) -> Result<(), anyhow::Error> {
    let what = if talk_stubbornly(rt.alloc())? {
        "done"
    } else {
        "broken"
    };
    say(rt, "a whole conversation", what)
}

/// Has two hosts talk that ask once more where memory is refused, and returns whether all came as it should.
fn talk_stubbornly(alloc: Global) -> Result<bool, anyhow::Error> {
    let mut pairs = room(alloc)?;
    pairs.push(Stubborn::new(alloc)?)?;
    let mut is_done = false;
    for hosts in &mut pairs {
        is_done = hosts.run_and_judge()?;
    }
    Ok(is_done)
}

/// Room for one value that has hosts, which is asked for once more where memory is refused. The value in it is dropped by one call.
fn room<T: Drop>(alloc: Global) -> Result<Vec<T>, AllocError> {
    match Vec::with_capacity(alloc, 1) {
        Err(_) => Vec::with_capacity(alloc, 1),
        room => room,
    }
}
