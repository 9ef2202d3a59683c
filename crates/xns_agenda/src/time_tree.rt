//! A tree above the times of some of the connections.

ghost use Rattle.std.specs.Prelude.{◌≡◌, ◌≢◌, ◌≤◌, ◌<◌, ◌+◌, ◌*◌, ℕ, length, replicate, true, false, IfOk, Some, None, slice_get};
ghost use Rattle.std.specs.Prelude.{slice_index_or, slice_set};
ghost use Rattle.xns_agenda.specs.Times.{HasEarliest, HasNoneBy, IsEarliest, IsTree, IsTreeBut, node, sooner};

use std::alloc::{AllocError, Global};
use std::marker::Model;

/// A time in milliseconds, or none, for each number of a connection. The earliest is found without a walk over all.
///
/// Room for all is made once: a time is never refused. Beside the times stands a tree, in which each node has the sooner time of the
/// two below it.
#[derive(Drop)]
pub struct TimeTree {
    times: Vec<Option<u64>>,
    /// The nodes above the times: node `i` is above the nodes `2 * i` and `2 * i + 1`, of which those from the length on are the
    /// times. Node 0 is not used.
    tree: Vec<Option<u64>>,
}

impl Model for TimeTree {
    ghost use Rattle.std.specs.Prelude.{List, Option, ℕ};
    ghost use Rattle.xns_agenda.specs.Times.{IsTree};

    ghost Value = { List (Option ℕ) };

    ghost view = { λ t. t.times.items };

    ghost invariant = { λ t. IsTree t.tree.items t.times.items };
}

/// The sooner of two times.
pub fn sooner(first: Option<u64>, second: Option<u64>) -> Option<u64>
    ensures { result ≡ sooner first second }
{
    let Some(one) = first else {
        return second;
    };
    let Some(other) = second else {
        return first;
    };
    if one <= other { first } else { second }
}

/// The time at a node.
fn node(tree: &[Option<u64>], times: &[Option<u64>], at: usize) -> Option<u64>
    requires same { length tree.now ≡ length times.now }
    requires within { at < length tree.now + length times.now }
    ensures { result ≡ node tree.now times.now at }
{
    if at < tree.len() {
        tree[at]
    } else {
        times[at - tree.len()]
    }
}

/// Whether two times are the same.
#[inline(always)]
pub fn is_same(one: Option<u64>, other: Option<u64>) -> bool
    ensures { result ≡ true → one ≡ other }
{
    match other {
        Some(time) => is_at(one, time),
        None => one.is_none(),
    }
}

/// The time that a node above the times is to have.
fn right_time(tree: &[Option<u64>], times: &[Option<u64>], at: usize) -> Option<u64>
    requires same { length tree.now ≡ length times.now }
    requires within { at < length tree.now }
    ensures { result ≡ sooner (node tree.now times.now (2 * at)) (node tree.now times.now (2 * at + 1)) }
{
    sooner(node(tree, times, 2 * at), node(tree, times, 2 * at + 1))
}

/// Whether a node above the times has this time.
fn has_time(tree: &[Option<u64>], at: usize, time: Option<u64>) -> bool
    requires { at < length tree.now }
    ensures { result ≡ true → slice_index_or tree.now at None ≡ time }
{
    is_same(tree[at], time)
}

/// Mends the tree above a node whose time was changed, up to the first node that stays as it was.
#[tactic(auto, using(crate::proofs::Tree::whole))]
fn mend(tree: &mut [Option<u64>], times: &[Option<u64>], changed: usize)
    requires same { length tree.old ≡ length times.now }
    requires within { changed < length tree.old + length times.now }
    requires some { 1 ≤ changed }
    requires but { IsTreeBut tree.old times.now changed }
    ensures { IsTree tree.new times.now }
{
    let mut at = changed;
    while at > 1 {
        at /= 2;
        let time = right_time(tree, times, at);
        if has_time(tree, at, time) {
            return;
        }
        tree[at] = time;
    }
}

/// Whether a time is there, and is this one.
#[inline(always)]
fn is_at(found: Option<u64>, time: u64) -> bool
    ensures same { result ≡ true → found ≡ Some time }
    ensures other { result ≡ false → found ≢ Some time }
{
    match found {
        Some(other) => other == time,
        None => false,
    }
}

/// The node below this one that has its time.
#[tactic(auto, using(crate::proofs::Tree::one_below))]
fn child(tree: &[Option<u64>], times: &[Option<u64>], at: usize, time: u64) -> usize
    requires tree { IsTree tree.now times.now }
    requires time { node tree.now times.now at ≡ Some time }
    requires some { 1 ≤ at }
    requires within { at < length tree.now }
    ensures time { node tree.now times.now result ≡ Some time }
    ensures below { 2 * at ≤ result }
    ensures within { result ≤ 2 * at + 1 }
{
    if is_at(node(tree, times, 2 * at), time) {
        2 * at
    } else {
        2 * at + 1
    }
}

/// The number of the earliest time.
fn descend(tree: &[Option<u64>], times: &[Option<u64>], time: u64) -> usize
    requires tree { IsTree tree.now times.now }
    requires time { node tree.now times.now 1 ≡ Some time }
    requires some { 1 ≤ length times.now }
    ensures { slice_get times.now result ≡ Some (Some time) }
{
    let mut at = 1;
    while at < tree.len() {
        at = child(tree, times, at, time);
    }
    at - tree.len()
}

/// The earliest time.
#[tactic(auto, using(crate::proofs::Tree::root, crate::proofs::Tree::nothing))]
fn earliest(tree: &[Option<u64>], times: &[Option<u64>]) -> Option<u64>
    requires tree { IsTree tree.now times.now }
    ensures earliest { HasEarliest times.now result }
    ensures root { (t : ℕ) → result ≡ Some t → node tree.now times.now 1 ≡ Some t }
    ensures some { (t : ℕ) → result ≡ Some t → 1 ≤ length times.now }
{
    if times.is_empty() {
        return None;
    }
    node(tree, times, 1)
}

/// A number that has the earliest time, and that time.
fn first_of(tree: &[Option<u64>], times: &[Option<u64>]) -> Option<(usize, u64)>
    requires tree { IsTree tree.now times.now }
    ensures some { (k t : ℕ) → result ≡ Some (k, t) → IsEarliest times.now k t }
    ensures none { result ≡ None → HasEarliest times.now None }
{
    let time = earliest(tree, times)?;
    Some((descend(tree, times, time), time))
}

/// A number that has the earliest time, and that time, if it is at or before this one.
#[tactic(auto, using(crate::proofs::Tree::none_at_all, crate::proofs::Tree::none_soon))]
fn first_of_by(tree: &[Option<u64>], times: &[Option<u64>], now: u64) -> Option<(usize, u64)>
    requires tree { IsTree tree.now times.now }
    ensures some { (k t : ℕ) → result ≡ Some (k, t) → IsEarliest times.now k t }
    ensures by { (k t : ℕ) → result ≡ Some (k, t) → t ≤ now }
    ensures none { result ≡ None → HasNoneBy times.now now }
{
    let time = earliest(tree, times)?;
    if time <= now {
        Some((descend(tree, times, time), time))
    } else {
        None
    }
}

impl TimeTree {
    /// A tree of no times, for `most` numbers.
    #[tactic(auto, using(crate::proofs::Tree::empty))]
    pub fn new(alloc: Global, most: usize) -> Result<TimeTree, AllocError>
        ensures { IfOk result (λ t. t ≡ replicate most None) }
    {
        let times = vec![in alloc; None; most]?;
        let tree = vec![in alloc; None; most]?;
        Ok(TimeTree { times, tree })
    }

    /// The time of a number, or none.
    pub fn get(&self, number: usize) -> Option<u64>
        requires { number < length self.now }
        ensures { slice_get self.now number ≡ Some result }
    {
        self.times[number]
    }

    /// Sets the time of a number, or takes it away.
    #[tactic(auto, using(crate::proofs::Tree::changed_leaf, crate::proofs::Tree::same_leaf))]
    pub fn set(&mut self, number: usize, time: Option<u64>)
        requires { number < length self.old }
        ensures { self.new ≡ slice_set self.old number time }
    {
        if is_same(self.times[number], time) {
            return;
        }
        self.times[number] = time;
        let changed = self.tree.len() + number;
        mend(self.tree.as_mut_slice(), self.times.as_slice(), changed);
    }

    /// A number that has the earliest time, and that time. A `None`: no number has one.
    pub fn first(&self) -> Option<(usize, u64)>
        ensures some { (k t : ℕ) → result ≡ Some (k, t) → IsEarliest self.now k t }
        ensures none { result ≡ None → HasEarliest self.now None }
    {
        first_of(self.tree.as_slice(), self.times.as_slice())
    }

    /// A number that has the earliest time, and that time, if it is at or before this one.
    pub fn first_by(&self, now: u64) -> Option<(usize, u64)>
        ensures some { (k t : ℕ) → result ≡ Some (k, t) → IsEarliest self.now k t }
        ensures by { (k t : ℕ) → result ≡ Some (k, t) → t ≤ now }
        ensures none { result ≡ None → HasNoneBy self.now now }
    {
        first_of_by(self.tree.as_slice(), self.times.as_slice(), now)
    }
}
