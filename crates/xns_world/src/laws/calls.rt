//! The headline for calls, as the contract of a function that does nothing.

ghost use Rattle.xns_world.specs.CallLaws.{LawsAreGiven, ServerLawsAreGiven};
ghost use Rattle.courier_calls.specs.Calls.{SeenModel};
ghost use Rattle.courier_messages.specs.RawCalls.{RawCall};
ghost use Rattle.xns_world.specs.CallPromises.{CallsComeInOrder, EachStepIsAnEntry, EntriesKeepTheOrder};
ghost use Rattle.xns_world.specs.CallProgress.{NoPlayIsStuck};

use courier_calls::Service;
use courier_calls::laws::{
    all_is_answered, an_item_brings_at_most_one_answer, both_sides_agree, first_fault_stays,
    session_items_can_be_sent, what_is_heard_stays,
};
use item_world::laws::{
    each_step_keeps_the_order, end_laws_are_given, foreign_bytes_change_nothing,
    network_laws_are_given, no_world_is_stuck,
};

/// In every history of a ledger the calls that are carried out begin those that are made, the state and the outcomes are those of the
/// calls carried out, one after another, and the outcomes that are seen begin those that are answered.
pub fn entries_keep_the_order<S: Service>()
    ensures { EntriesKeepTheOrder S RawCall SeenModel }
{}

/// Whatever small steps are taken, in whatever order, each is one entry of the ledger: nothing, a call that is made, the next call that is
/// carried out, or the next outcome that is seen.
pub fn each_step_is_an_entry<S: Service>()
    ensures { EachStepIsAnEntry S.serving S.IsServiceState }
{
    laws_are_given::<S>();
}

/// Over every list of deliveries, losses, repeats and reorderings each call is carried out at most once and in order, and the k-th outcome
/// that the caller sees is the server's to its k-th call; neither session ever meets a fault; and a side that settles always comes to
/// where no step applies.
pub fn calls_come_in_order<S: Service>()
    ensures { CallsComeInOrder S.serving S.IsServiceState }
{
    laws_are_given::<S>();
}

/// From every state that a play can be in, some ticks, packets sent from then on, and steps of the sides carry out all calls.
pub fn no_play_is_stuck<S: Service>()
    ensures { NoPlayIsStuck S.serving S.IsServiceState }
{
    laws_are_given::<S>();
    no_world_is_stuck();
    all_is_answered::<S>();
}

/// The laws of an end, of the network and of the sessions that the play's proofs stand on.
pub(crate) fn laws_are_given<S: Service>()
    ensures { LawsAreGiven S.serving S.IsServiceState }
{
    each_step_keeps_the_order();
    foreign_bytes_change_nothing();
    what_is_heard_stays::<S>();
    both_sides_agree::<S>();
    an_item_brings_at_most_one_answer::<S>();
    session_items_can_be_sent::<S>();
    server_laws_are_given::<S>();
}

/// The laws of an end, of the network and of a server's session.
pub(crate) fn server_laws_are_given<S: Service>()
    ensures { ServerLawsAreGiven S.serving S.IsServiceState }
{
    end_laws_are_given();
    network_laws_are_given();
    session_items_can_be_sent::<S>();
    first_fault_stays();
}
