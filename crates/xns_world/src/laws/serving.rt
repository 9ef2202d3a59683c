//! Laws of a server's end that is given whatever packets, as contracts of functions that do nothing.

ghost use Rattle.xns_world.specs.ServePromises.{ServedEndsSettle, ServedEndsStayWithinBounds};

use crate::laws::calls::server_laws_are_given;
use courier_calls::Service;
use courier_calls::laws::{
    an_item_brings_at_most_one_answer, answers_are_short, service_stays_in_its_states,
};
use courier_messages::laws::what_is_kept_is_bounded;
use xns_spp::laws::bounds_hold_after_each_step;

/// However its peer behaves, a server's end that settles comes to where no step applies.
pub fn served_ends_settle<S: Service>()
    ensures { ServedEndsSettle S.serving S.IsServiceState }
{
    server_laws_are_given::<S>();
}

/// Whatever packets have come, a server's end, the bytes that its session keeps and the items that are out are within their bounds.
/// Each step by which the end settles leaves the end and those items within them.
pub fn served_ends_stay_within_bounds<S: Service>()
    ensures { ServedEndsStayWithinBounds S.serving S.IsServiceState }
{
    server_laws_are_given::<S>();
    bounds_hold_after_each_step();
    what_is_kept_is_bounded();
    answers_are_short::<S>();
    an_item_brings_at_most_one_answer::<S>();
    service_stays_in_its_states::<S>();
}
