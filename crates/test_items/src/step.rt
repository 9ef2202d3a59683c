use item_world::{Event, Side};
use std::alloc::{AllocError, Global};
use std::fmt::Write;
use test_setting::numbered;
use xns_spp::Bytes;

/// What may happen; an item is known by its number.
#[derive(Clone, Copy)]
pub enum Step {
    Deliver(usize),
    Rest,
    Tick(Side),
    Send(Side, u32),
    Take(Side),
    Foreign(Side, &'static [u8]),
}

impl Step {
    /// The event of a play that the step stands for.
    pub fn event(self, alloc: Global) -> Result<Event, AllocError> {
        Ok(match self {
            Step::Deliver(number) => Event::Deliver(number),
            Step::Rest => Event::Rest,
            Step::Tick(side) => Event::Tick(side),
            Step::Send(side, number) => Event::Send(side, numbered(alloc, number)?),
            Step::Take(side) => Event::Take(side),
            Step::Foreign(side, bytes) => Event::Foreign(side, Bytes::new(bytes.to_vec(alloc)?)),
        })
    }

    /// The step as text; the text does not say which bytes from elsewhere come.
    pub fn put(self, text: &mut String) -> Result<(), AllocError> {
        match self {
            Step::Deliver(number) => write!(text, "Deliver({number})"),
            Step::Rest => text.push_str("Rest"),
            Step::Tick(side) => put_call(text, "Tick", side),
            Step::Send(side, number) => write!(text, "Send({}, {number})", name(side)),
            Step::Take(side) => put_call(text, "Take", side),
            Step::Foreign(side, _) => put_call(text, "Foreign", side),
        }
    }
}

fn name(side: Side) -> &'static str {
    match side {
        Side::A => "A",
        Side::B => "B",
    }
}

fn put_call(text: &mut String, what: &str, side: Side) -> Result<(), AllocError> {
    write!(text, "{what}({})", name(side))
}
