//! Who calls, and what is decided on a request before the register acts on it.
use crate::event::Event;
use crate::reply::Refusal;

/// Who calls, as the key tells.
#[derive(Clone, Copy, Debug, PartialEq, Eq)]
pub enum Caller {
    /// The transfer agent's own operator.
    Operator,
    /// The household of this number.
    Household(u32),
    /// The dealer of this number.
    Dealer(u32),
    /// The key is nobody's.
    Stranger,
}

/// What is decided on a request, but for the rule on what a correction breaks.
#[derive(Debug, Drop)]
pub enum Verdict {
    /// The request is new and breaks no rule: it brings this event.
    Fresh(Event),
    /// The request was answered before: the place of the event that it repeats, from 0.
    Again(u64),
    /// The request only looks.
    Query,
    /// The first rule that the request breaks.
    Refused(Refusal),
}
