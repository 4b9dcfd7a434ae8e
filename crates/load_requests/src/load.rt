//! How large a load is, and what it sends.
use agent_events::Request;
use money_units::Moment;

/// A load: the number from which its draws begin, how many households it has, and over how many
/// days it goes.
#[derive(Clone, Copy, Debug, PartialEq, Eq)]
pub struct Load {
    pub number: u32,
    pub households: u32,
    pub days: u32,
}

/// A request of the operator with its moment.
#[derive(Debug, Drop)]
pub struct Sent {
    pub moment: Moment,
    pub request: Request,
}
