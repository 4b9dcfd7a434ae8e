//! How far a load has come.
use money_units::Moment;

/// Which request is next; households and accounts are told by their number, from 1.
#[derive(Clone, Copy, Debug, PartialEq, Eq)]
pub enum Stage {
    Calendar,
    /// The class with a front-end load.
    FrontClass,
    /// The class with deferred loads.
    DeferredClass,
    Household(u32),
    Account(u32),
    /// The order of this household on the day.
    Order(u32),
    Sheet,
    Correction,
    End,
}

/// The next request, by its stage and its day, which is 0 before the first one.
#[derive(Clone, Copy, Debug, PartialEq, Eq)]
pub struct Progress {
    pub stage: Stage,
    pub day: u32,
    /// The pricing moment of the day.
    pub pricing: Moment,
    /// That of five days before, whose sheet is corrected on every tenth day.
    pub corrected: Moment,
    /// The state after the last draw.
    pub drawn: u64,
}
