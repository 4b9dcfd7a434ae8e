//! A pricing day with its moment.
use crate::Day;
use money_units::Moment;

/// A pricing day and the moment at which it is priced.
#[derive(Clone, Copy, Debug, PartialEq, Eq)]
pub struct PricingDay {
    pub day: Day,
    pub moment: Moment,
}
