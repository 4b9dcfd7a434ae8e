//! Pricing days of a fund: dates, calendars with zone rules, holidays and closures, and the dates on which loads
//! and letters come due.
#![tactic(auto)]

mod calendar;
mod day;
mod day_text;
mod instant;
pub mod laws;
mod look_up;
mod months;
mod pricing_day;
mod schedule;
pub mod worked;
mod zone;
mod zone_text;

pub use calendar::{Calendar, CalendarFault};
pub use day::Day;
pub use day_text::read_day;
pub use months::{add_months, anniversaries};
