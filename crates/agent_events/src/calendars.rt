//! The calendar that a form asks for, with its pricing days.
ghost use Rattle.std.specs.Prelude.{◌≡◌, IfErr, IfOk, Ok};
ghost use Rattle.fund_calendar.specs.Refusals.{RefusedAs};
ghost use Rattle.agent_events.specs.Calendars.{calendar_checked};

use crate::request::CalendarForm;
use fund_calendar::{Calendar, CalendarFault};
use std::alloc::Global;

impl CalendarForm {
    /// The calendar of this form, with its pricing days. The zone is tried first, then the dates, then the moments.
    pub fn listed(&self, alloc: Global) -> Result<Calendar, CalendarFault>
        ensures made { IfOk result (λ calendar. Ok calendar ≡ calendar_checked self.now) }
        ensures refused { IfErr result (λ fault. RefusedAs fault (calendar_checked self.now)) }
    {
        Calendar::new(
            alloc,
            self.calendar.number(),
            self.zone.as_str(),
            self.minute.minutes(),
            self.first,
            self.last,
            self.holidays.as_slice(),
        )
    }
}
