//! The requests of a load, one at a time.
ghost use Rattle.std.specs.Prelude.{◌≡◌, ◌≤◌, IfOk, OnOk, OnErr, drop, slice_get};
ghost use Rattle.load_requests.specs.Requests.{requests_of};

use crate::load::{Load, Sent};
use crate::opening::listing;
use crate::presenting::present;
use crate::progress::Progress;
use crate::steps::{first_progress, following};
use fund_calendar::Calendar;
use money_units::NoMemory;
use std::alloc::Global;
use std::marker::Model;

/// The requests of a load that are still to come, which contracts see as the list of them. No more
/// than one is in memory.
#[derive(Drop)]
pub struct LoadRequests {
    load: Load,
    calendar: Calendar,
    progress: Progress,
}

impl Model for LoadRequests {
    ghost use Rattle.std.specs.Prelude.{List};
    ghost use Rattle.load_requests.specs.ToCome.{IsUnderWay, to_come};
    ghost use Rattle.load_requests.specs.declared.load.Sent.{Sent};

    ghost Value = { List Sent };

    ghost view = { λ requests. to_come requests.load requests.progress };

    ghost invariant = { λ requests. IsUnderWay requests.load requests.calendar requests.progress };
}

impl LoadRequests {
    /// All requests of a load of 1 to 1,000 households over at most 2,000 days, whose draws begin
    /// from a number.
    pub fn new(
        alloc: Global,
        number: u32,
        households: u32,
        days: u32,
    ) -> Result<LoadRequests, NoMemory>
        requires some { 1 ≤ households }
        requires few { households ≤ 1000 }
        requires short { days ≤ 2000 }
        ensures { IfOk result (λ requests. requests ≡ requests_of (record {
          number = number;
          households = households;
          days = days;
        })) }
    {
        let load = Load {
            number,
            households,
            days,
        };
        let calendar = listing(alloc)?;
        let progress = first_progress(&load);
        Ok(LoadRequests {
            load,
            calendar,
            progress,
        })
    }

    /// The next request, or `None` exactly where none is to come. After `NoMemory` it is still to
    /// come.
    #[tactic(auto, using(crate::proofs::StageFacts::next_is, crate::proofs::StageFacts::rest_is))]
    pub fn next(&mut self, alloc: Global) -> Result<Option<Sent>, NoMemory>
        ensures next { IfOk result (λ sent. sent ≡ slice_get self.old 0) }
        ensures rest { OnOk result (self.new ≡ drop 1 self.old) }
        ensures unchanged { OnErr result (self.new ≡ self.old) }
    {
        let sent = present(alloc, &self.load, &self.progress)?;
        self.progress = following(&self.load, &self.calendar, &self.progress);
        Ok(sent)
    }
}
