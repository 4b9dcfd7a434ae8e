//! Counting the calls of one kind, and failing those that are listed.
ghost use Rattle.std.specs.Prelude.{◌≡◌, ◌≤◌, ◌↔◌, IsTrue, IfOk};
ghost use Rattle.agent_edge.specs.CallCounts.{IsListed, after_call, calls_of, one_failed};

use money_units::NoMemory;
use std::alloc::Global;
use std::marker::Model;

/// The calls of one kind: the numbers, from 1, of those that are to fail, how many were made, and how many failed.
#[derive(Drop)]
pub(crate) struct Calls {
    fails: Vec<u64>,
    made: u64,
    failed: u64,
}

impl Model for Calls {
    ghost use Rattle.agent_edge.specs.CallCounts.{CallsState};

    ghost Value = { CallsState };

    ghost view = { λ s. record { fails = s.fails.items; made = s.made; failed = s.failed } };
}

impl Calls {
    /// No call was made yet.
    pub(crate) fn new(alloc: Global, fails: &[u64]) -> Result<Calls, NoMemory>
        ensures { IfOk result (λ calls. calls ≡ calls_of fails.now) }
    {
        Ok(Calls {
            fails: fails.to_vec(alloc)?,
            made: 0,
            failed: 0,
        })
    }

    /// Counts one more call, and answers whether it is listed.
    pub(crate) fn next_is_listed(&mut self) -> bool
        ensures listed { IsTrue result ↔ IsListed self.old }
        ensures after { self.new ≡ after_call self.old }
    {
        self.made = self.made.saturating_add(1);
        self.fails.contains(&self.made)
    }

    /// Counts one more call that failed.
    pub(crate) fn count_fault(&mut self)
        ensures after { self.new ≡ one_failed self.old }
        ensures never_falls { self.old.failed ≤ self.new.failed }
    {
        self.failed = self.failed.saturating_add(1);
    }

    /// How many calls have failed.
    pub(crate) fn failed(&self) -> u64
        ensures { result ≡ self.now.failed }
    {
        self.failed
    }
}
