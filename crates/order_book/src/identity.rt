//! What is said once and not again.
ghost use Rattle.std.specs.Hash as fed;
ghost use Rattle.std.specs.Cmp.Rules.{hashing};
ghost use Rattle.std.proofs.Common.{rules};
ghost use Rattle.order_book.specs.HashNumbers.{identity_number};

use crate::hash_numbers::identity_number;
use fund_calendar::Day;
use money_units::Moment;
use std::hash::{Hash, Hasher};

/// What an event brings that no other event may bring: the number of what it opens, a reference of an account, the number of
/// a correction, a closed day of a calendar, the sheet of a calendar or the dividend of a class at a pricing moment.
#[derive(Clone, Copy, Debug, PartialEq, Eq)]
pub enum Identity {
    /// What an account calls an order or a cancel.
    Reference { account: u32, ref_no: u64 },
    /// The number of a correction.
    Fix(u64),
    Calendar(u32),
    Closure { calendar: u32, day: Day },
    Class(u32),
    Dealer(u32),
    Household(u32),
    Account(u32),
    /// The sheet of a calendar, by its pricing moment.
    Sheet { calendar: u32, moment: Moment },
    /// The dividend of a class, by its pricing moment.
    Dividend { class: u32, moment: Moment },
}

impl Hash for Identity {
    ghost hash_input = { λ identity. fed.u64 (identity_number identity) };

    ghost respects_eq = { Prim.search (hashing, rules) };

    fn hash<H: Hasher>(&self, state: &mut H) {
        state.write_u64(identity_number(*self));
    }
}
