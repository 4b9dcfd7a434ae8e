//! Rows at the limits of a checkpoint, and one past them, as laws: the checker computes each.
ghost use Rattle.std.specs.Prelude.{◌≡◌, false, true, None, Some};
ghost use Rattle.state_rows.specs.Reading.{state_of_row};
ghost use Rattle.state_rows.specs.Rows.{state_row};
ghost use Rattle.state_rows.specs.Rules.{keeps_rules};
ghost use Rattle.state_rows.specs.WorkedStates.{with_accounts, with_lots, with_next_lot};

/// The row of a household of 64 accounts is read; that of 65 isn't in the grammar.
pub fn accounts_of_a_row()
    ensures most { state_of_row (state_row (with_accounts 64)) ≡ Some (with_accounts 64) }
    ensures more { state_of_row (state_row (with_accounts 65)) ≡ None }
{}

/// An account has at most 8,192 lots that aren't free, in all its classes together: beside them each class may have a free one.
pub fn lots_of_an_account()
    ensures most { keeps_rules (with_lots 4096 4096) ≡ true }
    ensures more { keeps_rules (with_lots 4096 4097) ≡ false }
{}

/// The next lot of a position that was emptied has a number from 2 on; with the number 1 the position is fresh and isn't
/// written. The greatest is 2147483648.
pub fn next_lots_of_a_row()
    ensures fresh { state_of_row (state_row (with_next_lot 1)) ≡ None }
    ensures second { state_of_row (state_row (with_next_lot 2)) ≡ Some (with_next_lot 2) }
    ensures most { state_of_row (state_row (with_next_lot 2147483648))
        ≡ Some (with_next_lot 2147483648) }
    ensures more { state_of_row (state_row (with_next_lot 2147483649)) ≡ None }
{}
