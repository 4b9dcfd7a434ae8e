//! Laws of a dividend in the trade's words. Each function is empty: its clauses hold of the definitions.
ghost use Rattle.std.specs.Prelude.{◌≡◌, ◌+◌, ◌*◌, ◌<◌, ◌≤◌, ◌↔◌, ◌⊎◌, true, false};
ghost use Rattle.dividend_reinvest.specs.Dividend.{cash_of, mils_of, payment};
ghost use Rattle.dividend_reinvest.specs.declared.payment.Payment.TheVariants.{Nothing, Cash, Shares};

use money_units::{Cents, Mils, Nav};

/// Nothing is paid exactly where the rate on the mils is less than half a cent.
pub fn nothing_is_less_than_half_a_cent(
    mils: Mils,
    rate: u64,
    nav: Nav,
    in_cash: bool,
    room: Mils,
    cost_room: Cents,
)
    ensures { (payment mils rate nav in_cash room cost_room ≡ Nothing) ↔
        (2 * (mils * rate) < 10000000) }
{}

/// What is reinvested wasn't elected in cash, is some cents and some mils, and keeps the position within its ceiling of mils
/// and of cost.
pub fn reinvestment_keeps_the_ceiling(
    mils: Mils,
    rate: u64,
    nav: Nav,
    in_cash: bool,
    room: Mils,
    cost_room: Cents,
    cash: Cents,
    bought: Mils,
)
    requires { payment mils rate nav in_cash room cost_room ≡ Shares cash bought }
    ensures elected { in_cash ≡ false }
    ensures cents { 1 ≤ cash }
    ensures mils { 1 ≤ bought }
    ensures price { bought ≡ mils_of cash nav }
    ensures ceiling { bought ≤ room }
    ensures cost { cash ≤ cost_room }
{}

/// The mils that cents buy are worth these cents at the net asset value, to half a mil.
pub fn shares_are_worth_the_cash(cash: Cents, nav: Nav)
    requires { 1 ≤ nav }
    ensures not_above { 2 * (mils_of cash nav * nav) ≤ 2 * (1000 * cash) + nav }
    ensures not_below { 2 * (1000 * cash) < 2 * (mils_of cash nav * nav) + nav }
{}

/// Cash is some cents, and has one of three causes: the election, that no mil results, or that the position would pass its
/// ceiling of mils or of cost.
pub fn cash_has_a_cause(
    mils: Mils,
    rate: u64,
    nav: Nav,
    in_cash: bool,
    room: Mils,
    cost_room: Cents,
    cash: Cents,
)
    requires { payment mils rate nav in_cash room cost_room ≡ Cash cash }
    ensures cents { 1 ≤ cash }
    ensures cause { (in_cash ≡ true) ⊎ (mils_of cash nav ≡ 0) ⊎ (room < mils_of cash nav)
        ⊎ (cost_room < cash) }
{}

/// Where none of these is the cause, the dividend is reinvested.
pub fn reinvestment_is_the_default(
    mils: Mils,
    rate: u64,
    nav: Nav,
    room: Mils,
    cost_room: Cents,
    cash: Cents,
    bought: Mils,
)
    requires cash { cash ≡ cash_of mils rate }
    requires bought { bought ≡ mils_of cash nav }
    requires cents { 1 ≤ cash }
    requires mils { 1 ≤ bought }
    requires ceiling { bought ≤ room }
    requires cost { cash ≤ cost_room }
    ensures { payment mils rate nav false room cost_room ≡ Shares cash bought }
{}
