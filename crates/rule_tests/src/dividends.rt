//! Dividends: the greatest one, and none.
use crate::fixtures::nav;
use dividend_reinvest::{Payment, pay};
use money_units::{Cents, Mils};
use std::test::Fail;

const ROOM: Mils = Mils(1_000_000_000_000);

const COST_ROOM: Cents = Cents(1_000_000_000_000_000);

// The mils, the rate and the net asset value; then the payment.
const PAYMENTS: [(u64, u64, u64, Payment); 3] = [
    (5_000, 0, 990, Payment::Nothing),
    (0, 1_000_000_000, 990, Payment::Nothing),
    (
        1_000_000_000_000,
        1_000_000_000,
        1,
        Payment::Cash(Cents(100_000_000_000_000)),
    ),
];

// Where this many mils have a dividend of this rate.
fn payment(mils: u64, rate: u64, cents: u64) -> Result<Payment, Fail> {
    if mils > 1_000_000_000_000 || rate > 1_000_000_000 {
        return Err(Fail::from("past the limits"));
    }
    Ok(pay(Mils(mils), rate, nav(cents)?, false, ROOM, COST_ROOM))
}

// The first number of mils with another payment, and this payment.
fn first_other() -> Result<Option<(u64, Payment)>, Fail> {
    for (mils, rate, cents, wanted) in PAYMENTS {
        let found = payment(mils, rate, cents)?;
        if found != wanted {
            return Ok(Some((mils, found)));
        }
    }
    Ok(None)
}

#[test]
fn the_greatest_dividend_is_paid(rt: HostRuntime) -> Result<(), Fail> {
    assert_eq!(rt; first_other()?, None);
    Ok(())
}
