//! Fixtures of the tests: dates, net asset values, moments, pieces, and lots that are added where there is room.
ghost use Rattle.std.specs.Prelude.{◌≡◌, IfOk};

use fund_calendar::{Day, read_day};
use money_units::{Cents, Mils, Moment, Nav};
use share_lots::{Piece, Position};
use std::test::Fail;

/// The day of a text that is a date.
pub(crate) fn day(text: &str) -> Result<Day, Fail> {
    Ok(read_day(text.as_bytes()).ok_or("no date")?)
}

/// A net asset value of so many cents.
pub(crate) fn nav(cents: u64) -> Result<Nav, Fail> {
    Ok(Nav::new(cents).ok_or("no net asset value")?)
}

/// A moment of so many seconds.
pub(crate) fn moment(seconds: u64) -> Result<Moment, Fail> {
    Ok(Moment::new(seconds).ok_or("no moment")?)
}

/// A piece of a lot that came in on a date.
pub(crate) fn piece(lot: u32, on: &str, mils: u64, cost: u64, free: bool) -> Result<Piece, Fail>
    ensures { IfOk result (λ piece. (piece.mils ≡ mils) × (piece.cost ≡ cost)) }
{
    Ok(Piece {
        lot,
        day: day(on)?,
        mils: Mils(mils),
        cost: Cents(cost),
        free,
    })
}

/// Adds mils that came in on a date, where there is room.
pub(crate) fn add(
    position: &mut Position,
    on: &str,
    mils: u64,
    cost: u64,
    free: bool,
) -> Result<u32, Fail> {
    let room = mils >= 1
        && mils <= 1_000_000_000
        && cost <= 1_000_000_000
        && position.loose().0 + position.held().0 + mils <= 1_000_000_000_000
        && position.cost().0 + cost <= 1_000_000_000_000_000
        && position.next_lot() < 4_294_967_295;
    if !room {
        return Err(Fail::from("no room"));
    }
    Ok(position.add(day(on)?, Mils(mils), Cents(cost), free)?)
}
