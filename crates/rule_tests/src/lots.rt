//! Lots: what is added, looked at, held, paid and released, copies of many, and lots that were stored.
ghost use Rattle.std.specs.Prelude.{IsTrue};
ghost use Rattle.share_lots.specs.Lots.{HasLoose};

use crate::fixtures::{add, day, nav};
use fund_calendar::Day;
use money_units::{Cents, Mils, NoMemory};
use share_lots::{Lot, Piece, Position, TakeFault, value_at};
use std::alloc::Global;
use std::process::Abort;
use std::test::Fail;

// The first lot, mils and cost of a piece that are other ones.
fn first_other(pieces: &[Piece], wanted: &[(u32, u64, u64)]) -> Option<(u32, u64, u64)> {
    for (piece, row) in pieces.iter().zip(wanted.iter()) {
        let found = (piece.lot, piece.mils.0, piece.cost.0);
        if found != *row {
            return Some(found);
        }
    }
    None
}

// Each piece has this lot, these mils and this cost.
fn expect_pieces(rt: &impl Abort, pieces: &[Piece], wanted: &[(u32, u64, u64)]) {
    let found = (pieces.len(), first_other(pieces, wanted));
    assert_eq!(rt; found, (wanted.len(), None));
}

// So many mils would be taken as these pieces.
fn expect_taking(
    rt: &impl Abort,
    alloc: Global,
    position: &Position,
    mils: u64,
    wanted: &[(u32, u64, u64)],
) -> Result<(), Fail> {
    let pieces = position.pieces(alloc, Mils(mils))?;
    expect_pieces(rt, pieces.as_slice(), wanted);
    Ok(())
}

// How many lots there are, and the number of the next one.
fn lots_and_next(alloc: Global, position: &Position) -> Result<(usize, u32), NoMemory> {
    let lots = position.copied_lots(alloc)?;
    Ok((lots.len(), position.next_lot()))
}

fn add_free_shares(position: &mut Position) -> Result<(), Fail> {
    add(position, "2024-07-01", 100_000, 100_000, false)?;
    add(position, "2024-08-15", 4_000, 4_000, true)?;
    add(position, "2024-09-15", 1_000, 1_000, true)?;
    Ok(())
}

// 100.000 shares were bought, and 5.000 free ones came in at two dates.
fn with_free_shares(alloc: Global) -> Result<Position, Fail> {
    let mut position = Position::empty(alloc);
    add_free_shares(&mut position)?;
    Ok(position)
}

fn expect_joined(rt: &impl Abort, alloc: Global, position: &Position) -> Result<(), Fail> {
    assert_eq!(rt; lots_and_next(alloc, position)?, (2, 3));
    assert_eq!(rt;
        (position.mils(), position.cost()),
        (Mils(105_000), Cents(105_000))
    );
    Ok(())
}

#[test]
fn free_shares_join_one_lot(rt: HostRuntime) -> Result<(), Fail> {
    let position = with_free_shares(rt.alloc())?;
    expect_joined(&rt, rt.alloc(), &position)
}

/// The lot with a number has so many loose mils.
fn has_loose(lots: &[Lot], number: u32, quantity: u64) -> bool
    ensures { IsTrue result → HasLoose lots.now number quantity }
{
    lots.iter()
        .all(|lot| lot.number != number || quantity <= lot.loose.0)
}

// So many loose mils of the lot with a number are held, where it has them.
fn hold(alloc: Global, position: &mut Position, lot: u32, quantity: u64) -> Result<(), NoMemory> {
    let lots = position.copied_lots(alloc)?;
    if has_loose(&lots, lot, quantity) {
        position.hold(lot, Mils(quantity))?;
    }
    Ok(())
}

fn add_held_shares(alloc: Global, position: &mut Position) -> Result<(), Fail> {
    let lot = add(position, "2024-07-01", 955_110, 1_000_000, false)?;
    hold(alloc, position, lot, 238_778)?;
    Ok(())
}

// 955.110 shares, of which 238.778 are held.
fn with_held_shares(alloc: Global) -> Result<Position, Fail> {
    let mut position = Position::empty(alloc);
    add_held_shares(alloc, &mut position)?;
    Ok(position)
}

#[test]
fn faults_are_told_in_words(rt: HostRuntime) -> Result<(), Fail> {
    let told = format!(in rt.alloc(); "{}; {}", TakeFault::Short(Mils(1)), TakeFault::NoMemory)?;
    assert_eq!(rt; told.as_str(), "too few shares are loose; out of memory");
    Ok(())
}

fn expect_paid_and_released(rt: &impl Abort, position: &mut Position) -> Result<(), Fail> {
    if position.held().0 >= 11_364 {
        position.pay_held(Mils(11_364))?;
    }
    let held = position.held();
    position.release()?;
    assert_eq!(rt;
        [held, position.loose(), position.held()],
        [Mils(227_414), Mils(943_746), Mils(0)]
    );
    Ok(())
}

#[test]
fn held_shares_are_paid_and_released(rt: HostRuntime) -> Result<(), Fail> {
    let mut position = with_held_shares(rt.alloc())?;
    expect_paid_and_released(&rt, &mut position)
}

// A look at what would be taken leaves the lots as they are in a copy.
fn expect_looked_at(
    rt: &impl Abort,
    alloc: Global,
    position: &Position,
    copy: &Position,
) -> Result<(), Fail> {
    let wanted = [(2, 5_000, 5_000), (1, 1_000, 1_000)];
    expect_taking(rt, alloc, position, 6_000, wanted.as_slice())?;
    let lots = position.copied_lots(alloc)?;
    let copied = copy.copied_lots(alloc)?;
    assert_eq!(rt; lots.as_slice(), copied.as_slice());
    Ok(())
}

fn expect_removed(rt: &impl Abort, position: &mut Position) -> Result<(), Fail> {
    if position.loose().0 >= 6_000 {
        position.remove(Mils(6_000))?;
    }
    assert_eq!(rt; position.mils(), Mils(99_000));
    Ok(())
}

#[test]
fn what_is_looked_at_is_removed(rt: HostRuntime) -> Result<(), Fail> {
    let mut position = with_free_shares(rt.alloc())?;
    let copy = position.copied(rt.alloc())?;
    expect_looked_at(&rt, rt.alloc(), &position, &copy)?;
    expect_removed(&rt, &mut position)
}

// A position of 60 lots of one share each.
fn sixty_lots(alloc: Global) -> Result<Position, Fail> {
    let mut position = Position::empty(alloc);
    add_sixty_lots(&mut position)?;
    Ok(position)
}

fn add_sixty_lots(position: &mut Position) -> Result<(), Fail> {
    for _ in 0..60 {
        add(position, "2024-07-01", 1_000, 1_000, false)?;
    }
    Ok(())
}

// Half a share of lot 40 is held, and 30.500 shares are taken.
fn hold_and_take(alloc: Global, position: &mut Position) -> Result<(), Fail> {
    hold(alloc, position, 40, 500)?;
    let _taken = position.take(alloc, Mils(30_500))?;
    Ok(())
}

#[test]
fn a_copy_changes_nothing_of_the_position(rt: HostRuntime) -> Result<(), Fail> {
    let position = sixty_lots(rt.alloc())?;
    let mut copy = position.copied(rt.alloc())?;
    hold_and_take(rt.alloc(), &mut copy)?;
    assert_eq!(rt; lots_and_next(rt.alloc(), &position)?, (60, 61));
    assert_eq!(rt; lots_and_next(rt.alloc(), &copy)?, (30, 61));
    assert_eq!(rt;
        (position.loose(), copy.loose()),
        (Mils(60_000), Mils(29_000))
    );
    Ok(())
}

#[test]
fn a_value_is_rounded_to_the_cent(rt: HostRuntime) -> Result<(), Fail> {
    let values = [
        value_at(nav(999)?, Mils(1_500)),
        value_at(nav(10_000_000)?, Mils(1_000_000_000_000)),
    ];
    assert_eq!(rt; values, [Cents(1_499), Cents(10_000_000_000_000_000)]);
    Ok(())
}

// Three lots by number: one free, and one with held mils, which has the earliest date.
fn stored_position(
    alloc: Global,
    first: Day,
    second: Day,
    free_day: Day,
) -> Result<Position, NoMemory> {
    let lots = [
        Lot {
            number: 1,
            day: second,
            loose: Mils(3),
            held: Mils(0),
            cost: Cents(100),
            free: false,
        },
        Lot {
            number: 2,
            day: free_day,
            loose: Mils(5),
            held: Mils(0),
            cost: Cents(5),
            free: true,
        },
        Lot {
            number: 3,
            day: first,
            loose: Mils(1),
            held: Mils(2),
            cost: Cents(100),
            free: false,
        },
    ];
    Position::from_lots(alloc, &lots, 4)
}

fn expect_by_rank(rt: &impl Abort, alloc: Global, position: &Position) -> Result<(), Fail> {
    assert_eq!(rt; position.next_lot(), 4);
    assert_eq!(rt; (position.loose(), position.held()), (Mils(9), Mils(2)));
    assert_eq!(rt; (position.mils(), position.cost()), (Mils(11), Cents(205)));
    let wanted = [(2, 5, 5), (3, 1, 33), (1, 1, 33)];
    expect_taking(rt, alloc, position, 7, wanted.as_slice())
}

#[test]
fn stored_lots_stand_by_rank(rt: HostRuntime) -> Result<(), Fail> {
    let first = day("2024-07-01")?;
    let position = stored_position(rt.alloc(), first, day("2024-07-02")?, day("2024-08-15")?)?;
    expect_by_rank(&rt, rt.alloc(), &position)
}

// How many lots there are where none were stored, and the number of the next one.
fn none_stored(alloc: Global) -> Result<(usize, u32), NoMemory> {
    let position = Position::from_lots(alloc, &[], 5)?;
    lots_and_next(alloc, &position)
}

#[test]
fn no_lots_were_stored(rt: HostRuntime) -> Result<(), Fail> {
    assert_eq!(rt; none_stored(rt.alloc())?, (0, 5));
    Ok(())
}
