//! Exchanges: the greatest one is carried, and one of many pieces.
use crate::fixtures::{add, nav, piece};
use fund_exchange::{Carried, carry};
use money_units::Mils;
use share_lots::{Piece, Pieces, Position};
use std::alloc::Global;
use std::process::Abort;
use std::test::Fail;

// What is carried has this value, these mils and this cost.
fn expect_sums(rt: &impl Abort, carried: &Carried, sums: (u64, u64, u64)) {
    assert_eq!(rt; (carried.value.0, carried.mils.0, carried.cost.0), sums);
}

#[test]
fn the_greatest_exchange_is_carried(rt: HostRuntime) -> Result<(), Fail> {
    let most = piece(
        1,
        "2024-07-01",
        1_000_000_000_000,
        1_000_000_000_000_000,
        false,
    )?;
    let carried = carry(rt.alloc(), &[most], nav(10_000_000)?, nav(1)?)?;
    let sums = (
        10_000_000_000_000_000,
        10_000_000_000_000_000_000,
        1_000_000_000_000_000,
    );
    expect_sums(&rt, &carried, sums);
    Ok(())
}

fn enter_65(position: &mut Position) -> Result<(), Fail> {
    for _ in 0..65 {
        add(position, "2024-07-01", 1_000, 1_000, false)?;
    }
    Ok(())
}

// A position of 65 lots of one share each, which cost $10.00.
fn position_of_many_lots(alloc: Global) -> Result<Position, Fail> {
    let mut position = Position::empty(alloc);
    enter_65(&mut position)?;
    Ok(position)
}

fn carry_all(alloc: Global, position: &Position) -> Result<Carried, Fail> {
    let old = nav(1000)?;
    let new = nav(2000)?;
    let pieces: Pieces = position.pieces(alloc, Mils(65_000))?;
    Ok(carry(alloc, pieces.as_slice(), old, new)?)
}

// What is carried of 65 lots has these sums, and so many pieces of which this is the last.
fn expect_many(rt: &impl Abort, carried: &Carried, last: &Piece) {
    expect_sums(rt, carried, (65_000, 32_500, 65_000));
    let found = (carried.pieces.len(), carried.pieces.as_slice().last());
    assert_eq!(rt; found, (65, Some(last)));
}

#[test]
fn many_pieces_are_carried(rt: HostRuntime) -> Result<(), Fail> {
    let last = piece(65, "2024-07-01", 500, 1_000, false)?;
    let position = position_of_many_lots(rt.alloc())?;
    let carried = carry_all(rt.alloc(), &position)?;
    expect_many(&rt, &carried, &last);
    Ok(())
}
