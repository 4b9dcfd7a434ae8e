//! The places of positions in a list by account and class.
ghost use Rattle.std.specs.Prelude.{◌≡◌, ◌≤◌, false, find, length, slice_get, None, OnOk};
ghost use Rattle.std.specs.Option.{option_copied, option_map_or};
ghost use Rattle.register_machine.specs.replay.Positions.{is_position};
ghost use Rattle.register_machine.specs.replay.Positions as spec;
ghost use Rattle.household_positions.specs.Register.{AreInOrder, IsPlaceOf, IsRegister, without};

use crate::held::HeldPosition;
use crate::kept::KeptPosition;
use money_units::NoMemory;
use std::alloc::Global;

/// The place of an account and class: the positions that come before it stand before it.
fn place_of(positions: &[KeptPosition], account: u32, class: u32) -> usize
    requires { AreInOrder positions.now }
    ensures point { IsPlaceOf account class positions.now result }
    ensures bound { result ≤ length positions.now }
{
    positions.partition_point(|other| other.stands_before(account, class))
}

/// The place of a position: those that come before it stand before it.
fn place_for(positions: &[KeptPosition], position: &HeldPosition) -> usize
    requires { AreInOrder positions.now }
    ensures point { IsPlaceOf position.now.account position.now.class positions.now result }
    ensures bound { result ≤ length positions.now }
{
    place_of(positions, position.account, position.class)
}

/// What stands in a place.
fn in_place(positions: &[KeptPosition], place: usize) -> Option<&KeptPosition>
    ensures { option_copied result ≡ slice_get positions.now place }
{
    positions.get(place)
}

/// Whether the position of this account and class stands in a place.
fn stands_in(positions: &[KeptPosition], place: usize, account: u32, class: u32) -> bool
    ensures { result ≡ option_map_or (is_position account class) (slice_get positions.now place)
        false }
{
    match in_place(positions, place) {
        Some(position) => position.is_at(account, class),
        None => false,
    }
}

/// The position of an account and class, where there is one.
pub fn found(positions: &[KeptPosition], account: u32, class: u32) -> Option<&KeptPosition>
    requires { AreInOrder positions.now }
    ensures { option_copied result ≡ find (is_position account class) positions.now }
{
    let place = place_of(positions, account, class);
    if stands_in(positions, place, account, class) {
        in_place(positions, place)
    } else {
        None
    }
}

/// Removes the position of an account and class, and answers it, where there is one.
pub fn remove_found(
    positions: &mut Vec<KeptPosition>,
    account: u32,
    class: u32,
) -> Option<KeptPosition>
    requires { IsRegister positions.old.items }
    ensures found { result ≡ find (is_position account class) positions.old.items }
    ensures rest { positions.new.items ≡ without account class positions.old.items }
    ensures register { IsRegister positions.new.items }
{
    let place = place_of(positions, account, class);
    if stands_in(positions, place, account, class) {
        Some(positions.remove(place))
    } else {
        None
    }
}

/// Clears the place of a position.
fn clear_place(positions: &mut Vec<KeptPosition>, position: &HeldPosition)
    requires { IsRegister positions.old.items }
    ensures rest { positions.new.items
        ≡ without position.now.account position.now.class positions.old.items }
    ensures register { IsRegister positions.new.items }
{
    let _before = remove_found(positions, position.account, position.class);
}

/// Puts a position in its place, which nothing has, and drops it where it is fresh.
fn insert_kept(
    alloc: Global,
    positions: &mut Vec<KeptPosition>,
    position: HeldPosition,
) -> Result<(), NoMemory>
    requires register { IsRegister positions.old.items }
    requires absent { find (is_position position.account position.class) positions.old.items
        ≡ None }
    ensures ok { OnOk result (positions.new.items ≡ spec.put position positions.old.items) }
    ensures register { IsRegister positions.new.items }
{
    let place = place_for(positions, &position);
    if position.is_fresh() {
        return Ok(());
    }
    let kept = KeptPosition::keep(alloc, position)?;
    positions.insert(place, kept)?;
    Ok(())
}

/// Puts a position in its place, in the stead of the one that stands there; a fresh one isn't kept.
pub fn put(
    alloc: Global,
    positions: &mut Vec<KeptPosition>,
    position: HeldPosition,
) -> Result<(), NoMemory>
    requires { IsRegister positions.old.items }
    ensures ok { OnOk result (positions.new.items ≡ spec.put position positions.old.items) }
    ensures register { IsRegister positions.new.items }
{
    clear_place(positions, &position);
    insert_kept(alloc, positions, position)?;
    Ok(())
}
