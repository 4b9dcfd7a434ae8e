//! The positions of a household by account and then class.
ghost use Rattle.std.specs.Prelude.{◌≡◌, ◌==◌, ◌++◌, ◌∷◌, ◌≤◌, [], find, length, IfOk, OnOk, if◌then◌else◌};
ghost use Rattle.std.specs.Option.{option_copied};
ghost use Rattle.register_machine.specs.replay.Dividend.{keys_of_class};
ghost use Rattle.register_machine.specs.replay.Letter.{keys_of_letters_over};
ghost use Rattle.register_machine.specs.replay.Positions.{is_position, key_of, position_of, put};
ghost use Rattle.share_lots.specs.Lots.{loose_total, most_mils};
ghost use Rattle.household_positions.specs.Register.{IsRegister, without};

use crate::held::HeldPosition;
use crate::kept::KeptPosition;
use crate::key::PositionKeys;
use crate::places;
use forward_price::Sheet;
use letter_of_intent::Letter;
use money_units::{Mils, NoMemory};
use std::alloc::Global;
use std::marker::Model;

/// The positions of a household by account and then class, none of them fresh, which contracts see as that register.
#[derive(Debug, Drop)]
pub struct HouseholdRegister {
    alloc: Global,
    positions: Vec<KeptPosition>,
}

impl Model for HouseholdRegister {
    ghost use Rattle.std.specs.Prelude.{List};
    ghost use Rattle.register_machine.specs.replay.Positions.{Position as position};
    ghost use Rattle.household_positions.specs.Register.{IsRegister};

    ghost Value = { List position };

    ghost view = { λ register. register.positions.items };

    ghost invariant = { λ register. IsRegister register.positions.items };
}

impl HouseholdRegister {
    /// The empty register, which takes no memory yet.
    pub fn new(alloc: Global) -> HouseholdRegister
        ensures { result ≡ [] }
    {
        HouseholdRegister {
            alloc,
            positions: Vec::new(alloc),
        }
    }

    /// A register equal to it: one piece of memory for all positions, whose lots are common to both.
    pub fn copied(&self, alloc: Global) -> Result<HouseholdRegister, NoMemory>
        ensures { IfOk result (λ copy. copy ≡ self.now) }
    {
        let positions = copied_positions(alloc, &self.positions)?;
        Ok(HouseholdRegister { alloc, positions })
    }

    /// Whether no position is kept.
    pub fn is_empty(&self) -> bool
        ensures { result ≡ (length self.now == 0) }
    {
        self.positions.is_empty()
    }

    /// The positions by account and then class.
    pub fn positions(&self) -> &[KeptPosition]
        ensures positions { result.now ≡ self.now }
        ensures register { IsRegister self.now }
    {
        &self.positions
    }

    /// The position of an account and class, where it isn't fresh, by a search.
    pub fn find(&self, account: u32, class: u32) -> Option<&KeptPosition>
        ensures { option_copied result ≡ find (is_position account class) self.now }
    {
        places::found(&self.positions, account, class)
    }

    /// The loose mils of an account in a class.
    pub fn loose(&self, account: u32, class: u32) -> Mils
        ensures total { result ≡ loose_total (position_of self.now account class).holding }
        ensures bound { result ≤ most_mils }
    {
        match self.find(account, class) {
            Some(position) => position.holding().loose(),
            None => Mils(0),
        }
    }

    /// The open letter of an account in a class.
    pub fn letter(&self, account: u32, class: u32) -> Option<Letter>
        ensures { result ≡ (position_of self.now account class).letter }
    {
        match self.find(account, class) {
            Some(position) => position.letter(),
            None => None,
        }
    }

    /// Whether an account has its dividends of a class paid in cash.
    pub fn pays_cash(&self, account: u32, class: u32) -> bool
        ensures { result ≡ (position_of self.now account class).in_cash }
    {
        match self.find(account, class) {
            Some(position) => position.in_cash(),
            None => false,
        }
    }

    /// Takes the position of an account and class out, the fresh one where none stands there. Lots that another register has too
    /// are copied for it.
    pub fn take_out(
        &mut self,
        alloc: Global,
        account: u32,
        class: u32,
    ) -> Result<HeldPosition, NoMemory>
        ensures position { IfOk result (λ position. position ≡ position_of self.old account class) }
        ensures rest { self.new ≡ without account class self.old }
    {
        match places::remove_found(&mut self.positions, account, class) {
            Some(position) => position.taken(alloc),
            None => Ok(HeldPosition::fresh(alloc, account, class)),
        }
    }

    /// Puts a position in its place, in the stead of the one that stands there; a fresh one isn't kept. After `NoMemory`
    /// no position stands in that place.
    pub fn put_back(&mut self, position: HeldPosition) -> Result<(), NoMemory>
        ensures { OnOk result (self.new ≡ put position self.old) }
    {
        places::put(self.alloc, &mut self.positions, position)?;
        Ok(())
    }

    /// The keys of the positions of a class, by account.
    pub fn keys_of_class(&self, alloc: Global, class: u32) -> Result<PositionKeys, NoMemory>
        ensures { IfOk result (λ keys. keys ≡ keys_of_class class self.now) }
    {
        let mut keys = PositionKeys::new(alloc);
        for position in &self.positions {
            push_key_if(&mut keys, position, position.class == class)?;
        }
        Ok(keys)
    }

    /// The keys of the positions with a letter that is over by the date of a sheet, as far as the sheet lists their class.
    pub fn keys_of_letters_over(
        &self,
        alloc: Global,
        sheet: &Sheet,
    ) -> Result<PositionKeys, NoMemory>
        ensures { IfOk result (λ keys. keys ≡ keys_of_letters_over sheet.now self.now) }
    {
        let mut keys = PositionKeys::new(alloc);
        for position in &self.positions {
            push_key_if(&mut keys, position, position.has_letter_over(sheet))?;
        }
        Ok(keys)
    }
}

/// Appends the key of a position, where it is asked for.
fn push_key_if(
    keys: &mut PositionKeys,
    position: &KeptPosition,
    asked: bool,
) -> Result<(), NoMemory>
    ensures { OnOk result (keys.new
        ≡ keys.old ++ (if asked then key_of position.now ∷ [] else [])) }
{
    if asked {
        keys.push_copy(&position.key())?;
    }
    Ok(())
}

/// Positions equal to these.
fn copied_positions(
    alloc: Global,
    positions: &[KeptPosition],
) -> Result<Vec<KeptPosition>, NoMemory>
    ensures { IfOk result (λ copies. copies.items ≡ positions.now) }
{
    let mut copies = Vec::with_capacity(alloc, positions.len())?;
    for position in positions {
        copies.push(position.shared()?)?;
    }
    Ok(copies)
}
