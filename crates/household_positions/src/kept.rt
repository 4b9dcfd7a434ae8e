//! A position as a register keeps it: registers that are copied from one another have its lots in common.
ghost use Rattle.std.specs.Prelude.{◌≡◌, false, IfOk};
ghost use Rattle.std.specs.Option.{option_map_or};
ghost use Rattle.letter_of_intent.specs.Letters.{has_expired};
ghost use Rattle.register_machine.specs.replay.Letter.{has_letter_over};
ghost use Rattle.register_machine.specs.replay.Positions as spec;

use crate::held::HeldPosition;
use crate::kept_letter::KeptLetter;
use crate::key::PositionKey;
use forward_price::{Sheet, lists_class};
use fund_calendar::Day;
use letter_of_intent::Letter;
use money_units::NoMemory;
use share_lots::Position;
use std::alloc::Global;
use std::marker::Model;
use std::rc::Rc;

/// What an account holds of a class, as a register keeps it: its key, and the rest in memory that copies of it have in common. A
/// copy takes no memory, and the one that is taken out of its register copies the rest, unless it is the last that has it.
#[derive(Debug, Drop)]
pub struct KeptPosition {
    pub account: u32,
    pub class: u32,
    kept: Rc<KeptHolding>,
}

/// What a position has beside its key; what each sheet looks at comes first.
#[derive(Debug, Drop)]
struct KeptHolding {
    in_cash: bool,
    letter: KeptLetter,
    holding: Position,
}

/// The same of a position that is taken out.
#[derive(Debug, Drop)]
struct OwnHolding {
    in_cash: bool,
    letter: Option<Letter>,
    holding: Position,
}

impl Model for KeptPosition {
    ghost use Rattle.register_machine.specs.replay.Positions.{Position as position};

    ghost Value = { position };

    ghost view = { λ p. record {
      account = p.account;
      class = p.class;
      holding = p.kept.value.holding;
      in_cash = p.kept.value.in_cash;
      letter = p.kept.value.letter;
    } };
}

impl KeptPosition {
    /// A position as a register keeps it.
    pub(crate) fn keep(alloc: Global, position: HeldPosition) -> Result<KeptPosition, NoMemory>
        ensures { IfOk result (λ kept. kept ≡ position) }
    {
        let HeldPosition {
            account,
            class,
            holding,
            in_cash,
            letter,
        } = position;
        let letter = KeptLetter::keep(alloc, letter)?;
        let kept = keep_holding(
            alloc,
            KeptHolding {
                in_cash,
                letter,
                holding,
            },
        )?;
        Ok(KeptPosition {
            account,
            class,
            kept,
        })
    }

    /// The position with lots of its own, to be changed.
    pub(crate) fn taken(self, alloc: Global) -> Result<HeldPosition, NoMemory>
        ensures { IfOk result (λ position. position ≡ self) }
    {
        let KeptPosition {
            account,
            class,
            kept,
        } = self;
        let OwnHolding {
            in_cash,
            letter,
            holding,
        } = own_holding(alloc, kept)?;
        Ok(HeldPosition {
            account,
            class,
            holding,
            in_cash,
            letter,
        })
    }

    /// A position equal to it, with the same lots in memory.
    pub(crate) fn shared(&self) -> Result<KeptPosition, NoMemory>
        ensures { IfOk result (λ copy. copy ≡ self.now) }
    {
        let kept = shared_holding(&self.kept)?;
        Ok(KeptPosition {
            account: self.account,
            class: self.class,
            kept,
        })
    }

    /// Whether its dividends are paid in cash.
    pub fn in_cash(&self) -> bool
        ensures { result ≡ self.now.in_cash }
    {
        self.kept.as_ref().in_cash
    }

    /// Its open letter.
    pub fn letter(&self) -> Option<Letter>
        ensures { result ≡ self.now.letter }
    {
        self.kept.as_ref().letter.letter()
    }

    /// Its lots.
    pub fn holding(&self) -> &Position
        ensures { result.now ≡ self.now.holding }
    {
        &self.kept.as_ref().holding
    }

    /// Its account and class.
    pub fn key(&self) -> PositionKey
        ensures { result ≡ spec.key_of self.now }
    {
        PositionKey {
            account: self.account,
            class: self.class,
        }
    }

    /// Whether it is of this account and class.
    pub fn is_at(&self, account: u32, class: u32) -> bool
        ensures { result ≡ spec.is_position account class self.now }
    {
        self.account == account && self.class == class
    }

    /// Whether it comes before the position of this account and class.
    pub fn stands_before(&self, account: u32, class: u32) -> bool
        ensures { result ≡ spec.stands_before self.now (spec.fresh_position account class) }
    {
        self.account < account || (self.account == account && self.class < class)
    }

    /// Whether it has an open letter, a sheet is dated after its 13 months, and the sheet lists its class.
    pub fn has_letter_over(&self, sheet: &Sheet) -> bool
        ensures { result ≡ has_letter_over sheet.now self.now }
    {
        lists_class(sheet.prices.as_slice(), self.class) && self.letter_is_over(sheet.day)
    }

    /// Whether it has an open letter that is over on this day.
    fn letter_is_over(&self, day: Day) -> bool
        ensures { result ≡ option_map_or (λ letter. has_expired letter day) self.now.letter false }
    {
        match self.letter() {
            Some(letter) => letter.expired(day),
            None => false,
        }
    }
}

/// The rest of a position, which several positions may have in common.
fn keep_holding(alloc: Global, holding: KeptHolding) -> Result<Rc<KeptHolding>, NoMemory>
    ensures { IfOk result (λ kept. kept.value ≡ holding) }
{
    let kept = Rc::new(alloc, holding)?;
    Ok(kept)
}

/// The same rest once more.
fn shared_holding(kept: &Rc<KeptHolding>) -> Result<Rc<KeptHolding>, NoMemory>
    ensures { IfOk result (λ shared. shared.value ≡ kept.now.value) }
{
    let shared = kept.clone()?;
    Ok(shared)
}

/// The rest of a position itself where no other has it, and else a copy of it.
fn own_holding(alloc: Global, kept: Rc<KeptHolding>) -> Result<OwnHolding, NoMemory>
    ensures in_cash { IfOk result (λ own. own.in_cash ≡ kept.value.in_cash) }
    ensures letter { IfOk result (λ own. own.letter ≡ kept.value.letter) }
    ensures holding { IfOk result (λ own. own.holding ≡ kept.value.holding) }
{
    match Rc::try_unwrap(kept) {
        Ok(own) => Ok(into_own(own)),
        Err(shared) => copied_holding(alloc, &shared),
    }
}

fn into_own(kept: KeptHolding) -> OwnHolding
    ensures { result ≡ record {
      in_cash = kept.in_cash;
      letter = kept.letter;
      holding = kept.holding;
    } }
{
    let KeptHolding {
        in_cash,
        letter,
        holding,
    } = kept;
    OwnHolding {
        in_cash,
        letter: letter.letter(),
        holding,
    }
}

fn copied_holding(alloc: Global, kept: &Rc<KeptHolding>) -> Result<OwnHolding, NoMemory>
    ensures in_cash { IfOk result (λ own. own.in_cash ≡ kept.now.value.in_cash) }
    ensures letter { IfOk result (λ own. own.letter ≡ kept.now.value.letter) }
    ensures holding { IfOk result (λ own. own.holding ≡ kept.now.value.holding) }
{
    let kept = kept.as_ref();
    let holding = kept.holding.copied(alloc)?;
    Ok(OwnHolding {
        in_cash: kept.in_cash,
        letter: kept.letter.letter(),
        holding,
    })
}
