//! What an account holds of a class.
ghost use Rattle.std.specs.Prelude.{◌≡◌};
ghost use Rattle.register_machine.specs.replay.Positions as spec;

use letter_of_intent::Letter;
use share_lots::Position;
use std::alloc::Global;
use std::marker::Model;

/// What an account holds of a class: its lots, whether dividends are paid in cash, and an open letter of intent.
#[derive(Debug, Drop)]
pub struct HeldPosition {
    pub account: u32,
    pub class: u32,
    pub holding: Position,
    pub in_cash: bool,
    pub letter: Option<Letter>,
}

impl Model for HeldPosition {
    ghost use Rattle.register_machine.specs.replay.Positions.{Position as position};

    ghost Value = { position };

    ghost view = { λ p. record {
      account = p.account;
      class = p.class;
      holding = p.holding;
      in_cash = p.in_cash;
      letter = p.letter;
    } };
}

impl HeldPosition {
    /// A position without lots, whose dividends are reinvested. It takes no memory yet.
    pub fn fresh(alloc: Global, account: u32, class: u32) -> HeldPosition
        ensures { result ≡ spec.fresh_position account class }
    {
        HeldPosition {
            account,
            class,
            holding: Position::empty(alloc),
            in_cash: false,
            letter: None,
        }
    }

    /// Whether it has nothing that is to be kept: no lot and none before, no election of cash, no letter.
    pub fn is_fresh(&self) -> bool
        ensures { result ≡ spec.is_fresh self.now }
    {
        self.holding.is_empty()
            && (self.holding.next_lot() == 1 && (!self.in_cash && self.letter.is_none()))
    }
}
