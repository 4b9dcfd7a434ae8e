//! The key of a position.
use money_units::List;
use std::marker::Model;

/// The key of a position: its account and class.
#[derive(Clone, Copy, Debug, PartialEq, Eq)]
pub struct PositionKey {
    pub account: u32,
    pub class: u32,
}

impl Model for PositionKey {
    ghost use Rattle.register_machine.specs.replay.Positions.{PositionKey as key};

    ghost Value = { key };

    ghost view = { λ k. record { account = k.account; class = k.class } };

    ghost inverse = { λ k. record { account = k.account; class = k.class } };
}

/// Keys in their order.
pub type PositionKeys = List<PositionKey>;
