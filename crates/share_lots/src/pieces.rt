//! The pieces of a taking.
use crate::Piece;
use money_units::List;

/// A list of pieces.
pub type Pieces = List<Piece>;
