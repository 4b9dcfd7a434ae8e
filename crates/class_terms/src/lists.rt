//! The lists of a class: its name, its table of front-end loads and its schedule of deferred loads.
use money_units::{Bps, Cents, List};

/// A name of a class or an account as a list of bytes.
pub type Label = List<u8>;

/// A row of a table of front-end loads: from this amount in cents on the load is this rate in basis points.
#[derive(Clone, Copy, Debug, PartialEq, Eq)]
pub struct Bracket {
    pub floor: Cents,
    pub rate: Bps,
}

/// A table of front-end loads, by rising floor, which contracts see as the list of its rows.
pub type Brackets = List<Bracket>;

/// A schedule of deferred loads in basis points, a rate for each year since the purchase, which contracts see as
/// the list of its rates.
pub type Schedule = List<Bps>;
