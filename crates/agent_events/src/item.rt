//! An item of a script: its moment, its key, and what it asks.
use crate::request::Request;
use money_units::{List, Moment};

/// The key of a caller as it was sent, which contracts see as its bytes.
pub type KeyText = List<u8>;

/// What the fields of a verb ask, or the place of the first field that isn't in its form; place 0 is an unknown verb or a wrong
/// number of fields.
pub type Asked = Result<Request, u8>;

/// An item of a script, whichever verb it asks.
#[derive(Debug, Drop)]
pub enum ScriptItem {
    /// A record that has no moment, key and verb, or whose moment or key isn't in its form.
    Bad,
    Good {
        moment: Moment,
        key: KeyText,
        /// What is asked, or the place of the first field that isn't in its form.
        asked: Asked,
    },
}
