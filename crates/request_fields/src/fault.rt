//! Why the fields of a verb couldn't be read.
ghost use Rattle.std.specs.Prelude.{◌≡◌};
ghost use Rattle.request_fields.specs.declared.fault.FormFault.TheVariants as fault;

use money_units::NoMemory;

/// Why the fields of a verb couldn't be read.
#[derive(Clone, Copy, Debug, PartialEq, Eq)]
pub enum FormFault {
    /// There was no memory for what was read.
    NoMemory,
    /// The place of the first field that isn't in its form, from 1.
    Place(u8),
}

impl From<NoMemory> for FormFault {
    ghost from_gives = { λ _ e. e ≡ fault.NoMemory };

    fn from(_error: NoMemory) -> FormFault {
        FormFault::NoMemory
    }
}
