//! Why the desk can't be opened, and why it can't answer.
ghost use Rattle.std.specs.Prelude.{◌≡◌};
ghost use Rattle.register_desk.specs.Opening.{start_fault};
ghost use Rattle.register_desk.specs.declared.faults.LedgerFault.TheVariants as ledger;
ghost use Rattle.register_desk.specs.declared.faults.StartFault.TheVariants as start;

use agent_keeper::KeepFault;
use money_units::NoMemory;

/// Why a store isn't opened.
#[derive(Clone, Copy, Debug, PartialEq, Eq)]
pub enum StartFault {
    /// The keeper failed.
    Keeper,
    /// The row at this place, from 0, is the first that is missing, no spelling, or not what the machine appends there.
    Damaged(u64),
    NoMemory,
}

impl From<KeepFault> for StartFault {
    ghost from_gives = { λ fault given. given ≡ start_fault fault };

    fn from(fault: KeepFault) -> StartFault {
        match fault {
            KeepFault::Failed => StartFault::Keeper,
            KeepFault::NoMemory => StartFault::NoMemory,
        }
    }
}

impl From<NoMemory> for StartFault {
    ghost from_gives = { λ _ given. given ≡ start.NoMemory };

    fn from(_: NoMemory) -> StartFault {
        StartFault::NoMemory
    }
}

/// Why a request isn't answered.
#[derive(Clone, Copy, Debug, PartialEq, Eq)]
pub enum LedgerFault {
    NoMemory,
}

impl From<NoMemory> for LedgerFault {
    ghost from_gives = { λ _ given. given ≡ ledger.NoMemory };

    fn from(_: NoMemory) -> LedgerFault {
        LedgerFault::NoMemory
    }
}
