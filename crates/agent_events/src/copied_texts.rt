//! Copies of texts.
use crate::copied::Copied;
use crate::texts::{DealerKey, HouseholdKey, Name, ZoneText};
use money_units::{List, NoMemory};
use std::alloc::Global;

impl Copied for Name {
    fn copy(&self, alloc: Global) -> Result<Name, NoMemory> {
        match Name::new(List::from_slice(alloc, self.as_slice())?) {
            Some(copy) => Ok(copy),
            None => unreachable!(),
        }
    }
}

impl Copied for ZoneText {
    fn copy(&self, alloc: Global) -> Result<ZoneText, NoMemory> {
        match ZoneText::new(List::from_slice(alloc, self.as_slice())?) {
            Some(copy) => Ok(copy),
            None => unreachable!(),
        }
    }
}

impl Copied for HouseholdKey {
    fn copy(&self, alloc: Global) -> Result<HouseholdKey, NoMemory> {
        match HouseholdKey::new(List::from_slice(alloc, self.as_slice())?) {
            Some(copy) => Ok(copy),
            None => unreachable!(),
        }
    }
}

impl Copied for DealerKey {
    fn copy(&self, alloc: Global) -> Result<DealerKey, NoMemory> {
        match DealerKey::new(List::from_slice(alloc, self.as_slice())?) {
            Some(copy) => Ok(copy),
            None => unreachable!(),
        }
    }
}
