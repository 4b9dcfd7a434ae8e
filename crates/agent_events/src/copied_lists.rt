//! Copies of lists: of any list of plain values, and of the lists that have an order.
use crate::copied::Copied;
use crate::lists::{FrontBrackets, Holidays, RisingPrices};
use money_units::{List, NoMemory};
use std::alloc::Global;

impl<T: Copy> Copied for List<T> {
    fn copy(&self, alloc: Global) -> Result<List<T>, NoMemory> {
        List::from_slice(alloc, self.as_slice())
    }
}

impl Copied for Holidays {
    fn copy(&self, alloc: Global) -> Result<Holidays, NoMemory> {
        match Holidays::new(List::from_slice(alloc, self.as_slice())?) {
            Some(copy) => Ok(copy),
            None => unreachable!(),
        }
    }
}

impl Copied for RisingPrices {
    fn copy(&self, alloc: Global) -> Result<RisingPrices, NoMemory> {
        match RisingPrices::new(List::from_slice(alloc, self.as_slice())?) {
            Some(copy) => Ok(copy),
            None => unreachable!(),
        }
    }
}

impl Copied for FrontBrackets {
    fn copy(&self, alloc: Global) -> Result<FrontBrackets, NoMemory> {
        match FrontBrackets::new(List::from_slice(alloc, self.as_slice())?) {
            Some(copy) => Ok(copy),
            None => unreachable!(),
        }
    }
}
