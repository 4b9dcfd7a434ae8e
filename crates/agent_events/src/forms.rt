//! Copies of the fields of verbs.
use crate::copied::Copied;
use crate::request::{AccountForm, CalendarForm, ClassForm, DealerForm, HouseholdForm, SheetForm};
use money_units::NoMemory;
use std::alloc::Global;

impl Copied for CalendarForm {
    fn copy(&self, alloc: Global) -> Result<CalendarForm, NoMemory> {
        Ok(CalendarForm {
            calendar: self.calendar,
            zone: self.zone.copy(alloc)?,
            minute: self.minute,
            first: self.first,
            last: self.last,
            holidays: self.holidays.copy(alloc)?,
        })
    }
}

impl Copied for ClassForm {
    fn copy(&self, alloc: Global) -> Result<ClassForm, NoMemory> {
        Ok(ClassForm {
            class: self.class,
            calendar: self.calendar,
            fund: self.fund,
            name: self.name.copy(alloc)?,
            family: self.family,
            counts: self.counts,
            first_min: self.first_min,
            later_min: self.later_min,
            front: self.front.copy(alloc)?,
            deferred: self.deferred.copy(alloc)?,
        })
    }
}

impl Copied for DealerForm {
    fn copy(&self, alloc: Global) -> Result<DealerForm, NoMemory> {
        Ok(DealerForm {
            dealer: self.dealer,
            key: self.key.copy(alloc)?,
            window: self.window,
        })
    }
}

impl Copied for HouseholdForm {
    fn copy(&self, alloc: Global) -> Result<HouseholdForm, NoMemory> {
        Ok(HouseholdForm {
            household: self.household,
            key: self.key.copy(alloc)?,
        })
    }
}

impl Copied for AccountForm {
    fn copy(&self, alloc: Global) -> Result<AccountForm, NoMemory> {
        Ok(AccountForm {
            account: self.account,
            household: self.household,
            dealer: self.dealer,
            name: self.name.copy(alloc)?,
        })
    }
}

impl Copied for SheetForm {
    fn copy(&self, alloc: Global) -> Result<SheetForm, NoMemory> {
        Ok(SheetForm {
            calendar: self.calendar,
            moment: self.moment,
            prices: self.prices.copy(alloc)?,
        })
    }
}
