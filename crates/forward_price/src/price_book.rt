//! The price book: calendars, openings of classes and published sheets, with room for more.
ghost use Rattle.std.specs.Prelude.{◌≡◌, ◌↔◌, ℕ, ◌+◌, ◌<◌, ◌≤◌, nat_lt, length, is_some, true, [], ◌∷◌, Some, None, option_map, OnOk, OnErr, IfOk, IfErr, IfSome, IfNone};
ghost use Rattle.std.specs.Option.{option_copied};
ghost use Rattle.std.specs.Bool.{OnFalse};
ghost use Rattle.fund_calendar.specs.PricingDays.{Listing};
ghost use Rattle.forward_price.specs.PriceTables.{AreNumbered, Table, Book, next_sheet, IsPricedBy, IsPending, sheet_numbered, number_at, price_on, price_before, sheets_on_trial, calendar_numbered, class_opened, with_calendar, with_class, with_published, with_correction, without_day_of, is_priced, empty_book, with_table, published_book, withdrawn_book};
ghost use Rattle.forward_price.specs.Turns.{due_of, IsDue, NoneDue, expected_of, wrong_class, publish_fault, IsExpected, NoneExpected, IsRising};

use crate::price_sheet::{NoSheet, Opening, Patch, PublishFault, Sheet};
use crate::{correcting, expecting, next_price, room};
use fund_calendar::{Calendar, Day};
use money_units::{Moment, Nav, NoMemory};
use std::alloc::Global;
use std::marker::Model;

/// The calendars of the funds, the openings of their classes, the published sheets, and room for more.
///
/// Contracts see the table of these, `spare`, how many calendars or classes more take no memory, and `list`, how many
/// prices the list of the next sheet may have without any.
#[derive(Drop)]
pub struct PriceBook {
    calendars: Vec<Calendar>,
    classes: Vec<Opening>,
    sheets: Vec<Sheet>,
    // The memory of the next sheet's list, and how many prices of it were reserved.
    room: Vec<(u32, Nav)>,
    list: usize,
    spare: usize,
    // No pricing moment up to this one is awaited.
    passed: Moment,
    // Where it is set, no sheet's moment is before that of a sheet published earlier, so that prices are found by search.
    in_order: bool,
}

impl Model for PriceBook {
    ghost use Rattle.forward_price.specs.PriceTables.{Book};

    ghost Value = { Book };

    ghost use Rattle.forward_price.specs.Kept.{KeepsBook};

    ghost view = { λ book. record {
      table = record {
        calendars = book.calendars.items;
        classes = book.classes.items;
        sheets = book.sheets.items;
      };
      spare = book.spare;
      list = book.list;
    } };

    ghost invariant = { KeepsBook };
}

impl PriceBook {
    /// A book without calendars, classes and sheets, and without room.
    #[tactic(auto, using(crate::proofs::TurnFacts::none_passed, crate::proofs::NumberFacts::none_numbered))]
    pub fn new(alloc: Global) -> Result<PriceBook, NoMemory>
        ensures { IfOk result (λ book. book ≡ empty_book) }
    {
        Ok(PriceBook {
            calendars: Vec::new(alloc),
            classes: Vec::new(alloc),
            sheets: Vec::new(alloc),
            room: Vec::new(alloc),
            list: 0,
            spare: 0,
            passed: Moment::start(),
            in_order: true,
        })
    }

    /// The due moment of an order of these classes, which are of one calendar, with this receipt: the first pricing
    /// moment greater than the receipt and than the opening of each of the classes; `None` exactly where the
    /// calendar has no such moment.
    pub fn due(&self, classes: &[u32], receipt: Moment) -> Option<Moment>
        ensures computed { result ≡ due_of self.now.table classes.now receipt }
        ensures least { IfSome result (IsDue self.now.table classes.now receipt) }
        ensures none { IfNone result (NoneDue self.now.table classes.now receipt) }
    {
        expecting::due(&self.calendars, &self.classes, classes, receipt)
    }

    /// The pricing moment and the calendar of the expected sheet; `None` exactly where none is expected.
    pub fn expected(&self) -> Option<(Moment, u32)>
        ensures computed { result ≡ expected_of self.now.table }
        ensures least { IfSome result (λ pair. IsExpected self.now.table pair) }
        ensures none { IfNone result (NoneExpected self.now.table) }
    {
        expecting::expected(&self.calendars, &self.classes, &self.sheets, self.passed)
    }

    /// Whether a sheet may be published now: it is the expected one, its list is complete, and its moment isn't to come.
    /// The faults are tried in the order of their list.
    pub fn test(
        &self,
        calendar: u32,
        moment: Moment,
        prices: &[(u32, Nav)],
        now: Moment,
    ) -> Result<(), PublishFault>
        ensures ok { IfOk result (λ _. publish_fault self.now.table calendar moment prices.now now
            ≡ None) }
        ensures in_turn { IfOk result (λ _. expected_of self.now.table ≡ Some (moment, calendar)) }
        ensures complete { IfOk result
            (λ _. wrong_class self.now.table.classes calendar moment prices.now ≡ None) }
        ensures refused { IfErr result
            (λ fault. publish_fault self.now.table calendar moment prices.now now ≡ Some fault) }
    {
        let expected = self.expected();
        let wrong = expecting::wrong_class(&self.classes, calendar, moment, prices);
        match expecting::fault_of(expected, wrong, calendar, moment, now) {
            None => Ok(()),
            Some(fault) => Err(fault),
        }
    }

    /// The sheet of this number; `None` exactly where there is no such sheet.
    pub fn sheet(&self, number: u32) -> Option<&Sheet>
        ensures { option_copied result ≡ sheet_numbered self.now.table.sheets number }
    {
        next_price::sheet_numbered(&self.sheets, number)
    }

    /// The number of the sheet of a pricing moment; `None` exactly where there is no such sheet.
    pub fn sheet_at(&self, calendar: u32, moment: Moment) -> Option<u32>
        ensures { result ≡ number_at self.now.table.sheets calendar moment }
    {
        next_price::number_at(&self.sheets, calendar, moment)
    }

    /// The calendar of this number; `None` exactly where there is no such calendar.
    pub fn calendar(&self, number: u32) -> Option<&Calendar>
        ensures { option_copied result ≡ calendar_numbered self.now.table.calendars number }
    {
        expecting::calendar_numbered(&self.calendars, number)
    }

    /// The opening of the class of this number; `None` exactly where there is no such class.
    pub fn opening(&self, class: u32) -> Option<&Opening>
        ensures { option_copied result ≡ class_opened self.now.table.classes class }
    {
        self.classes.iter().find(|opening| opening.class == class)
    }

    /// The published sheets in order of publication, which are numbered from 1.
    pub fn sheets(&self) -> &[Sheet]
        ensures sheets { result.now ≡ self.now.table.sheets }
        ensures numbered { AreNumbered self.now.table.sheets }
    {
        self.sheets.as_slice()
    }

    /// The number of the sheet that prices an order of these classes with this receipt; `None` exactly while it is
    /// pending.
    pub fn first_after(&self, receipt: Moment, classes: &[u32]) -> Option<u32>
        ensures computed { result ≡ option_map
            (λ sheet. sheet.number) (next_sheet self.now.table.sheets classes.now receipt) }
        ensures next { IfSome result (IsPricedBy self.now.table.sheets classes.now receipt) }
        ensures pending { IfNone result (IsPending self.now.table.sheets classes.now receipt) }
    {
        match next_price::next_sheet(&self.sheets, self.in_order, classes, receipt) {
            Some(sheet) => Some(sheet.number),
            None => None,
        }
    }

    /// The net asset value of a class on the sheet of this number, under a correction on trial; `None` exactly where
    /// that sheet doesn't list the class.
    pub fn price(&self, patch: Option<Patch>, sheet: u32, class: u32) -> Option<Nav>
        ensures { result ≡ price_on (sheets_on_trial patch self.now.table.sheets) sheet class }
    {
        next_price::price(patch, &self.sheets, sheet, class)
    }

    /// The last net asset value of a class on a sheet with a smaller moment, under a correction on trial; `None` exactly
    /// where no such sheet lists the class.
    pub fn last_before(&self, patch: Option<Patch>, class: u32, moment: Moment) -> Option<Nav>
        ensures { result ≡ price_before (sheets_on_trial patch self.now.table.sheets) class moment }
    {
        next_price::last_before(patch, &self.sheets, self.in_order, class, moment)
    }
}

impl PriceBook {
    /// Makes room for so many calendars or classes, and for a sheet of so many prices. Room that is there stays.
    pub fn reserve(&mut self, classes: u32) -> Result<(), NoMemory>
        ensures ok { OnOk result (classes ≤ self.new.spare) }
        ensures list { OnOk result (classes ≤ self.new.list) }
        ensures kept { self.old.spare ≤ self.new.spare }
        ensures list_kept { self.old.list ≤ self.new.list }
        ensures table { self.new.table ≡ self.old.table }
        ensures unchanged { OnErr result (self.new ≡ self.old) }
    {
        let spare = (classes as usize).max(self.spare);
        let list = (classes as usize).max(self.list);
        self.calendars.reserve(spare)?;
        self.classes.reserve(spare)?;
        self.sheets.reserve(1)?;
        self.room.reserve(list)?;
        self.spare = spare;
        self.list = list;
        Ok(())
    }

    /// Adds a calendar, whose number is new. It takes no memory and 1 of the spare room.
    pub fn add_calendar(&mut self, calendar: Calendar)
        requires new { calendar_numbered self.old.table.calendars calendar.number ≡ None }
        requires room { 1 ≤ self.old.spare }
        ensures table { self.new.table ≡ with_calendar self.old.table calendar }
        ensures spare { self.new.spare + 1 ≡ self.old.spare }
        ensures list { self.new.list ≡ self.old.list }
    {
        self.calendars.push_reserved(calendar);
        self.spare -= 1;
        self.passed = Moment::start();
    }

    /// Adds a class of a calendar, opened at this moment. Its number is new and the calendar is known. It takes no memory
    /// and 1 of the spare room.
    pub fn add_class(&mut self, class: u32, calendar: u32, opened: Moment)
        requires new { class_opened self.old.table.classes class ≡ None }
        requires calendar { is_some (calendar_numbered self.old.table.calendars calendar) ≡ true }
        requires room { 1 ≤ self.old.spare }
        ensures table { self.new.table ≡ with_class self.old.table class calendar opened }
        ensures spare { self.new.spare + 1 ≡ self.old.spare }
        ensures list { self.new.list ≡ self.old.list }
    {
        self.classes.push_reserved(Opening {
            class,
            calendar,
            opened,
        });
        self.spare -= 1;
        self.passed = Moment::start();
    }

    /// Takes a pricing day of a calendar away. False, and nothing changed, exactly where the day isn't listed.
    pub fn close_day(&mut self, calendar: u32, day: Day) -> bool
        ensures answer { result ≡ is_priced self.old.table.calendars calendar day }
        ensures closed { self.new ≡ with_table self.old
            (without_day_of self.old.table calendar day) }
        ensures unchanged { OnFalse result (self.new ≡ self.old) }
    {
        self.passed = Moment::start();
        correcting::close_day(&mut self.calendars, calendar, day)
    }

    /// Publishes the expected sheet with a complete list, and answers its number. It takes no memory but the room for
    /// the list; what is spare for calendars and classes stays.
    pub fn publish(&mut self, calendar: u32, moment: Moment, prices: &[(u32, Nav)]) -> u32
        requires expected { expected_of self.old.table ≡ Some (moment, calendar) }
        requires complete { wrong_class self.old.table.classes calendar moment prices.now ≡ None }
        requires rises { IsRising prices.now }
        requires room { length prices.now ≤ self.old.list }
        requires count { length self.old.table.sheets < 4294967295 }
        ensures number { result ≡ length self.old.table.sheets + 1 }
        ensures table { self.new.table ≡ with_published self.old.table calendar moment prices.now }
        ensures spare { self.new.spare ≡ self.old.spare }
        ensures room { self.new ≡ published_book self.old calendar moment prices.now }
    {
        let number = self.sheets.len() as u32 + 1;
        let day = expecting::date_priced(&self.calendars, calendar, moment);
        let in_order = next_price::stays_in_order(self.in_order, &self.sheets, moment);
        let prices = room::filled(&mut self.room, prices);
        self.sheets.push_reserved(Sheet {
            number,
            calendar,
            moment,
            day,
            prices,
        });
        self.list = 0;
        self.in_order = in_order;
        self.passed = moment.earlier(1);
        number
    }

    /// Takes back the last sheet and gives back the room of its list. False, and nothing changed, exactly where there
    /// is no sheet.
    pub fn withdraw(&mut self) -> bool
        ensures answer { result ≡ nat_lt 0 (length self.old.table.sheets) }
        ensures withdrawn { self.new ≡ withdrawn_book self.old }
        ensures unchanged { OnFalse result (self.new ≡ self.old) }
    {
        self.passed = Moment::start();
        match self.sheets.pop() {
            Some(sheet) => {
                self.list = room::given_back(&mut self.room, self.list, sheet.prices);
                true
            }
            None => false,
        }
    }

    /// Gives a class another net asset value on the sheet of this number. `NoSheet`, and nothing changed, exactly where
    /// that sheet doesn't list the class.
    pub fn correct(&mut self, class: u32, sheet: u32, nav: Nav) -> Result<(), NoSheet>
        ensures ok { IfOk result (λ _. is_some (price_on self.old.table.sheets sheet class)
            ≡ true) }
        ensures refused { OnErr result (price_on self.old.table.sheets sheet class ≡ None) }
        ensures corrected { OnOk result (self.new
            ≡ with_table self.old (with_correction self.old.table class sheet nav)) }
        ensures unchanged { OnErr result (self.new ≡ self.old) }
    {
        if self.price(None, sheet, class).is_none() {
            return Err(NoSheet);
        }
        let alloc = *self.sheets.allocator();
        correcting::correct_sheets(alloc, &mut self.sheets, class, sheet, nav);
        Ok(())
    }
}
