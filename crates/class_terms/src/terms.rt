//! Terms that were checked.
ghost use Rattle.std.specs.Prelude.{◌≡◌, ◌≤◌, None, All};
ghost use Rattle.class_terms.specs.Tables.{front_fault, deferred_fault};

use crate::form::TermsForm;
use crate::lists::{Brackets, Label, Schedule};
use money_units::{Cents, List};
use std::marker::Model;

/// The terms of a class, checked: contracts see the form that they came from, whose tables of loads are lawful.
#[derive(Debug, Drop)]
pub struct Terms {
    form: TermsForm,
}

impl Model for Terms {
    ghost use Rattle.std.specs.Prelude.{◌≡◌, None};
    ghost use Rattle.class_terms.specs.declared.form.TermsForm.{TermsForm};

    ghost Value = { TermsForm };

    ghost use Rattle.class_terms.specs.Tables.{front_fault, deferred_fault};

    ghost view = { λ terms. terms.form };

    ghost invariant = { λ terms. (front_fault terms.form.front ≡ None)
        × (deferred_fault terms.form.deferred ≡ None) };
}

impl Terms {
    pub(crate) fn new(form: TermsForm) -> Terms
        requires front { front_fault form.front ≡ None }
        requires deferred { deferred_fault form.deferred ≡ None }
        ensures { result ≡ form }
    {
        Terms { form }
    }

    /// The number of the class.
    pub fn class(&self) -> u32
        ensures { result ≡ self.now.class }
    {
        self.form.class
    }

    /// The number of the calendar by which it is priced.
    pub fn calendar(&self) -> u32
        ensures { result ≡ self.now.calendar }
    {
        self.form.calendar
    }

    /// The number of the fund.
    pub fn fund(&self) -> u32
        ensures { result ≡ self.now.fund }
    {
        self.form.fund
    }

    /// The name of the class.
    pub fn name(&self) -> &Label
        ensures { result.now ≡ self.now.name }
    {
        &self.form.name
    }

    /// The number of the family within which shares are exchanged without charge, 0 for none.
    pub fn family(&self) -> u32
        ensures { result ≡ self.now.family }
    {
        self.form.family
    }

    /// Whether its shares count towards the breakpoints of a household.
    pub fn counts(&self) -> bool
        ensures { result ≡ self.now.counts }
    {
        self.form.counts
    }

    /// The least first purchase of an account.
    pub fn first_min(&self) -> Cents
        ensures { result ≡ self.now.first_min }
    {
        self.form.first_min
    }

    /// The least later purchase of an account.
    pub fn later_min(&self) -> Cents
        ensures { result ≡ self.now.later_min }
    {
        self.form.later_min
    }

    /// The table of front-end loads.
    pub fn front(&self) -> &Brackets
        ensures value { result.now ≡ self.now.front }
        ensures lawful { front_fault self.now.front ≡ None }
        ensures ceiling { All (λ row. row.rate ≤ 850) self.now.front }
    {
        &self.form.front
    }

    /// The schedule of deferred loads.
    pub fn deferred(&self) -> &Schedule
        ensures value { result.now ≡ self.now.deferred }
        ensures lawful { deferred_fault self.now.deferred ≡ None }
        ensures ceiling { All (λ rate. rate ≤ 850) self.now.deferred }
    {
        &self.form.deferred
    }
}

/// The terms of the classes of a transfer agent.
pub type TermsTable = List<Terms>;
