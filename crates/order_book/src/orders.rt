//! The orders as corrected, in the order of their first events.
ghost use Rattle.std.specs.Prelude.{◌≡◌, ◌≤◌, ◌<◌, ◌+◌, ◌++◌, ◌∷◌, [], ℕ, List, OnOk, false, length, nat_eq, option_and_then, slice_get};
ghost use Rattle.std.specs.HashMap.{get};
ghost use Rattle.order_book.specs.Books.{Fits};
ghost use Rattle.order_book.specs.Orders.{KeepsOrders, KeepsNames, HasOrderRoom, as_struck, as_replaced, changed_at, changed_where, name_of, same_name};
ghost use Rattle.order_book.specs.declared.order_index.OrderName.{OrderName as Name};
ghost use Rattle.register_machine.specs.journal.Journals.{Journal, with_event};

use crate::order_index::{OrderIndex, OrderName};
use crate::room::push_within;
use agent_events::{EntryForm, EventKind, Identifier, Order, OrderRow, Reference};
use money_units::{Moment, NoMemory};
use std::alloc::Global;

/// The orders with their index.
#[derive(Drop)]
pub struct Orders {
    rows: Vec<OrderRow>,
    index: OrderIndex,
}

impl Orders {
    pub fn new(alloc: Global) -> Orders
        ensures { KeepsOrders result [] }
    {
        Orders {
            rows: Vec::new(alloc),
            index: OrderIndex::new(alloc),
        }
    }

    /// All orders.
    pub fn rows(&self) -> &[OrderRow]
        ensures { result.now ≡ self.now.rows.items }
    {
        self.rows.as_slice()
    }

    /// The place of the order of this name.
    pub fn place(&self, name: OrderName) -> Option<usize>
        ensures { result ≡ get same_name self.now.index.places name }
    {
        self.index.place(name)
    }

    /// The place of the last order of an account.
    pub fn last(&self, account: u32) -> Option<usize>
        ensures { result ≡ get nat_eq self.now.index.last account }
    {
        self.index.last(account)
    }

    /// The place of the order of the same account before the one at a place.
    pub fn earlier(&self, place: usize) -> Option<usize>
        ensures { result ≡ option_and_then (λ found. found)
            (slice_get self.now.index.earlier.items place) }
    {
        self.index.earlier(place)
    }

    /// Takes the memory for so many events.
    pub fn reserve(&mut self, events: usize) -> Result<(), NoMemory>
        ensures same { (journal : Journal) → KeepsOrders self.old journal
            → KeepsOrders self.new journal }
        ensures room { OnOk result (HasOrderRoom self.new events) }
        ensures kept { (n : ℕ) → HasOrderRoom self.old n → HasOrderRoom self.new n }
    {
        self.rows.reserve(events)?;
        self.index.reserve(events)
    }

    /// Takes in what an event at this place begins, strikes or replaces.
    pub fn take(&mut self, kind: &EventKind, place: u64)
        requires { HasOrderRoom self.old 1 }
        ensures kept { (journal : Journal) (moment : ℕ) → place ≡ length journal
            → KeepsOrders self.old journal
            → Fits journal (record { moment = moment; kind = kind.now })
            → KeepsOrders self.new
            (with_event journal (record { moment = moment; kind = kind.now })) }
        ensures room { (n : ℕ) → HasOrderRoom self.old (n + 1) → HasOrderRoom self.new n }
    {
        match kind {
            EventKind::Order(placed) => self.begin(&row_as_sent(
                place,
                placed.receipt,
                placed.order,
            )),
            EventKind::Enter(form) => self.begin(&row_as_sent(place, form.receipt, form.order)),
            EventKind::Cancel(form) => self.strike(name_by(form.account, form.target)),
            EventKind::Void(form) => self.strike(name_by(form.account, form.ref_no)),
            EventKind::Replace(form) => self.replace(form),
            _ => {}
        }
    }

    fn begin(&mut self, row: &OrderRow)
        requires { HasOrderRoom self.old 1 }
        ensures rows { self.new.rows.items ≡ self.old.rows.items ++ row.now ∷ [] }
        ensures names { (names : List Name) → length self.old.rows.items ≡ length names
            → KeepsNames self.old.index names
            → KeepsNames self.new.index (names ++ name_of row.now ∷ []) }
        ensures above { 0 < row.now.order.ref_no }
        ensures room { (n : ℕ) → HasOrderRoom self.old (n + 1) → HasOrderRoom self.new n }
    {
        let name = name_by(row.order.account, row.order.ref_no);
        let place = self.rows.len();
        self.index.push(name, place);
        push_within(&mut self.rows, row);
    }

    fn strike(&mut self, name: OrderName)
        ensures rows { self.new.rows.items
            ≡ changed_where as_struck (get same_name self.old.index.places name)
            self.old.rows.items }
        ensures index { self.new.index ≡ self.old.index }
        ensures room { (n : ℕ) → HasOrderRoom self.old n → HasOrderRoom self.new n }
    {
        if let Some(place) = self.index.place(name) {
            strike_at(&mut self.rows, place);
        }
    }

    fn replace(&mut self, form: &EntryForm)
        ensures rows { self.new.rows.items
            ≡ changed_where (as_replaced form.now)
            (get same_name self.old.index.places
            (record { account = form.now.order.account; ref_no = form.now.order.ref_no }))
            self.old.rows.items }
        ensures index { self.new.index ≡ self.old.index }
        ensures room { (n : ℕ) → HasOrderRoom self.old n → HasOrderRoom self.new n }
    {
        if let Some(place) = self
            .index
            .place(name_by(form.order.account, form.order.ref_no))
        {
            replace_at(&mut self.rows, place, form);
        }
    }
}

fn row_as_sent(place: u64, receipt: Moment, order: Order) -> OrderRow
    ensures { result ≡ record { place = place; receipt = receipt; struck = false; order = order } }
{
    OrderRow {
        place,
        receipt,
        struck: false,
        order,
    }
}

fn name_by(account: Identifier, ref_no: Reference) -> OrderName
    ensures same { result ≡ record { account = account; ref_no = ref_no } }
    ensures above { 0 < ref_no }
{
    OrderName {
        account: account.number(),
        ref_no: ref_no.number(),
    }
}

fn strike_at(rows: &mut [OrderRow], place: usize)
    ensures { rows.new ≡ changed_at as_struck place rows.old }
{
    if place < rows.len() {
        let row = rows[place];
        rows[place] = OrderRow {
            struck: true,
            ..row
        };
    }
}

fn replace_at(rows: &mut [OrderRow], place: usize, form: &EntryForm)
    ensures { rows.new ≡ changed_at (as_replaced form.now) place rows.old }
{
    if place < rows.len() {
        let row = rows[place];
        rows[place] = OrderRow {
            receipt: form.receipt,
            order: form.order,
            ..row
        };
    }
}
