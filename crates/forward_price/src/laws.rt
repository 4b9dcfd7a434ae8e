//! Laws of the price book in the trade's words. Each function is empty: its clauses hold of the definitions.
ghost use Rattle.std.specs.Prelude.{◌≡◌, ◌<◌, ℕ, List, [], ◌++◌, length, nat_lt, Some, None, option_map};
ghost use Rattle.fund_calendar.specs.PricingDays.{Listing};
ghost use Rattle.forward_price.specs.declared.price_sheet.Opening.{Opening};
ghost use Rattle.forward_price.specs.declared.price_sheet.Sheet.{Sheet};
ghost use Rattle.forward_price.specs.declared.price_sheet.Patch.{Patch};
ghost use Rattle.forward_price.specs.PriceTables.{Table, Book, published_book, withdrawn_book, next_sheet, sheet_before, LastPrice, price_on, sheets_on_trial, with_calendar, with_class, with_published, without_last, with_correction, without_day_of, calendar_numbered, class_opened};
ghost use Rattle.forward_price.specs.Choices.{IsBest};
ghost use Rattle.forward_price.specs.Turns.{due_of, IsRising, IsComplete, is_wrong, wrong_class, class_numbers, price_numbers};
ghost use Rattle.forward_price.specs.Orderly.{IsOrderly, IsInTurn, OpensAfter, AreOnPricingDays};

/// Where an order has its sheet, that sheet's moment is its due moment: no pricing moment between was passed over.
#[tactic(auto, using(crate::proofs::OrderlyFacts::priced_when_due))]
pub fn orders_are_priced_when_due()
    ensures { (t : Table) (asked : List ℕ) (receipt : ℕ) (sheet : Sheet) → IsOrderly t
        → 0 < length asked → next_sheet t.sheets asked receipt ≡ Some sheet
        → due_of t asked receipt ≡ Some sheet.moment }
{}

/// A later sheet, calendar, class or closure never changes the sheet of a priced order, and a corrected net asset value
/// changes no order's sheet.
pub fn priced_orders_stay()
    ensures sheet { (t : Table) (calendar moment : ℕ) (prices : List (ℕ × ℕ)) (asked : List ℕ)
        (receipt : ℕ) (sheet : Sheet) → IsOrderly t → IsInTurn t calendar moment prices
        → 0 < length asked → next_sheet t.sheets asked receipt ≡ Some sheet
        → next_sheet (with_published t calendar moment prices).sheets asked receipt ≡ Some sheet }
    ensures calendar { (t : Table) (added : Listing) (asked : List ℕ) (receipt : ℕ)
        → next_sheet (with_calendar t added).sheets asked receipt
        ≡ next_sheet t.sheets asked receipt }
    ensures class { (t : Table) (class calendar opened : ℕ) (asked : List ℕ) (receipt : ℕ)
        → next_sheet (with_class t class calendar opened).sheets asked receipt
        ≡ next_sheet t.sheets asked receipt }
    ensures closure { (t : Table) (calendar day : ℕ) (asked : List ℕ) (receipt : ℕ)
        → next_sheet (without_day_of t calendar day).sheets asked receipt
        ≡ next_sheet t.sheets asked receipt }
    ensures correction { (t : Table) (class number nav : ℕ) (asked : List ℕ) (receipt : ℕ)
        → option_map (λ sheet. sheet.number)
        (next_sheet (with_correction t class number nav).sheets asked receipt)
        ≡ option_map (λ sheet. sheet.number) (next_sheet t.sheets asked receipt) }
{}

/// What was published last is taken back whole, and what is spare stays. The room of the next list is then as large as
/// the list that was taken back: the book is as it was where the list took all that was reserved.
#[tactic(auto, using(crate::proofs::RoomFacts::table_back, crate::proofs::RoomFacts::room_back, crate::proofs::RoomFacts::room_whole))]
pub fn withdrawn_as_before()
    ensures table { (t : Table) (calendar moment : ℕ) (prices : List (ℕ × ℕ))
        → without_last (with_published t calendar moment prices) ≡ t }
    ensures room { (book : Book) (calendar moment : ℕ) (prices : List (ℕ × ℕ))
        → withdrawn_book (published_book book calendar moment prices)
        ≡ record book { list = length prices } }
    ensures whole { (book : Book) (calendar moment : ℕ) (prices : List (ℕ × ℕ))
        → book.list ≡ length prices
        → withdrawn_book (published_book book calendar moment prices) ≡ book }
{}

/// A list is complete exactly where no class is missing or too many; else the class that is named is the least of those.
pub fn complete_lists_have_no_wrong_class()
    ensures complete { (classes : List Opening) (calendar moment : ℕ) (prices : List (ℕ × ℕ))
        → IsRising prices → wrong_class classes calendar moment prices ≡ None
        → IsComplete classes calendar moment prices }
    ensures none_wrong { (classes : List Opening) (calendar moment : ℕ)
        (prices : List (ℕ × ℕ)) → IsComplete classes calendar moment prices
        → wrong_class classes calendar moment prices ≡ None }
    ensures least { (classes : List Opening) (calendar moment : ℕ) (prices : List (ℕ × ℕ))
        (class : ℕ) → wrong_class classes calendar moment prices ≡ Some class
        → IsBest (is_wrong classes calendar moment prices) nat_lt
        (class_numbers classes ++ price_numbers prices) class }
{}

/// A correction on trial is read for its class and sheet alone, and as it will stand once it is made.
#[tactic(auto, using(crate::proofs::LawFacts::as_made, crate::proofs::LawFacts::other_class, crate::proofs::LawFacts::other_sheet))]
pub fn trial_is_read_alone()
    ensures made { (patch : Patch) (t : Table) (number class : ℕ)
        → price_on (sheets_on_trial (Some patch) t.sheets) number class
        ≡ price_on (with_correction t patch.class patch.sheet patch.nav).sheets number class }
    ensures other_class { (patch : Patch) (sheets : List Sheet) (number class : ℕ)
        → (class ≡ patch.class → ⊥) → price_on (sheets_on_trial (Some patch) sheets) number class
        ≡ price_on sheets number class }
    ensures other_sheet { (patch : Patch) (sheets : List Sheet) (number class : ℕ)
        → (number ≡ patch.sheet → ⊥) → price_on (sheets_on_trial (Some patch) sheets) number class
        ≡ price_on sheets number class }
{}

/// The last price is that of the latest sheet before a moment that lists the class.
pub fn last_price_is_the_latest()
    ensures { (sheets : List Sheet) (class moment : ℕ) (sheet : Sheet)
        → sheet_before sheets class moment ≡ Some sheet → LastPrice sheets class moment sheet }
{}

/// Every price book whose calls keep to the order of time is orderly: it begins so, and stays so under a new calendar, a
/// class that opens no earlier than the sheets of its calendar, a closure of a day without a sheet, a sheet in its turn,
/// and its withdrawal.
pub fn books_stay_orderly()
    ensures empty { IsOrderly (record { calendars = []; classes = []; sheets = [] }) }
    ensures calendar { (t : Table) (added : Listing) → IsOrderly t
        → calendar_numbered t.calendars added.number ≡ None → IsOrderly (with_calendar t added) }
    ensures class { (t : Table) (class calendar opened : ℕ) → IsOrderly t
        → class_opened t.classes class ≡ None → OpensAfter t.sheets calendar opened
        → IsOrderly (with_class t class calendar opened) }
    ensures closure { (t : Table) (calendar day : ℕ) → IsOrderly t
        → AreOnPricingDays (without_day_of t calendar day).calendars t.sheets
        → IsOrderly (without_day_of t calendar day) }
    ensures sheet { (t : Table) (calendar moment : ℕ) (prices : List (ℕ × ℕ)) → IsOrderly t
        → IsInTurn t calendar moment prices → IsOrderly (with_published t calendar moment prices) }
    ensures withdrawal { (t : Table) → IsOrderly t → IsOrderly (without_last t) }
    ensures correction { (t : Table) (class number nav : ℕ) → IsOrderly t
        → IsOrderly (with_correction t class number nav) }
{}
