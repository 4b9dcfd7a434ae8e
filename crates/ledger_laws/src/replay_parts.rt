//! Laws of a household's steps by facts: what they make of its part, from sheet to sheet.
ghost use Rattle.std.specs.Prelude.{List, ℕ};
ghost use Rattle.forward_price.specs.declared.price_sheet.Sheet.{Sheet};
ghost use Rattle.household_fold.specs.Facts.{Known};
ghost use Rattle.checkpoint_replay.specs.Replays.{NumberedOrder};
ghost use Rattle.register_machine.specs.pricing.CorrectedBook.{Book};
ghost use Rattle.register_machine.specs.replay.Trades.{Day};
ghost use Rattle.ledger_laws.specs.OrderRows.{RowsOfPartAreItsOrders, RowsOfSheetAreOfHouseholds, RowsStandSheetBySheet};
ghost use Rattle.ledger_laws.specs.PartsByFacts.{FactsReplayPart, SheetsGiveFacts, StandsInOrder, StepsAsPart};

/// Where facts agree with a book and have the sheet at hand, a household's step over its own orders on the sheet, in turn,
/// makes of its part what the sheet makes of all.
#[tactic(auto, using(crate::proofs::StepsAsPart::steps_as_part))]
pub fn steps_go_as_the_part_goes()
    ensures { (book : Book) (known : Known) (household : ℕ) (sheet : Sheet) (day : Day)
        → StepsAsPart book known household sheet day }
{}

/// So over all sheets, from the first one and from any other on: where the facts have each sheet at hand under its number, and
/// the orders under that number are the household's on the sheet, in turn, the household's days are its part of the replay.
pub fn days_go_as_the_part_goes()
    ensures { (known : Known) (rows : List NumberedOrder) (book : Book) (household : ℕ)
        → FactsReplayPart known rows book household }
{}

/// Facts have each sheet of a book at hand under its number where their sheets, with the correction on trial, are the book's, and
/// these are numbered from 1 on.
#[tactic(auto, using(crate::proofs::ReplaysAsPart::sheets_give_facts))]
pub fn facts_have_the_sheets_at_hand()
    ensures { (known : Known) (book : Book) → SheetsGiveFacts known book }
{}

/// The register of every replay stands in order.
pub fn replayed_registers_stand_in_order()
    ensures { (book : Book) (sheets : List Sheet) → StandsInOrder book sheets }
{}

/// A household's standing orders in turn, each under the number of the sheet that prices it, are under each sheet's number its
/// orders on that sheet, in turn.
#[tactic(auto, using(crate::proofs::OrderRows::rows_by_sheets))]
pub fn orders_stand_under_their_sheets()
    ensures { (book : Book) (household : ℕ) → RowsOfPartAreItsOrders book household }
{}

/// So are those on each sheet, sheet by sheet, under its number, and their numbers never fall.
pub fn orders_stand_sheet_by_sheet()
    ensures { (book : Book) (household : ℕ) → RowsStandSheetBySheet book household }
{}

/// And a sheet's orders in turn, each under the number of its account's household, are under each household's number its orders
/// on the sheet, in turn.
#[tactic(auto, using(crate::proofs::OrderRows::rows_by_households))]
pub fn orders_stand_under_their_households()
    ensures { (book : Book) (sheet : Sheet) (household : ℕ)
        → RowsOfSheetAreOfHouseholds book sheet household }
{}
