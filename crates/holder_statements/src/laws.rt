//! Laws of statements in plain words. Each function is empty: its clauses hold of the definitions.
ghost use Rattle.std.specs.Prelude.{Bool, List, ℕ};
ghost use Rattle.agent_events.specs.declared.request.StatementForm.{StatementForm};
ghost use Rattle.agent_events.specs.declared.trade.Trade.{Trade};
ghost use Rattle.forward_price.specs.declared.price_sheet.Sheet.{Sheet};
ghost use Rattle.register_machine.specs.pricing.CorrectedBook.{Book};
ghost use Rattle.register_machine.specs.replay.Trades.{Day};
ghost use Rattle.holder_statements.specs.Alike.{PartTellsAll, StatedAlike};
ghost use Rattle.holder_statements.specs.Periods.{PartIsDated, ReplayIsDated};

/// A statement reads nothing of a book but its sheets and the names of its classes, and nothing of a day but the positions and
/// trades of its account.
#[tactic(auto, using(crate::proofs::AlikeStatements::stated_alike))]
pub fn statements_read_their_account_alone()
    ensures { (book other : Book) (form : StatementForm) (name : List ℕ) (day other_day : Day)
        → StatedAlike book other form name day other_day }
{}

/// So the statement of an account is told from its household's part of the register and the trades alone.
pub fn parts_tell_all_of_their_accounts()
    ensures { (is_own : ℕ → Bool) (account : ℕ) (day : Day) → PartTellsAll is_own account day }
{}

/// Over sheets whose moments never fall, each dated at most three days from its moment, the trades of a replay are dated so.
pub fn trades_of_replays_are_dated()
    ensures { (book : Book) (sheets : List Sheet) → ReplayIsDated book sheets }
{}

/// And so are some of them in their order, as those of a household.
pub fn parts_of_trades_are_dated()
    ensures { (is_of : Trade → Bool) (trades : List Trade) → PartIsDated is_of trades }
{}
