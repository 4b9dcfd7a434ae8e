//! Laws of the replay of a household, for those who call it.
ghost use Rattle.std.specs.Prelude.{◌≡◌, ◌↔◌, ◌+◌, ◌++◌, ◌<◌, ◌≤◌, List, ℕ};
ghost use Rattle.agent_events.specs.declared.order.Order.{Order};
ghost use Rattle.household_fold.specs.Facts.{Known};
ghost use Rattle.household_fold.specs.Households.{AreOwned, first_of};
ghost use Rattle.household_fold.specs.Numbers.{AreNumbersWithin};
ghost use Rattle.register_machine.specs.replay.Positions.{Register};
ghost use Rattle.register_machine.specs.replay.Trades.{Day};
ghost use Rattle.checkpoint_replay.specs.BusySheets.{busy_sheets};
ghost use Rattle.checkpoint_replay.specs.Premises.{CanBeReplayed};
ghost use Rattle.checkpoint_replay.specs.Replays.{NumberedOrder, day_behind, days_behind, known_on, orders_under};

/// A replay over some sheets and then over more is one replay over all of them.
#[tactic(auto, using(crate::proofs::DayFacts::days_split))]
pub fn a_replay_goes_in_parts()
    ensures { (known : Known) (rows : List NumberedOrder) (from first more : ℕ) (day : Day)
        → days_behind known rows from (first + more) day
        ≡ days_behind known rows (from + first) more (days_behind known rows from first day) }
{}

/// Trades only grow: a replay from a day leaves the register that a replay from its register leaves, and that one's trades
/// behind those of the day.
#[tactic(auto, using(crate::proofs::DayFacts::days_from))]
pub fn trades_only_grow()
    ensures register { (known : Known) (rows : List NumberedOrder) (from count : ℕ) (day : Day)
        → (days_behind known rows from count day).register
        ≡ (days_behind known rows from count (first_of day.register)).register }
    ensures trades { (known : Known) (rows : List NumberedOrder) (from count : ℕ) (day : Day)
        → (days_behind known rows from count day).trades
        ≡ day.trades ++ (days_behind known rows from count (first_of day.register)).trades }
    ensures sheet { (known : Known) (orders : List Order) (day : Day)
        → (day_behind known orders day).trades
        ≡ day.trades ++ (day_behind known orders (first_of day.register)).trades }
{}

/// A replay reads the orders of its own sheets alone, and not which sheet the facts have at hand.
#[tactic(auto, using(crate::proofs::DayFacts::days_alike, crate::proofs::DayFacts::days_on))]
pub fn a_replay_reads_its_sheets_alone()
    ensures orders { (known : Known) (rows others : List NumberedOrder) (from count : ℕ)
        → ((sheet : ℕ) → from < sheet → sheet ≤ from + count
        → orders_under sheet rows ≡ orders_under sheet others)
        → (day : Day)
        → days_behind known rows from count day ≡ days_behind known others from count day }
    ensures at_hand { (known : Known) (rows : List NumberedOrder) (sheet from count : ℕ) (day : Day)
        → days_behind (known_on known sheet) rows from count day
        ≡ days_behind known rows from count day }
{}

/// Of its sheets a replay takes a step over those that aren't quiet; where all are, it changes nothing.
pub fn quiet_sheets_change_nothing()
    ensures most { (known : Known) (rows : List NumberedOrder) (from count : ℕ) (day : Day)
        → busy_sheets known rows from count day ≤ count }
    ensures same { (known : Known) (rows : List NumberedOrder) (from count : ℕ) (day : Day)
        → busy_sheets known rows from count day ≡ 0
        → days_behind known rows from count day ≡ day }
{}

/// Whose the positions are doesn't depend on the sheet at hand.
#[tactic(auto, using(crate::proofs::PremiseFacts::owned_off, crate::proofs::PremiseFacts::owned_on))]
pub fn owners_depend_on_no_sheet()
    ensures { (known : Known) (sheet household : ℕ) (register : Register)
        → AreOwned (known_on known sheet) household register ↔ AreOwned known household register }
{}

/// What can be replayed over some sheets and then more can be replayed over each of the two.
pub fn what_can_be_replayed_can_in_parts()
    ensures first { (known : Known) (household : ℕ) (rows : List NumberedOrder)
        (from first more : ℕ) (day : Day)
        → CanBeReplayed known household rows from (first + more) day
        → CanBeReplayed known household rows from first day }
    ensures more { (known : Known) (household : ℕ) (rows : List NumberedOrder)
        (from first more : ℕ) (day : Day)
        → CanBeReplayed known household rows from (first + more) day
        → CanBeReplayed known household rows (from + first) more
        (days_behind known rows from first day) }
{}

/// Numbers of lots never fall: those that are within their bound behind the last sheet are so before the first.
pub fn numbers_of_lots_never_fall()
    ensures { (known : Known) (rows : List NumberedOrder) (from count : ℕ) (day : Day)
        → AreNumbersWithin (days_behind known rows from count day).register
        → AreNumbersWithin day.register }
{}
