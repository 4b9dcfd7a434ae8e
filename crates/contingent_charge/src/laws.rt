//! Laws of deferred charges in the trade's words. Each function is empty: its clauses hold of the definitions.
ghost use Rattle.std.specs.Prelude.{◌≡◌, ℕ, ◌+◌, ◌-◌, ◌<◌, ◌≤◌, List, length, take, map, filter, sum_by, min, not, true};
ghost use Rattle.std.specs.List.{slice_index_or};
ghost use Rattle.fund_calendar.specs.Dates.{last_day, anniversaries};
ghost use Rattle.share_lots.specs.declared.lot.Piece.{Piece};
ghost use Rattle.share_lots.specs.Values.{value_at};
ghost use Rattle.contingent_charge.specs.DeferredCharge as spec;
ghost use Rattle.contingent_charge.specs.DeferredCharge.{Valued};

/// The values of pieces sum to the value of all their mils: nothing is lost or made by rounding.
pub fn pieces_make_the_value()
    ensures { (nav : ℕ) (pieces : List Piece)
        → sum_by (λ item. item.value) (spec.with_values nav 0 pieces)
        ≡ value_at nav (sum_by (λ piece. piece.mils) pieces) }
{}

/// Each piece has one value: what the mils to its end are worth together, less what those to its beginning are.
#[tactic(auto, using(crate::proofs::LawLemmas::valued_pieces, crate::proofs::LawLemmas::valued_whole))]
pub fn a_piece_is_valued_at_its_ends()
    ensures pieces { (nav : ℕ) (pieces : List Piece)
        → map (λ item. item.piece) (spec.with_values nav 0 pieces) ≡ pieces }
    ensures values { (nav : ℕ) (pieces : List Piece) (i : ℕ) (d : Valued)
        → i < length pieces
        → (slice_index_or (spec.with_values nav 0 pieces) i d).value
        ≡ value_at nav (sum_by (λ piece. piece.mils) (take (i + 1) pieces)) - value_at nav
        (sum_by (λ piece. piece.mils) (take i pieces)) }
{}

/// The charge is taken on the lesser of cost and value of the pieces that aren't free: neither a gain is charged, nor what is
/// lost of the cost.
#[tactic(auto, using(crate::proofs::LawLemmas::bases_charged))]
pub fn the_base_is_the_lesser_of_cost_and_value()
    ensures sum { (items : List Valued)
        → sum_by spec.base_of items
        ≡ sum_by (λ item. min item.piece.cost item.value)
        (filter (λ item. not item.piece.free) items) }
    ensures within_cost { (item : Valued) → spec.base_of item ≤ item.piece.cost }
    ensures within_value { (item : Valued) → spec.base_of item ≤ item.value }
{}

/// Free pieces have no charge, and no piece is charged more than its rate takes of its cost.
pub fn no_piece_is_charged_past_its_cost()
    ensures free { (day : ℕ) (schedule : List ℕ) (item : Valued)
        → item.piece.free ≡ true
        → spec.charge_of day schedule item ≡ 0 }
    ensures limit { (day : ℕ) (schedule : List ℕ) (item : Valued)
        → spec.charge_of day schedule item ≤ spec.cost_charge day schedule item.piece }
{}

/// Once a schedule is through there is no charge any more.
pub fn charges_end_with_the_schedule()
    ensures { (bought : ℕ) (sold : ℕ) (schedule : List ℕ)
        → length schedule ≤ anniversaries bought sold
        → spec.rate_on bought sold schedule ≡ 0 }
{}

/// Under a schedule in which no later year has a greater rate, a later sale never has a greater rate.
pub fn a_later_sale_never_has_a_greater_rate()
    ensures { (bought : ℕ) (sold : ℕ) (later : ℕ) (schedule : List ℕ)
        → spec.NeverRises schedule
        → sold ≤ later
        → later ≤ last_day
        → spec.rate_on bought later schedule ≤ spec.rate_on bought sold schedule }
{}
