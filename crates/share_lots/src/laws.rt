//! Laws of lots in the trade's words. Each function is empty: its clauses hold of the definitions.
ghost use Rattle.std.specs.Prelude.{◌≡◌, ℕ, ◌≤◌, List, sum_by};
ghost use Rattle.share_lots.specs.Lots.{AreRanked, Holding};
ghost use Rattle.share_lots.specs.Taking.{IsTaking, amounts, pieces, pieces_given, after_taking, holding_kept};
ghost use Rattle.share_lots.specs.declared.lot.Lot.{Lot};

/// The amounts of a taking from lots by rank sum to what is asked, none passes its lot's loose mils, and a lot that gives
/// any has only lots of lower rank that lose all their loose mils. No other amounts do.
pub fn taking_by_rank()
    ensures is_taking { (asked : ℕ) (lots : List Lot)
        → AreRanked lots
        → asked ≤ sum_by (λ lot. lot.loose) lots
        → IsTaking asked lots (amounts asked lots) }
    ensures only_one { (asked : ℕ) (lots : List Lot) (given : List ℕ)
        → AreRanked lots
        → IsTaking asked lots given
        → given ≡ amounts asked lots }
{}

/// Whatever amounts make a taking from lots by rank, its pieces are those of lots that give these amounts, and the position
/// after it is the one whose lots have given them.
#[tactic(auto, using(crate::proofs::RelationLemmas::pieces_by_amounts, crate::proofs::RelationLemmas::rest_by_amounts))]
pub fn amounts_make_the_taking()
    ensures pieces { (asked : ℕ) (lots : List Lot) (given : List ℕ)
        → AreRanked lots
        → IsTaking asked lots given
        → pieces asked lots ≡ pieces_given lots given }
    ensures rest { (asked : ℕ) (before : Holding) (given : List ℕ)
        → AreRanked before.lots
        → IsTaking asked before.lots given
        → after_taking before asked ≡ holding_kept before given }
{}
