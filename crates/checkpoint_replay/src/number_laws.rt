//! Laws of the numbers that a walk over numbered orders meets.
ghost use Rattle.std.specs.Prelude.{◌≡◌, ◌≢◌, ◌++◌, ◌∷◌, ◌<◌, [], AllPairs, Contains, List, map, ℕ};
ghost use Rattle.checkpoint_replay.specs.NumberedRows.{AreRising, numbers_met};
ghost use Rattle.checkpoint_replay.specs.Replays.{NumberedOrder, orders_under};

/// Each number that an order has is met exactly once, and no other number is.
pub fn each_number_is_met_once()
    ensures once { (rows : List NumberedOrder) → AllPairs (λ a b. a ≢ b) (numbers_met rows) }
    ensures each { (rows : List NumberedOrder) (number : ℕ)
        → Contains (map (λ row. row.number) rows) number → Contains (numbers_met rows) number }
    ensures no_other { (rows : List NumberedOrder) (number : ℕ)
        → Contains (numbers_met rows) number → Contains (map (λ row. row.number) rows) number }
{}

/// Numbers that never fall are met from the lowest to the highest.
pub fn numbers_are_met_as_they_rise()
    ensures { (rows : List NumberedOrder) → AreRising rows
        → AllPairs (λ a b. a < b) (numbers_met rows) }
{}

/// There is no order under a number that isn't met.
pub fn no_order_is_under_another_number()
    ensures { (rows : List NumberedOrder) (number : ℕ)
        → (Contains (numbers_met rows) number → ⊥) → orders_under number rows ≡ [] }
{}

/// An order more is under its own number, behind the others there, and under no other number.
pub fn an_order_more_is_under_its_number()
    ensures own { (rows : List NumberedOrder) (row : NumberedOrder)
        → orders_under row.number (rows ++ row ∷ [])
        ≡ orders_under row.number rows ++ row.order ∷ [] }
    ensures other { (rows : List NumberedOrder) (row : NumberedOrder) (number : ℕ)
        → (row.number ≡ number → ⊥)
        → orders_under number (rows ++ row ∷ []) ≡ orders_under number rows }
{}
