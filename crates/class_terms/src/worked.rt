//! Worked tables of loads, as laws: the checker computes each.
ghost use Rattle.std.specs.Prelude.{◌≡◌, None, Some, [], ◌∷◌, replicate};
ghost use Rattle.class_terms.specs.Tables.{front_fault, deferred_fault, row_of};

/// The tables of a growth fund's load class and of a class without a load are lawful, and so is the ceiling itself.
pub fn lawful_tables()
    ensures growth { front_fault
        (row_of 0 575 ∷ row_of 2500000 500 ∷ row_of 5000000 450 ∷ row_of 10000000 350
        ∷ row_of 25000000 250 ∷ row_of 50000000 200 ∷ row_of 100000000 0 ∷ [])
        ≡ None }
    ensures without_load { front_fault (row_of 0 0 ∷ []) ≡ None }
    ensures ceiling { front_fault (row_of 0 850 ∷ []) ≡ None }
    ensures level_rate { front_fault (row_of 0 500 ∷ row_of 2500000 500 ∷ []) ≡ None }
    ensures five_years { deferred_fault (500 ∷ 400 ∷ 300 ∷ 200 ∷ 100 ∷ []) ≡ None }
    ensures no_deferred_load { deferred_fault [] ≡ None }
    ensures ten_years { deferred_fault (replicate 10 850) ≡ None }
{}

/// What is wrong with other tables, by the place of the first bad row.
pub fn faults_of_tables()
    ensures no_row { front_fault [] ≡ Some 0 }
    ensures many_rows { front_fault (replicate 17 (row_of 0 0)) ≡ Some 0 }
    ensures first_floor { front_fault (row_of 1 575 ∷ []) ≡ Some 1 }
    ensures floor_stays { front_fault
        (row_of 0 575 ∷ row_of 2500000 500 ∷ row_of 2500000 450 ∷ []) ≡ Some 3 }
    ensures rate_rises { front_fault (row_of 0 575 ∷ row_of 2500000 576 ∷ []) ≡ Some 2 }
    ensures above_ceiling { front_fault (row_of 0 851 ∷ []) ≡ Some 1 }
    ensures many_years { deferred_fault (replicate 11 0) ≡ Some 0 }
    ensures deferred_rises { deferred_fault (500 ∷ 400 ∷ 401 ∷ []) ≡ Some 3 }
    ensures deferred_above_ceiling { deferred_fault (851 ∷ []) ≡ Some 1 }
{}
