//! Worked positions: the numbers of lots, which show in a checkpoint row alone.
ghost use Rattle.std.specs.Prelude.{◌≡◌, [], ◌∷◌, codes};
ghost use Rattle.register_worked.specs.WorkedLots.{lot_of, position_behind};
ghost use Rattle.register_worked.specs.WorkedRuns.{first_sheet, position_with};

/// A position that is emptied stands on with the number of its next lot, and the next purchase gets it.
pub fn numbers_of_lots()
    ensures emptied { position_behind (
        codes "1719842400,h-mary000001,buy,101,1,14,1000.00"
        ∷ first_sheet
        ∷ codes "1719928800,h-mary000001,sellall,101,2,14"
        ∷ codes "1719952200,op-desk000001,sheet,1,1719950400,11:10.00 12:10.00 13:20.00 14:10.00"
        ∷ []
        )
        ≡ position_with (record { lots = []; next_lot = 2 }) }
    ensures again { position_behind (
        codes "1719842400,h-mary000001,buy,101,1,14,1000.00"
        ∷ first_sheet
        ∷ codes "1719928800,h-mary000001,sellall,101,2,14"
        ∷ codes "1719952200,op-desk000001,sheet,1,1719950400,11:10.00 12:10.00 13:20.00 14:10.00"
        ∷ codes "1720015200,h-mary000001,buy,101,3,14,500.00"
        ∷ codes "1720038600,op-desk000001,sheet,1,1720036800,11:10.00 12:10.00 13:20.00 14:10.00"
        ∷ []
        )
        ≡ position_with (record { lots = lot_of 2 19907 50000 50000 ∷ []; next_lot = 3 }) }
{}
