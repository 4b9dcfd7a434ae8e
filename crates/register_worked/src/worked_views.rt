//! Worked views: which events of a journal a household sees.
ghost use Rattle.std.specs.Prelude.{[], ◌∷◌, codes};
ghost use Rattle.register_worked.specs.WorkedRuns.{SeesOfARun, calendar_over, class_12, days_of_july, first_price, hidden, seen};

/// A household sees what the funds do, itself and its accounts, and what is done on these: not the other households, their
/// keys and accounts, their orders and dealer's lines, nor what is cancelled, entered, replaced or voided there.
pub fn view_of_a_household()
    ensures { SeesOfARun 1 (
        seen (calendar_over (codes "1") days_of_july)
        ∷ seen class_12
        ∷ seen (codes "1719835200,op-desk000001,dealer,5,d-broker00005,21600")
        ∷ seen (codes "1719835200,op-desk000001,household,1,h-mary000001")
        ∷ hidden (codes "1719835200,op-desk000001,household,2,h-omar000002")
        ∷ seen (codes "1719835200,op-desk000001,account,101,1,5,MARY DOE")
        ∷ hidden (codes "1719835200,op-desk000001,account,103,2,5,OMAR ROE")
        ∷ seen (codes "1719842400,h-mary000001,buy,101,1,12,1000.00")
        ∷ hidden (codes "1719842400,h-omar000002,buy,103,1,12,1000.00")
        ∷ seen (codes "1719842460,d-broker00005,line,1719842000,buy,101,2,12,50.00")
        ∷ hidden (codes "1719842460,d-broker00005,line,1719842000,buy,103,2,12,50.00")
        ∷ seen (codes "1719842520,h-mary000001,cancel,101,3,2")
        ∷ hidden (codes "1719842520,h-omar000002,cancel,103,3,2")
        ∷ seen (codes "1719842580,op-desk000001,close,1,2024-07-02")
        ∷ seen first_price
        ∷ seen (codes "1719867600,op-desk000001,dividend,12,1720036800,0.100000")
        ∷ seen (codes "1719867600,op-desk000001,fixprice,1,fund,12,1719864000,8.00")
        ∷ seen (codes "1719867600,op-desk000001,fixrate,2,fund,12,1719864000,0.100000")
        ∷ seen (codes "1719867660,op-desk000001,enter,3,fund,1719842400,buy,101,4,12,10.00")
        ∷ hidden (codes "1719867660,op-desk000001,enter,4,fund,1719842400,buy,103,4,12,10.00")
        ∷ seen (codes "1719867720,op-desk000001,replace,5,fund,1719842400,buy,101,4,12,20.00")
        ∷ hidden (codes "1719867720,op-desk000001,replace,6,fund,1719842400,buy,103,4,12,20.00")
        ∷ seen (codes "1719867780,op-desk000001,void,7,fund,101,4")
        ∷ hidden (codes "1719867780,op-desk000001,void,8,fund,103,4")
        ∷ []
        ) }
{}
