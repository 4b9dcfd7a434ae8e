//! Worked scripts of minimums.
ghost use Rattle.std.specs.Prelude.{[], ◌∷◌, codes};
ghost use Rattle.register_worked.specs.WorkedRuns.{AnswersInJuly};

/// The later minimum asks for another order to buy that class for that account that stands and was placed before. Behind
/// a struck purchase it is the first one again, and neither another account's purchase nor one that was placed afterwards
/// changes that.
pub fn first_and_later_minimum()
    ensures { AnswersInJuly (
        codes "1719842400,h-mary000001,buy,101,1,11,249.99"
        ∷ codes "1719842460,h-mary000001,buy,101,1,11,250.00"
        ∷ codes "1719842520,h-mary000001,buy,101,2,11,49.99"
        ∷ codes "1719842580,h-mary000001,buy,101,2,11,50.00"
        ∷ codes "1719842640,h-mary000001,buy,102,1,11,50.00"
        ∷ codes "1719842700,h-mary000001,buy,102,1,12,0.01"
        ∷ codes "1719842760,h-mary000001,buy,102,2,11,249.99"
        ∷ codes "1719846000,h-mary000001,cancel,101,3,1"
        ∷ codes "1719846060,h-mary000001,buy,101,4,11,49.99"
        ∷ codes "1719846120,h-mary000001,cancel,101,5,2"
        ∷ codes "1719846180,h-mary000001,buy,101,6,11,50.00"
        ∷ codes "1719846240,h-mary000001,buy,101,6,11,249.99"
        ∷ codes "1719846300,h-mary000001,buy,101,6,11,250.00"
        ∷ codes "1719846360,h-mary000001,buy,101,7,11,50.00"
        ∷ codes "1719865800,op-desk000001,sheet,1,1719864000,11:20.00 12:10.00 13:15.00 14:50.00"
        ∷ codes "1719867600,op-desk000001,replace,1,fund,1719846300,buy,101,6,11,50.00"
        ∷ codes "1719867660,op-desk000001,void,1,fund,101,6"
        ∷ codes "1719928800,h-mary000001,buy,101,8,11,49.99"
        ∷ codes "1719928860,op-desk000001,void,2,fund,101,7"
        ∷ codes "1719928920,h-mary000001,buy,101,8,11,50.00"
        ∷ codes "1719928980,op-desk000001,enter,3,agent,1719846420,buy,101,9,11,250.00"
        ∷ codes "1719929040,h-mary000001,buy,101,8,11,50.00"
        ∷ codes "1719929100,h-mary000001,show,101"
        ∷ []
        ) (
        codes "no,6,250.00"
        ∷ codes "ok,order,101,1,1719842460,1719864000"
        ∷ codes "no,6,50.00"
        ∷ codes "ok,order,101,2,1719842580,1719864000"
        ∷ codes "no,6,250.00"
        ∷ codes "ok,order,102,1,1719842700,1719864000"
        ∷ codes "no,6,250.00"
        ∷ codes "ok,cancel,101,3,1"
        ∷ codes "no,6,50.00"
        ∷ codes "ok,cancel,101,5,2"
        ∷ codes "no,6,250.00"
        ∷ codes "no,6,250.00"
        ∷ codes "ok,order,101,6,1719846300,1719864000"
        ∷ codes "ok,order,101,7,1719846360,1719864000"
        ∷ codes "ok,sheet,1"
        ∷ codes "no,6,250.00"
        ∷ codes "ok,fix,1,11:0.00"
        ∷ codes "no,6,50.00"
        ∷ codes "ok,fix,2,11:0.00"
        ∷ codes "no,6,250.00"
        ∷ codes "ok,fix,3,11:0.00"
        ∷ codes "ok,order,101,8,1719929040,1719950400"
        ∷ codes "ok,show,101,11:11.781:0.000:250.00"
        ∷ []
        ) }
{}
