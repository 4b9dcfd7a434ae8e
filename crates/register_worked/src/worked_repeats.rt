//! Worked scripts of repeats.
ghost use Rattle.std.specs.Prelude.{[], ◌∷◌, codes};
ghost use Rattle.register_worked.specs.WorkedRuns.{AnswersAlone, calendar_over, class_11, class_12, class_13, days_of_july};

/// Each order verb sent again gets its first reply, whoever sends it and however late; with one other field its reference
/// is used. A line is the same only with the same receipt, and never the same as an order.
pub fn repeat_of_each_verb()
    ensures { AnswersAlone (
        calendar_over (codes "1") days_of_july
        ∷ class_11
        ∷ class_12
        ∷ class_13
        ∷ codes "1719835200,op-desk000001,dealer,5,d-broker00005,21600"
        ∷ codes "1719835200,op-desk000001,household,1,h-mary000001"
        ∷ codes "1719835200,op-desk000001,account,101,1,5,MARY DOE"
        ∷ codes "1719842400,h-mary000001,buy,101,1,12,1000.00"
        ∷ codes "1719842460,h-mary000001,sell,101,2,12,10.000"
        ∷ codes "1719842520,h-mary000001,sellcash,101,3,12,25.00"
        ∷ codes "1719842580,h-mary000001,sellall,101,4,12"
        ∷ codes "1719842640,h-mary000001,exchange,101,5,12,13,5.000"
        ∷ codes "1719842700,h-mary000001,exchangeall,101,6,12,13"
        ∷ codes "1719842760,h-mary000001,letter,101,7,11,50000.00"
        ∷ codes "1719842820,h-mary000001,elect,101,8,12,cash"
        ∷ codes "1719846000,op-desk000001,buy,101,1,12,1000.00"
        ∷ codes "1719846030,h-mary000001,buy,101,1,12,1000.01"
        ∷ codes "1719846060,h-mary000001,sell,101,2,12,10.000"
        ∷ codes "1719846090,h-mary000001,sell,101,2,12,10.001"
        ∷ codes "1719846120,op-desk000001,sellcash,101,3,12,25.00"
        ∷ codes "1719846150,h-mary000001,sellcash,101,3,12,25.01"
        ∷ codes "1719846180,h-mary000001,sellall,101,4,12"
        ∷ codes "1719846210,h-mary000001,sellall,101,4,13"
        ∷ codes "1719846240,op-desk000001,exchange,101,5,12,13,5.000"
        ∷ codes "1719846270,h-mary000001,exchange,101,5,12,13,5.500"
        ∷ codes "1719846300,h-mary000001,exchangeall,101,6,12,13"
        ∷ codes "1719846330,h-mary000001,exchangeall,101,6,12,11"
        ∷ codes "1719846360,op-desk000001,letter,101,7,11,50000.00"
        ∷ codes "1719846390,h-mary000001,letter,101,7,11,60000.00"
        ∷ codes "1719846420,h-mary000001,elect,101,8,12,cash"
        ∷ codes "1719846450,h-mary000001,elect,101,8,12,shares"
        ∷ codes "1719849600,d-broker00005,line,1719840600,sell,101,9,12,1.000"
        ∷ codes "1719849660,d-broker00005,line,1719840600,sell,101,9,12,1.000"
        ∷ codes "1719849720,d-broker00005,line,1719840660,sell,101,9,12,1.000"
        ∷ codes "1719849780,h-mary000001,sell,101,9,12,1.000"
        ∷ []
        ) (
        codes "ok,calendar,1"
        ∷ codes "ok,class,11"
        ∷ codes "ok,class,12"
        ∷ codes "ok,class,13"
        ∷ codes "ok,dealer,5"
        ∷ codes "ok,household,1"
        ∷ codes "ok,account,101"
        ∷ codes "ok,order,101,1,1719842400,1719864000"
        ∷ codes "ok,order,101,2,1719842460,1719864000"
        ∷ codes "ok,order,101,3,1719842520,1719864000"
        ∷ codes "ok,order,101,4,1719842580,1719864000"
        ∷ codes "ok,order,101,5,1719842640,1719864000"
        ∷ codes "ok,order,101,6,1719842700,1719864000"
        ∷ codes "ok,order,101,7,1719842760,1719864000"
        ∷ codes "ok,order,101,8,1719842820,1719864000"
        ∷ codes "ok,order,101,1,1719842400,1719864000"
        ∷ codes "no,4"
        ∷ codes "ok,order,101,2,1719842460,1719864000"
        ∷ codes "no,4"
        ∷ codes "ok,order,101,3,1719842520,1719864000"
        ∷ codes "no,4"
        ∷ codes "ok,order,101,4,1719842580,1719864000"
        ∷ codes "no,4"
        ∷ codes "ok,order,101,5,1719842640,1719864000"
        ∷ codes "no,4"
        ∷ codes "ok,order,101,6,1719842700,1719864000"
        ∷ codes "no,4"
        ∷ codes "ok,order,101,7,1719842760,1719864000"
        ∷ codes "no,4"
        ∷ codes "ok,order,101,8,1719842820,1719864000"
        ∷ codes "no,4"
        ∷ codes "ok,order,101,9,1719840600,1719864000"
        ∷ codes "ok,order,101,9,1719840600,1719864000"
        ∷ codes "no,4"
        ∷ codes "no,4"
        ∷ []
        ) }
{}
