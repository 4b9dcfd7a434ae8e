//! Worked scripts of texts that aren't in their form.
ghost use Rattle.std.specs.Prelude.{[], ◌∷◌, ◌++◌, codes};
ghost use Rattle.register_worked.specs.WorkedRuns.{AnswersAlone, AnswersBehindMark, AnswersInJuly, BatchAnswers, calendar_over, record_line, with_mark};

/// Each field has its form and its range, and the first one that isn't in it is told by its place; a wrong number of
/// fields has place 0. Loads past 850 basis points and a calendar that ends before it begins have their places too.
pub fn places_of_bad_fields()
    ensures { AnswersInJuly (
        calendar_over (codes "2") (codes "2024-07-02,2024-07-01,")
        ∷ codes "1719842400,h-mary000001,buy,101,1,12,0.00"
        ∷ codes "1719842400,h-mary000001,buy,101,1,12,10000000000.01"
        ∷ codes "1719842400,h-mary000001,buy,101,1,12,10000000000.00"
        ∷ codes "1719842400,h-mary000001,buy,101,0,12,1.00"
        ∷ codes "1719842400,h-mary000001,buy,101,10000000000000000000,12,1.00"
        ∷ codes "1719842400,h-mary000001,buy,101,2,12"
        ∷ codes "1719842400,h-mary000001,sell,101,2,12,0.000"
        ∷ codes "1719842400,h-mary000001,sell,101,2,12,1000000000.001"
        ∷ codes "1719842400,h-mary000001,sell,101,2,12,1000000000.000"
        ∷ codes "1719842400,h-mary000001,sellcash,101,3,12,0.00"
        ∷ codes "1719842400,h-mary000001,exchange,101,3,12,13,0.000"
        ∷ codes "1719842400,h-mary000001,letter,101,3,11,0.00"
        ∷ codes "1719842400,h-mary000001,elect,101,3,12,both"
        ∷ codes "1719842400,h-mary000001,cancel,101,3,0"
        ∷ codes "1719842400,h-mary000001,statement,101,2024-07-01,2024-06-31"
        ∷ codes "1719842400,op-desk000001,sheet,1,1719864000,11:0.00 12:10.00 13:15.00 14:50.00"
        ∷ (codes "1719842400,op-desk000001,sheet,1,1719864000,11:100000.01 12:10.00 13:15.00 "
        ++ codes "14:50.00")
        ∷ codes "1719842400,op-desk000001,sheet,1,1719864000,12:10.00 11:20.00 13:15.00 14:50.00"
        ∷ codes "1719842400,op-desk000001,dividend,12,1719950400,0.000000"
        ∷ codes "1719842400,op-desk000001,dividend,12,1719950400,1000.000001"
        ∷ codes "1719842400,op-desk000001,fixprice,1,holder,12,1719864000,1.00"
        ∷ codes "1719842400,op-desk000001,fixprice,1,fund,12,1719864000,0.00"
        ∷ codes "1719842400,op-desk000001,fixrate,1,fund,12,1719864000,1000.000001"
        ∷ codes "1719842400,op-desk000001,enter,1,fund,1719838800,fly,101,3,12,1.00"
        ∷ codes "1719842400,op-desk000001,enter,1,fund,1719838800,buy,101,3,12,0.00"
        ∷ codes "1719842400,op-desk000001,dealer,6,d-second00006,86401"
        ∷ codes "1719842400,op-desk000001,household,3,h-short"
        ∷ codes "1719842400,op-desk000001,class,15,1,1,INDEX-O,0,2,0.01,0.01,0.00:0,"
        ∷ codes "1719842400,op-desk000001,class,15,1,1,INDEX-O,0,0,0.01,0.01,0.00:851,"
        ∷ codes "1719842400,op-desk000001,class,15,1,1,INDEX-O,0,0,0.01,0.01,0.00:850,500 851"
        ∷ []
        ) (
        codes "no,2,5"
        ∷ codes "no,2,4"
        ∷ codes "no,2,4"
        ∷ codes "ok,order,101,1,1719842400,1719864000"
        ∷ codes "no,2,2"
        ∷ codes "no,2,2"
        ∷ codes "no,2,0"
        ∷ codes "no,2,4"
        ∷ codes "no,2,4"
        ∷ codes "ok,order,101,2,1719842400,1719864000"
        ∷ codes "no,2,4"
        ∷ codes "no,2,5"
        ∷ codes "no,2,4"
        ∷ codes "no,2,4"
        ∷ codes "no,2,3"
        ∷ codes "no,2,3"
        ∷ codes "no,2,3"
        ∷ codes "no,2,3"
        ∷ codes "no,2,3"
        ∷ codes "no,2,3"
        ∷ codes "no,2,3"
        ∷ codes "no,2,2"
        ∷ codes "no,2,5"
        ∷ codes "no,2,5"
        ∷ codes "no,2,4"
        ∷ codes "no,2,8"
        ∷ codes "no,2,3"
        ∷ codes "no,2,2"
        ∷ codes "no,2,6"
        ∷ codes "no,2,9"
        ∷ codes "no,2,10"
        ∷ []
        ) }
{}

/// The pricing moments of a calendar lie between the first second of 1970 and the last one of 2199, in UTC: a time of day
/// that brings one a minute beyond is told by its place.
pub fn moments_of_a_calendar()
    ensures { AnswersAlone (
        codes "1719835200,op-desk000001,calendar,1,EST5,19:00,2199-12-30,2199-12-31,"
        ∷ codes "1719835200,op-desk000001,calendar,1,EST5,18:59,2199-12-30,2199-12-31,"
        ∷ codes "1719835200,op-desk000001,calendar,2,JST-9,08:59,1970-01-01,1970-01-02,"
        ∷ codes "1719835200,op-desk000001,calendar,2,JST-9,09:00,1970-01-01,1970-01-02,"
        ∷ []
        ) (
        codes "no,2,3"
        ∷ codes "ok,calendar,1"
        ∷ codes "no,2,3"
        ∷ codes "ok,calendar,2"
        ∷ []
        ) }
{}

/// A byte-order mark at the start of a script or a batch is passed over.
pub fn byte_order_mark()
    ensures script { AnswersBehindMark
        (codes "1719835200,op-desk000001,household,1,h-mary000001" ∷ [])
        (codes "ok,household,1" ∷ []) }
    ensures batch { BatchAnswers [] 1719838800 (codes "d-broker00005")
        (with_mark (record_line (codes "1719838000,buy,103,1,14,1000.00")))
        (codes "ok,order,103,1,1719838000,1719864000" ∷ []) }
{}
