//! Worked scripts of what is named: what is absent, and what stands already.
ghost use Rattle.std.specs.Prelude.{[], ◌∷◌, codes};
ghost use Rattle.register_worked.specs.WorkedRuns.{AnswersInJuly, calendar_over, class_14};

/// The first field of an order, a query or a correction of an order that names something absent is told by its place: the
/// account, its order, its class, and the class that an exchange goes to.
pub fn absent_in_orders()
    ensures { AnswersInJuly (
        codes "1719842400,h-mary000001,buy,101,1,12,1000.00"
        ∷ codes "1719842460,op-desk000001,buy,109,1,12,1.00"
        ∷ codes "1719842460,op-desk000001,buy,109,1,99,1.00"
        ∷ codes "1719842460,h-mary000001,buy,101,2,99,1.00"
        ∷ codes "1719842460,h-mary000001,exchange,101,2,12,99,1.000"
        ∷ codes "1719842460,h-mary000001,exchange,101,2,99,98,1.000"
        ∷ codes "1719842460,h-mary000001,exchangeall,101,2,12,99"
        ∷ codes "1719842460,op-desk000001,cancel,109,1,1"
        ∷ codes "1719842460,h-mary000001,cancel,101,2,7"
        ∷ codes "1719842460,op-desk000001,show,109"
        ∷ codes "1719842460,op-desk000001,trace,109,1"
        ∷ codes "1719842460,h-mary000001,trace,101,7"
        ∷ codes "1719842460,op-desk000001,statement,109,2024-07-01,2024-07-31"
        ∷ codes "1719842460,d-broker00005,line,1719842400,buy,103,1,99,1.00"
        ∷ codes "1719842460,d-broker00005,line,1719842400,exchange,103,1,12,99,1.000"
        ∷ codes "1719842460,op-desk000001,enter,1,fund,1719838800,buy,109,1,12,1.00"
        ∷ codes "1719842460,op-desk000001,enter,1,fund,1719838800,buy,101,2,99,1.00"
        ∷ codes "1719842460,op-desk000001,enter,1,fund,1719838800,exchange,101,2,12,99,1.000"
        ∷ codes "1719842460,op-desk000001,replace,1,fund,1719838800,buy,109,1,12,1.00"
        ∷ codes "1719842460,op-desk000001,replace,1,fund,1719838800,buy,101,7,99,1.00"
        ∷ codes "1719842460,op-desk000001,replace,1,fund,1719838800,buy,101,1,99,1.00"
        ∷ codes "1719842460,op-desk000001,replace,1,fund,1719838800,exchange,101,1,12,99,1.000"
        ∷ codes "1719842460,op-desk000001,void,1,fund,109,1"
        ∷ codes "1719842460,op-desk000001,void,1,fund,101,7"
        ∷ []
        ) (
        codes "ok,order,101,1,1719842400,1719864000"
        ∷ codes "no,3,1"
        ∷ codes "no,3,1"
        ∷ codes "no,3,3"
        ∷ codes "no,3,4"
        ∷ codes "no,3,3"
        ∷ codes "no,3,4"
        ∷ codes "no,3,1"
        ∷ codes "no,3,3"
        ∷ codes "no,3,1"
        ∷ codes "no,3,1"
        ∷ codes "no,3,2"
        ∷ codes "no,3,1"
        ∷ codes "no,3,5"
        ∷ codes "no,3,6"
        ∷ codes "no,3,5"
        ∷ codes "no,3,7"
        ∷ codes "no,3,8"
        ∷ codes "no,3,5"
        ∷ codes "no,3,6"
        ∷ codes "no,3,7"
        ∷ codes "no,3,8"
        ∷ codes "no,3,3"
        ∷ codes "no,3,4"
        ∷ []
        ) }
{}

/// The same for what the operator sends of calendars, classes, accounts, sheets, dividends, prices and rates.
pub fn absent_in_the_funds()
    ensures { AnswersInJuly (
        codes "1719842400,op-desk000001,close,9,2024-07-05"
        ∷ codes "1719842400,op-desk000001,close,1,2024-07-06"
        ∷ codes "1719842400,op-desk000001,class,15,9,1,INDEX-O,0,0,0.01,0.01,0.00:0,"
        ∷ codes "1719842400,op-desk000001,account,104,9,9,NEW HOLDER"
        ∷ codes "1719842400,op-desk000001,account,104,2,9,NEW HOLDER"
        ∷ codes "1719842400,op-desk000001,account,104,2,0,NEW HOLDER"
        ∷ codes "1719842400,op-desk000001,sheet,9,1719864000,14:10.00"
        ∷ codes "1719842400,op-desk000001,dividend,99,1719950400,0.100000"
        ∷ codes "1719842400,op-desk000001,dividend,12,1719950401,0.100000"
        ∷ codes "1719842400,op-desk000001,fixprice,1,fund,99,1719864000,1.00"
        ∷ codes "1719842400,op-desk000001,fixprice,1,fund,12,1719864000,1.00"
        ∷ codes "1719842400,op-desk000001,fixrate,1,fund,99,1719864000,0.100000"
        ∷ codes "1719842400,op-desk000001,fixrate,1,fund,12,1719864000,0.100000"
        ∷ []
        ) (
        codes "no,3,1"
        ∷ codes "no,3,2"
        ∷ codes "no,3,2"
        ∷ codes "no,3,2"
        ∷ codes "no,3,3"
        ∷ codes "ok,account,104"
        ∷ codes "no,3,1"
        ∷ codes "no,3,1"
        ∷ codes "no,3,2"
        ∷ codes "no,3,3"
        ∷ codes "no,3,4"
        ∷ codes "no,3,3"
        ∷ codes "no,3,4"
        ∷ []
        ) }
{}

/// A number that stands with other content is refused by that number, and a key that belongs to a household or a dealer
/// by its holder's, the number first. The same content again is a repeat.
pub fn numbers_and_keys_taken()
    ensures { AnswersInJuly (
        calendar_over (codes "1") (codes "2024-07-01,2024-07-05,")
        ∷ codes "1719835200,op-desk000001,class,14,1,3,INDEX-O,0,0,0.01,0.01,0.00:0,"
        ∷ class_14
        ∷ codes "1719835200,op-desk000001,dealer,5,d-second00006,21600"
        ∷ codes "1719835200,op-desk000001,dealer,6,d-broker00005,21600"
        ∷ codes "1719835200,op-desk000001,household,1,h-other00001"
        ∷ codes "1719835200,op-desk000001,household,3,h-omar000002"
        ∷ codes "1719835200,op-desk000001,household,1,h-omar000002"
        ∷ codes "1719835200,op-desk000001,account,103,1,0,OMAR ROE"
        ∷ codes "1719835200,op-desk000001,account,103,2,5,OMAR ROE"
        ∷ []
        ) (
        codes "no,14,1"
        ∷ codes "no,14,14"
        ∷ codes "ok,class,14"
        ∷ codes "no,14,5"
        ∷ codes "no,14,5"
        ∷ codes "no,14,1"
        ∷ codes "no,14,2"
        ∷ codes "no,14,1"
        ∷ codes "no,14,103"
        ∷ codes "ok,account,103"
        ∷ []
        ) }
{}
