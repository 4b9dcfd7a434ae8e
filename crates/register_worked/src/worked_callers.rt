//! Worked scripts of callers: whose accounts they may look at and trade on.
ghost use Rattle.std.specs.Prelude.{[], ◌∷◌, ◌++◌, codes};
ghost use Rattle.register_worked.specs.WorkedRuns.{AnswersInJuly, no_rights, operator_requests, requests_at, statement_of};

/// A household and a dealer are refused every verb on an account that isn't theirs, a missing account not told from
/// another's. A dealer sends lines and places no orders, and nobody but the operator sees the books.
pub fn accounts_of_others()
    ensures { AnswersInJuly (
        codes "1719835200,op-desk000001,dealer,6,d-second00006,0"
        ∷ codes "1719842400,h-mary000001,buy,101,1,12,1000.00"
        ∷ codes "1719842400,d-broker00005,line,1719842100,buy,103,1,12,2000.00"
        ∷ codes "1719842700,h-omar000002,show,101"
        ∷ codes "1719842700,h-omar000002,trace,101,1"
        ∷ codes "1719842700,h-omar000002,statement,101,2024-07-01,2024-07-31"
        ∷ codes "1719842700,h-omar000002,cancel,101,2,1"
        ∷ codes "1719842700,h-omar000002,sellall,101,2,12"
        ∷ codes "1719842700,h-omar000002,show,109"
        ∷ codes "1719842760,d-second00006,show,103"
        ∷ codes "1719842760,d-second00006,trace,103,1"
        ∷ codes "1719842760,d-second00006,statement,103,2024-07-01,2024-07-31"
        ∷ codes "1719842760,d-second00006,cancel,103,2,1"
        ∷ codes "1719842760,d-second00006,line,1719842400,sellall,103,2,12"
        ∷ codes "1719842760,d-broker00005,cancel,101,2,1"
        ∷ codes "1719842760,d-broker00005,buy,103,2,12,10.00"
        ∷ codes "1719842820,h-nobody00009,show,101"
        ∷ codes "1719842820,h-nobody00009,trace,101,1"
        ∷ codes "1719842820,h-nobody00009,books"
        ∷ codes "1719842820,h-mary000001,books"
        ∷ codes "1719842820,op-desk000001,show,109"
        ∷ codes "1719842880,h-mary000001,trace,101,1"
        ∷ codes "1719842880,d-broker00005,trace,103,1"
        ∷ codes "1719842880,d-broker00005,cancel,103,2,1"
        ∷ []
        ) (
        codes "ok,dealer,6"
        ∷ codes "ok,order,101,1,1719842400,1719864000"
        ∷ codes "ok,order,103,1,1719842100,1719864000"
        ∷ codes "no,1"
        ∷ codes "no,1"
        ∷ codes "no,1"
        ∷ codes "no,1"
        ∷ codes "no,1"
        ∷ codes "no,1"
        ∷ codes "no,1"
        ∷ codes "no,1"
        ∷ codes "no,1"
        ∷ codes "no,1"
        ∷ codes "no,1"
        ∷ codes "no,1"
        ∷ codes "no,1"
        ∷ codes "no,1"
        ∷ codes "no,1"
        ∷ codes "no,1"
        ∷ codes "no,1"
        ∷ codes "no,3,1"
        ∷ codes "ok,trace,101,1,pending,1719842400,1719864000,0.00,0.000,0.00,0.00,0.000"
        ∷ codes "ok,trace,103,1,pending,1719842100,1719864000,0.00,0.000,0.00,0.00,0.000"
        ∷ codes "ok,cancel,103,2,1"
        ∷ []
        ) }
{}

/// What the operator alone may ask is refused to a household, a dealer and a stranger, each of these verbs, also where
/// their own account or order is named; and nobody but a dealer sends a line. The operator gets each of them.
pub fn verbs_of_the_operator()
    ensures { AnswersInJuly (
        codes "1719842400,h-mary000001,buy,101,1,12,1000.00"
        ∷ codes "1719842400,h-omar000002,buy,103,1,12,1000.00"
        ∷ codes "1719865800,op-desk000001,sheet,1,1719864000,11:20.00 12:10.00 13:15.00 14:50.00"
        ∷ codes "1719954000,h-mary000001,line,1719951000,buy,101,2,12,50.00"
        ∷ codes "1719954000,h-omar000002,line,1719951000,buy,103,2,12,50.00"
        ∷ codes "1719954000,op-desk000001,line,1719951000,buy,103,2,12,50.00"
        ∷ requests_at (codes "1719954000,h-mary000001,") operator_requests
        ++ requests_at (codes "1719954000,d-broker00005,") operator_requests
        ++ requests_at (codes "1719954000,h-nobody00009,") operator_requests
        ++ requests_at (codes "1719954000,op-desk000001,") operator_requests
        ) (
        codes "ok,order,101,1,1719842400,1719864000"
        ∷ codes "ok,order,103,1,1719842400,1719864000"
        ∷ codes "ok,sheet,1"
        ∷ codes "no,1"
        ∷ codes "no,1"
        ∷ codes "no,1"
        ∷ no_rights operator_requests
        ++ no_rights operator_requests
        ++ no_rights operator_requests
        ++ codes "ok,calendar,2"
        ∷ codes "ok,close,1,2024-07-05"
        ∷ codes "ok,class,15"
        ∷ codes "ok,dealer,6"
        ∷ codes "ok,household,3"
        ∷ codes "ok,account,104"
        ∷ codes "ok,sheet,2"
        ∷ codes "ok,dividend,12,1720036800"
        ∷ codes "ok,fix,1,12:-500.00"
        ∷ codes "ok,fix,2,"
        ∷ codes "ok,fix,3,12:-12.50"
        ∷ codes "ok,fix,4,12:-250.00"
        ∷ codes "ok,fix,5,12:500.00"
        ∷ (codes "ok,books,11:0.000:0.00 12:131.250:1050.00 13:0.000:0.00 14:0.000:0.00 "
        ++ codes "15:0.000:0.00,0.00,0.00,5:0.00 6:0.00,-1050.00")
        ∷ []
        ) }
{}

/// A household places and cancels orders and looks at its accounts; a dealer sends lines, and cancels and looks at the
/// accounts that name it. Each of them may cancel what the other one placed there.
pub fn verbs_of_a_household_and_a_dealer()
    ensures { AnswersInJuly (
        codes "1719842400,h-omar000002,buy,103,1,12,1000.00"
        ∷ codes "1719842460,d-broker00005,line,1719842400,buy,103,2,12,500.00"
        ∷ codes "1719842520,h-omar000002,cancel,103,3,2"
        ∷ codes "1719842520,d-broker00005,cancel,103,4,1"
        ∷ codes "1719842580,h-omar000002,show,103"
        ∷ codes "1719842580,d-broker00005,show,103"
        ∷ codes "1719842580,h-omar000002,trace,103,2"
        ∷ codes "1719842580,d-broker00005,trace,103,1"
        ∷ codes "1719842580,h-omar000002,statement,103,2024-07-01,2024-07-31"
        ∷ codes "1719842580,d-broker00005,statement,103,2024-07-01,2024-07-31"
        ∷ codes "1719842580,d-broker00005,show,102"
        ∷ []
        ) (
        codes "ok,order,103,1,1719842400,1719864000"
        ∷ codes "ok,order,103,2,1719842400,1719864000"
        ∷ codes "ok,cancel,103,3,2"
        ∷ codes "ok,cancel,103,4,1"
        ∷ codes "ok,show,103,"
        ∷ codes "ok,show,103,"
        ∷ codes "ok,trace,103,2,struck,1719842400,1719864000,0.00,0.000,0.00,0.00,0.000"
        ∷ codes "ok,trace,103,1,struck,1719842400,1719864000,0.00,0.000,0.00,0.00,0.000"
        ∷ statement_of (codes "103") (
        codes "STATEMENT 103 OMAR ROE"
        ∷ codes "PERIOD 2024-07-01 2024-07-31"
        ∷ codes "HOLDINGS"
        ∷ codes "END"
        ∷ [])
        ∷ statement_of (codes "103") (
        codes "STATEMENT 103 OMAR ROE"
        ∷ codes "PERIOD 2024-07-01 2024-07-31"
        ∷ codes "HOLDINGS"
        ∷ codes "END"
        ∷ [])
        ∷ codes "no,1"
        ∷ []
        ) }
{}
