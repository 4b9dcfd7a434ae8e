//! Worked scripts of dividends.
ghost use Rattle.std.specs.Prelude.{[], ◌∷◌, ◌++◌, codes};
ghost use Rattle.register_worked.specs.WorkedRuns.{AnswersInJuly, AnswersOver, statement_of};

/// A dividend needs a pricing moment after the opening of its class and stands once: another rate, a published sheet and
/// the closure of its day are refused, and the same rate is a repeat.
pub fn refused_dividends()
    ensures { AnswersOver (codes "2024-06-24,2024-07-12,2024-07-04") (
        codes "1719835200,op-desk000001,dividend,12,1719604800,0.100000"
        ∷ codes "1719835200,op-desk000001,dividend,12,1720123200,0.100000"
        ∷ codes "1719835200,op-desk000001,dividend,12,1719950401,0.100000"
        ∷ codes "1719838800,h-mary000001,buy,101,1,12,1500.00"
        ∷ codes "1719838800,op-desk000001,dividend,12,1719950400,0.100000"
        ∷ codes "1719838860,op-desk000001,dividend,12,1719950400,0.100000"
        ∷ codes "1719838920,op-desk000001,dividend,12,1719950400,0.200000"
        ∷ codes "1719838980,op-desk000001,close,1,2024-07-02"
        ∷ codes "1719864000,op-desk000001,class,15,1,3,INDEX-I,0,0,0.01,0.01,0.00:0,"
        ∷ codes "1719864000,op-desk000001,dividend,15,1719864000,0.300000"
        ∷ codes "1719865800,op-desk000001,sheet,1,1719864000,11:20.00 12:10.00 13:15.00 14:50.00"
        ∷ codes "1719867600,op-desk000001,dividend,12,1719864000,0.100000"
        ∷ codes "1719867660,op-desk000001,dividend,14,1719864000,0.100000"
        ∷ codes "1719867720,op-desk000001,close,1,2024-07-01"
        ∷ codes "1719867780,op-desk000001,close,1,2024-07-03"
        ∷ codes "1719867840,op-desk000001,dividend,12,1720036800,0.100000"
        ∷ codes "1719867900,op-desk000001,close,1,2024-07-03"
        ∷ codes "1719867900,op-desk000001,close,1,2024-07-04"
        ∷ (codes "1719952200,op-desk000001,sheet,1,1719950400,11:20.00 12:10.00 13:15.00 "
        ++ codes "14:50.00 15:5.00")
        ∷ codes "1719954000,h-mary000001,show,101"
        ∷ codes "1719954060,op-desk000001,dividend,12,1719950400,0.100000"
        ∷ codes "1719954120,op-desk000001,dividend,12,1719950400,0.200000"
        ∷ []
        ) (
        codes "no,3,2"
        ∷ codes "no,3,2"
        ∷ codes "no,3,2"
        ∷ codes "ok,order,101,1,1719838800,1719864000"
        ∷ codes "ok,dividend,12,1719950400"
        ∷ codes "ok,dividend,12,1719950400"
        ∷ codes "no,14,12"
        ∷ codes "no,14,1"
        ∷ codes "ok,class,15"
        ∷ codes "no,3,2"
        ∷ codes "ok,sheet,1"
        ∷ codes "no,14,12"
        ∷ codes "no,14,14"
        ∷ codes "no,14,1"
        ∷ codes "ok,close,1,2024-07-03"
        ∷ codes "no,3,2"
        ∷ codes "ok,close,1,2024-07-03"
        ∷ codes "no,3,2"
        ∷ codes "ok,sheet,2"
        ∷ codes "ok,show,101,12:151.500:0.000:1515.00"
        ∷ codes "ok,dividend,12,1719950400"
        ∷ codes "no,14,12"
        ∷ []
        ) }
{}

/// A dividend is paid in cash from the election on and reinvested again after it is taken back. An election on the sheet
/// of a dividend comes behind it, and that of one class says nothing of another.
pub fn elections()
    ensures { AnswersInJuly (
        codes "1719842400,h-mary000001,buy,101,1,12,1000.00"
        ∷ codes "1719842400,h-mary000001,buy,102,1,12,1000.00"
        ∷ codes "1719842460,h-mary000001,elect,101,2,12,cash"
        ∷ codes "1719842520,h-mary000001,elect,101,3,13,cash"
        ∷ codes "1719865800,op-desk000001,sheet,1,1719864000,11:20.00 12:10.00 13:15.00 14:50.00"
        ∷ codes "1719867600,op-desk000001,dividend,12,1719950400,0.120000"
        ∷ codes "1719867660,h-mary000001,elect,101,4,12,shares"
        ∷ codes "1719952200,op-desk000001,sheet,1,1719950400,11:20.00 12:9.88 13:15.00 14:50.00"
        ∷ codes "1719954000,h-mary000001,show,101"
        ∷ codes "1719954000,h-mary000001,show,102"
        ∷ codes "1719954060,op-desk000001,dividend,12,1720036800,0.240000"
        ∷ codes "1720038600,op-desk000001,sheet,1,1720036800,11:20.00 12:9.64 13:15.00 14:50.00"
        ∷ codes "1720040400,h-mary000001,show,101"
        ∷ codes "1720040400,h-mary000001,trace,101,2"
        ∷ codes "1720040400,h-mary000001,statement,101,2024-07-01,2024-07-31"
        ∷ codes "1720040400,h-mary000001,statement,102,2024-07-02,2024-07-02"
        ∷ codes "1720040400,op-desk000001,books"
        ∷ []
        ) (
        codes "ok,order,101,1,1719842400,1719864000"
        ∷ codes "ok,order,102,1,1719842400,1719864000"
        ∷ codes "ok,order,101,2,1719842460,1719864000"
        ∷ codes "ok,order,101,3,1719842520,1719864000"
        ∷ codes "ok,sheet,1"
        ∷ codes "ok,dividend,12,1719950400"
        ∷ codes "ok,order,101,4,1719867660,1719950400"
        ∷ codes "ok,sheet,2"
        ∷ codes "ok,show,101,12:100.000:0.000:1000.00"
        ∷ codes "ok,show,102,12:101.215:0.000:1012.00"
        ∷ codes "ok,dividend,12,1720036800"
        ∷ codes "ok,sheet,3"
        ∷ codes "ok,show,101,12:102.490:0.000:1024.00"
        ∷ codes "ok,trace,101,2,filled,1719842460,1719864000,0.00,0.000,0.00,0.00,0.000"
        ∷ statement_of (codes "101") (
        codes "STATEMENT 101 MARY DOE"
        ∷ codes "PERIOD 2024-07-01 2024-07-31"
        ∷ codes "2024-07-01 buy ref 1 class 12 gross 1000.00 price 10.00 shares 100.000 charge 0.00"
        ∷ codes "2024-07-01 elect ref 2 class 12 cash"
        ∷ codes "2024-07-01 elect ref 3 class 13 cash"
        ∷ codes "2024-07-02 dividend class 12 amount 12.00 cash"
        ∷ codes "2024-07-02 elect ref 4 class 12 shares"
        ∷ codes "2024-07-03 dividend class 12 amount 24.00 nav 9.64 shares 2.490"
        ∷ codes "HOLDINGS"
        ∷ codes "class 12 GROWTH-B shares 102.490 escrow 0.000 cost 1024.00 nav 9.64 value 988.00"
        ∷ codes "END"
        ∷ [])
        ∷ statement_of (codes "102") (
        codes "STATEMENT 102 MARY DOE IRA"
        ∷ codes "PERIOD 2024-07-02 2024-07-02"
        ∷ codes "2024-07-02 dividend class 12 amount 12.00 nav 9.88 shares 1.215"
        ∷ codes "HOLDINGS"
        ∷ codes "class 12 GROWTH-B shares 103.735 escrow 0.000 cost 1036.29 nav 9.64 value 1000.01"
        ∷ codes "END"
        ∷ [])
        ∷ (codes "ok,books,11:0.000:0.00 12:206.225:1988.00 13:0.000:0.00 "
        ++ codes "14:0.000:0.00,0.00,0.00,5:0.00,-1988.00")
        ∷ []
        ) }
{}

/// Shares that a letter holds are paid on as the loose ones are, and what is reinvested is loose.
pub fn dividend_on_held_shares()
    ensures { AnswersInJuly (
        codes "1719842400,h-mary000001,letter,101,1,11,100000.00"
        ∷ codes "1719842460,h-mary000001,buy,101,2,11,2500.00"
        ∷ codes "1719842520,h-mary000001,buy,102,1,11,2500.00"
        ∷ codes "1719865800,op-desk000001,sheet,1,1719864000,11:20.00 12:10.00 13:15.00 14:50.00"
        ∷ codes "1719867600,h-mary000001,show,101"
        ∷ codes "1719867660,op-desk000001,dividend,11,1719950400,0.400000"
        ∷ codes "1719952200,op-desk000001,sheet,1,1719950400,11:19.60 12:10.00 13:15.00 14:50.00"
        ∷ codes "1719954000,h-mary000001,show,101"
        ∷ codes "1719954000,h-mary000001,show,102"
        ∷ codes "1719954060,h-mary000001,elect,101,3,11,cash"
        ∷ codes "1720038600,op-desk000001,sheet,1,1720036800,11:19.70 12:10.00 13:15.00 14:50.00"
        ∷ codes "1720040400,op-desk000001,dividend,11,1720209600,0.400000"
        ∷ codes "1720211400,op-desk000001,sheet,1,1720209600,11:19.30 12:10.00 13:15.00 14:50.00"
        ∷ codes "1720213200,h-mary000001,show,101"
        ∷ codes "1720213200,h-mary000001,statement,101,2024-07-01,2024-07-31"
        ∷ codes "1720213200,op-desk000001,books"
        ∷ []
        ) (
        codes "ok,order,101,1,1719842400,1719864000"
        ∷ codes "ok,order,101,2,1719842460,1719864000"
        ∷ codes "ok,order,102,1,1719842520,1719864000"
        ∷ codes "ok,sheet,1"
        ∷ codes "ok,show,101,11:0.000:120.598:2500.00"
        ∷ codes "ok,dividend,11,1719950400"
        ∷ codes "ok,sheet,2"
        ∷ codes "ok,show,101,11:2.461:120.598:2548.24"
        ∷ codes "ok,show,102,11:120.218:0.000:2547.13"
        ∷ codes "ok,order,101,3,1719954060,1720036800"
        ∷ codes "ok,sheet,3"
        ∷ codes "ok,dividend,11,1720209600"
        ∷ codes "ok,sheet,4"
        ∷ codes "ok,show,101,11:2.461:120.598:2548.24"
        ∷ statement_of (codes "101") (
        codes "STATEMENT 101 MARY DOE"
        ∷ codes "PERIOD 2024-07-01 2024-07-31"
        ∷ codes "2024-07-01 letter ref 1 class 11 amount 100000.00"
        ∷ (codes "2024-07-01 buy ref 2 class 11 gross 2500.00 "
        ++ codes "price 20.73 shares 120.598 charge 88.04")
        ∷ codes "2024-07-02 dividend class 11 amount 48.24 nav 19.60 shares 2.461"
        ∷ codes "2024-07-03 elect ref 3 class 11 cash"
        ∷ codes "2024-07-05 dividend class 11 amount 49.22 cash"
        ∷ codes "HOLDINGS"
        ∷ (codes "class 11 GROWTH-A shares 123.059 escrow 120.598 "
        ++ codes "cost 2548.24 nav 19.30 value 2375.04")
        ∷ codes "END"
        ∷ [])
        ∷ (codes "ok,books,11:245.769:4719.00 12:0.000:0.00 13:0.000:0.00 "
        ++ codes "14:0.000:0.00,231.78,0.00,5:0.00,-4950.78")
        ∷ []
        ) }
{}

/// The last correction of a rate counts, and 0 takes the dividend away. A class without a dividend gets one by a
/// correction on a published sheet, and a sheet to come can't be corrected.
pub fn corrected_rates()
    ensures { AnswersInJuly (
        codes "1719842400,h-mary000001,buy,101,1,12,1000.00"
        ∷ codes "1719842400,h-omar000002,buy,103,1,14,1000.00"
        ∷ codes "1719865800,op-desk000001,sheet,1,1719864000,11:20.00 12:10.00 13:15.00 14:50.00"
        ∷ codes "1719867600,op-desk000001,dividend,12,1719950400,0.150000"
        ∷ codes "1719952200,op-desk000001,sheet,1,1719950400,11:20.00 12:9.90 13:15.00 14:50.00"
        ∷ codes "1719954000,h-mary000001,show,101"
        ∷ codes "1719954060,op-desk000001,fixrate,1,agent,12,1719950400,0.250000"
        ∷ codes "1719954120,h-mary000001,show,101"
        ∷ codes "1719954180,op-desk000001,fixrate,2,agent,12,1719950400,0.000000"
        ∷ codes "1719954240,h-mary000001,show,101"
        ∷ codes "1719954300,op-desk000001,fixrate,3,fund,14,1719950400,1.250000"
        ∷ codes "1719954360,h-omar000002,show,103"
        ∷ codes "1719954420,op-desk000001,fixrate,4,dealer:5,12,1719864000,0.500000"
        ∷ codes "1719954480,op-desk000001,fixrate,5,dealer:5,12,1719950400,0.100000"
        ∷ codes "1719954540,h-mary000001,show,101"
        ∷ codes "1719954600,op-desk000001,fixrate,6,fund,12,1720036800,0.100000"
        ∷ codes "1719954600,op-desk000001,dividend,12,1719950400,0.150000"
        ∷ codes "1719954660,op-desk000001,fixrate,2,agent,12,1719950400,0.000000"
        ∷ codes "1719954720,h-mary000001,statement,101,2024-07-01,2024-07-31"
        ∷ codes "1719954720,op-desk000001,books"
        ∷ []
        ) (
        codes "ok,order,101,1,1719842400,1719864000"
        ∷ codes "ok,order,103,1,1719842400,1719864000"
        ∷ codes "ok,sheet,1"
        ∷ codes "ok,dividend,12,1719950400"
        ∷ codes "ok,sheet,2"
        ∷ codes "ok,show,101,12:101.515:0.000:1015.00"
        ∷ codes "ok,fix,1,12:-10.00"
        ∷ codes "ok,show,101,12:102.525:0.000:1025.00"
        ∷ codes "ok,fix,2,12:25.00"
        ∷ codes "ok,show,101,12:100.000:0.000:1000.00"
        ∷ codes "ok,fix,3,14:-25.00"
        ∷ codes "ok,show,103,14:20.500:0.000:1025.00"
        ∷ codes "ok,fix,4,"
        ∷ codes "ok,fix,5,12:-10.00"
        ∷ codes "ok,show,101,12:101.010:0.000:1010.00"
        ∷ codes "no,3,4"
        ∷ codes "ok,dividend,12,1719950400"
        ∷ codes "ok,fix,2,12:25.00"
        ∷ statement_of (codes "101") (
        codes "STATEMENT 101 MARY DOE"
        ∷ codes "PERIOD 2024-07-01 2024-07-31"
        ∷ codes "2024-07-01 buy ref 1 class 12 gross 1000.00 price 10.00 shares 100.000 charge 0.00"
        ∷ codes "2024-07-02 dividend class 12 amount 10.00 nav 9.90 shares 1.010"
        ∷ codes "HOLDINGS"
        ∷ codes "class 12 GROWTH-B shares 101.010 escrow 0.000 cost 1010.00 nav 9.90 value 1000.00"
        ∷ codes "END"
        ∷ [])
        ∷ (codes "ok,books,11:0.000:0.00 12:101.010:1020.00 13:0.000:0.00 "
        ++ codes "14:20.500:1000.00,0.00,-10.00,5:-10.00,-2000.00")
        ∷ []
        ) }
{}

/// An election stands before the first share is bought and behind the last one sold. A period that ends before it begins
/// has no trades.
pub fn election_before_the_first_purchase()
    ensures { AnswersInJuly (
        codes "1719842400,h-mary000001,elect,101,1,12,cash"
        ∷ codes "1719865800,op-desk000001,sheet,1,1719864000,11:20.00 12:10.00 13:15.00 14:50.00"
        ∷ codes "1719928800,h-mary000001,buy,101,2,12,1000.00"
        ∷ codes "1719952200,op-desk000001,sheet,1,1719950400,11:20.00 12:10.00 13:15.00 14:50.00"
        ∷ codes "1719954000,op-desk000001,dividend,12,1720036800,0.100000"
        ∷ codes "1720015200,h-mary000001,sellall,101,3,12"
        ∷ codes "1720038600,op-desk000001,sheet,1,1720036800,11:20.00 12:10.00 13:15.00 14:50.00"
        ∷ codes "1720188000,h-mary000001,buy,101,4,12,500.00"
        ∷ codes "1720211400,op-desk000001,sheet,1,1720209600,11:20.00 12:10.00 13:15.00 14:50.00"
        ∷ codes "1720213200,op-desk000001,dividend,12,1720468800,0.100000"
        ∷ codes "1720470600,op-desk000001,sheet,1,1720468800,11:20.00 12:10.00 13:15.00 14:50.00"
        ∷ codes "1720472400,h-mary000001,statement,101,2024-07-03,2024-07-31"
        ∷ codes "1720472400,h-mary000001,statement,101,2024-07-08,2024-07-03"
        ∷ []
        ) (
        codes "ok,order,101,1,1719842400,1719864000"
        ∷ codes "ok,sheet,1"
        ∷ codes "ok,order,101,2,1719928800,1719950400"
        ∷ codes "ok,sheet,2"
        ∷ codes "ok,dividend,12,1720036800"
        ∷ codes "ok,order,101,3,1720015200,1720036800"
        ∷ codes "ok,sheet,3"
        ∷ codes "ok,order,101,4,1720188000,1720209600"
        ∷ codes "ok,sheet,4"
        ∷ codes "ok,dividend,12,1720468800"
        ∷ codes "ok,sheet,5"
        ∷ statement_of (codes "101") (
        codes "STATEMENT 101 MARY DOE"
        ∷ codes "PERIOD 2024-07-03 2024-07-31"
        ∷ codes "2024-07-03 dividend class 12 amount 10.00 cash"
        ∷ (codes "2024-07-03 sell ref 3 class 12 shares 100.000 "
        ++ codes "nav 10.00 value 1000.00 charge 50.00 paid 950.00")
        ∷ codes "2024-07-05 buy ref 4 class 12 gross 500.00 price 10.00 shares 50.000 charge 0.00"
        ∷ codes "2024-07-08 dividend class 12 amount 5.00 cash"
        ∷ codes "HOLDINGS"
        ∷ codes "class 12 GROWTH-B shares 50.000 escrow 0.000 cost 500.00 nav 10.00 value 500.00"
        ∷ codes "END"
        ∷ [])
        ∷ statement_of (codes "101") (
        codes "STATEMENT 101 MARY DOE"
        ∷ codes "PERIOD 2024-07-08 2024-07-03"
        ∷ codes "HOLDINGS"
        ∷ codes "class 12 GROWTH-B shares 50.000 escrow 0.000 cost 500.00 nav 10.00 value 500.00"
        ∷ codes "END"
        ∷ [])
        ∷ []
        ) }
{}
