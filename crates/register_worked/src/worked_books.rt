//! Worked scripts of the books.
ghost use Rattle.std.specs.Prelude.{[], ◌∷◌, ◌++◌, codes};
ghost use Rattle.register_worked.specs.WorkedRuns.{AnswersAlone, AnswersInJuly, calendar_over, statement_of};

/// A load and a deferred charge go to the underwriter, an exchange moves cash from class to class, a dividend leaves the
/// class only where it is paid in cash, and a letter that begins moves nothing.
pub fn books_after_each_trade()
    ensures { AnswersInJuly (
        codes "1719842400,h-mary000001,buy,101,1,11,10000.00"
        ∷ codes "1719865800,op-desk000001,sheet,1,1719864000,11:10.00 12:10.00 13:15.00 14:50.00"
        ∷ codes "1719867600,op-desk000001,books"
        ∷ codes "1719928800,h-mary000001,buy,102,1,12,1000.00"
        ∷ codes "1719952200,op-desk000001,sheet,1,1719950400,11:10.00 12:10.00 13:15.00 14:50.00"
        ∷ codes "1719954000,op-desk000001,books"
        ∷ codes "1720015200,h-mary000001,sell,102,2,12,20.000"
        ∷ codes "1720038600,op-desk000001,sheet,1,1720036800,11:10.00 12:11.00 13:15.00 14:50.00"
        ∷ codes "1720040400,op-desk000001,books"
        ∷ codes "1720188000,h-mary000001,exchange,102,3,12,13,30.000"
        ∷ codes "1720188060,h-mary000001,letter,101,2,11,25000.00"
        ∷ codes "1720211400,op-desk000001,sheet,1,1720209600,11:10.00 12:12.00 13:15.00 14:50.00"
        ∷ codes "1720213200,op-desk000001,books"
        ∷ codes "1720213260,h-mary000001,elect,102,4,13,cash"
        ∷ codes "1720213320,h-mary000001,sellcash,102,5,14,10.00"
        ∷ codes "1720213380,op-desk000001,dividend,12,1720468800,0.200000"
        ∷ codes "1720470600,op-desk000001,sheet,1,1720468800,11:10.00 12:11.80 13:15.00 14:50.00"
        ∷ codes "1720472400,op-desk000001,books"
        ∷ codes "1720472460,op-desk000001,dividend,13,1720555200,0.500000"
        ∷ codes "1720472520,h-mary000001,buy,101,3,11,25000.00"
        ∷ codes "1720557000,op-desk000001,sheet,1,1720555200,11:10.00 12:11.80 13:14.50 14:50.00"
        ∷ codes "1720558800,op-desk000001,books"
        ∷ []
        ) (
        codes "ok,order,101,1,1719842400,1719864000"
        ∷ codes "ok,sheet,1"
        ∷ (codes "ok,books,11:942.507:9425.07 12:0.000:0.00 13:0.000:0.00 "
        ++ codes "14:0.000:0.00,574.93,0.00,5:0.00,-10000.00")
        ∷ codes "ok,order,102,1,1719928800,1719950400"
        ∷ codes "ok,sheet,2"
        ∷ (codes "ok,books,11:942.507:9425.07 12:100.000:1000.00 13:0.000:0.00 "
        ++ codes "14:0.000:0.00,574.93,0.00,5:0.00,-11000.00")
        ∷ codes "ok,order,102,2,1720015200,1720036800"
        ∷ codes "ok,sheet,3"
        ∷ (codes "ok,books,11:942.507:9425.07 12:80.000:780.00 13:0.000:0.00 "
        ++ codes "14:0.000:0.00,584.93,0.00,5:0.00,-10790.00")
        ∷ codes "ok,order,102,3,1720188000,1720209600"
        ∷ codes "ok,order,101,2,1720188060,1720209600"
        ∷ codes "ok,sheet,4"
        ∷ (codes "ok,books,11:942.507:9425.07 12:50.000:420.00 13:24.000:360.00 "
        ++ codes "14:0.000:0.00,584.93,0.00,5:0.00,-10790.00")
        ∷ codes "ok,order,102,4,1720213260,1720468800"
        ∷ codes "ok,order,102,5,1720213320,1720468800"
        ∷ codes "ok,dividend,12,1720468800"
        ∷ codes "ok,sheet,5"
        ∷ (codes "ok,books,11:942.507:9425.07 12:50.847:420.00 13:24.000:360.00 "
        ++ codes "14:0.000:0.00,584.93,0.00,5:0.00,-10790.00")
        ∷ codes "ok,dividend,13,1720555200"
        ∷ codes "ok,order,101,3,1720472520,1720555200"
        ∷ codes "ok,sheet,6"
        ∷ (codes "ok,books,11:3316.676:33166.76 12:50.847:420.00 13:24.000:348.00 "
        ++ codes "14:0.000:0.00,1843.24,0.00,5:0.00,-35778.00")
        ∷ []
        ) }
{}

/// A loss is paid to the class by the agent or the dealer that bears it, and not by the fund; a gain is paid to nobody.
/// What was paid stays paid when a later correction undoes the loss.
pub fn who_bears_a_loss()
    ensures { AnswersInJuly (
        codes "1719842400,h-mary000001,buy,101,1,14,1000.00"
        ∷ codes "1719842400,h-omar000002,buy,103,1,12,1000.00"
        ∷ codes "1719865800,op-desk000001,sheet,1,1719864000,11:20.00 12:10.00 13:15.00 14:10.00"
        ∷ codes "1719867600,op-desk000001,books"
        ∷ codes "1719867660,op-desk000001,fixprice,1,agent,14,1719864000,9.50"
        ∷ codes "1719867720,op-desk000001,books"
        ∷ codes "1719867780,op-desk000001,fixprice,2,fund,14,1719864000,9.00"
        ∷ codes "1719867840,op-desk000001,books"
        ∷ codes "1719867900,op-desk000001,fixprice,3,dealer:5,12,1719864000,8.00"
        ∷ codes "1719867960,op-desk000001,books"
        ∷ codes "1719868020,op-desk000001,fixprice,4,dealer:5,14,1719864000,12.00"
        ∷ codes "1719868080,op-desk000001,books"
        ∷ codes "1719868140,op-desk000001,enter,5,agent,1719838800,buy,102,1,14,600.00"
        ∷ codes "1719952200,op-desk000001,sheet,1,1719950400,11:20.00 12:10.00 13:15.00 14:12.50"
        ∷ codes "1719954000,op-desk000001,void,6,agent,102,1"
        ∷ codes "1719954060,op-desk000001,enter,7,dealer:5,1719838800,buy,102,2,14,600.00"
        ∷ codes "1719954120,op-desk000001,books"
        ∷ codes "1719954180,op-desk000001,show,101"
        ∷ codes "1719954180,op-desk000001,fixprice,3,dealer:5,12,1719864000,8.00"
        ∷ []
        ) (
        codes "ok,order,101,1,1719842400,1719864000"
        ∷ codes "ok,order,103,1,1719842400,1719864000"
        ∷ codes "ok,sheet,1"
        ∷ (codes "ok,books,11:0.000:0.00 12:100.000:1000.00 13:0.000:0.00 "
        ++ codes "14:100.000:1000.00,0.00,0.00,5:0.00,-2000.00")
        ∷ codes "ok,fix,1,14:-50.00"
        ∷ (codes "ok,books,11:0.000:0.00 12:100.000:1000.00 13:0.000:0.00 "
        ++ codes "14:105.263:1050.00,0.00,-50.00,5:0.00,-2000.00")
        ∷ codes "ok,fix,2,14:-52.63"
        ∷ (codes "ok,books,11:0.000:0.00 12:100.000:1000.00 13:0.000:0.00 "
        ++ codes "14:111.111:1050.00,0.00,-50.00,5:0.00,-2000.00")
        ∷ codes "ok,fix,3,12:-200.00"
        ∷ (codes "ok,books,11:0.000:0.00 12:125.000:1200.00 13:0.000:0.00 "
        ++ codes "14:111.111:1050.00,0.00,-50.00,5:-200.00,-2000.00")
        ∷ codes "ok,fix,4,14:333.34"
        ∷ (codes "ok,books,11:0.000:0.00 12:125.000:1200.00 13:0.000:0.00 "
        ++ codes "14:83.333:1050.00,0.00,-50.00,5:-200.00,-2000.00")
        ∷ codes "ok,fix,5,14:0.00"
        ∷ codes "ok,sheet,2"
        ∷ codes "ok,fix,6,14:25.00"
        ∷ codes "ok,fix,7,14:-25.00"
        ∷ (codes "ok,books,11:0.000:0.00 12:125.000:1200.00 13:0.000:0.00 "
        ++ codes "14:133.333:1675.00,0.00,-50.00,5:-225.00,-2600.00")
        ∷ codes "ok,show,101,14:83.333:0.000:1000.00"
        ∷ codes "ok,fix,3,12:-200.00"
        ∷ []
        ) }
{}

/// Each kind of correction tells its loss and books what its bearer pays: a price by which shares were sold, a rate, an
/// order entered, one replaced and one voided. A void that leaves a later sale without shares is refused.
pub fn books_after_each_correction()
    ensures { AnswersInJuly (
        codes "1719842400,h-mary000001,buy,101,1,14,1000.00"
        ∷ codes "1719842400,h-omar000002,buy,103,1,12,1000.00"
        ∷ codes "1719865800,op-desk000001,sheet,1,1719864000,11:20.00 12:10.00 13:15.00 14:10.00"
        ∷ codes "1719928800,h-omar000002,sell,103,2,12,50.000"
        ∷ codes "1719952200,op-desk000001,sheet,1,1719950400,11:20.00 12:10.00 13:15.00 14:10.00"
        ∷ codes "1719954000,op-desk000001,books"
        ∷ codes "1719954000,op-desk000001,fixprice,1,agent,12,1719950400,11.00"
        ∷ codes "1719954000,op-desk000001,books"
        ∷ codes "1719954060,op-desk000001,fixrate,2,dealer:5,14,1719950400,0.500000"
        ∷ codes "1719954060,op-desk000001,books"
        ∷ codes "1719954120,op-desk000001,enter,3,dealer:5,1719838800,buy,102,1,14,200.00"
        ∷ codes "1719954120,op-desk000001,books"
        ∷ codes "1719954180,op-desk000001,replace,4,agent,1719838800,buy,102,1,14,300.00"
        ∷ codes "1719954180,op-desk000001,books"
        ∷ codes "1720038600,op-desk000001,sheet,1,1720036800,11:20.00 12:12.00 13:15.00 14:10.00"
        ∷ codes "1720040400,op-desk000001,void,5,dealer:5,103,1"
        ∷ codes "1720040400,op-desk000001,void,5,dealer:5,103,2"
        ∷ codes "1720040400,op-desk000001,books"
        ∷ []
        ) (
        codes "ok,order,101,1,1719842400,1719864000"
        ∷ codes "ok,order,103,1,1719842400,1719864000"
        ∷ codes "ok,sheet,1"
        ∷ codes "ok,order,103,2,1719928800,1719950400"
        ∷ codes "ok,sheet,2"
        ∷ (codes "ok,books,11:0.000:0.00 12:50.000:500.00 13:0.000:0.00 "
        ++ codes "14:100.000:1000.00,25.00,0.00,5:0.00,-1525.00")
        ∷ codes "ok,fix,1,12:-50.00"
        ∷ (codes "ok,books,11:0.000:0.00 12:50.000:500.00 13:0.000:0.00 "
        ++ codes "14:100.000:1000.00,25.00,-50.00,5:0.00,-1475.00")
        ∷ codes "ok,fix,2,14:-50.00"
        ∷ (codes "ok,books,11:0.000:0.00 12:50.000:500.00 13:0.000:0.00 "
        ++ codes "14:105.000:1050.00,25.00,-50.00,5:-50.00,-1475.00")
        ∷ codes "ok,fix,3,14:-10.00"
        ∷ (codes "ok,books,11:0.000:0.00 12:50.000:500.00 13:0.000:0.00 "
        ++ codes "14:126.000:1260.00,25.00,-50.00,5:-60.00,-1675.00")
        ∷ codes "ok,fix,4,14:-5.00"
        ∷ (codes "ok,books,11:0.000:0.00 12:50.000:500.00 13:0.000:0.00 "
        ++ codes "14:136.500:1365.00,25.00,-55.00,5:-60.00,-1775.00")
        ∷ codes "ok,sheet,3"
        ∷ codes "no,15,103,2"
        ∷ codes "ok,fix,5,12:-50.00"
        ∷ (codes "ok,books,11:0.000:0.00 12:100.000:1100.00 13:0.000:0.00 "
        ++ codes "14:136.500:1365.00,0.00,-55.00,5:-110.00,-2300.00")
        ∷ []
        ) }
{}

/// Classes and dealers stand in the books by number, and classes in the gains of a correction, whichever was opened
/// first. The price of a class is that on its own latest sheet, though another calendar published a later one.
pub fn books_by_number()
    ensures { AnswersAlone (
        calendar_over (codes "1") (codes "2024-07-01,2024-07-05,2024-07-04")
        ∷ calendar_over (codes "2") (codes "2024-07-01,2024-07-05,2024-07-04")
        ∷ codes "1719835200,op-desk000001,class,13,1,1,GROWTH-B,7,1,0.01,0.01,0.00:0,"
        ∷ codes "1719835200,op-desk000001,class,21,2,2,INDEX-N,0,1,0.01,0.01,0.00:0,"
        ∷ codes "1719835200,op-desk000001,class,12,1,3,INCOME-B,7,1,0.01,0.01,0.00:0,"
        ∷ codes "1719835200,op-desk000001,dealer,7,d-second00007,21600"
        ∷ codes "1719835200,op-desk000001,dealer,5,d-broker00005,21600"
        ∷ codes "1719835200,op-desk000001,household,1,h-mary000001"
        ∷ codes "1719835200,op-desk000001,account,101,1,7,MARY DOE"
        ∷ codes "1719842400,h-mary000001,buy,101,1,12,1000.00"
        ∷ codes "1719842460,h-mary000001,buy,101,2,13,300.00"
        ∷ codes "1719842520,h-mary000001,buy,101,3,21,500.00"
        ∷ codes "1719865800,op-desk000001,sheet,1,1719864000,12:10.00 13:15.00"
        ∷ codes "1719865800,op-desk000001,sheet,2,1719864000,21:50.00"
        ∷ codes "1719867600,op-desk000001,books"
        ∷ codes "1719867660,op-desk000001,fixprice,1,dealer:5,12,1719864000,8.00"
        ∷ codes "1719867720,op-desk000001,replace,2,dealer:7,1719842460,buy,101,2,12,300.00"
        ∷ codes "1719867780,op-desk000001,books"
        ∷ codes "1719867840,h-mary000001,statement,101,2024-07-01,2024-07-31"
        ∷ []
        ) (
        codes "ok,calendar,1"
        ∷ codes "ok,calendar,2"
        ∷ codes "ok,class,13"
        ∷ codes "ok,class,21"
        ∷ codes "ok,class,12"
        ∷ codes "ok,dealer,7"
        ∷ codes "ok,dealer,5"
        ∷ codes "ok,household,1"
        ∷ codes "ok,account,101"
        ∷ codes "ok,order,101,1,1719842400,1719864000"
        ∷ codes "ok,order,101,2,1719842460,1719864000"
        ∷ codes "ok,order,101,3,1719842520,1719864000"
        ∷ codes "ok,sheet,1"
        ∷ codes "ok,sheet,2"
        ∷ (codes "ok,books,12:100.000:1000.00 13:20.000:300.00 21:10.000:500.00,0.00,0.00,"
        ++ codes "5:0.00 7:0.00,-1800.00")
        ∷ codes "ok,fix,1,12:-200.00"
        ∷ codes "ok,fix,2,12:0.00 13:0.00"
        ∷ (codes "ok,books,12:162.500:1500.00 13:0.000:0.00 21:10.000:500.00,0.00,0.00,"
        ++ codes "5:-200.00 7:0.00,-1800.00")
        ∷ statement_of (codes "101") (
        codes "STATEMENT 101 MARY DOE"
        ∷ codes "PERIOD 2024-07-01 2024-07-31"
        ∷ codes "2024-07-01 buy ref 1 class 12 gross 1000.00 price 8.00 shares 125.000 charge 0.00"
        ∷ codes "2024-07-01 buy ref 2 class 12 gross 300.00 price 8.00 shares 37.500 charge 0.00"
        ∷ codes "2024-07-01 buy ref 3 class 21 gross 500.00 price 50.00 shares 10.000 charge 0.00"
        ∷ codes "HOLDINGS"
        ∷ codes "class 12 INCOME-B shares 162.500 escrow 0.000 cost 1300.00 nav 8.00 value 1300.00"
        ∷ codes "class 21 INDEX-N shares 10.000 escrow 0.000 cost 500.00 nav 50.00 value 500.00"
        ∷ codes "END"
        ∷ [])
        ∷ []
        ) }
{}
