//! Worked scripts of redemptions, exchanges and dividends, as laws.
ghost use Rattle.std.specs.Prelude.{[], ◌∷◌, ◌++◌, codes};
ghost use Rattle.register_worked.specs.WorkedRuns.{Answers, AnswersInJuly, AnswersOnFewDays, first_sheet, statement_of};

/// Free shares go first, and the deferred charge is taken on the cost where that is lower than the value.
pub fn charge_on_cost()
    ensures { Answers (
        codes "1719838800,op-desk000001,buy,101,1,12,1000.00"
        ∷ first_sheet
        ∷ codes "1719867700,op-desk000001,dividend,12,1719950400,0.500000"
        ∷ codes "1719954000,op-desk000001,sheet,1,1719950400,11:10.00 12:10.00 13:20.00 14:10.00"
        ∷ codes "1719957600,op-desk000001,show,101"
        ∷ codes "1719957600,op-desk000001,sell,101,2,12,50.000"
        ∷ codes "1720040400,op-desk000001,sheet,1,1720036800,11:10.00 12:12.00 13:20.00 14:10.00"
        ∷ codes "1720040400,op-desk000001,trace,101,2"
        ∷ []
        ) (
        codes "ok,order,101,1,1719838800,1719864000"
        ∷ codes "ok,sheet,1"
        ∷ codes "ok,dividend,12,1719950400"
        ∷ codes "ok,sheet,2"
        ∷ codes "ok,show,101,12:105.000:0.000:1050.00"
        ∷ codes "ok,order,101,2,1719957600,1720036800"
        ∷ codes "ok,sheet,3"
        ∷ codes "ok,trace,101,2,filled,1719957600,1720036800,12.00,50.000,600.00,22.50,0.000"
        ∷ []
        ) }
{}

/// And on the value where that is lower.
pub fn charge_on_value()
    ensures { Answers (
        codes "1719838800,op-desk000001,buy,101,1,12,1000.00"
        ∷ first_sheet
        ∷ codes "1719867700,op-desk000001,dividend,12,1719950400,0.500000"
        ∷ codes "1719954000,op-desk000001,sheet,1,1719950400,11:10.00 12:10.00 13:20.00 14:10.00"
        ∷ codes "1719957600,op-desk000001,show,101"
        ∷ codes "1719957600,op-desk000001,sell,101,2,12,50.000"
        ∷ codes "1720040400,op-desk000001,sheet,1,1720036800,11:10.00 12:8.00 13:20.00 14:10.00"
        ∷ codes "1720040400,op-desk000001,trace,101,2"
        ∷ []
        ) (
        codes "ok,order,101,1,1719838800,1719864000"
        ∷ codes "ok,sheet,1"
        ∷ codes "ok,dividend,12,1719950400"
        ∷ codes "ok,sheet,2"
        ∷ codes "ok,show,101,12:105.000:0.000:1050.00"
        ∷ codes "ok,order,101,2,1719957600,1720036800"
        ∷ codes "ok,sheet,3"
        ∷ codes "ok,trace,101,2,filled,1719957600,1720036800,8.00,50.000,400.00,18.00,0.000"
        ∷ []
        ) }
{}

/// Half of a purchase is sold in its first year at a gain.
pub fn redemption_in_first_year()
    ensures { Answers (
        codes "1719838800,op-desk000001,buy,101,1,12,1000.00"
        ∷ first_sheet
        ∷ codes "1719867800,op-desk000001,sell,101,2,12,50.000"
        ∷ codes "1719954000,op-desk000001,sheet,1,1719950400,11:10.00 12:12.00 13:20.00 14:10.00"
        ∷ codes "1719954000,op-desk000001,trace,101,2"
        ∷ codes "1719954000,op-desk000001,show,101"
        ∷ []
        ) (
        codes "ok,order,101,1,1719838800,1719864000"
        ∷ codes "ok,sheet,1"
        ∷ codes "ok,order,101,2,1719867800,1719950400"
        ∷ codes "ok,sheet,2"
        ∷ codes "ok,trace,101,2,filled,1719867800,1719950400,12.00,50.000,600.00,25.00,0.000"
        ∷ codes "ok,show,101,12:50.000:0.000:500.00"
        ∷ []
        ) }
{}

/// All shares go into another class of the family, with their cost.
pub fn exchange_of_all()
    ensures { Answers (
        codes "1719838800,op-desk000001,buy,101,1,12,1000.00"
        ∷ first_sheet
        ∷ codes "1719867800,op-desk000001,exchangeall,101,2,12,13"
        ∷ codes "1719954000,op-desk000001,sheet,1,1719950400,11:10.00 12:10.00 13:20.00 14:10.00"
        ∷ codes "1719954000,op-desk000001,trace,101,2"
        ∷ codes "1719954000,op-desk000001,show,101"
        ∷ []
        ) (
        codes "ok,order,101,1,1719838800,1719864000"
        ∷ codes "ok,sheet,1"
        ∷ codes "ok,order,101,2,1719867800,1719950400"
        ∷ codes "ok,sheet,2"
        ∷ codes "ok,trace,101,2,filled,1719867800,1719950400,10.00,100.000,1000.00,0.00,0.000"
        ∷ codes "ok,show,101,13:50.000:0.000:1000.00"
        ∷ []
        ) }
{}

/// Sold a year after the purchase, shares that were exchanged have the rate of the second year.
pub fn exchanged_shares_keep_their_date()
    ensures { AnswersOnFewDays (
        codes "1719838800,op-desk000001,buy,101,1,12,1000.00"
        ∷ first_sheet
        ∷ codes "1719867800,op-desk000001,exchangeall,101,2,12,13"
        ∷ codes "1719954000,op-desk000001,sheet,1,1719950400,11:10.00 12:10.00 13:20.00 14:10.00"
        ∷ codes "1719954000,op-desk000001,sell,101,3,13,50.000"
        ∷ codes "1751403600,op-desk000001,sheet,1,1751400000,11:10.00 12:10.00 13:20.00 14:10.00"
        ∷ codes "1751403600,op-desk000001,trace,101,3"
        ∷ []
        ) (
        codes "ok,order,101,1,1719838800,1719864000"
        ∷ codes "ok,sheet,1"
        ∷ codes "ok,order,101,2,1719867800,1719950400"
        ∷ codes "ok,sheet,2"
        ∷ codes "ok,order,101,3,1719954000,1751400000"
        ∷ codes "ok,sheet,3"
        ∷ codes "ok,trace,101,3,filled,1719954000,1751400000,20.00,50.000,1000.00,40.00,0.000"
        ∷ []
        ) }
{}

/// A dividend of $0.12 a share is reinvested at $9.90.
pub fn reinvested_dividend()
    ensures { Answers (
        codes "1719838800,op-desk000001,buy,101,1,11,10000.00"
        ∷ first_sheet
        ∷ codes "1719867700,op-desk000001,dividend,11,1719950400,0.120000"
        ∷ codes "1719954000,op-desk000001,sheet,1,1719950400,11:9.90 12:10.00 13:20.00 14:10.00"
        ∷ codes "1719954000,op-desk000001,show,101"
        ∷ codes "1719954000,op-desk000001,statement,101,2024-07-02,2024-07-02"
        ∷ []
        ) (
        codes "ok,order,101,1,1719838800,1719864000"
        ∷ codes "ok,sheet,1"
        ∷ codes "ok,dividend,11,1719950400"
        ∷ codes "ok,sheet,2"
        ∷ codes "ok,show,101,11:953.931:0.000:10113.10"
        ∷ statement_of (codes "101") (
        codes "STATEMENT 101 MARY DOE"
        ∷ codes "PERIOD 2024-07-02 2024-07-02"
        ∷ codes "2024-07-02 dividend class 11 amount 113.10 nav 9.90 shares 11.424"
        ∷ codes "HOLDINGS"
        ∷ codes "class 11 GROWTH-A shares 953.931 escrow 0.000 cost 10113.10 nav 9.90 value 9443.92"
        ∷ codes "END"
        ∷ [])
        ∷ []
        ) }
{}

/// A redemption of an amount asks for the shares that are worth it by the nearest mil, and pays their value: too small
/// where that is no mil, short where it is more than is held.
pub fn redemption_by_amount()
    ensures { AnswersInJuly (
        codes "1719842400,h-mary000001,buy,101,1,13,1000.00"
        ∷ codes "1719842400,h-mary000001,buy,101,2,14,1000.00"
        ∷ codes "1719865800,op-desk000001,sheet,1,1719864000,11:20.00 12:10.00 13:15.00 14:25.00"
        ∷ codes "1719928800,h-mary000001,sellcash,101,3,13,100.00"
        ∷ codes "1719928860,h-mary000001,sellcash,101,4,14,0.01"
        ∷ codes "1719928920,h-mary000001,sellcash,101,5,14,0.02"
        ∷ codes "1719928980,h-mary000001,sellcash,102,1,14,0.01"
        ∷ codes "1719929040,h-mary000001,sellcash,101,6,13,2000.00"
        ∷ codes "1719952200,op-desk000001,sheet,1,1719950400,11:20.00 12:10.00 13:16.00 14:25.00"
        ∷ codes "1719954000,h-mary000001,trace,101,3"
        ∷ codes "1719954000,h-mary000001,trace,101,4"
        ∷ codes "1719954000,h-mary000001,trace,101,5"
        ∷ codes "1719954000,h-mary000001,trace,101,6"
        ∷ codes "1719954000,h-mary000001,trace,102,1"
        ∷ codes "1719954000,h-mary000001,show,101"
        ∷ codes "1719954000,h-mary000001,statement,101,2024-07-02,2024-07-02"
        ∷ codes "1719954000,op-desk000001,books"
        ∷ []
        ) (
        codes "ok,order,101,1,1719842400,1719864000"
        ∷ codes "ok,order,101,2,1719842400,1719864000"
        ∷ codes "ok,sheet,1"
        ∷ codes "ok,order,101,3,1719928800,1719950400"
        ∷ codes "ok,order,101,4,1719928860,1719950400"
        ∷ codes "ok,order,101,5,1719928920,1719950400"
        ∷ codes "ok,order,102,1,1719928980,1719950400"
        ∷ codes "ok,order,101,6,1719929040,1719950400"
        ∷ codes "ok,sheet,2"
        ∷ codes "ok,trace,101,3,filled,1719928800,1719950400,16.00,6.250,100.00,4.69,0.000"
        ∷ codes "ok,trace,101,4,small,1719928860,1719950400,0.00,0.000,0.00,0.00,0.000"
        ∷ codes "ok,trace,101,5,filled,1719928920,1719950400,25.00,0.001,0.03,0.00,0.000"
        ∷ codes "ok,trace,101,6,short,1719929040,1719950400,0.00,0.000,0.00,0.00,60.417"
        ∷ codes "ok,trace,102,1,small,1719928980,1719950400,0.00,0.000,0.00,0.00,0.000"
        ∷ codes "ok,show,101,13:60.417:0.000:906.25 14:39.999:0.000:999.97"
        ∷ statement_of (codes "101") (
        codes "STATEMENT 101 MARY DOE"
        ∷ codes "PERIOD 2024-07-02 2024-07-02"
        ∷ (codes "2024-07-02 sell ref 3 class 13 shares 6.250 "
        ++ codes "nav 16.00 value 100.00 charge 4.69 paid 95.31")
        ∷ codes "2024-07-02 unfilled ref 4 class 14 small"
        ∷ (codes "2024-07-02 sell ref 5 class 14 shares 0.001 "
        ++ codes "nav 25.00 value 0.03 charge 0.00 paid 0.03")
        ∷ codes "2024-07-02 unfilled ref 6 class 13 short"
        ∷ codes "HOLDINGS"
        ∷ codes "class 13 INCOME-B shares 60.417 escrow 0.000 cost 906.25 nav 16.00 value 966.67"
        ∷ codes "class 14 INDEX-N shares 39.999 escrow 0.000 cost 999.97 nav 25.00 value 999.98"
        ∷ codes "END"
        ∷ [])
        ∷ (codes "ok,books,11:0.000:0.00 12:0.000:0.00 13:60.417:900.00 "
        ++ codes "14:39.999:999.97,4.69,0.00,5:0.00,-1904.66")
        ∷ []
        ) }
{}

/// All of nothing is short, before the first purchase of the sheet as after the last share was sold; the loose shares are
/// those at the order's turn.
pub fn sale_of_nothing()
    ensures { AnswersInJuly (
        codes "1719842400,h-mary000001,sellall,101,1,12"
        ∷ codes "1719842460,h-mary000001,buy,101,2,12,1000.00"
        ∷ codes "1719842520,h-mary000001,sellall,102,1,14"
        ∷ codes "1719865800,op-desk000001,sheet,1,1719864000,11:20.00 12:10.00 13:15.00 14:50.00"
        ∷ codes "1719928800,h-mary000001,sellall,101,3,12"
        ∷ codes "1719928860,h-mary000001,sellall,101,4,12"
        ∷ codes "1719928920,h-mary000001,exchangeall,101,5,12,13"
        ∷ codes "1719928980,h-mary000001,sell,101,6,12,0.001"
        ∷ codes "1719952200,op-desk000001,sheet,1,1719950400,11:20.00 12:10.00 13:15.00 14:50.00"
        ∷ codes "1719954000,h-mary000001,trace,101,1"
        ∷ codes "1719954000,h-mary000001,trace,102,1"
        ∷ codes "1719954000,h-mary000001,trace,101,3"
        ∷ codes "1719954000,h-mary000001,trace,101,4"
        ∷ codes "1719954000,h-mary000001,trace,101,5"
        ∷ codes "1719954000,h-mary000001,trace,101,6"
        ∷ codes "1719954000,h-mary000001,show,101"
        ∷ codes "1719954000,h-mary000001,statement,101,2024-07-01,2024-07-31"
        ∷ codes "1719954060,op-desk000001,enter,1,fund,1719952200,sellall,101,7,12"
        ∷ []
        ) (
        codes "ok,order,101,1,1719842400,1719864000"
        ∷ codes "ok,order,101,2,1719842460,1719864000"
        ∷ codes "ok,order,102,1,1719842520,1719864000"
        ∷ codes "ok,sheet,1"
        ∷ codes "ok,order,101,3,1719928800,1719950400"
        ∷ codes "ok,order,101,4,1719928860,1719950400"
        ∷ codes "ok,order,101,5,1719928920,1719950400"
        ∷ codes "ok,order,101,6,1719928980,1719950400"
        ∷ codes "ok,sheet,2"
        ∷ codes "ok,trace,101,1,short,1719842400,1719864000,0.00,0.000,0.00,0.00,0.000"
        ∷ codes "ok,trace,102,1,short,1719842520,1719864000,0.00,0.000,0.00,0.00,0.000"
        ∷ codes "ok,trace,101,3,filled,1719928800,1719950400,10.00,100.000,1000.00,50.00,0.000"
        ∷ codes "ok,trace,101,4,short,1719928860,1719950400,0.00,0.000,0.00,0.00,0.000"
        ∷ codes "ok,trace,101,5,short,1719928920,1719950400,0.00,0.000,0.00,0.00,0.000"
        ∷ codes "ok,trace,101,6,short,1719928980,1719950400,0.00,0.000,0.00,0.00,0.000"
        ∷ codes "ok,show,101,"
        ∷ statement_of (codes "101") (
        codes "STATEMENT 101 MARY DOE"
        ∷ codes "PERIOD 2024-07-01 2024-07-31"
        ∷ codes "2024-07-01 unfilled ref 1 class 12 short"
        ∷ codes "2024-07-01 buy ref 2 class 12 gross 1000.00 price 10.00 shares 100.000 charge 0.00"
        ∷ (codes "2024-07-02 sell ref 3 class 12 shares 100.000 "
        ++ codes "nav 10.00 value 1000.00 charge 50.00 paid 950.00")
        ∷ codes "2024-07-02 unfilled ref 4 class 12 short"
        ∷ codes "2024-07-02 unfilled ref 5 class 12 short"
        ∷ codes "2024-07-02 unfilled ref 6 class 12 short"
        ∷ codes "HOLDINGS"
        ∷ codes "END"
        ∷ [])
        ∷ codes "ok,fix,1,"
        ∷ []
        ) }
{}

/// Shares of reinvested dividends stay free of a charge in the class that they are exchanged into, and go first there.
pub fn free_shares_stay_free_in_an_exchange()
    ensures { AnswersInJuly (
        codes "1719842400,h-mary000001,buy,101,1,12,1000.00"
        ∷ codes "1719865800,op-desk000001,sheet,1,1719864000,11:20.00 12:10.00 13:20.00 14:50.00"
        ∷ codes "1719867600,op-desk000001,dividend,12,1719950400,0.500000"
        ∷ codes "1719952200,op-desk000001,sheet,1,1719950400,11:20.00 12:10.00 13:20.00 14:50.00"
        ∷ codes "1720015200,h-mary000001,exchangeall,101,2,12,13"
        ∷ codes "1720038600,op-desk000001,sheet,1,1720036800,11:20.00 12:10.00 13:20.00 14:50.00"
        ∷ codes "1720040400,h-mary000001,show,101"
        ∷ codes "1720188000,h-mary000001,sell,101,3,13,12.500"
        ∷ codes "1720211400,op-desk000001,sheet,1,1720209600,11:20.00 12:10.00 13:20.00 14:50.00"
        ∷ codes "1720213200,h-mary000001,trace,101,3"
        ∷ codes "1720213200,h-mary000001,show,101"
        ∷ []
        ) (
        codes "ok,order,101,1,1719842400,1719864000"
        ∷ codes "ok,sheet,1"
        ∷ codes "ok,dividend,12,1719950400"
        ∷ codes "ok,sheet,2"
        ∷ codes "ok,order,101,2,1720015200,1720036800"
        ∷ codes "ok,sheet,3"
        ∷ codes "ok,show,101,13:52.500:0.000:1050.00"
        ∷ codes "ok,order,101,3,1720188000,1720209600"
        ∷ codes "ok,sheet,4"
        ∷ codes "ok,trace,101,3,filled,1720188000,1720209600,20.00,12.500,250.00,10.00,0.000"
        ∷ codes "ok,show,101,13:40.000:0.000:800.00"
        ∷ []
        ) }
{}
