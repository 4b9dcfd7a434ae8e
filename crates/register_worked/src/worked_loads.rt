//! A worked load: the requests that the load of number 1 with two households sends over ten days.
ghost use Rattle.std.specs.Prelude.{[], ◌∷◌, ◌++◌, codes};
ghost use Rattle.register_worked.specs.WorkedLots.{Sends};
ghost use Rattle.register_worked.specs.WorkedRuns.{in_quotes};

/// The opening, two orders and a sheet on each day, and on the tenth day the correction of the fifth day's sheet, at the moment of
/// the tenth day's own.
pub fn load_of_two_households()
    ensures { Sends (record { number = 1; households = 2; days = 10 }) (
        (codes "1704200400,op-desk000001,calendar,1," ++ in_quotes (codes "EST5EDT,M3.2.0,M11.1.0")
        ++ codes ",16:00,2024-01-01,2033-12-31,")
        ∷ (codes "1704200400,op-desk000001,class,11,1,1,GROWTH-A,0,1,"
        ++ codes "0.01,0.01,0.00:575 25000.00:500 50000.00:450 100000.00:350 250000.00:250 500000.00:200 1000000.00:0,")
        ∷ (codes "1704200400,op-desk000001,class,12,1,1,GROWTH-B,7,1,"
        ++ codes "0.01,0.01,0.00:0,500 400 300 200 100")
        ∷ codes "1704200400,op-desk000001,household,1,h-00000001"
        ∷ codes "1704200400,op-desk000001,household,2,h-00000002"
        ∷ codes "1704200400,op-desk000001,account,1,1,0,HOLDER"
        ∷ codes "1704200400,op-desk000001,account,2,2,0,HOLDER"
        ∷ codes "1704225600,op-desk000001,buy,1,1,12,793.00"
        ∷ codes "1704225600,op-desk000001,buy,2,1,11,138.00"
        ∷ codes "1704232800,op-desk000001,sheet,1,1704229200,11:10.07 12:20.11"
        ∷ codes "1704312000,op-desk000001,buy,1,2,11,399.00"
        ∷ codes "1704312000,op-desk000001,buy,2,2,12,317.00"
        ∷ codes "1704319200,op-desk000001,sheet,1,1704315600,11:10.14 12:20.22"
        ∷ codes "1704398400,op-desk000001,buy,1,3,12,858.00"
        ∷ codes "1704398400,op-desk000001,sell,2,3,11,94.900"
        ∷ codes "1704405600,op-desk000001,sheet,1,1704402000,11:10.21 12:20.33"
        ∷ codes "1704484800,op-desk000001,buy,1,4,12,882.00"
        ∷ codes "1704484800,op-desk000001,buy,2,4,12,825.00"
        ∷ codes "1704492000,op-desk000001,sheet,1,1704488400,11:10.28 12:20.44"
        ∷ codes "1704744000,op-desk000001,buy,1,5,11,622.00"
        ∷ codes "1704744000,op-desk000001,buy,2,5,12,786.00"
        ∷ codes "1704751200,op-desk000001,sheet,1,1704747600,11:10.35 12:20.55"
        ∷ codes "1704830400,op-desk000001,sell,1,6,11,3.100"
        ∷ codes "1704830400,op-desk000001,buy,2,6,12,800.00"
        ∷ codes "1704837600,op-desk000001,sheet,1,1704834000,11:10.42 12:20.66"
        ∷ codes "1704916800,op-desk000001,buy,1,7,11,963.00"
        ∷ codes "1704916800,op-desk000001,buy,2,7,11,700.00"
        ∷ codes "1704924000,op-desk000001,sheet,1,1704920400,11:10.49 12:20.77"
        ∷ codes "1705003200,op-desk000001,buy,1,8,12,858.00"
        ∷ codes "1705003200,op-desk000001,buy,2,8,11,303.00"
        ∷ codes "1705010400,op-desk000001,sheet,1,1705006800,11:10.56 12:20.88"
        ∷ codes "1705089600,op-desk000001,buy,1,9,12,322.00"
        ∷ codes "1705089600,op-desk000001,sell,2,9,11,62.400"
        ∷ codes "1705096800,op-desk000001,sheet,1,1705093200,11:10.63 12:20.99"
        ∷ codes "1705348800,op-desk000001,buy,1,10,11,433.00"
        ∷ codes "1705348800,op-desk000001,buy,2,10,11,441.00"
        ∷ codes "1705356000,op-desk000001,sheet,1,1705352400,11:10.70 12:20.10"
        ∷ codes "1705356000,op-desk000001,fixprice,10,agent,11,1704747600,10.36"
        ∷ []
        ) }
{}
