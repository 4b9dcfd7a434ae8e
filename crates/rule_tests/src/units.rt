//! Money units: printing and reading at their limits, and the ranges of net asset values and moments.
use money_units::{
    Bps, Bytes, Cents, List, Mils, Moment, Nav, NoMemory, TextFault, all_visible, begins,
    print_cents, print_mils, print_number, print_signed, read_cents, read_mils, read_number,
    read_rate, same_bytes,
};
use std::alloc::Global;
use std::process::Abort;
use std::test::Fail;

fn append_numbers(out: &mut Vec<u8>) -> Result<(), NoMemory> {
    print_number(0, out)?;
    out.push(b' ')?;
    print_number(18_446_744_073_709_551_615, out)?;
    Ok(())
}

#[test]
fn numbers_are_appended(rt: HostRuntime) -> Result<(), Fail> {
    let mut out = b"#".to_vec(rt.alloc())?;
    append_numbers(&mut out)?;
    assert_eq!(rt; out.as_slice(), b"#0 18446744073709551615".as_slice());
    Ok(())
}

fn cents_text(alloc: Global, cents: u128) -> Result<Vec<u8>, NoMemory> {
    let mut out = Vec::new(alloc);
    print_cents(cents, &mut out)?;
    Ok(out)
}

const MONEY: [(u128, &[u8]); 5] = [
    (0, b"0.00"),
    (9, b"0.09"),
    (1061, b"10.61"),
    (1_000_000_000_000_000, b"10000000000000.00"),
    (u128::MAX, b"3402823669209384634633746074317682114.55"),
];

// The first text of money that is another one; empty without one.
fn first_other_money(alloc: Global) -> Result<Vec<u8>, NoMemory> {
    for (cents, wanted) in MONEY {
        let found = cents_text(alloc, cents)?;
        if found.as_slice() != wanted {
            return Ok(found);
        }
    }
    Ok(Vec::new(alloc))
}

fn mils_text(alloc: Global, mils: u128) -> Result<Vec<u8>, NoMemory> {
    let mut out = Vec::new(alloc);
    print_mils(mils, &mut out)?;
    Ok(out)
}

const SHARES: [(u128, &[u8]); 4] = [
    (0, b"0.000"),
    (1, b"0.001"),
    (942_507, b"942.507"),
    (u128::MAX, b"340282366920938463463374607431768211.455"),
];

// The first text of shares that is another one; empty without one.
fn first_other_shares(alloc: Global) -> Result<Vec<u8>, NoMemory> {
    for (mils, wanted) in SHARES {
        let found = mils_text(alloc, mils)?;
        if found.as_slice() != wanted {
            return Ok(found);
        }
    }
    Ok(Vec::new(alloc))
}

fn signed_text(alloc: Global, cents: i128) -> Result<Vec<u8>, NoMemory> {
    let mut out = Vec::new(alloc);
    print_signed(cents, &mut out)?;
    Ok(out)
}

const SIGNED: [(i128, &[u8]); 5] = [
    (-50_000, b"-500.00"),
    (-1, b"-0.01"),
    (0, b"0.00"),
    (1_050_000, b"10500.00"),
    (i128::MIN, b"-1701411834604692317316873037158841057.28"),
];

// The first text of an amount that is another one; empty without one.
fn first_other_amount(alloc: Global) -> Result<Vec<u8>, NoMemory> {
    for (cents, wanted) in SIGNED {
        let found = signed_text(alloc, cents)?;
        if found.as_slice() != wanted {
            return Ok(found);
        }
    }
    Ok(Vec::new(alloc))
}

fn expect_none(rt: &impl Abort, other: &[u8]) {
    assert_eq!(rt; other, b"".as_slice());
}

#[test]
fn money_has_two_places_and_its_sign_and_shares_have_three(rt: HostRuntime) -> Result<(), Fail> {
    expect_none(&rt, first_other_money(rt.alloc())?.as_slice());
    expect_none(&rt, first_other_shares(rt.alloc())?.as_slice());
    expect_none(&rt, first_other_amount(rt.alloc())?.as_slice());
    Ok(())
}

#[test]
fn texts_in_form_are_read(rt: HostRuntime) {
    let numbers = [read_number(b"0"), read_number(b"9999999999999999999")];
    assert_eq!(rt; numbers, [Ok(0), Ok(9_999_999_999_999_999_999)]);
    let cents = [read_cents(b"10000.00"), read_cents(b"9999999999999.99")];
    assert_eq!(rt;
        cents,
        [Ok(Cents(1_000_000)), Ok(Cents(999_999_999_999_999))]
    );
    let mils = [read_mils(b"942.507"), read_mils(b"9999999999999.999")];
    assert_eq!(rt; mils, [Ok(Mils(942_507)), Ok(Mils(9_999_999_999_999_999))]);
    let rates = [read_rate(b"0.120000"), read_rate(b"9999.999999")];
    assert_eq!(rt; rates, [Ok(120_000), Ok(9_999_999_999)]);
}

const NO_NUMBERS: [&str; 5] = ["", "007", "10000000000000000000", "1.0", "+1"];

const NO_AMOUNTS: [&str; 6] = ["10.6", "-10.61", "10", ".61", "01.00", "10000000000000.00"];

// The first of these texts that is read as a number, or as an amount.
fn first_read() -> Option<&'static str> {
    for text in NO_NUMBERS {
        if read_number(text.as_bytes()) != Err(TextFault) {
            return Some(text);
        }
    }
    for text in NO_AMOUNTS {
        if read_cents(text.as_bytes()) != Err(TextFault) {
            return Some(text);
        }
    }
    None
}

#[test]
fn other_texts_are_faults(rt: HostRuntime) {
    assert_eq!(rt; first_read(), None);
    assert_eq!(rt; read_mils(b"942.50"), Err(TextFault));
    assert_eq!(rt; read_rate(b"10000.000000"), Err(TextFault));
}

#[test]
fn net_asset_values_have_a_range(rt: HostRuntime) -> Result<(), Fail> {
    assert_eq!(rt; (Nav::new(0), Nav::new(10_000_001)), (None, None));
    let nav = Nav::new(10_000_000).ok_or("the greatest")?;
    assert_eq!(rt; nav.cents(), 10_000_000);
    assert!(rt; Bps(575) > Bps(500));
    Ok(())
}

#[test]
fn moments_have_a_range(rt: HostRuntime) -> Result<(), Fail> {
    let outside = [Moment::new(7_258_118_400), Moment::new(u64::MAX)];
    assert_eq!(rt; outside, [None, None]);
    let last = Moment::new(7_258_118_399).ok_or("the last")?;
    let moments = [
        last,
        Moment::start(),
        last.earlier(1),
        Moment::start().earlier(1),
        Moment::start().later(3_600),
        last.later(1),
    ];
    let mut seconds = [0; 6];
    for (at, moment) in seconds.iter_mut().zip(moments) {
        *at = moment.seconds();
    }
    assert_eq!(rt;
        seconds,
        [7_258_118_399, 0, 7_258_118_398, 0, 3_600, 7_258_118_399]
    );
    Ok(())
}

// How many bytes there are, and then with two more.
fn push_two(bytes: &mut Bytes) -> Result<(usize, usize), NoMemory> {
    let before = bytes.len();
    bytes.push(b'h')?;
    bytes.push_copy(&b'1')?;
    Ok((before, bytes.len()))
}

// The bytes of a list of two.
fn two(alloc: Global) -> Result<((usize, usize), Bytes), NoMemory> {
    let mut bytes = Bytes::new(alloc);
    let lengths = push_two(&mut bytes)?;
    Ok((lengths, bytes))
}

// A copy of the bytes with one more.
fn longer(alloc: Global, bytes: &[u8]) -> Result<Bytes, NoMemory> {
    let copy = List::from_slice(alloc, bytes)?;
    let mut items = copy.into_vec();
    items.push(b'2')?;
    Ok(List::from_vec(items))
}

#[test]
fn a_list_gives_back_its_items(rt: HostRuntime) -> Result<(), Fail> {
    let (lengths, bytes) = two(rt.alloc())?;
    assert_eq!(rt; lengths, (0, 2));
    assert_eq!(rt; bytes.as_slice(), b"h1".as_slice());
    let longer = longer(rt.alloc(), bytes.as_slice())?;
    assert_eq!(rt; longer.as_slice(), b"h12".as_slice());
    Ok(())
}

#[test]
fn texts_are_compared_by_their_bytes(rt: HostRuntime) {
    assert!(rt; same_bytes(b"buy", b"buy"));
    assert!(rt; !same_bytes(b"buy", b"buys"));
    assert!(rt; begins(b"op-", b"op-desk000001"));
    assert!(rt; !begins(b"op-", b"op"));
    assert!(rt; all_visible(b"!~"));
    assert!(rt; !all_visible(b"a b"));
}

#[test]
fn faults_are_told_in_words(rt: HostRuntime) -> Result<(), Fail> {
    let told = format!(in rt.alloc(); "{NoMemory}; {TextFault}")?;
    assert_eq!(rt; told.as_str(), "out of memory; the text isn't in its form");
    Ok(())
}
