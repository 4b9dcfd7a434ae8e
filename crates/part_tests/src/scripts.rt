//! The scripts behind which a desk's calls are tested, and what a desk says to them.
ghost use Rattle.std.specs.Prelude.{IfOk, IsTrue};
ghost use Rattle.register_desk.specs.Rows.{TellsRowsOf};

use agent_edge::MemorySink;
use agent_keeper::Keeper;
use household_fold::Steps;
use money_units::NoMemory;
use register_desk::Desk;
use script_answers::answer_script;
use std::alloc::Global;
use std::sync::ledger::Ledger;
use std::test::Fail;

pub const OPERATOR: &[u8] = b"op-desk000001";

pub const MARY: &[u8] = b"h-mary000001";

pub const DEALER: &[u8] = b"d-broker00005";

/// Eleven events at 08:00 in New York: a calendar, four classes, a dealer, two households and three accounts.
pub const PREAMBLE: &[u8] =
    b"1719835200,op-desk000001,calendar,1,\"EST5EDT,M3.2.0,M11.1.0\",16:00,2024-01-01,\
2026-12-31,2024-07-04 2024-11-28 2024-12-25\n\
1719835200,op-desk000001,class,11,1,1,GROWTH-A,0,1,250.00,50.00,0.00:575 25000.00:500 \
50000.00:450 100000.00:350 250000.00:250 500000.00:200 1000000.00:0,\n\
1719835200,op-desk000001,class,12,1,1,GROWTH-B,7,1,0.01,0.01,0.00:0,500 400 300 200 100\n\
1719835200,op-desk000001,class,13,1,2,INCOME-B,7,1,0.01,0.01,0.00:0,500 400 300 200 100\n\
1719835200,op-desk000001,class,14,1,3,INDEX-N,0,0,0.01,0.01,0.00:0,\n\
1719835200,op-desk000001,dealer,5,d-broker00005,21600\n\
1719835200,op-desk000001,household,1,h-mary000001\n\
1719835200,op-desk000001,household,2,h-omar000002\n\
1719835200,op-desk000001,account,101,1,0,MARY DOE\n\
1719835200,op-desk000001,account,102,1,0,MARY DOE IRA\n\
1719835200,op-desk000001,account,103,2,5,OMAR ROE\n";

/// A purchase and the sheets of two days: two events, and a third at 1719954000.
pub const TWO_DAYS: &[u8] = b"1719838800,h-mary000001,buy,101,1,11,10000.00\n\
1719867600,op-desk000001,sheet,1,1719864000,11:10.00 12:10.00 13:20.00 14:10.00\n\
1719954000,op-desk000001,sheet,1,1719950400,11:10.00 12:10.00 13:20.00 14:10.50\n";

/// These texts in order, a stroke behind each.
pub(crate) fn joined(alloc: Global, texts: &[&[u8]]) -> Result<Vec<u8>, NoMemory> {
    let mut all = Vec::new(alloc);
    for text in texts {
        all.extend_from_slice(text)?;
        all.push(b'|')?;
    }
    Ok(all)
}

/// These texts in order.
pub(crate) fn together(alloc: Global, first: &[u8], second: &[u8]) -> Result<Vec<u8>, NoMemory> {
    let mut both = Vec::from_slice(alloc, first)?;
    both.extend_from_slice(second)?;
    Ok(both)
}

/// The desk of a keeper, behind a script.
pub(crate) fn open<K: Keeper, L: Ledger>(
    alloc: Global,
    keeper: &mut K,
    script: &[u8],
    steps: &mut Steps<L>,
) -> Result<Desk, Fail>
    requires attached { IsTrue (K.is_attached keeper.old) }
    ensures told { IfOk result (λ desk. TellsRowsOf (K.tells keeper.new) desk.book.journal) }
{
    let mut desk = Desk::start(alloc, keeper, steps)?;
    let mut sink = MemorySink::new(alloc, 4096, 65536, &[])?;
    answer_script(alloc, OPERATOR, &mut desk, keeper, script, &mut sink, steps)?;
    Ok(desk)
}

/// The replies of a desk to a script, a line each.
pub(crate) fn replies<K: Keeper, L: Ledger>(
    alloc: Global,
    desk: &mut Desk,
    keeper: &mut K,
    script: &[u8],
    steps: &mut Steps<L>,
) -> Result<Vec<u8>, Fail>
    requires attached { IsTrue (K.is_attached keeper.old) }
    requires told { TellsRowsOf (K.tells keeper.old) desk.old.book.journal }
    ensures told { TellsRowsOf (K.tells keeper.new) desk.new.book.journal }
{
    let mut sink = MemorySink::new(alloc, 4096, 1_000_000, &[])?;
    answer_script(alloc, OPERATOR, desk, keeper, script, &mut sink, steps)?;
    Ok(Vec::from_slice(alloc, sink.contents())?)
}
