//! A row longer than 64 kibibytes: no event has one, so no run keeps one.
use agent_keeper::{KeepFault, Keeper, MemoryKeeper, append_row};
use money_units::Bytes;
use std::alloc::Global;
use std::test::Fail;

// The number of a row and what is read back of it, in a store that is found at a path of 200 bytes.
fn read_back(alloc: Global, length: usize) -> Result<(Option<u64>, Vec<u8>), KeepFault> {
    let mut keeper = MemoryKeeper::new(alloc, &[])?;
    keeper.attach(
        "kkkkkkkkkkkkkkkkkkkkkkkkkkkkkkkkkkkkkkkkkkkkkkkkkkkkkkkkkkkkkkkkkkkkkkkkkkkkkkkkkkkkkkkkkkkkkkkkkkkk\
kkkkkkkkkkkkkkkkkkkkkkkkkkkkkkkkkkkkkkkkkkkkkkkkkkkkkkkkkkkkkkkkkkkkkkkkkkkkkkkkkkkkkkkkkkkkkkkkkkkk",
    )?;
    let mut row = Vec::new(alloc);
    for place in 0..length {
        row.push((place % 251) as u8)?;
    }
    let mut into = Vec::new(alloc);
    let number = append_row(alloc, &mut keeper, Bytes::from_vec(row), &mut into)?;
    Ok((number, into))
}

#[test]
fn a_row_of_64_kibibytes_is_read_back(rt: HostRuntime) -> Result<(), Fail> {
    let (number, row) = read_back(rt.alloc(), 65_537)?;
    assert_eq!(rt; number, Some(0));
    assert_eq!(rt; row.len(), 65_537);
    for (place, byte) in row.iter().enumerate() {
        assert_eq!(rt; usize::from(*byte), place % 251);
    }
    Ok(())
}
