//! Lists of prices: what a list has, and the words of faults.
use crate::fixtures::{moment, nav};
use forward_price::{NoSheet, PublishFault, lists_class, nav_on};
use std::test::Fail;

#[test]
fn lists_are_looked_up(rt: HostRuntime) -> Result<(), Fail> {
    let prices = [(1, nav(1000)?), (3, nav(1200)?)];
    assert_eq!(rt;
        (lists_class(&prices, 3), lists_class(&prices, 2)),
        (true, false)
    );
    let wanted = (Some(nav(1200)?), None);
    assert_eq!(rt; (nav_on(&prices, 3), nav_on(&prices, 2)), wanted);
    Ok(())
}

#[test]
fn faults_are_told_in_words(rt: HostRuntime) -> Result<(), Fail> {
    let first = moment(1719864000)?;
    let turn = PublishFault::SheetOutOfTurn(first, 1);
    let told = format!(in rt.alloc(); "{turn}; {}; {NoSheet}", PublishFault::SheetIncomplete(13))?;
    let wanted =
        "the sheet of calendar 1 at 1719864000 is expected; class 13 is missing or too many; \
        the sheet doesn't list the class";
    assert_eq!(rt; told.as_str(), wanted);
    let soon = format!(in rt.alloc(); "{}", PublishFault::TooSoon(first))?;
    assert_eq!(rt; soon.as_str(), "the moment 1719864000 is to come");
    Ok(())
}
