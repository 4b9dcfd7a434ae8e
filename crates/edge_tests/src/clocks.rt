//! Clocks: given readings come in turn, and the system's never fall.
use agent_edge::{Clock, MemoryClock, SystemClock};
use money_units::Moment;
use std::process::Abort;
use std::test::Fail;

fn expect_readings(rt: &impl Abort, clock: &mut MemoryClock, readings: &[Moment]) {
    for reading in readings {
        assert_eq!(rt; clock.now(), *reading);
    }
}

#[test]
fn readings_come_in_turn_and_the_last_one_again(rt: HostRuntime) -> Result<(), Fail> {
    let (Some(morning), Some(noon)) = (Moment::new(1_719_835_200), Moment::new(1_719_849_600))
    else {
        return Err(Fail::new("both are moments"));
    };
    let mut clock = MemoryClock::new(rt.alloc(), &[morning, morning, noon])?;
    expect_readings(&rt, &mut clock, &[morning, morning, noon, noon, noon]);
    Ok(())
}

#[test]
fn a_clock_without_readings_stands_at_the_first_moment(rt: HostRuntime) -> Result<(), Fail> {
    let mut clock = MemoryClock::new(rt.alloc(), &[])?;
    expect_readings(&rt, &mut clock, &[Moment::start(), Moment::start()]);
    Ok(())
}

#[test]
fn the_system_s_clock_does_not_fall(rt: HostRuntime) -> Result<(), Fail> {
    let mut clock = SystemClock::new(rt);
    let first = clock.now();
    let second = clock.now();
    assert!(rt; first > Moment::start());
    assert!(rt; first <= second);
    Ok(())
}
