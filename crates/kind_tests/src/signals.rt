//! Signals: when vehicles start, queue and leave.
use crate::kinds::stays_a_node;
use crate::missing::Missing;
use model::process::Process;
use road::signal::Signal;
use road::signal::settings::Settings;
use road::vehicle::Vehicle;
use std::test::Fail;

const LIGHTS: Settings = Settings {
    lookahead: 5,
    cycle: 60,
    green: 30,
    offset: 0,
    headway: 2,
    crossing: 5,
};

#[test]
fn last_second_of_green(rt: HostRuntime) -> Result<(), Fail> {
    let vehicle = Vehicle::new(0, 65_532).ok_or(Missing::WithinLimits)?;
    let mut signal = Signal::new(LIGHTS).ok_or(Missing::WithinLimits)?;
    let sending = signal.handle(0, 29, vehicle).ok_or(Missing::Sent)?;
    assert_eq!(rt; sending.port, 0);
    assert_eq!(rt; sending.time, 29 + 5);
    assert_eq!(rt; sending.cargo.route(), 65_535);
    assert_eq!(rt; signal.free(), 29 + 2);
    Ok(())
}

#[test]
fn first_second_of_red(rt: HostRuntime) -> Result<(), Fail> {
    let vehicle = Vehicle::new(0, 65_532).ok_or(Missing::WithinLimits)?;
    let mut signal = Signal::new(LIGHTS).ok_or(Missing::WithinLimits)?;
    let sending = signal.handle(0, 30, vehicle).ok_or(Missing::Sent)?;
    assert_eq!(rt; sending.time, 60 + 5);
    assert_eq!(rt; signal.free(), 60 + 2);
    Ok(())
}

#[test]
fn offset_is_added(rt: HostRuntime) -> Result<(), Fail> {
    let vehicle = Vehicle::new(0, 65_532).ok_or(Missing::WithinLimits)?;
    let mut signal = Signal::new(Settings {
        offset: 10,
        ..LIGHTS
    })
    .ok_or(Missing::WithinLimits)?;
    let sending = signal.handle(0, 20, vehicle).ok_or(Missing::Sent)?;
    assert_eq!(rt; sending.time, 50 + 5);
    Ok(())
}

#[test]
fn queue_keeps_the_headway(rt: HostRuntime) -> Result<(), Fail> {
    let vehicle = Vehicle::new(0, 65_532).ok_or(Missing::WithinLimits)?;
    let mut signal = Signal::new(LIGHTS).ok_or(Missing::WithinLimits)?;
    let first = signal.handle(0, 10, vehicle).ok_or(Missing::Sent)?;
    let second = signal.handle(0, 10, vehicle).ok_or(Missing::Sent)?;
    assert_eq!(rt; first.time, 15);
    assert_eq!(rt; second.time, 17);
    assert_eq!(rt; signal.free(), 14);
    Ok(())
}

#[test]
fn turn_three_holds_the_signal(rt: HostRuntime) -> Result<(), Fail> {
    let vehicle = Vehicle::new(0, 65_535).ok_or(Missing::WithinLimits)?;
    let mut signal = Signal::new(LIGHTS).ok_or(Missing::WithinLimits)?;
    assert!(rt; signal.handle(0, 10, vehicle).is_none());
    assert_eq!(rt; signal.free(), 12);
    Ok(())
}

#[test]
fn sums_stop(rt: HostRuntime) -> Result<(), Fail> {
    let vehicle = Vehicle::new(0, 65_532).ok_or(Missing::WithinLimits)?;
    let mut signal = Signal::new(Settings {
        green: 1,
        offset: 59,
        ..LIGHTS
    })
    .ok_or(Missing::WithinLimits)?;
    let sending = signal.handle(0, u32::MAX, vehicle).ok_or(Missing::Sent)?;
    assert_eq!(rt; sending.time, u32::MAX);
    assert_eq!(rt; signal.free(), u32::MAX);
    Ok(())
}

#[test]
fn kind_is_kept(rt: HostRuntime) -> Result<(), Fail> {
    let vehicle = Vehicle::new(0, 65_535).ok_or(Missing::WithinLimits)?;
    let signal = Signal::new(LIGHTS).ok_or(Missing::WithinLimits)?;
    stays_a_node(&rt, signal, 10, vehicle, false);
    Ok(())
}
