//! Switches: their limits, and when frames are served.
use crate::kinds::stays_a_node;
use crate::missing::Missing;
use model::process::Process;
use packet::frame::Frame;
use packet::switch::Switch;
use std::test::Fail;

#[test]
fn limits(rt: HostRuntime) -> Result<(), Fail> {
    let most = Switch::new(10_000, 10_000).ok_or(Missing::WithinLimits)?;
    assert_eq!(rt; most.service(), 10_000);
    assert_eq!(rt; most.free(), 0);
    assert!(rt; Switch::new(1, 1).is_some());
    assert!(rt; Switch::new(0, 1).is_none(), "lookahead 0");
    assert!(rt; Switch::new(10_001, 1).is_none(), "lookahead 10,001");
    assert!(rt; Switch::new(1, 0).is_none(), "service 0");
    assert!(rt; Switch::new(1, 10_001).is_none(), "service 10,001");
    Ok(())
}

#[test]
fn below_a_cell(rt: HostRuntime) -> Result<(), Fail> {
    let frame = Frame::new(13, 63).ok_or(Missing::WithinLimits)?;
    let mut switch = Switch::new(5, 10).ok_or(Missing::WithinLimits)?;
    let sending = switch.handle(0, 0, frame).ok_or(Missing::Sent)?;
    assert_eq!(rt; sending.time, 10);
    assert_eq!(rt; sending.port, 5);
    assert_eq!(rt; sending.cargo, frame);
    Ok(())
}

#[test]
fn a_whole_cell(rt: HostRuntime) -> Result<(), Fail> {
    let frame = Frame::new(13, 64).ok_or(Missing::WithinLimits)?;
    let mut switch = Switch::new(5, 10).ok_or(Missing::WithinLimits)?;
    let sending = switch.handle(0, 0, frame).ok_or(Missing::Sent)?;
    assert_eq!(rt; sending.time, 11);
    assert_eq!(rt; switch.free(), 11);
    Ok(())
}

#[test]
fn queue(rt: HostRuntime) -> Result<(), Fail> {
    let frame = Frame::new(0, 640).ok_or(Missing::WithinLimits)?;
    let mut switch = Switch::new(5, 10).ok_or(Missing::WithinLimits)?;
    let first = switch.handle(0, 7, frame).ok_or(Missing::Sent)?;
    let second = switch.handle(0, 8, frame).ok_or(Missing::Sent)?;
    assert_eq!(rt; first.time, 27);
    assert_eq!(rt; second.time, 47);
    Ok(())
}

#[test]
fn sums_stop(rt: HostRuntime) -> Result<(), Fail> {
    let frame = Frame::new(0, 9_000).ok_or(Missing::WithinLimits)?;
    let mut switch = Switch::new(5, 10).ok_or(Missing::WithinLimits)?;
    let sending = switch.handle(0, u32::MAX - 11, frame).ok_or(Missing::Sent)?;
    assert_eq!(rt; sending.time, u32::MAX);
    assert_eq!(rt; switch.free(), u32::MAX);
    Ok(())
}

#[test]
fn kind_is_kept(rt: HostRuntime) -> Result<(), Fail> {
    let frame = Frame::new(0, 1).ok_or(Missing::WithinLimits)?;
    let switch = Switch::new(5, 10).ok_or(Missing::WithinLimits)?;
    stays_a_node(&rt, switch, 3, frame, true);
    Ok(())
}
