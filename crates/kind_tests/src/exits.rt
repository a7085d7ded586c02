//! Exits: their limits, and that they send nothing.
use crate::kinds::sends_nothing;
use crate::missing::Missing;
use exit::Exit;
use packet::frame::Frame;
use packet::kind::PacketKind;
use road::kind::RoadKind;
use road::vehicle::Vehicle;
use std::test::Fail;

#[test]
fn limits(rt: HostRuntime) -> Result<(), Fail> {
    let most = Exit::new(10_000).ok_or(Missing::WithinLimits)?;
    assert_eq!(rt; most.lookahead(), 10_000);
    assert!(rt; Exit::new(1).is_some());
    assert!(rt; Exit::new(0).is_none(), "lookahead 0");
    assert!(rt; Exit::new(10_001).is_none(), "lookahead 10,001");
    Ok(())
}

#[test]
fn no_vehicle_is_sent(rt: HostRuntime) -> Result<(), Fail> {
    let vehicle = Vehicle::new(0, 0).ok_or(Missing::WithinLimits)?;
    let exit = Exit::new(7).ok_or(Missing::WithinLimits)?;
    sends_nothing(&rt, RoadKind::Exit(exit), vehicle);
    Ok(())
}

#[test]
fn no_frame_is_sent(rt: HostRuntime) -> Result<(), Fail> {
    let frame = Frame::new(0, 1).ok_or(Missing::WithinLimits)?;
    let exit = Exit::new(7).ok_or(Missing::WithinLimits)?;
    sends_nothing(&rt, PacketKind::Exit(exit), frame);
    Ok(())
}
