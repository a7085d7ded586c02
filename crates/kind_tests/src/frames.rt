//! Frames: their limits and codes.
use crate::missing::Missing;
use model::cargo::Cargo;
use packet::frame::Frame;
use std::test::Fail;

#[test]
fn limits(rt: HostRuntime) -> Result<(), Fail> {
    let last = Frame::new(255, 9_000).ok_or(Missing::WithinLimits)?;
    assert_eq!(rt; last.destination(), 255);
    assert_eq!(rt; last.length(), 9_000);
    assert!(rt; Frame::new(0, 1).is_some());
    assert!(rt; Frame::new(256, 1).is_none(), "destination 256");
    assert!(rt; Frame::new(0, 0).is_none(), "length 0");
    assert!(rt; Frame::new(0, 9_001).is_none(), "length 9,001");
    Ok(())
}

#[test]
fn codes(rt: HostRuntime) -> Result<(), Fail> {
    let frame = Frame::new(2, 64).ok_or(Missing::WithinLimits)?;
    assert_eq!(rt; frame.code(), 131_136);
    Ok(())
}
