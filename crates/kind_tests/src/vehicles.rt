//! Vehicles: their limits, codes, routes and turns.
use crate::missing::Missing;
use model::cargo::Cargo;
use road::vehicle::Vehicle;
use std::test::Fail;

#[test]
fn limits(rt: HostRuntime) -> Result<(), Fail> {
    let last = Vehicle::new(3, 65_535).ok_or(Missing::WithinLimits)?;
    assert_eq!(rt; last.class(), 3);
    assert_eq!(rt; last.route(), 65_535);
    assert!(rt; Vehicle::new(4, 0).is_none(), "class 4");
    assert!(rt; Vehicle::new(0, 65_536).is_none(), "route 65,536");
    Ok(())
}

#[test]
fn codes(rt: HostRuntime) -> Result<(), Fail> {
    let vehicle = Vehicle::new(2, 7).ok_or(Missing::WithinLimits)?;
    assert_eq!(rt; vehicle.code(), 131_079);
    Ok(())
}

#[test]
fn routes(rt: HostRuntime) -> Result<(), Fail> {
    let last = Vehicle::new(1, 65_532).ok_or(Missing::WithinLimits)?;
    assert_eq!(rt; last.onward().route(), 65_535);
    assert_eq!(rt; last.onward().class(), 1);
    let first = Vehicle::new(1, 0).ok_or(Missing::WithinLimits)?;
    assert_eq!(rt; first.onward().route(), 49_152);
    Ok(())
}

#[test]
fn turns(rt: HostRuntime) -> Result<(), Fail> {
    let vehicle = Vehicle::new(3, 9 * 4 + 2).ok_or(Missing::WithinLimits)?;
    let sending = vehicle.turned(50).ok_or(Missing::Sent)?;
    assert_eq!(rt; sending.port, 2);
    assert_eq!(rt; sending.time, 50);
    assert_eq!(rt; sending.cargo, vehicle.onward());
    let ended = Vehicle::new(3, 9 * 4 + 3).ok_or(Missing::WithinLimits)?;
    assert!(rt; ended.turned(50).is_none(), "turn 3 has no port");
    Ok(())
}
