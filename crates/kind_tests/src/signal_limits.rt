//! Signals: the limits of their settings.
use crate::missing::Missing;
use road::signal::Signal;
use road::signal::settings::Settings;
use std::test::Fail;

const LEAST: Settings = Settings {
    lookahead: 1,
    cycle: 1,
    green: 1,
    offset: 0,
    headway: 1,
    crossing: 1,
};

const MOST: Settings = Settings {
    lookahead: 10_000,
    cycle: 10_000,
    green: 10_000,
    offset: 9_999,
    headway: 10_000,
    crossing: 10_000,
};

#[test]
fn the_limits_are_within(rt: HostRuntime) -> Result<(), Fail> {
    let least = Signal::new(LEAST).ok_or(Missing::WithinLimits)?;
    assert_eq!(rt; least.settings(), LEAST);
    assert_eq!(rt; least.free(), 0);
    let most = Signal::new(MOST).ok_or(Missing::WithinLimits)?;
    assert_eq!(rt; most.settings(), MOST);
    Ok(())
}

#[test]
fn past_the_limits(rt: HostRuntime) {
    let past = [
        Settings {
            lookahead: 0,
            ..LEAST
        },
        Settings {
            lookahead: 10_001,
            ..LEAST
        },
        Settings { cycle: 0, ..LEAST },
        Settings {
            cycle: 10_001,
            ..LEAST
        },
        Settings { green: 0, ..MOST },
        Settings {
            green: 10_001,
            ..MOST
        },
        Settings {
            offset: 10_000,
            ..MOST
        },
        Settings {
            headway: 0,
            ..LEAST
        },
        Settings {
            headway: 10_001,
            ..LEAST
        },
        Settings {
            crossing: 0,
            ..LEAST
        },
        Settings {
            crossing: 10_001,
            ..LEAST
        },
    ];
    for settings in past {
        assert!(rt; Signal::new(settings).is_none(), "{settings:?}");
    }
}
