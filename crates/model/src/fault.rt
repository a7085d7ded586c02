//! Why links, and the settings of their layers, refuse.

// Why a link refuses a call.
#[derive(Clone, Copy, PartialEq, Eq, Debug)]
pub enum LinkFault {
    NoSuchLink,
    PastLastTime,
    BelowFloor,
    // No place is free. The layer that has none left, 0 being the top.
    Full(u32),
    NothingWaits,
}

// Why a layer refuses a setting.
#[derive(Clone, Copy, PartialEq, Eq, Debug)]
pub enum SettingFault {
    NoSuchLink,
    // The setting is out of range, or the link is not fresh.
    Unsuitable,
}
