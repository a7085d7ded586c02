//! How a layer passes on why the links below it refuse.
ghost use Rattle.std.specs.Prelude.{◌≡◌};
ghost use Rattle.layers.specs.Layer.{lowered};
ghost use Rattle.model.specs.declared.fault.SettingFault.TheVariants.{NoSuchLink};

use model::fault::{LinkFault, SettingFault};

// The same fault one layer further up: a layer that it names stands one lower there.
pub fn passed_on(fault: LinkFault) -> LinkFault
    ensures { result ≡ lowered fault }
{
    match fault {
        LinkFault::Full(layer) => LinkFault::Full(layer.saturating_add(1)),
        other => other,
    }
}

// What links refuse to answer of a link that is not there: a question has no other fault.
pub fn absent(_: LinkFault) -> SettingFault
    ensures { result ≡ NoSuchLink }
{
    SettingFault::NoSuchLink
}
