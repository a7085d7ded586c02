//! Delay over quota over a store, set as planned.
ghost use Rattle.std.specs.Prelude.{◌≡◌, length};
ghost use Rattle.layers.specs.Delayed.{delayed};
ghost use Rattle.layers.specs.Rationed.{rationed};
ghost use Rattle.plan_to_log.specs.Stack.{Unset, DelaysWithin, QuotasWithin, quota_table, delay_table, stack_of};

use layers::delay::Delay;
use layers::quota::Quota;
use model::cargo::Cargo;
use model::links::Links;
use records::reading::kinds::PlannedLink;
use std::marker::PhantomData;

// Fresh links, and what a plan sets on each of them.
pub(crate) struct Planned<'a, C: Cargo, L: Links<C>> {
    pub(crate) links: L,
    pub(crate) settings: &'a [PlannedLink],
    pub(crate) cargo: PhantomData<C>,
    ghost unset: { Unset (length settings.now) (L.Links.meaning links) },
    ghost delays: { DelaysWithin settings.now },
    ghost quotas: { QuotasWithin settings.now },
}

impl<'a, C: Cargo, L: Links<C>> Planned<'a, C, L> {
    // Lays the quotas over the links, each set as planned.
    fn with_quotas(self) -> Planned<'a, C, Quota<L>>
        ensures below { result.links.below ≡ self.entry.links }
        ensures table { result.links.left ≡ quota_table self.entry.settings.now }
        ensures settings { result.settings.now ≡ self.entry.settings.now }
    {
        let Planned {
            links,
            settings,
            cargo,
        } = self;
        let mut quotas = Quota::new(links);
        for (link, planned) in settings.iter().enumerate() {
            if let Some(quota) = planned.quota {
                quotas.set(link, quota).unwrap();
            }
        }
        Planned {
            links: quotas,
            settings,
            cargo,
        }
    }

    // Lays the delays over the links, each set as planned.
    fn with_delays(self) -> Delay<L>
        ensures below { result.below ≡ self.entry.links }
        ensures table { result.extra ≡ delay_table self.entry.settings.now }
    {
        let Planned {
            links,
            settings,
            cargo: _,
        } = self;
        let mut delays = Delay::new(links);
        for (link, planned) in settings.iter().enumerate() {
            delays.set(link, planned.link.delay).unwrap();
        }
        delays
    }

    // Delay over quota over the links, each set as planned.
    pub(crate) fn stacked(self) -> Delay<Quota<L>>
        ensures { delayed (rationed (L.Links.meaning result.below.below) result.below.left) result.extra ≡ stack_of (L.Links.meaning self.entry.links) self.entry.settings.now }
    {
        self.with_quotas().with_delays()
    }
}
