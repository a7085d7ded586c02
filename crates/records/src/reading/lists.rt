//! The caller's lists, which the records of a plan fill.
use super::kinds::PlannedLink;
use model::opening::Opening;
use packet::frame::Frame;
use packet::kind::PacketKind;
use road::kind::RoadKind;
use road::vehicle::Vehicle;

// The lists that the records of a family fill. Each has room for as many items as its capacity.
#[derive(Drop)]
pub struct Lists<C, P> {
    pub processes: Vec<P>,
    pub links: Vec<PlannedLink>,
    pub openings: Vec<Opening<C>>,
}

// The lists of one family.
#[derive(Drop)]
pub struct FamilyLists<C, P> {
    pub processes: Vec<P>,
    pub openings: Vec<Opening<C>>,
}

// The lists of both families, of which a plan fills one, and the links of either.
#[derive(Drop)]
pub struct PlanLists {
    pub roads: FamilyLists<Vehicle, RoadKind>,
    pub switches: FamilyLists<Frame, PacketKind>,
    pub links: Vec<PlannedLink>,
}

// How long the lists were before the first record, and how many places each link has.
#[derive(Clone, Copy)]
pub struct Starts {
    pub processes: usize,
    pub links: usize,
    pub openings: usize,
    pub places: u32,
}
