// Calls on the neighbours by value that are more than a question or a change of one field: children, samples, announcements, link status.
// Each tests the state, lends its columns to the call on lent columns, and puts back those that changed.
#![tactic(auto)]

ghost use Rattle.std.specs.Prelude.{◌≡◌};
ghost use Rattle.neighbor_calls.specs.Outcomes.{refused_truth, refused_nwk, refused_removal};
ghost use Rattle.neighbor_calls.specs.Children.{refresh_child_timeout, set_child_timeout, take_child, evict_timed_out_children, upsert_child};
ghost use Rattle.neighbor_calls.specs.Samples.{record_lqa};
ghost use Rattle.neighbor_calls.specs.Announcements.{refused_announced, remove_claimed_children, process_parent_annce};
ghost use Rattle.neighbor_calls.specs.LinkStatus.{on_link_status};

use children::ChildDescriptor;
use link_status::LinkStatusCommand;
use neighbor_queries::{ChildList, Eui64List};
use neighbors::{Neighbors, Outcome};
use types::{Eui64, Nwk, Refusal};

// A yes or no, and the next state.
#[derive(Drop)]
pub struct TruthOutcome {
    pub answer: Result<bool, Refusal>,
    pub state: Neighbors,
}

// A network address, if there is one, and the next state.
#[derive(Drop)]
pub struct NwkOutcome {
    pub state: Neighbors,
    pub answer: Result<Option<Nwk>, Refusal>,
}

// The children that were removed, and the next state.
#[derive(Drop)]
pub struct Removal {
    pub answer: Result<(), Refusal>,
    pub removed: ChildList,
    pub state: Neighbors,
}

// The children to claim back, those that were removed, and the next state.
#[derive(Drop)]
pub struct Announced {
    pub answer: Result<(), Refusal>,
    pub claimed: Eui64List,
    pub removed: ChildList,
    pub state: Neighbors,
}

// The state as it came, for a refusal.
fn refused_truth(state: Neighbors, refusal: Refusal) -> TruthOutcome
    ensures { result ≡ refused_truth state refusal }
{
    TruthOutcome {
        answer: Err(refusal),
        state,
    }
}

fn refused_nwk(state: Neighbors, refusal: Refusal) -> NwkOutcome
    ensures { result ≡ refused_nwk state refusal }
{
    NwkOutcome {
        answer: Err(refusal),
        state,
    }
}

fn refused_removal(state: Neighbors, refusal: Refusal) -> Removal
    ensures { result ≡ refused_removal state refusal }
{
    let removed = ChildList::new();
    Removal {
        answer: Err(refusal),
        removed,
        state,
    }
}

fn refused_announced(state: Neighbors, refusal: Refusal) -> Announced
    ensures { result ≡ refused_announced state refusal }
{
    let claimed = Eui64List::new();
    let removed = ChildList::new();
    Announced {
        answer: Err(refusal),
        claimed,
        removed,
        state,
    }
}

// A data poll of a known device moves its deadline (05-3474, 3.6.10.4). Answers whether the device is known.
pub fn refresh_child_timeout(
    state: Neighbors,
    eui64: Option<Eui64>,
    nwk: Option<Nwk>,
    now: u64,
) -> TruthOutcome
    ensures { result ≡ refresh_child_timeout state eui64 nwk now }
{
    if !state.well_formed() {
        return refused_truth(state, Refusal::StateIllFormed);
    }
    let keys = state.keys;
    let nwks = state.nwks;
    let mut links = state.links;
    let mut deadlines = state.deadlines;
    let periods = state.periods;
    let answer = children_lent::refresh_child_timeout(
        &keys,
        &nwks,
        &mut links,
        &mut deadlines,
        &periods,
        state.count,
        eui64,
        nwk,
        now,
    );
    let mut next = state;
    next.links = links;
    next.deadlines = deadlines;
    TruthOutcome {
        answer,
        state: next,
    }
}

// An end device child asks for another period (05-3474, 3.6.10.2). Answers whether there is such a child.
pub fn set_child_timeout(
    state: Neighbors,
    nwk: Nwk,
    timeout: u64,
    configuration: u16,
    now: u64,
) -> TruthOutcome
    ensures { result ≡ set_child_timeout state nwk timeout configuration now }
{
    if !state.well_formed() {
        return refused_truth(state, Refusal::StateIllFormed);
    }
    let nwks = state.nwks;
    let mut links = state.links;
    let mut counts = state.counts;
    let mut deadlines = state.deadlines;
    let mut periods = state.periods;
    let answer = children_lent::set_child_timeout(
        &nwks,
        &mut links,
        &mut counts,
        &mut deadlines,
        &mut periods,
        state.count,
        nwk,
        timeout,
        configuration,
        now,
    );
    let mut next = state;
    next.links = links;
    next.counts = counts;
    next.deadlines = deadlines;
    next.periods = periods;
    TruthOutcome {
        answer,
        state: next,
    }
}

// A child that attached elsewhere is taken out. Answers its network address.
pub fn take_child(state: Neighbors, eui64: Eui64) -> NwkOutcome
    ensures { result ≡ take_child state eui64 }
{
    if !state.well_formed() {
        return refused_nwk(state, Refusal::StateIllFormed);
    }
    let mut keys = state.keys;
    let mut nwks = state.nwks;
    let mut links = state.links;
    let mut counts = state.counts;
    let mut deadlines = state.deadlines;
    let mut periods = state.periods;
    let mut heard = state.heard;
    let mut added = state.added;
    let mut beacons = state.beacons;
    let mut bytes = state.bytes;
    let x = children_moves_lent::take_child(
        &mut keys,
        &mut nwks,
        &mut links,
        &mut counts,
        &mut deadlines,
        &mut periods,
        &mut heard,
        &mut added,
        &mut beacons,
        &mut bytes,
        state.count,
        eui64,
    );
    let answer = x.answer;
    let senders = state.senders;
    let samples = state.samples;
    NwkOutcome {
        answer,
        state: Neighbors {
            keys,
            nwks,
            links,
            counts,
            deadlines,
            periods,
            heard,
            added,
            beacons,
            bytes,
            count: x.count,
            senders,
            samples,
            waiting: state.waiting,
        },
    }
}

// A child joins or rejoins; what is known of it stays, but for what it says of itself.
pub fn upsert_child(state: Neighbors, child: ChildDescriptor, now: u64) -> Outcome
    ensures { result ≡ upsert_child state child now }
{
    if !state.well_formed() {
        return state.refuse(Refusal::StateIllFormed);
    }
    let mut keys = state.keys;
    let mut nwks = state.nwks;
    let mut links = state.links;
    let mut counts = state.counts;
    let mut deadlines = state.deadlines;
    let mut periods = state.periods;
    let mut heard = state.heard;
    let mut added = state.added;
    let mut beacons = state.beacons;
    let mut bytes = state.bytes;
    let x = children_moves_lent::upsert_child(
        &mut keys,
        &mut nwks,
        &mut links,
        &mut counts,
        &mut deadlines,
        &mut periods,
        &mut heard,
        &mut added,
        &mut beacons,
        &mut bytes,
        state.count,
        child,
        now,
    );
    let answer = x.answer;
    let senders = state.senders;
    let samples = state.samples;
    Outcome {
        answer,
        state: Neighbors {
            keys,
            nwks,
            links,
            counts,
            deadlines,
            periods,
            heard,
            added,
            beacons,
            bytes,
            count: x.count,
            senders,
            samples,
            waiting: state.waiting,
        },
    }
}

// End device children whose deadline has come are removed (05-3474, 3.6.10.1). Answers which.
pub fn evict_timed_out_children(state: Neighbors, now: u64) -> Removal
    ensures { result ≡ evict_timed_out_children state now }
{
    if !state.well_formed() {
        return refused_removal(state, Refusal::StateIllFormed);
    }
    let mut keys = state.keys;
    let mut nwks = state.nwks;
    let mut links = state.links;
    let mut counts = state.counts;
    let mut deadlines = state.deadlines;
    let mut periods = state.periods;
    let mut heard = state.heard;
    let mut added = state.added;
    let mut beacons = state.beacons;
    let mut bytes = state.bytes;
    let x = children_evict_lent::evict_timed_out_children(
        &mut keys,
        &mut nwks,
        &mut links,
        &mut counts,
        &mut deadlines,
        &mut periods,
        &mut heard,
        &mut added,
        &mut beacons,
        &mut bytes,
        state.count,
        now,
    );
    let removed = x.removed;
    let senders = state.senders;
    let samples = state.samples;
    Removal {
        removed,
        answer: Ok(()),
        state: Neighbors {
            keys,
            nwks,
            links,
            counts,
            deadlines,
            periods,
            heard,
            added,
            beacons,
            bytes,
            count: x.count,
            senders,
            samples,
            waiting: state.waiting,
        },
    }
}

// A frame was heard from a transmitter, at a quality.
pub fn record_lqa(state: Neighbors, sender: Nwk, lqi: u8) -> Outcome
    ensures { result ≡ record_lqa state sender lqi }
{
    if !state.well_formed() {
        return state.refuse(Refusal::StateIllFormed);
    }
    let nwks = state.nwks;
    let mut links = state.links;
    let mut senders = state.senders;
    let mut samples = state.samples;
    let waiting = link_quality::record_lqa(
        &nwks,
        &mut links,
        state.count,
        &mut senders,
        &mut samples,
        state.waiting,
        sender,
        lqi,
    );
    let mut next = state;
    next.links = links;
    next.senders = senders;
    next.samples = samples;
    next.waiting = waiting;
    Outcome {
        answer: Ok(()),
        state: next,
    }
}

// A link status command (05-3474, 3.6.4.4.2). Answers the sender's stored address where its link is lost.
pub fn on_link_status(
    state: Neighbors,
    own: Nwk,
    eui64: Eui64,
    nwk: Nwk,
    lqi: u8,
    command: LinkStatusCommand,
    now: u64,
) -> NwkOutcome
    ensures { result ≡ on_link_status state own eui64 nwk lqi command now }
{
    let mut keys = state.keys;
    let mut nwks = state.nwks;
    let mut links = state.links;
    let mut counts = state.counts;
    let mut deadlines = state.deadlines;
    let mut periods = state.periods;
    let mut heard = state.heard;
    let mut added = state.added;
    let mut beacons = state.beacons;
    let mut bytes = state.bytes;
    let mut senders = state.senders;
    let mut samples = state.samples;
    if !neighbors::columns_formed(
        &keys,
        &nwks,
        &links,
        &counts,
        &deadlines,
        &periods,
        &heard,
        &added,
        &beacons,
        &bytes,
        state.count,
        &senders,
        &samples,
        state.waiting,
    ) {
        return refused_nwk(state, Refusal::StateIllFormed);
    }
    let x = link_status_lent::on_link_status(
        &mut keys,
        &mut nwks,
        &mut links,
        &mut counts,
        &mut deadlines,
        &mut periods,
        &mut heard,
        &mut added,
        &mut beacons,
        &mut bytes,
        state.count,
        &mut senders,
        &mut samples,
        state.waiting,
        own,
        eui64,
        nwk,
        lqi,
        command,
        now,
    );
    let answer = x.answer;
    NwkOutcome {
        answer,
        state: Neighbors {
            keys,
            nwks,
            links,
            counts,
            deadlines,
            periods,
            heard,
            added,
            beacons,
            bytes,
            count: x.neighbors,
            senders,
            samples,
            waiting: x.waiting,
        },
    }
}

// Another router claims children: every end device of its list goes (05-3474, 2.4.4.2.22.2).
pub fn remove_claimed_children(state: Neighbors, claimed: Eui64List) -> Removal
    ensures { result ≡ remove_claimed_children state claimed }
{
    if !state.well_formed() {
        return refused_removal(state, Refusal::StateIllFormed);
    }
    let mut keys = state.keys;
    let mut nwks = state.nwks;
    let mut links = state.links;
    let mut counts = state.counts;
    let mut deadlines = state.deadlines;
    let mut periods = state.periods;
    let mut heard = state.heard;
    let mut added = state.added;
    let mut beacons = state.beacons;
    let mut bytes = state.bytes;
    let x = parent_annce::remove_claimed_children(
        &mut keys,
        &mut nwks,
        &mut links,
        &mut counts,
        &mut deadlines,
        &mut periods,
        &mut heard,
        &mut added,
        &mut beacons,
        &mut bytes,
        state.count,
        claimed,
    );
    let answer = x.answer;
    let removed = x.removed;
    let senders = state.senders;
    let samples = state.samples;
    Removal {
        answer,
        removed,
        state: Neighbors {
            keys,
            nwks,
            links,
            counts,
            deadlines,
            periods,
            heard,
            added,
            beacons,
            bytes,
            count: x.count,
            senders,
            samples,
            waiting: state.waiting,
        },
    }
}

// Another router announces its children: those that have sent a keepalive here are claimed back, the others go (05-3474, 2.4.4.2.22.1).
pub fn process_parent_annce(state: Neighbors, announced: Eui64List) -> Announced
    ensures { result ≡ process_parent_annce state announced }
{
    if !state.well_formed() {
        return refused_announced(state, Refusal::StateIllFormed);
    }
    let mut keys = state.keys;
    let mut nwks = state.nwks;
    let mut links = state.links;
    let mut counts = state.counts;
    let mut deadlines = state.deadlines;
    let mut periods = state.periods;
    let mut heard = state.heard;
    let mut added = state.added;
    let mut beacons = state.beacons;
    let mut bytes = state.bytes;
    let x = parent_annce::process_parent_annce(
        &mut keys,
        &mut nwks,
        &mut links,
        &mut counts,
        &mut deadlines,
        &mut periods,
        &mut heard,
        &mut added,
        &mut beacons,
        &mut bytes,
        state.count,
        announced,
    );
    let answer = x.answer;
    let claimed = x.claimed;
    let removed = x.removed;
    let senders = state.senders;
    let samples = state.samples;
    Announced {
        answer,
        claimed,
        removed,
        state: Neighbors {
            keys,
            nwks,
            links,
            counts,
            deadlines,
            periods,
            heard,
            added,
            beacons,
            bytes,
            count: x.count,
            senders,
            samples,
            waiting: state.waiting,
        },
    }
}
