// Children that another router announces or claims, in columns that are lent: those confirmed here are claimed back, the others go.
// All ten columns are lent. A list that is too long is refused before anything is written.
#![tactic(auto)]

ghost use Rattle.std.specs.Prelude.{true, false, [], ◌∷◌, ◌≡◌, ◌<◌, ◌≤◌, take};
ghost use Rattle.columns.specs.Columns.{Ordered};
ghost use Rattle.flat_map.specs.Seek.{place_of};
ghost use Rattle.neighbor_columns.specs.Table.{in_columns, rows_of, WellFormed, Holds};
ghost use Rattle.neighbor_queries.specs.Lists.{eui_list, child_list, one_more_eui, one_more_child};
ghost use Rattle.parent_annce.specs.Settle.{settle_all, start};
ghost use Rattle.parent_annce.specs.Rules.{judged, verdict_at, child, Reaches, Advances, list_answer, settled_by};

use neighbor_queries::{Child, ChildList, Eui64List};
use types::{Eui64, Nwk, Refusal};

// How far a list of addresses has been gone through: how many neighbours are left, those claimed back, and those that went.
#[derive(Drop)]
pub struct Progress {
    pub count: usize,
    pub claimed: Eui64List,
    pub removed: ChildList,
}

// What an address of the list means here: no end device of ours, one that is claimed back, or the one in a place, which goes.
#[derive(Drop)]
pub enum Verdict {
    Away,
    Claimed,
    Goes(usize),
}

// Whether the list was gone through, the children that went, and how many neighbours there are after.
#[derive(Drop)]
pub struct Removed {
    pub answer: Result<(), Refusal>,
    pub removed: ChildList,
    pub count: usize,
}

// Whether the list was gone through, the children to claim back, those that went, and how many neighbours there are after.
#[derive(Drop)]
pub struct Announced {
    pub answer: Result<(), Refusal>,
    pub claimed: Eui64List,
    pub removed: ChildList,
    pub count: usize,
}

// What the neighbour in a place, with a link word, means; `confirm` keeps end devices that have sent a keepalive.
fn judge(word: u64, confirm: bool, i: usize) -> Verdict
    ensures { result ≡ judged confirm word i }
{
    let part = neighbor_columns::link_of(word);
    let device_type = part.device_type;
    if !device_type.is_end_device() {
        return Verdict::Away;
    }
    if confirm & part.keepalive_received {
        Verdict::Claimed
    } else {
        Verdict::Goes(i)
    }
}

// What an address means.
fn decide(keys: &[u64], links: &[u64], count: usize, confirm: bool, eui64: Eui64) -> Verdict
    requires { Ordered 64 keys.now (links.now ∷ []) count }
    ensures { result ≡ verdict_at confirm links.now (place_of (take count keys.now) eui64.0) }
{
    let place = neighbor_columns::place_of(keys, count, eui64);
    match place {
        Ok(i) => judge(links[i], confirm, i),
        Err(_) => Verdict::Away,
    }
}

// An end device is claimed back.
fn claim(s: Progress, eui64: Eui64) -> Progress
    requires { s.claimed.count < 64 }
    ensures { (result.count ≡ s.count) × (result.claimed ≡ one_more_eui s.claimed eui64) × (result.removed ≡ s.removed) }
{
    let claimed = s.claimed;
    let removed = s.removed;
    Progress {
        count: s.count,
        claimed: claimed.push(eui64),
        removed,
    }
}

// An end device went, and so many neighbours are left.
fn note(s: Progress, count: usize, eui64: Eui64, network_address: Nwk) -> Progress
    requires { s.removed.count < 64 }
    ensures { (result.count ≡ count) × (result.claimed ≡ s.claimed) × (result.removed ≡ one_more_child s.removed (child eui64 network_address)) }
{
    let claimed = s.claimed;
    let removed = s.removed;
    let child = Child {
        eui64,
        network_address,
    };
    Progress {
        count,
        claimed,
        removed: removed.push(child),
    }
}

// One address gone through.
fn step(
    keys: &mut [u64],
    nwks: &mut [u16],
    links: &mut [u64],
    counts: &mut [u64],
    deadlines: &mut [u64],
    periods: &mut [u64],
    heard: &mut [u64],
    added: &mut [u64],
    beacons: &mut [u64],
    bytes: &mut [u64],
    s: Progress,
    confirm: bool,
    eui64: Eui64,
) -> Progress
    requires { WellFormed (in_columns keys.old nwks.old links.old counts.old deadlines.old periods.old heard.old added.old beacons.old bytes.old s.count) × (s.claimed.count < 64) × (s.removed.count < 64) }
    ensures { Advances (in_columns keys.old nwks.old links.old counts.old deadlines.old periods.old heard.old added.old beacons.old bytes.old s.count) s.claimed s.removed (in_columns keys.new nwks.new links.new counts.new deadlines.new periods.new heard.new added.new beacons.new bytes.new result.count) result.claimed result.removed confirm eui64 }
{
    let count = s.count;
    let verdict = decide(keys, links, count, confirm, eui64);
    match verdict {
        Verdict::Away => s,
        Verdict::Claimed => claim(s, eui64),
        Verdict::Goes(i) => {
            let network_address = Nwk(nwks[i]);
            let left = neighbor_steps::remove_at(
                keys, nwks, links, counts, deadlines, periods, heard, added, beacons, bytes, count,
                i,
            );
            note(s, left, eui64, network_address)
        }
    }
}

// The whole list gone through, in its order.
fn settle(
    keys: &mut [u64],
    nwks: &mut [u16],
    links: &mut [u64],
    counts: &mut [u64],
    deadlines: &mut [u64],
    periods: &mut [u64],
    heard: &mut [u64],
    added: &mut [u64],
    beacons: &mut [u64],
    bytes: &mut [u64],
    count: usize,
    confirm: bool,
    list: Eui64List,
) -> Progress
    requires { WellFormed (in_columns keys.old nwks.old links.old counts.old deadlines.old periods.old heard.old added.old beacons.old bytes.old count) × (list.count ≤ 64) }
    ensures { Reaches (in_columns keys.new nwks.new links.new counts.new deadlines.new periods.new heard.new added.new beacons.new bytes.new result.count) result.claimed result.removed (settle_all confirm (take list.count list.addresses) (start (rows_of (in_columns keys.old nwks.old links.old counts.old deadlines.old periods.old heard.old added.old beacons.old bytes.old count)))) }
{
    let claimed = Eui64List::new();
    let removed = ChildList::new();
    let mut s = Progress {
        count,
        claimed,
        removed,
    };
    for i in 0..list.count {
        let eui64 = list.addresses[i];
        s = step(
            keys, nwks, links, counts, deadlines, periods, heard, added, beacons, bytes, s,
            confirm, eui64,
        );
    }
    s
}

// Another router has claimed end devices with a keepalive of theirs: they go (05-3474, 2.4.4.2.22.2). Answers which.
pub fn remove_claimed_children(
    keys: &mut [u64],
    nwks: &mut [u16],
    links: &mut [u64],
    counts: &mut [u64],
    deadlines: &mut [u64],
    periods: &mut [u64],
    heard: &mut [u64],
    added: &mut [u64],
    beacons: &mut [u64],
    bytes: &mut [u64],
    count: usize,
    claimed: Eui64List,
) -> Removed
    requires { WellFormed (in_columns keys.old nwks.old links.old counts.old deadlines.old periods.old heard.old added.old beacons.old bytes.old count) }
    ensures { let x = settled_by false claimed (rows_of (in_columns keys.old nwks.old links.old counts.old deadlines.old periods.old heard.old added.old beacons.old bytes.old count)) in
        (result.answer ≡ list_answer claimed)
        × (result.removed ≡ child_list x.removed)
        × Holds (in_columns keys.new nwks.new links.new counts.new deadlines.new periods.new heard.new added.new beacons.new bytes.new result.count) x.rows }
{
    if 64 < claimed.count {
        let removed = ChildList::new();
        return Removed {
            answer: Err(Refusal::ListTooLong),
            removed,
            count,
        };
    }
    let s = settle(
        keys, nwks, links, counts, deadlines, periods, heard, added, beacons, bytes, count, false,
        claimed,
    );
    let removed = s.removed;
    Removed {
        answer: Ok(()),
        removed,
        count: s.count,
    }
}

// Another router announces end devices: those that sent a keepalive here are claimed back, the others go (05-3474, 2.4.4.2.22.1). Answers both.
pub fn process_parent_annce(
    keys: &mut [u64],
    nwks: &mut [u16],
    links: &mut [u64],
    counts: &mut [u64],
    deadlines: &mut [u64],
    periods: &mut [u64],
    heard: &mut [u64],
    added: &mut [u64],
    beacons: &mut [u64],
    bytes: &mut [u64],
    count: usize,
    announced: Eui64List,
) -> Announced
    requires { WellFormed (in_columns keys.old nwks.old links.old counts.old deadlines.old periods.old heard.old added.old beacons.old bytes.old count) }
    ensures { let x = settled_by true announced (rows_of (in_columns keys.old nwks.old links.old counts.old deadlines.old periods.old heard.old added.old beacons.old bytes.old count)) in
        (result.answer ≡ list_answer announced)
        × (result.claimed ≡ eui_list x.claimed)
        × (result.removed ≡ child_list x.removed)
        × Holds (in_columns keys.new nwks.new links.new counts.new deadlines.new periods.new heard.new added.new beacons.new bytes.new result.count) x.rows }
{
    if 64 < announced.count {
        let claimed = Eui64List::new();
        let removed = ChildList::new();
        return Announced {
            answer: Err(Refusal::ListTooLong),
            claimed,
            removed,
            count,
        };
    }
    let s = settle(
        keys, nwks, links, counts, deadlines, periods, heard, added, beacons, bytes, count, true,
        announced,
    );
    let claimed = s.claimed;
    let removed = s.removed;
    Announced {
        answer: Ok(()),
        claimed,
        removed,
        count: s.count,
    }
}
