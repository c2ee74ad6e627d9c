// The lines that set the neighbours up, and those that damage them: each puts one entry or one number, and nothing else.
// Samples and costs may be ill formed; the calls on the neighbours then refuse the state.
#![tactic(auto)]

pub mod prints;

ghost use Rattle.std.specs.Prelude.{◌≡◌, ◌≤◌, take};
ghost use Rattle.standard.specs.Ordered.{put, count_with};
ghost use Rattle.flat_map.specs.Seek.{place_of};
ghost use Rattle.neighbor_table.specs.Entry.{neighbor_key};
ghost use Rattle.neighbor_columns.specs.Table.{Formed64, formed64};
ghost use Rattle.neighbors.specs.State.{table_in, rows, with_rows};
ghost use Rattle.neighbor_loads.specs.Loads.{loaded, no_call, neighbor_put, put_neighbor, waiting_put, put_waiting, set_neighbor_count, set_neighbor_key, set_waiting_count, set_waiting_key};

use neighbor_table::NeighborEntry;
use neighbors::Neighbors;
use numbers::Answer;
use waiting_table::WaitingEntry;

// What a call on the neighbours is answered, and the state after it.
#[derive(Drop)]
pub struct NeighborsReply {
    pub answer: Answer,
    pub state: Neighbors,
}

// The line is done.
fn load(s: Neighbors) -> NeighborsReply
    ensures { result ≡ loaded s }
{
    let answer = numbers::done();
    NeighborsReply { answer, state: s }
}

// The line is no call on this state, which stays.
pub fn no_call(s: Neighbors) -> NeighborsReply
    ensures { result ≡ no_call s }
{
    let answer = numbers::no_call();
    NeighborsReply { answer, state: s }
}

// Whether the columns of the neighbours make a table, whatever its entries say.
fn neighbors_formed(s: Neighbors) -> bool
    ensures { result ≡ formed64 (table_in s) }
{
    let keys = s.keys;
    let nwks = s.nwks;
    let links = s.links;
    let counts = s.counts;
    let deadlines = s.deadlines;
    let periods = s.periods;
    let heard = s.heard;
    let added = s.added;
    let beacons = s.beacons;
    let bytes = s.bytes;
    neighbor_columns::formed(
        &keys, &nwks, &links, &counts, &deadlines, &periods, &heard, &added, &beacons, &bytes,
        s.count,
    )
}

// The state with a neighbour at the place of its address: over the one that is there, or put in.
fn with_neighbor(s: Neighbors, place: Result<usize, usize>, e: NeighborEntry) -> Neighbors
    requires { Formed64 (table_in s) × (place ≡ place_of (take s.count s.keys) (neighbor_key e)) × (count_with neighbor_key (neighbor_key e) (rows s) ≤ 64) }
    ensures { result ≡ with_rows s (put neighbor_key e (rows s)) }
{
    let mut keys = s.keys;
    let mut nwks = s.nwks;
    let mut links = s.links;
    let mut counts = s.counts;
    let mut deadlines = s.deadlines;
    let mut periods = s.periods;
    let mut heard = s.heard;
    let mut added = s.added;
    let mut beacons = s.beacons;
    let mut bytes = s.bytes;
    let count = neighbor_steps::put_at(
        &mut keys,
        &mut nwks,
        &mut links,
        &mut counts,
        &mut deadlines,
        &mut periods,
        &mut heard,
        &mut added,
        &mut beacons,
        &mut bytes,
        s.count,
        place,
        e,
    );
    let mut x = s;
    x.keys = keys;
    x.nwks = nwks;
    x.links = links;
    x.counts = counts;
    x.deadlines = deadlines;
    x.periods = periods;
    x.heard = heard;
    x.added = added;
    x.beacons = beacons;
    x.bytes = bytes;
    x.count = count;
    x
}

// An entry under its key, if there is room in a table that is formed.
fn load_neighbor(s: Neighbors, e: NeighborEntry) -> NeighborsReply
    ensures { result ≡ neighbor_put e s }
{
    if !neighbors_formed(s) {
        return no_call(s);
    }
    let keys = s.keys;
    let key = e.extended_address;
    let place = neighbor_columns::place_of(&keys, s.count, key);
    if !columns::has_room(place, s.count, 64) {
        return no_call(s);
    }
    let x = with_neighbor(s, place, e);
    load(x)
}

// An entry as its line names it.
pub fn put_neighbor(s: Neighbors, args: &[u64]) -> NeighborsReply
    ensures { result ≡ put_neighbor s args.now }
{
    let e = neighbor_values::neighbor_at(args, 0);
    load_neighbor(s, e)
}

// The count of a table that a line damages.
pub fn set_neighbor_count(s: Neighbors, args: &[u64]) -> NeighborsReply
    ensures { result ≡ set_neighbor_count s args.now }
{
    let n = numbers::at(args, 0) as usize;
    let mut x = s;
    x.count = n;
    load(x)
}

// A key of a table that a line damages: the place and the key.
pub fn set_neighbor_key(s: Neighbors, args: &[u64]) -> NeighborsReply
    ensures { result ≡ set_neighbor_key s args.now }
{
    let i = numbers::at(args, 0) as usize;
    let k = numbers::at(args, 1);
    if 64 <= i {
        return no_call(s);
    }
    let mut keys = s.keys;
    keys[i] = k;
    let mut x = s;
    x.keys = keys;
    load(x)
}

// An entry under its key, if there is room in a table that is formed.
fn load_waiting(s: Neighbors, e: WaitingEntry) -> NeighborsReply
    ensures { result ≡ waiting_put e s }
{
    let mut senders = s.senders;
    let mut samples = s.samples;
    if !waiting_columns::formed(&senders, &samples, s.waiting) {
        return no_call(s);
    }
    let key = e.network_address;
    let place = waiting_columns::place_of(&senders, &samples, s.waiting, key);
    if !columns::has_room(place, s.waiting, 64) {
        return no_call(s);
    }
    let n = waiting_columns::put_at(&mut senders, &mut samples, s.waiting, place, e);
    let mut x = s;
    x.senders = senders;
    x.samples = samples;
    x.waiting = n;
    load(x)
}

// An entry as its line names it.
pub fn put_waiting(s: Neighbors, args: &[u64]) -> NeighborsReply
    ensures { result ≡ put_waiting s args.now }
{
    let e = neighbor_values::waiting_entry_at(args, 0);
    load_waiting(s, e)
}

// The count of a table that a line damages.
pub fn set_waiting_count(s: Neighbors, args: &[u64]) -> NeighborsReply
    ensures { result ≡ set_waiting_count s args.now }
{
    let n = numbers::at(args, 0) as usize;
    let mut x = s;
    x.waiting = n;
    load(x)
}

// A key of a table that a line damages: the place and the key.
pub fn set_waiting_key(s: Neighbors, args: &[u64]) -> NeighborsReply
    ensures { result ≡ set_waiting_key s args.now }
{
    let i = numbers::at(args, 0) as usize;
    let k = numbers::at(args, 1);
    if 64 <= i {
        return no_call(s);
    }
    if 65535 < k {
        return no_call(s);
    }
    let mut senders = s.senders;
    senders[i] = k as u16;
    let mut x = s;
    x.senders = senders;
    load(x)
}
