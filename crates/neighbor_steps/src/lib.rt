// A neighbour stored, put in or taken out, in all columns of the neighbour table: each function is a step on the rows that the columns hold.
#![tactic(auto)]

ghost use Rattle.std.specs.Prelude.{◌≡◌, ◌+◌, ◌≤◌, ◌<◌, take};
ghost use Rattle.standard.specs.Ordered.{put, remove, count_with};
ghost use Rattle.flat_map.specs.Seek.{place_of};
ghost use Rattle.neighbor_table.specs.Entry.{neighbor_key};
ghost use Rattle.neighbor_columns.specs.Table.{in_columns, rows_of, InPlaces, Formed64, removed, Keeps};

use neighbor_table::NeighborEntry;
use types::Eui64;

// A neighbour stored over the one of its address, which stands in place i.
pub fn set_at(
    keys: &[u64],
    nwks: &mut [u16],
    links: &mut [u64],
    counts: &mut [u64],
    deadlines: &mut [u64],
    periods: &mut [u64],
    heard: &mut [u64],
    added: &mut [u64],
    beacons: &mut [u64],
    bytes: &mut [u64],
    count: usize,
    i: usize,
    e: NeighborEntry,
)
    requires { Formed64 (in_columns keys.now nwks.old links.old counts.old deadlines.old periods.old heard.old added.old beacons.old bytes.old count) × (Ok i ≡ place_of (take count keys.now) (neighbor_key e)) }
    ensures { Keeps (in_columns keys.now nwks.new links.new counts.new deadlines.new periods.new heard.new added.new beacons.new bytes.new count) (put neighbor_key e (rows_of (in_columns keys.now nwks.old links.old counts.old deadlines.old periods.old heard.old added.old beacons.old bytes.old count))) }
{
    let w = neighbor_columns::words_of(e);
    nwks[i] = w.nwk;
    links[i] = w.link;
    counts[i] = w.counts;
    deadlines[i] = w.deadline;
    periods[i] = w.period;
    heard[i] = w.heard;
    added[i] = w.added;
    beacons[i] = w.beacon;
    bytes[i] = w.bytes;
}

// A neighbour put in at the place where its address is missing. How many there are after it.
pub fn insert_at(
    keys: &mut [u64],
    nwks: &mut [u16],
    links: &mut [u64],
    counts: &mut [u64],
    deadlines: &mut [u64],
    periods: &mut [u64],
    heard: &mut [u64],
    added: &mut [u64],
    beacons: &mut [u64],
    bytes: &mut [u64],
    count: usize,
    i: usize,
    e: NeighborEntry,
) -> usize
    requires { Formed64 (in_columns keys.old nwks.old links.old counts.old deadlines.old periods.old heard.old added.old beacons.old bytes.old count) × (Err i ≡ place_of (take count keys.old) (neighbor_key e)) × (count < 64) }
    ensures { Keeps (in_columns keys.new nwks.new links.new counts.new deadlines.new periods.new heard.new added.new beacons.new bytes.new result) (put neighbor_key e (rows_of (in_columns keys.old nwks.old links.old counts.old deadlines.old periods.old heard.old added.old beacons.old bytes.old count))) }
{
    let w = neighbor_columns::words_of(e);
    columns::shift_in(keys, i, w.key);
    columns::shift_in(nwks, i, w.nwk);
    columns::shift_in(links, i, w.link);
    columns::shift_in(counts, i, w.counts);
    columns::shift_in(deadlines, i, w.deadline);
    columns::shift_in(periods, i, w.period);
    columns::shift_in(heard, i, w.heard);
    columns::shift_in(added, i, w.added);
    columns::shift_in(beacons, i, w.beacon);
    columns::shift_in(bytes, i, w.bytes);
    count + 1
}

// A neighbour at the place of its address: over the one that is there, or put in. How many there are after it.
pub fn put_at(
    keys: &mut [u64],
    nwks: &mut [u16],
    links: &mut [u64],
    counts: &mut [u64],
    deadlines: &mut [u64],
    periods: &mut [u64],
    heard: &mut [u64],
    added: &mut [u64],
    beacons: &mut [u64],
    bytes: &mut [u64],
    count: usize,
    place: Result<usize, usize>,
    e: NeighborEntry,
) -> usize
    requires { Formed64 (in_columns keys.old nwks.old links.old counts.old deadlines.old periods.old heard.old added.old beacons.old bytes.old count) × (place ≡ place_of (take count keys.old) (neighbor_key e)) × (count_with neighbor_key (neighbor_key e) (rows_of (in_columns keys.old nwks.old links.old counts.old deadlines.old periods.old heard.old added.old beacons.old bytes.old count)) ≤ 64) }
    ensures { Keeps (in_columns keys.new nwks.new links.new counts.new deadlines.new periods.new heard.new added.new beacons.new bytes.new result) (put neighbor_key e (rows_of (in_columns keys.old nwks.old links.old counts.old deadlines.old periods.old heard.old added.old beacons.old bytes.old count))) }
{
    match place {
        Ok(i) => {
            set_at(
                keys, nwks, links, counts, deadlines, periods, heard, added, beacons, bytes, count,
                i, e,
            );
            count
        }
        Err(i) => insert_at(
            keys, nwks, links, counts, deadlines, periods, heard, added, beacons, bytes, count, i,
            e,
        ),
    }
}

// The neighbour in a place taken out, all columns shifted left. How many there are after it.
pub fn remove_at(
    keys: &mut [u64],
    nwks: &mut [u16],
    links: &mut [u64],
    counts: &mut [u64],
    deadlines: &mut [u64],
    periods: &mut [u64],
    heard: &mut [u64],
    added: &mut [u64],
    beacons: &mut [u64],
    bytes: &mut [u64],
    count: usize,
    i: usize,
) -> usize
    requires { InPlaces i (in_columns keys.old nwks.old links.old counts.old deadlines.old periods.old heard.old added.old beacons.old bytes.old count) × (0 < count) }
    ensures { in_columns keys.new nwks.new links.new counts.new deadlines.new periods.new heard.new added.new beacons.new bytes.new result ≡ removed (in_columns keys.old nwks.old links.old counts.old deadlines.old periods.old heard.old added.old beacons.old bytes.old count) i }
{
    columns::shift_out(keys, i, 0);
    columns::shift_out(nwks, i, 0);
    columns::shift_out(links, i, 0);
    columns::shift_out(counts, i, 0);
    columns::shift_out(deadlines, i, 0);
    columns::shift_out(periods, i, 0);
    columns::shift_out(heard, i, 0);
    columns::shift_out(added, i, 0);
    columns::shift_out(beacons, i, 0);
    columns::shift_out(bytes, i, 0);
    count - 1
}

// The neighbour of an address taken out, if there is one. How many there are after it.
pub fn remove(
    keys: &mut [u64],
    nwks: &mut [u16],
    links: &mut [u64],
    counts: &mut [u64],
    deadlines: &mut [u64],
    periods: &mut [u64],
    heard: &mut [u64],
    added: &mut [u64],
    beacons: &mut [u64],
    bytes: &mut [u64],
    count: usize,
    eui64: Eui64,
) -> usize
    requires { Formed64 (in_columns keys.old nwks.old links.old counts.old deadlines.old periods.old heard.old added.old beacons.old bytes.old count) }
    ensures { Keeps (in_columns keys.new nwks.new links.new counts.new deadlines.new periods.new heard.new added.new beacons.new bytes.new result) (remove neighbor_key eui64.0 (rows_of (in_columns keys.old nwks.old links.old counts.old deadlines.old periods.old heard.old added.old beacons.old bytes.old count))) }
{
    let place = neighbor_columns::place_of(keys, count, eui64);
    match place {
        Ok(i) => remove_at(
            keys, nwks, links, counts, deadlines, periods, heard, added, beacons, bytes, count, i,
        ),
        Err(_) => count,
    }
}
