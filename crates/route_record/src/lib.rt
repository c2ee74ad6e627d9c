// Route records in a table that is lent and a lent relay store, changed in place: one stored, one removed, and the way that one names.
#![tactic(auto)]

ghost use Rattle.std.specs.Prelude.{◌≡◌, map, ◌≤◌, ◌<◌, leb, length, take, drop};
ghost use Rattle.standard.specs.Ordered.{lookup};
ghost use Rattle.standard.specs.Record.{record_key};
ghost use Rattle.standard.specs.Records.{same_relays};
ghost use Rattle.standard.specs.Route.{nwk};
ghost use Rattle.standard.specs.Tells.{Tells};
ghost use Rattle.record_table.specs.Table.{rows_of};
ghost use Rattle.record_table.specs.Lent.{table, seen_table, place_in, SameColumns};
ghost use Rattle.relay_store.specs.Store.{relays_of, PlaceWithin, Agrees};
ghost use Rattle.relay_store.specs.Packed.{records_of};
ghost use Rattle.route_record.specs.Answer.{record_put, relays_put, with_address, with_relays, among, stored_step, removed_step, HoldsRecords, StoredIn, RemovedIn, other_at_of, way_to, record_held, record_found};

use record_table::{Records, RecordsSeen};
use standard::{RecordEntry, RecordRoute, RelayList};
use types::{Nwk, Refusal};

// The way that a record names, and the relays of a source route.
#[derive(Drop)]
pub struct RecordWay {
    pub route: Option<RecordRoute>,
    pub relays: RelayList,
}

// The record at a place, and its relays.
#[derive(Drop)]
pub struct RecordRow {
    pub entry: Option<RecordEntry>,
    pub relays: RelayList,
}

// Whether the first `count` numbers of a row are the relays of a list.
fn same_row(row: &[u16], count: usize, l: RelayList) -> bool
    requires { (count ≤ 32) × (length row.now ≡ 32) × (l.count ≤ 32) }
    ensures { result ≡ same_relays (map nwk (take count row.now)) (relays_of l) }
{
    if count != l.count {
        return false;
    }
    let mut same = true;
    for i in 0..count {
        let a = l.addresses[i];
        same = same & (row[i] == a.0);
    }
    same
}

// Whether an address is one of the first `count` relays of a list.
fn is_among(l: RelayList, count: usize, a: Nwk) -> bool
    requires { (count ≤ l.count) × (l.count ≤ 32) }
    ensures { result ≡ among a.0 (take count (relays_of l)) }
{
    let mut found = false;
    for b in &l.addresses[..count] {
        found = found | (*b == a);
    }
    found
}

// Whether an address has no record, and would have none once each of the first `before` relays has one.
fn is_new(records: &RecordsSeen, relays: RelayList, before: usize, a: Nwk) -> bool
    requires { (before ≤ relays.count) × (relays.count ≤ 32) }
    ensures { Tells (lookup (λ n. n) a.0 (with_relays (take before (relays_of relays)) (map record_key (rows_of (seen_table records.now)))) ≡ None) result }
{
    let place = records.place_of(a);
    match place {
        Ok(i) => false,
        Err(i) => !is_among(relays, before, a),
    }
}

// Whether the addresses of a route record have room. Nothing is written: where all of them might not fit, those with no record are counted.
fn has_room(records: &RecordsSeen, source: Nwk, relays: RelayList) -> bool
    requires { relays.count ≤ 32 }
    ensures { result ≡ leb (length (with_address source (with_relays (relays_of relays) (map record_key (rows_of (seen_table records.now)))))) 64 }
{
    let n = relays.count;
    if records.count + n < 64 {
        return true;
    }
    let mut total = records.count;
    for i in 0..n {
        let a = relays.addresses[i];
        let new = is_new(records, relays, i, a);
        total += new as usize;
    }
    let last = is_new(records, relays, n, source);
    total += last as usize;
    total <= 64
}

// A record written at its place, over the one that is there or put in, with the relays of a list from a place on: its row first, then its
// entry.
pub fn put_record(
    records: &mut Records,
    store: &mut [u16],
    place: Result<usize, usize>,
    destination: Nwk,
    relays: RelayList,
    from: usize,
)
    requires { Agrees (table records.old) store.old × (relays.count ≤ 32) × (from ≤ relays.count) × (place ≡ place_in (table records.old) destination.0) × (length (record_put destination (drop from (relays_of relays)) (table records.old) store.old) ≤ 64) }
    ensures memory { SameColumns records.old records.new }
    ensures held { HoldsRecords (table records.new) store.new (record_put destination (drop from (relays_of relays)) (table records.old) store.old) }
{
    relay_store::put_row(store, place, relays, from);
    let n = relays.count - from;
    records.put_at(
        place,
        RecordEntry {
            destination,
            relay_count: n as u8,
        },
    );
}

// Each relay's record written, in their order: the relays after it.
fn put_relays(records: &mut Records, store: &mut [u16], relays: RelayList)
    requires { Agrees (table records.old) store.old × (relays.count ≤ 32) × (length (relays_put (relays_of relays) (table records.old) store.old) ≤ 64) }
    ensures memory { SameColumns records.old records.new }
    ensures held { HoldsRecords (table records.new) store.new (relays_put (relays_of relays) (table records.old) store.old) }
{
    let n = relays.count;
    for i in 0..n {
        let a = relays.addresses[i];
        let place = records.seen().place_of(a);
        put_record(records, store, place, a, relays, i + 1);
    }
}

// The record at a place in the order with its relays, and nothing from the count on.
pub fn record_at(records: &RecordsSeen, store: &[u16], i: usize) -> RecordRow
    requires { Agrees (seen_table records.now) store.now }
    ensures { result ≡ record_held i (seen_table records.now) store.now }
{
    if records.count <= i {
        return RecordRow {
            entry: None,
            relays: relay_store::no_relays(),
        };
    }
    let e = records.entry_at(i);
    let relays = relay_store::relays_at(store, i, e.relay_count as usize);
    RecordRow {
        entry: Some(e),
        relays,
    }
}

// The record of a destination with its relays.
pub fn find_record(records: &RecordsSeen, store: &[u16], destination: Nwk) -> RecordRow
    requires { Agrees (seen_table records.now) store.now }
    ensures { result ≡ record_found destination (seen_table records.now) store.now }
{
    let place = records.place_of(destination);
    let Ok(i) = place else {
        return RecordRow {
            entry: None,
            relays: relay_store::no_relays(),
        };
    };
    record_at(records, store, i)
}

// Whether there is no record at the place of an address, or one that names other relays.
fn differs(
    records: &RecordsSeen,
    store: &[u16],
    place: Result<usize, usize>,
    relays: RelayList,
) -> bool
    requires { (length store.now ≡ 2048) × PlaceWithin place × (relays.count ≤ 32) }
    ensures { result ≡ other_at_of place records.now.lengths.now store.now (relays_of relays) }
{
    match place {
        Ok(i) => {
            let start = 32 * i;
            !same_row(
                &store[start..start + 32],
                records.lengths[i] as usize,
                relays,
            )
        }
        Err(i) => true,
    }
}

// A route record of a source: each relay gets the relays after it, and then the source gets all of them. Whether the source's record changed.
pub fn store_record(
    records: &mut Records,
    store: &mut [u16],
    source: Nwk,
    relays: RelayList,
) -> Result<bool, Refusal>
    requires { Agrees (table records.old) store.old × (relays.count ≤ 32) }
    ensures memory { SameColumns records.old records.new }
    ensures stored { StoredIn (table records.old) store.old
        (stored_step source (relays_of relays) (records_of (table records.old) store.old))
        result
        (table records.new) store.new }
{
    if !has_room(&records.seen(), source, relays) {
        return Err(Refusal::RecordTableFull);
    }
    put_relays(records, store, relays);
    let place = records.seen().place_of(source);
    let changed = differs(&records.seen(), store, place, relays);
    put_record(records, store, place, source, relays, 0);
    Ok(changed)
}

// The record of a destination removed, with the rows after its own shifted; whether there was one.
pub fn remove_record(records: &mut Records, store: &mut [u16], destination: Nwk) -> bool
    requires { Agrees (table records.old) store.old }
    ensures memory { SameColumns records.old records.new }
    ensures removed { RemovedIn (table records.old) store.old
        (removed_step destination (records_of (table records.old) store.old))
        result
        (table records.new) store.new }
{
    let place = records.seen().place_of(destination);
    let Ok(i) = place else {
        return false;
    };
    relay_store::shift_rows_down(store, i);
    records.remove_at(i, destination);
    true
}

// The way that a destination's record names: none, direct, or by fewer relays than the limit.
pub fn way_to(records: &RecordsSeen, store: &[u16], destination: Nwk, limit: u8) -> RecordWay
    requires { Agrees (seen_table records.now) store.now }
    ensures { result ≡ way_to destination limit (seen_table records.now) store.now }
{
    let place = records.place_of(destination);
    let Ok(i) = place else {
        return RecordWay {
            route: None,
            relays: relay_store::no_relays(),
        };
    };
    let n = records.lengths[i];
    if n == 0 {
        return RecordWay {
            route: Some(RecordRoute::Direct),
            relays: relay_store::no_relays(),
        };
    }
    if n < limit {
        return RecordWay {
            route: Some(RecordRoute::SourceRoute),
            relays: relay_store::relays_at(store, i, n as usize),
        };
    }
    RecordWay {
        route: None,
        relays: relay_store::no_relays(),
    }
}
