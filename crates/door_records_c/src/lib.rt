// The calls on route records as they are exported to C: each is that of `door_records`, with its clauses.
#![tactic(auto)]

ghost use Rattle.standard.specs.Route.{nwk};
ghost use Rattle.door.specs.Lent.{lent};
ghost use Rattle.door_records.specs.Records.{RecordMade, RemovedMade};

// A route record of a source: each relay gets the relays after it, and then the source gets all of them.
#[unsafe(no_mangle)]
pub extern "C" fn warpteasel_raw_store_route_record(
    route_keys: &[u16],
    route_words: &[u64],
    route_usage: &[u32],
    routes: usize,
    discovery_keys: &[u32],
    discovery_words: &[u64],
    discovery_ends: &[u64],
    discoveries: usize,
    record_keys: &mut [u16],
    record_lengths: &mut [u8],
    records: &mut usize,
    store: &mut [u16],
    source: u16,
    relays: &[u16],
    changed: &mut u8,
) -> u8
    ensures { RecordMade
        (lent route_keys.now route_words.now route_usage.now routes discovery_keys.now discovery_words.now discovery_ends.now discoveries record_keys.old record_lengths.old records.old)
        (lent route_keys.now route_words.now route_usage.now routes discovery_keys.now discovery_words.now discovery_ends.now discoveries record_keys.new record_lengths.new records.new)
        (nwk source) relays.now store.old store.new
        changed.old changed.new result }
{
    door_records::warpteasel_raw_store_route_record(
        route_keys,
        route_words,
        route_usage,
        routes,
        discovery_keys,
        discovery_words,
        discovery_ends,
        discoveries,
        record_keys,
        record_lengths,
        records,
        store,
        source,
        relays,
        changed,
    )
}

// The record of a destination is removed; whether there was one.
#[unsafe(no_mangle)]
pub extern "C" fn warpteasel_raw_remove_route_record(
    route_keys: &[u16],
    route_words: &[u64],
    route_usage: &[u32],
    routes: usize,
    discovery_keys: &[u32],
    discovery_words: &[u64],
    discovery_ends: &[u64],
    discoveries: usize,
    record_keys: &mut [u16],
    record_lengths: &mut [u8],
    records: &mut usize,
    store: &mut [u16],
    destination: u16,
    removed: &mut u8,
) -> u8
    ensures { RemovedMade
        (lent route_keys.now route_words.now route_usage.now routes discovery_keys.now discovery_words.now discovery_ends.now discoveries record_keys.old record_lengths.old records.old)
        (lent route_keys.now route_words.now route_usage.now routes discovery_keys.now discovery_words.now discovery_ends.now discoveries record_keys.new record_lengths.new records.new)
        (nwk destination) store.old store.new
        removed.old removed.new result }
{
    door_records::removal::warpteasel_raw_remove_route_record(
        route_keys,
        route_words,
        route_usage,
        routes,
        discovery_keys,
        discovery_words,
        discovery_ends,
        discoveries,
        record_keys,
        record_lengths,
        records,
        store,
        destination,
        removed,
    )
}
