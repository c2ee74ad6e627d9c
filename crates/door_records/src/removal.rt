// A route record removed, at the door for C; `door_records_c` exports it.
ghost use Rattle.standard.specs.Route.{nwk};
ghost use Rattle.door.specs.Lent.{lent};
ghost use Rattle.door_records.specs.Records.{RemovedMade};

use record_table::Records;
use types::Nwk;

// The record of a destination is removed; whether there was one.
pub fn warpteasel_raw_remove_route_record(
    route_keys: &[u16],
    route_words: &[u64],
    route_usage: &[u32],
    routes: usize,
    discovery_keys: &[u32],
    discovery_words: &[u64],
    discovery_ends: &[u64],
    discoveries: usize,
    record_keys: &mut [u16],
    record_lengths: &mut [u8],
    records: &mut usize,
    store: &mut [u16],
    destination: u16,
    removed: &mut u8,
) -> u8
    ensures { RemovedMade
        (lent route_keys.now route_words.now route_usage.now routes discovery_keys.now discovery_words.now discovery_ends.now discoveries record_keys.old record_lengths.old records.old)
        (lent route_keys.now route_words.now route_usage.now routes discovery_keys.now discovery_words.now discovery_ends.now discoveries record_keys.new record_lengths.new records.new)
        (nwk destination) store.old store.new
        removed.old removed.new result }
{
    let k = *records;
    if !door::columns_formed(
        route_keys,
        route_words,
        route_usage,
        routes,
        discovery_keys,
        discovery_words,
        discovery_ends,
        discoveries,
        record_keys,
        record_lengths,
        k,
    ) {
        return 10;
    }
    if !relay_store::agrees(record_lengths, store) {
        return 9;
    }
    let mut held = Records {
        keys: record_keys,
        lengths: record_lengths,
        count: k,
    };
    let was_there = route_record::remove_record(&mut held, store, Nwk(destination));
    *records = held.count;
    *removed = door::flag(was_there);
    0
}
