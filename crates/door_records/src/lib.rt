// The calls on route records at the door for C, which `door_records_c` exports: the relay store is lent beside the columns.
#![tactic(auto)]

pub mod removal;

ghost use Rattle.std.specs.Prelude.{◌≡◌, ◌≤◌, length};
ghost use Rattle.standard.specs.Route.{nwk};
ghost use Rattle.door.specs.Lent.{lent, Says};
ghost use Rattle.door_records.specs.Records.{given, record_numbers, RecordMade};

use record_table::Records;
use standard::RelayList;
use types::{Nwk, Refusal};

// Relays that are given, as a list of addresses.
fn relays_given(relays: &[u16]) -> RelayList
    requires { length relays.now ≤ 32 }
    ensures { result ≡ given relays.now }
{
    let mut l = relay_store::no_relays();
    for (i, n) in relays.iter().enumerate() {
        let a = Nwk(*n);
        l.addresses[i] = a;
    }
    l.count = relays.len();
    l
}

// The number of the answer of a route record.
fn say_record(answer: Result<bool, Refusal>, changed: &mut u8) -> u8
    ensures { Says record_numbers answer changed.old changed.new result }
{
    match answer {
        Err(why) => why.number(),
        Ok(b) => {
            *changed = door::flag(b);
            0
        }
    }
}

// A route record of a source: each relay gets the relays after it, and then the source gets all of them.
pub fn warpteasel_raw_store_route_record(
    route_keys: &[u16],
    route_words: &[u64],
    route_usage: &[u32],
    routes: usize,
    discovery_keys: &[u32],
    discovery_words: &[u64],
    discovery_ends: &[u64],
    discoveries: usize,
    record_keys: &mut [u16],
    record_lengths: &mut [u8],
    records: &mut usize,
    store: &mut [u16],
    source: u16,
    relays: &[u16],
    changed: &mut u8,
) -> u8
    ensures { RecordMade
        (lent route_keys.now route_words.now route_usage.now routes discovery_keys.now discovery_words.now discovery_ends.now discoveries record_keys.old record_lengths.old records.old)
        (lent route_keys.now route_words.now route_usage.now routes discovery_keys.now discovery_words.now discovery_ends.now discoveries record_keys.new record_lengths.new records.new)
        (nwk source) relays.now store.old store.new
        changed.old changed.new result }
{
    let k = *records;
    if !door::columns_formed(
        route_keys,
        route_words,
        route_usage,
        routes,
        discovery_keys,
        discovery_words,
        discovery_ends,
        discoveries,
        record_keys,
        record_lengths,
        k,
    ) {
        return 10;
    }
    let agreed = relay_store::agrees(record_lengths, store);
    if !agreed {
        return 9;
    }
    if 32 < relays.len() {
        return 8;
    }
    let list = relays_given(relays);
    let mut held = Records {
        keys: record_keys,
        lengths: record_lengths,
        count: k,
    };
    let answer = route_record::store_record(&mut held, store, Nwk(source), list);
    *records = held.count;
    say_record(answer, changed)
}
