// The questions at the door for C whose answers have relays: the way to a destination, and the route record at a place.
#![tactic(auto)]

ghost use Rattle.std.specs.Prelude.{◌≡◌, length};
ghost use Rattle.standard.specs.Route.{nwk};
ghost use Rattle.route_table.specs.Lent.{seen_routes};
ghost use Rattle.routing.specs.Records.{hop_to, answer_in};
ghost use Rattle.door.specs.Lent.{lent, Says};
ghost use Rattle.door_ways.specs.Relays.{out, relayed_at, relayed_with};
ghost use Rattle.door_ways.specs.Rows.{row_beside, row_numbers, RowAsked};
ghost use Rattle.door_ways.specs.Ways.{beside, way_numbers, WayAsked, WayByDefault};

use record_table::RecordsSeen;
use route_table::RoutesSeen;
use standard::{RecordEntry, RecordRoute, RelayList};
use types::{Nwk, Refusal};

// The places of a list's relays, each written, with 0 after the relays.
fn write_relays(relays: &mut [u16], list: RelayList)
    requires { length relays.old ≡ 32 }
    ensures { relays.new ≡ out list }
{
    for i in 0..32 {
        let a = list.addresses[i];
        relays[i] = a.0;
    }
}

// A kind, an address and relays written to their places.
fn write_relayed(
    number: u8,
    given: u16,
    list: RelayList,
    kind: &mut u8,
    address: &mut u16,
    count: &mut usize,
    relays: &mut [u16],
)
    requires { length relays.old ≡ 32 }
    ensures { relayed_at kind.new address.new count.new relays.new ≡ relayed_with number given list }
{
    *kind = number;
    *address = given;
    *count = list.count;
    write_relays(relays, list);
}

// The numbers of a hop that the route table names, as the way: one that is not known is refusal 6.
fn say_hop(
    hop: Result<Option<Nwk>, Refusal>,
    list: RelayList,
    way: &mut u8,
    next_hop: &mut u16,
    count: &mut usize,
    relays: &mut [u16],
) -> u8
    requires { length relays.old ≡ 32 }
    ensures { Says way_numbers (beside (hop_to hop) list)
        (relayed_at way.old next_hop.old count.old relays.old)
        (relayed_at way.new next_hop.new count.new relays.new)
        result }
{
    match hop {
        Ok(None) => {
            write_relayed(0, 0, list, way, next_hop, count, relays);
            0
        }
        Ok(Some(n)) => {
            write_relayed(1, n.0, list, way, next_hop, count, relays);
            0
        }
        Err(why) => why.number(),
    }
}

// The numbers of what a record's word on the way comes to: where it names none, the Active route decides.
fn say_way(
    routes: &RoutesSeen,
    destination: Nwk,
    word: Option<RecordRoute>,
    list: RelayList,
    way: &mut u8,
    next_hop: &mut u16,
    count: &mut usize,
    relays: &mut [u16],
) -> u8
    requires { length relays.old ≡ 32 }
    ensures { Says way_numbers (beside (answer_in (seen_routes routes.now) destination word) list)
        (relayed_at way.old next_hop.old count.old relays.old)
        (relayed_at way.new next_hop.new count.new relays.new)
        result }
{
    match word {
        Some(RecordRoute::Direct) => {
            write_relayed(1, destination.0, list, way, next_hop, count, relays);
            0
        }
        Some(RecordRoute::SourceRoute) => {
            write_relayed(2, 0, list, way, next_hop, count, relays);
            0
        }
        None => {
            let hop = route_calls::next_hop(routes, destination);
            say_hop(hop, list, way, next_hop, count, relays)
        }
    }
}

// The way to a destination: direct, by the relays of its record if they are fewer than the limit, or by the Active route.
#[unsafe(no_mangle)]
pub extern "C" fn warpteasel_raw_route_to(
    route_keys: &[u16],
    route_words: &[u64],
    route_usage: &[u32],
    routes: usize,
    discovery_keys: &[u32],
    discovery_words: &[u64],
    discovery_ends: &[u64],
    discoveries: usize,
    record_keys: &[u16],
    record_lengths: &[u8],
    records: usize,
    store: &[u16],
    destination: u16,
    max_source_route: u8,
    way: &mut u8,
    next_hop: &mut u16,
    count: &mut usize,
    relays: &mut [u16],
) -> u8
    ensures { WayAsked
        (lent route_keys.now route_words.now route_usage.now routes discovery_keys.now discovery_words.now discovery_ends.now discoveries record_keys.now record_lengths.now records)
        (nwk destination) max_source_route store.now
        (relayed_at way.old next_hop.old count.old relays.old)
        (relayed_at way.new next_hop.new count.new relays.new)
        result }
{
    if relays.len() != 32 {
        return door::NO_CALL;
    }
    if !door::columns_formed(
        route_keys,
        route_words,
        route_usage,
        routes,
        discovery_keys,
        discovery_words,
        discovery_ends,
        discoveries,
        record_keys,
        record_lengths,
        records,
    ) {
        return 10;
    }
    if !relay_store::agrees(record_lengths, store) {
        return 9;
    }
    let kept = RecordsSeen {
        keys: record_keys,
        lengths: record_lengths,
        count: records,
    };
    let x = route_record::way_to(&kept, store, Nwk(destination), max_source_route);
    let word = x.route;
    let list = x.relays;
    let held = RoutesSeen {
        keys: route_keys,
        words: route_words,
        usage: route_usage,
        count: routes,
    };
    say_way(
        &held,
        Nwk(destination),
        word,
        list,
        way,
        next_hop,
        count,
        relays,
    )
}

// The way to a destination by the default policy, whose limit is 12.
#[unsafe(no_mangle)]
pub extern "C" fn warpteasel_raw_route_to_default(
    route_keys: &[u16],
    route_words: &[u64],
    route_usage: &[u32],
    routes: usize,
    discovery_keys: &[u32],
    discovery_words: &[u64],
    discovery_ends: &[u64],
    discoveries: usize,
    record_keys: &[u16],
    record_lengths: &[u8],
    records: usize,
    store: &[u16],
    destination: u16,
    way: &mut u8,
    next_hop: &mut u16,
    count: &mut usize,
    relays: &mut [u16],
) -> u8
    ensures { WayByDefault
        (lent route_keys.now route_words.now route_usage.now routes discovery_keys.now discovery_words.now discovery_ends.now discoveries record_keys.now record_lengths.now records)
        (nwk destination) store.now
        (relayed_at way.old next_hop.old count.old relays.old)
        (relayed_at way.new next_hop.new count.new relays.new)
        result }
{
    warpteasel_raw_route_to(
        route_keys,
        route_words,
        route_usage,
        routes,
        discovery_keys,
        discovery_words,
        discovery_ends,
        discoveries,
        record_keys,
        record_lengths,
        records,
        store,
        destination,
        12,
        way,
        next_hop,
        count,
        relays,
    )
}

// The numbers of what stands at a place of the record table, with its relays.
fn say_row(
    entry: Option<RecordEntry>,
    list: RelayList,
    found: &mut u8,
    destination: &mut u16,
    count: &mut usize,
    relays: &mut [u16],
) -> u8
    requires { length relays.old ≡ 32 }
    ensures { Says row_numbers (row_beside (Ok entry) list)
        (relayed_at found.old destination.old count.old relays.old)
        (relayed_at found.new destination.new count.new relays.new)
        result }
{
    match entry {
        None => {
            write_relayed(0, 0, list, found, destination, count, relays);
            0
        }
        Some(e) => {
            write_relayed(1, e.destination.0, list, found, destination, count, relays);
            0
        }
    }
}

// The route record at a place in ascending order with its relays, and nothing from the count on.
#[unsafe(no_mangle)]
pub extern "C" fn warpteasel_raw_record_at(
    route_keys: &[u16],
    route_words: &[u64],
    route_usage: &[u32],
    routes: usize,
    discovery_keys: &[u32],
    discovery_words: &[u64],
    discovery_ends: &[u64],
    discoveries: usize,
    record_keys: &[u16],
    record_lengths: &[u8],
    records: usize,
    store: &[u16],
    place: usize,
    found: &mut u8,
    destination: &mut u16,
    count: &mut usize,
    relays: &mut [u16],
) -> u8
    ensures { RowAsked
        (lent route_keys.now route_words.now route_usage.now routes discovery_keys.now discovery_words.now discovery_ends.now discoveries record_keys.now record_lengths.now records)
        place store.now
        (relayed_at found.old destination.old count.old relays.old)
        (relayed_at found.new destination.new count.new relays.new)
        result }
{
    if relays.len() != 32 {
        return door::NO_CALL;
    }
    if !door::columns_formed(
        route_keys,
        route_words,
        route_usage,
        routes,
        discovery_keys,
        discovery_words,
        discovery_ends,
        discoveries,
        record_keys,
        record_lengths,
        records,
    ) {
        return 10;
    }
    if !relay_store::agrees(record_lengths, store) {
        return 9;
    }
    let kept = RecordsSeen {
        keys: record_keys,
        lengths: record_lengths,
        count: records,
    };
    let x = route_record::record_at(&kept, store, place);
    let entry = x.entry;
    let list = x.relays;
    say_row(entry, list, found, destination, count, relays)
}
