// The decision on the next hop at the door for C. Of the header that the caller keeps the fields that a decision may change are lent, by their numbers;
// they are written where a source route is set, and only there.
#![tactic(auto)]

mod outcome;

ghost use Rattle.std.specs.Prelude.{false, ◌≡◌, ◌≤◌};
ghost use Rattle.standard.specs.Route.{nwk};
ghost use Rattle.standard.specs.Tells.{Tells};
ghost use Rattle.route_table.specs.Lent.{seen_routes};
ghost use Rattle.record_table.specs.Lent.{seen_table};
ghost use Rattle.relay_store.specs.Store.{Agrees};
ghost use Rattle.neighbor_columns.specs.Lent as rows;
ghost use Rattle.neighbor_queries_lent.specs.Read.{lent_words};
ghost use Rattle.frame.specs.declared.NwkHeader.{NwkHeader};
ghost use Rattle.next_hop.specs.Lent.{OfTable};
ghost use Rattle.next_hop.specs.Decision.{kind_long, decided_on};
ghost use Rattle.door.specs.Lent.{lent, Asked};
ghost use Rattle.door_neighbors.specs.Lent as neighbours;
ghost use Rattle.door_records.specs.Records.{given};
ghost use Rattle.door_decision.specs.Header.{header_at, Values, header_in};
ghost use Rattle.door_decision.specs.Decision.{resolve_at, resolve_numbers, ResolveAsked, ResolveByDefault};

use hop_choice::{Policy, SendKind};
use record_table::RecordsSeen;
use route_table::RoutesSeen;
use types::Nwk;

// Whether the numbers of a call are values of their fields, and there are places for 32 relays.
fn is_call(
    is_concentrator: u8,
    force_route_discovery: u8,
    mode: u8,
    discover_route: u8,
    source_route: u8,
    has_source_route: u8,
    places: usize,
) -> bool
    ensures { Tells ((is_concentrator ≤ 1) × ((force_route_discovery ≤ 1) × ((mode ≤ 5) × ((discover_route ≤ 2) × ((source_route ≤ 1) × ((has_source_route ≤ 1) × (places ≡ 32))))))) result }
{
    (is_concentrator <= 1)
        & ((force_route_discovery <= 1)
            & ((mode <= 5)
                & ((discover_route <= 2)
                    & ((source_route <= 1) & ((has_source_route <= 1) & (places == 32))))))
}

// The decision on routes and records that are lent, a store that agrees, and lists that have their places. Of the neighbours it reads network
// addresses and link words, of the header the destination and whether no route may be discovered.
fn decide(
    routes: &RoutesSeen,
    records: &RecordsSeen,
    store: &[u16],
    nwks: &[u16],
    links: &[u64],
    count: usize,
    destination: Nwk,
    policy: Policy,
    kind: SendKind,
    host_relays: &[u16],
    discover_route: &mut u8,
    source_route: &mut u8,
    has_source_route: &mut u8,
    relay_index: &mut u8,
    relay_count: &mut usize,
    relays: &mut [u16],
    decision: &mut u8,
    next_hop: &mut u16,
) -> u8
    requires { Agrees (seen_table records.now) store.now
        × OfTable nwks.now links.now count
        × (kind_long (given host_relays.now) kind ≡ false)
        × Values (header_at discover_route.old source_route.old has_source_route.old relay_index.old relay_count.old relays.old) }
    ensures { rows.Asked (lent_words nwks.now links.now count)
        (λ xs. Asked resolve_numbers
        (λ (h : NwkHeader). decided_on (seen_routes routes.now) (seen_table records.now) xs h (record { kind = kind; relays = given host_relays.now }) policy store.now)
        (header_in destination (header_at discover_route.old source_route.old has_source_route.old relay_index.old relay_count.old relays.old))
        (resolve_at discover_route.old source_route.old has_source_route.old relay_index.old relay_count.old relays.old decision.old next_hop.old)
        (resolve_at discover_route.new source_route.new has_source_route.new relay_index.new relay_count.new relays.new decision.new next_hop.new)
        result) }
{
    let suppressed = *discover_route == 0;
    let choice = hop_choice::choose(
        routes,
        records,
        nwks,
        links,
        count,
        destination,
        policy,
        host_relays.len(),
        suppressed,
        kind,
    );
    outcome::say_choice(
        choice,
        records.lengths,
        store,
        host_relays,
        discover_route,
        source_route,
        has_source_route,
        relay_index,
        relay_count,
        relays,
        decision,
        next_hop,
    )
}

// The next hop of a unicast by a policy, and the header's fields as the frame is to be sent.
#[unsafe(no_mangle)]
pub extern "C" fn warpteasel_raw_resolve(
    route_keys: &[u16],
    route_words: &[u64],
    route_usage: &[u32],
    routes: usize,
    discovery_keys: &[u32],
    discovery_words: &[u64],
    discovery_ends: &[u64],
    discoveries: usize,
    record_keys: &[u16],
    record_lengths: &[u8],
    records: usize,
    store: &[u16],
    keys: &[u64],
    nwks: &[u16],
    links: &[u64],
    counts: &[u64],
    deadlines: &[u64],
    periods: &[u64],
    heard: &[u64],
    added: &[u64],
    beacons: &[u64],
    bytes: &[u64],
    count: usize,
    senders: &[u16],
    samples: &[u64],
    waiting: usize,
    is_concentrator: u8,
    force_route_discovery: u8,
    max_source_route: u8,
    mode: u8,
    host_hop: u16,
    host_relays: &[u16],
    destination: u16,
    discover_route: &mut u8,
    source_route: &mut u8,
    has_source_route: &mut u8,
    relay_index: &mut u8,
    relay_count: &mut usize,
    relays: &mut [u16],
    decision: &mut u8,
    next_hop: &mut u16,
) -> u8
    ensures { ResolveAsked
        (lent route_keys.now route_words.now route_usage.now routes discovery_keys.now discovery_words.now discovery_ends.now discoveries record_keys.now record_lengths.now records)
        (neighbours.lent keys.now nwks.now links.now counts.now deadlines.now periods.now heard.now added.now beacons.now bytes.now count senders.now samples.now waiting)
        store.now is_concentrator force_route_discovery max_source_route mode (nwk host_hop) host_relays.now (nwk destination)
        (resolve_at discover_route.old source_route.old has_source_route.old relay_index.old relay_count.old relays.old decision.old next_hop.old)
        (resolve_at discover_route.new source_route.new has_source_route.new relay_index.new relay_count.new relays.new decision.new next_hop.new)
        result }
{
    let bit = *source_route;
    let has = *has_source_route;
    if !is_call(
        is_concentrator,
        force_route_discovery,
        mode,
        *discover_route,
        bit,
        has,
        relays.len(),
    ) {
        return door::NO_CALL;
    }
    let routes_fine = door::columns_formed(
        route_keys,
        route_words,
        route_usage,
        routes,
        discovery_keys,
        discovery_words,
        discovery_ends,
        discoveries,
        record_keys,
        record_lengths,
        records,
    );
    let neighbors_fine = door_neighbors::columns_formed(
        keys, nwks, links, counts, deadlines, periods, heard, added, beacons, bytes, count,
        senders, samples, waiting,
    );
    if !(routes_fine & neighbors_fine) {
        return 10;
    }
    if !relay_store::agrees(record_lengths, store) {
        return 9;
    }
    let kept = *relay_count;
    let long = ((mode == 3) | (mode == 5)) & (32 < host_relays.len());
    if long | ((has == 1) & (32 < kept)) {
        return 8;
    }
    let policy = Policy {
        is_concentrator: is_concentrator == 1,
        force_route_discovery: force_route_discovery == 1,
        max_source_route,
    };
    let held = RoutesSeen {
        keys: route_keys,
        words: route_words,
        usage: route_usage,
        count: routes,
    };
    let kept = RecordsSeen {
        keys: record_keys,
        lengths: record_lengths,
        count: records,
    };
    decide(
        &held,
        &kept,
        store,
        nwks,
        links,
        count,
        Nwk(destination),
        policy,
        decision_lines::arguments::kind(mode as u64, Nwk(host_hop)),
        host_relays,
        discover_route,
        source_route,
        has_source_route,
        relay_index,
        relay_count,
        relays,
        decision,
        next_hop,
    )
}

// The next hop by the default policy: a concentrator that does not force discovery, and the limit 12.
#[unsafe(no_mangle)]
pub extern "C" fn warpteasel_raw_resolve_default(
    route_keys: &[u16],
    route_words: &[u64],
    route_usage: &[u32],
    routes: usize,
    discovery_keys: &[u32],
    discovery_words: &[u64],
    discovery_ends: &[u64],
    discoveries: usize,
    record_keys: &[u16],
    record_lengths: &[u8],
    records: usize,
    store: &[u16],
    keys: &[u64],
    nwks: &[u16],
    links: &[u64],
    counts: &[u64],
    deadlines: &[u64],
    periods: &[u64],
    heard: &[u64],
    added: &[u64],
    beacons: &[u64],
    bytes: &[u64],
    count: usize,
    senders: &[u16],
    samples: &[u64],
    waiting: usize,
    mode: u8,
    host_hop: u16,
    host_relays: &[u16],
    destination: u16,
    discover_route: &mut u8,
    source_route: &mut u8,
    has_source_route: &mut u8,
    relay_index: &mut u8,
    relay_count: &mut usize,
    relays: &mut [u16],
    decision: &mut u8,
    next_hop: &mut u16,
) -> u8
    ensures { ResolveByDefault
        (lent route_keys.now route_words.now route_usage.now routes discovery_keys.now discovery_words.now discovery_ends.now discoveries record_keys.now record_lengths.now records)
        (neighbours.lent keys.now nwks.now links.now counts.now deadlines.now periods.now heard.now added.now beacons.now bytes.now count senders.now samples.now waiting)
        store.now mode (nwk host_hop) host_relays.now (nwk destination)
        (resolve_at discover_route.old source_route.old has_source_route.old relay_index.old relay_count.old relays.old decision.old next_hop.old)
        (resolve_at discover_route.new source_route.new has_source_route.new relay_index.new relay_count.new relays.new decision.new next_hop.new)
        result }
{
    warpteasel_raw_resolve(
        route_keys,
        route_words,
        route_usage,
        routes,
        discovery_keys,
        discovery_words,
        discovery_ends,
        discoveries,
        record_keys,
        record_lengths,
        records,
        store,
        keys,
        nwks,
        links,
        counts,
        deadlines,
        periods,
        heard,
        added,
        beacons,
        bytes,
        count,
        senders,
        samples,
        waiting,
        1,
        0,
        12,
        mode,
        host_hop,
        host_relays,
        destination,
        discover_route,
        source_route,
        has_source_route,
        relay_index,
        relay_count,
        relays,
        decision,
        next_hop,
    )
}
