// What the benchmark runs of the decision: many calls on the same states and store, in the exported form and on tables that are lent.
// A row of the inputs is eight numbers. The answers are added up, so that they can be compared with the Rust's.
ghost use Rattle.std.specs.Prelude.{◌≡◌, false};
ghost use Rattle.record_table.specs.Lent.{seen_table};
ghost use Rattle.relay_store.specs.Store.{Agrees};
ghost use Rattle.routing.specs.State as state-of;
ghost use Rattle.routing.specs.State.{record_table};
ghost use Rattle.neighbors.specs.State as neighbours;
ghost use Rattle.next_hop.specs.Decision.{names_long};
ghost use Rattle.next_hop.specs.Lent.{OfTable};

use children::ChildDescriptor;
use frame::{NwkFrameControl, NwkFrameType, NwkHeader, NwkRouteDiscovery, NwkSourceRoute};
use hop_choice::{Policy, RouteDirective, SendKind};
use neighbor_table::{NwkDeviceType, Relationship};
use neighbors::{Neighbors, Outcome};
use next_hop::{NextHop, ResolveOutcome, SendMode};
use record_table::RecordsSeen;
use route_table::RoutesSeen;
use routing::Routing;
use types::{Eui64, Nwk, Refusal};

fn with_child(state: Neighbors, address: u16) -> Outcome {
    let child = ChildDescriptor {
        eui64: Eui64(address as u64),
        network_address: Nwk(address),
        device_type: NwkDeviceType::EndDevice,
        rx_on_when_idle: true,
        device_timeout: 1000,
        relationship: Relationship::Child,
    };
    neighbor_calls::upsert_child(state, child, 0)
}

// The neighbours 1 .. size: routers, and among them an end device child at each odd address.
pub fn filled_neighbors(size: u16) -> Neighbors {
    let mut s = speed_links::filled_links(size);
    let half = size / 2;
    for i in 0..half {
        let o = with_child(s, i * 2 + 1);
        s = o.state;
    }
    s
}

fn control() -> NwkFrameControl {
    NwkFrameControl {
        frame_type: NwkFrameType::Data,
        protocol_version: 2,
        discover_route: NwkRouteDiscovery::Enable,
        multicast: false,
        security: true,
        source_route: false,
        destination: false,
        extended_source: false,
        end_device_initiator: false,
        reserved1: 0,
    }
}

// A header with no source route, to the destination at place 0.
fn header(row: &[u64]) -> NwkHeader {
    let frame_control = control();
    let relays = relay_store::no_relays();
    let source_route = NwkSourceRoute {
        relay_index: 0,
        relays,
    };
    NwkHeader {
        frame_control,
        destination: numbers::nwk(row, 0),
        source: numbers::nwk(row, 1),
        radius: 30,
        sequence_number: 0,
        destination_ieee: None,
        source_ieee: None,
        multicast_control: None,
        has_source_route: false,
        source_route,
    }
}

// The stack decides.
fn mode() -> SendMode
    ensures { names_long result ≡ false }
{
    let relays = relay_store::no_relays();
    SendMode {
        kind: SendKind::Route(RouteDirective::StackDecides),
        relays,
    }
}

// The default policy's numbers.
fn policy() -> Policy {
    Policy {
        is_concentrator: true,
        force_route_discovery: false,
        max_source_route: 12,
    }
}

fn hop_weight(answer: Result<NextHop, Refusal>) -> u64 {
    match answer {
        Err(_) => 7,
        Ok(NextHop::Resolved(hop)) => hop.0 as u64,
        Ok(NextHop::NeedDiscovery) => 1,
        Ok(NextHop::Discard) => 2,
    }
}

// The hop, and how many relays the header has got.
fn decision_weight(o: ResolveOutcome) -> u64 {
    let answer = o.answer;
    let header = o.header;
    let route = header.source_route;
    let relays = route.relays;
    std::num::wrapping_add_u64(hop_weight(answer), relays.count as u64)
}

fn decision(routing: Routing, neighbors: Neighbors, store: &[u16], row: &[u64]) -> u64 {
    let o = next_hop::resolve(routing, neighbors, store, header(row), mode(), policy());
    decision_weight(o)
}

pub fn decisions(routing: Routing, neighbors: Neighbors, store: &[u16], inputs: &[u64]) -> u64 {
    let mut sum: u64 = 0;
    for row in inputs.chunks_exact(8) {
        let x = decision(routing, neighbors, store, row);
        sum = std::num::wrapping_add_u64(sum, x);
    }
    sum
}

// The same on tables that are lent.
fn decision_lent<'a>(
    routes: &RoutesSeen,
    records: &RecordsSeen,
    store: &[u16],
    nwks: &'a [u16],
    links: &'a [u64],
    count: usize,
    row: &[u64],
) -> u64
    requires { Agrees (seen_table records.now) store.now × OfTable nwks.now links.now count }
{
    let o = next_hop::decide(
        routes,
        records,
        store,
        nwks,
        links,
        count,
        header(row),
        mode(),
        policy(),
    );
    decision_weight(o)
}

fn decisions_held(routing: Routing, neighbors: Neighbors, store: &[u16], inputs: &[u64]) -> u64
    requires { state-of.WellFormed routing × neighbours.WellFormed neighbors × Agrees (record_table routing) store.now }
{
    let nwks = neighbors.nwks;
    let links = neighbors.links;
    let mut sum: u64 = 0;
    for row in inputs.chunks_exact(8) {
        let x = decision_lent(
            &routing.routes_seen(),
            &routing.records_seen(),
            store,
            &nwks,
            &links,
            neighbors.count,
            row,
        );
        sum = std::num::wrapping_add_u64(sum, x);
    }
    sum
}

// The tests of the exported form once, before the first row.
pub fn decisions_core(
    routing: Routing,
    neighbors: Neighbors,
    store: &[u16],
    inputs: &[u64],
) -> u64 {
    if !routing.well_formed() {
        return 0;
    }
    if !neighbors.well_formed() {
        return 0;
    }
    if !routing.agrees(store) {
        return 0;
    }
    decisions_held(routing, neighbors, store, inputs)
}
