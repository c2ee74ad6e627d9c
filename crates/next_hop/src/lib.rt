// The next hop of a unicast that we send: a decision over the routes and the neighbours, which may give the header a source route.
// The states are asked and not changed; the relay store is lent to be read.
#![tactic(auto)]

mod modes;
mod outcome;

ghost use Rattle.std.specs.Prelude.{false, ◌≡◌};
ghost use Rattle.route_table.specs.Lent.{seen_routes};
ghost use Rattle.record_table.specs.Lent.{seen_table};
ghost use Rattle.relay_store.specs.Store.{Agrees};
ghost use Rattle.neighbor_columns.specs.Lent.{Asked};
ghost use Rattle.neighbor_queries_lent.specs.Read.{lent_words};
ghost use Rattle.routing.specs.State as routes;
ghost use Rattle.routing.specs.State.{record_table};
ghost use Rattle.neighbors.specs.State as neighbours;
ghost use Rattle.next_hop.specs.Lent.{OfTable};
ghost use Rattle.next_hop.specs.Decision.{names_long, decided_on, decided, resolve, resolve_default};

use frame::NwkHeader;
use hop_choice::{Policy, SendKind};
use neighbors::Neighbors;
use record_table::RecordsSeen;
use route_table::RoutesSeen;
use routing::Routing;
use standard::RelayList;
use types::{Nwk, Refusal};

// How a frame is sent; the relays count only where a host route is a source route.
#[derive(Clone, Copy)]
pub struct SendMode {
    pub kind: SendKind,
    pub relays: RelayList,
}

// What is decided of a frame.
#[derive(Drop)]
pub enum NextHop {
    Resolved(Nwk),
    NeedDiscovery,
    Discard,
}

// What is decided, and the header to be sent.
#[derive(Drop)]
pub struct ResolveOutcome {
    pub answer: Result<NextHop, Refusal>,
    pub header: NwkHeader,
}

// The decision on routes and records that are lent, a store that agrees, and lists that have their places.
// Of the neighbours it reads network addresses and link words.
pub fn decide<'a>(
    routes: &RoutesSeen,
    records: &RecordsSeen,
    store: &[u16],
    nwks: &'a [u16],
    links: &'a [u64],
    count: usize,
    header: NwkHeader,
    mode: SendMode,
    policy: Policy,
) -> ResolveOutcome
    requires { Agrees (seen_table records.now) store.now × OfTable nwks.now links.now count × (names_long mode ≡ false) }
    ensures { Asked (lent_words nwks.now links.now count) (λ xs. result ≡ decided_on (seen_routes routes.now) (seen_table records.now) xs header mode policy store.now) }
{
    let kind = mode.kind;
    let relays = mode.relays;
    let control = header.frame_control;
    let discovery = control.discover_route;
    let choice = hop_choice::choose(
        routes,
        records,
        nwks,
        links,
        count,
        header.destination,
        policy,
        relays.count,
        discovery.is_suppressed(),
        kind,
    );
    outcome::make(choice, records.lengths, store, header, relays)
}

// `resolve` on states that are well formed, a store that agrees and lists that have their places.
pub fn resolve_core(
    routing: Routing,
    neighbors: Neighbors,
    store: &[u16],
    header: NwkHeader,
    mode: SendMode,
    policy: Policy,
) -> ResolveOutcome
    requires { routes.WellFormed routing × neighbours.WellFormed neighbors × Agrees (record_table routing) store.now × (names_long mode ≡ false) }
    ensures { result ≡ decided routing neighbors header mode policy store.now }
{
    let nwks = neighbors.nwks;
    let links = neighbors.links;
    decide(
        &routing.routes_seen(),
        &routing.records_seen(),
        store,
        &nwks,
        &links,
        neighbors.count,
        header,
        mode,
        policy,
    )
}

// The next hop by a policy. Both states are tested and lent where they stand.
pub fn resolve(
    routing: Routing,
    neighbors: Neighbors,
    store: &[u16],
    header: NwkHeader,
    mode: SendMode,
    policy: Policy,
) -> ResolveOutcome
    ensures { result ≡ resolve routing neighbors header mode policy store.now }
{
    let routes_fine = routing::columns_formed(
        &routing.route_keys,
        &routing.route_words,
        &routing.route_usage,
        routing.routes,
        &routing.discovery_keys,
        &routing.discovery_words,
        &routing.discovery_ends,
        routing.discoveries,
        &routing.record_keys,
        &routing.record_lengths,
        routing.records,
    );
    let neighbors_fine = neighbors::columns_formed(
        &neighbors.keys,
        &neighbors.nwks,
        &neighbors.links,
        &neighbors.counts,
        &neighbors.deadlines,
        &neighbors.periods,
        &neighbors.heard,
        &neighbors.added,
        &neighbors.beacons,
        &neighbors.bytes,
        neighbors.count,
        &neighbors.senders,
        &neighbors.samples,
        neighbors.waiting,
    );
    if !(routes_fine & neighbors_fine) {
        return outcome::refuse(header, Refusal::StateIllFormed);
    }
    if !relay_store::agrees(&routing.record_lengths, store) {
        return outcome::refuse(header, Refusal::StoreDisagrees);
    }
    if mode.names_long() | header.carries_long() {
        return outcome::refuse(header, Refusal::ListTooLong);
    }
    decide(
        &routing.routes_seen(),
        &routing.records_seen(),
        store,
        &neighbors.nwks,
        &neighbors.links,
        neighbors.count,
        header,
        mode,
        policy,
    )
}

// The next hop by the default policy: a concentrator that does not force discovery, and the limit 12.
pub fn resolve_default(
    routing: Routing,
    neighbors: Neighbors,
    store: &[u16],
    header: NwkHeader,
    mode: SendMode,
) -> ResolveOutcome
    ensures { result ≡ resolve_default routing neighbors header mode store.now }
{
    let policy = Policy {
        is_concentrator: true,
        force_route_discovery: false,
        max_source_route: 12,
    };
    resolve(routing, neighbors, store, header, mode, policy)
}
