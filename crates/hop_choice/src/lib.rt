// The way of a unicast that we send, chosen from tables that are lent. The answer is small: no header, no relay store and no list of relays goes in or
// out, and what calls this makes the outcome of it.
#![tactic(auto)]

ghost use Rattle.std.specs.Prelude.{[], ◌∷◌, ◌≡◌};
ghost use Rattle.route_table.specs.Lent.{seen_routes};
ghost use Rattle.record_table.specs.Lent.{seen_table};
ghost use Rattle.neighbor_columns.specs.Lent.{Asked};
ghost use Rattle.neighbor_queries_lent.specs.Read.{InUse, lent_words};
ghost use Rattle.hop_choice.specs.Choice.{host_choice, undiscovered, hinted, hopped, routed, record_says, tabled, chosen};

use neighbor_queries::Filter;
use record_table::RecordsSeen;
use route_table::RoutesSeen;
use types::{Nwk, Refusal};

// A route that the host names: a hop, or the relays beside it. Of the shape of an Option, but `SourceRoute` is no absence.
#[derive(Clone, Copy)]
pub enum HostRoute {
    NextHop(Nwk),
    SourceRoute,
}

// What the host wants of the way: nothing, its route where there is no other, or its route in any case.
#[derive(Clone, Copy)]
pub enum RouteDirective {
    StackDecides,
    Hint(HostRoute),
    Force(HostRoute),
}

// Straight to the destination, or by the routes. Of the shape of an Option, but `Direct` is no absence.
#[derive(Clone, Copy)]
pub enum SendKind {
    Direct,
    Route(RouteDirective),
}

// The settings that a decision reads.
#[derive(Clone, Copy)]
pub struct Policy {
    // Route records are kept, and frames are sent by them.
    pub is_concentrator: bool,
    // No route of the tables is used.
    pub force_route_discovery: bool,
    // A record of fewer relays than this is used.
    pub max_source_route: u8,
}

// What the record of a destination says of the way: nothing, straight to it, or by the relays in a row.
#[derive(Drop)]
pub enum RecordSays {
    Nothing,
    Direct,
    Row(usize),
}

// The way that is chosen: to a hop with the header as it came, or with a source route set in it: the relays of the record in a row, or the host's.
#[derive(Drop)]
pub enum Choice {
    Hop(Nwk),
    ByRecord(usize),
    ByHost,
    NeedDiscovery,
    Discard,
}

// A host route is applied; an empty source route is refused.
fn by_host_route(route: HostRoute, relays: usize) -> Result<Choice, Refusal>
    ensures { result ≡ host_choice relays route }
{
    match route {
        HostRoute::NextHop(next) => Ok(Choice::Hop(next)),
        HostRoute::SourceRoute => {
            if relays == 0 {
                Err(Refusal::EmptySourceRoute)
            } else {
                Ok(Choice::ByHost)
            }
        }
    }
}

// No way is known: the frame waits for discovery, or is given up where discovery is suppressed.
fn unknown_way(suppressed: bool) -> Result<Choice, Refusal>
    ensures { result ≡ undiscovered suppressed }
{
    if suppressed {
        Ok(Choice::Discard)
    } else {
        Ok(Choice::NeedDiscovery)
    }
}

// The hint.
fn by_hint(directive: RouteDirective, relays: usize, suppressed: bool) -> Result<Choice, Refusal>
    ensures { result ≡ hinted relays suppressed directive }
{
    match directive {
        RouteDirective::StackDecides => unknown_way(suppressed),
        RouteDirective::Hint(route) => by_host_route(route, relays),
        RouteDirective::Force(_) => unknown_way(suppressed),
    }
}

// What the look-up of the Active route found.
fn by_hop(
    found: Result<Option<Nwk>, Refusal>,
    directive: RouteDirective,
    relays: usize,
    suppressed: bool,
) -> Result<Choice, Refusal>
    ensures { result ≡ hopped relays suppressed directive found }
{
    match found {
        Ok(None) => by_hint(directive, relays, suppressed),
        Ok(Some(next)) => Ok(Choice::Hop(next)),
        Err(why) => Err(why),
    }
}

// The Active route, unless discovery is forced.
fn by_route(
    routes: &RoutesSeen,
    destination: Nwk,
    directive: RouteDirective,
    relays: usize,
    suppressed: bool,
    policy: Policy,
) -> Result<Choice, Refusal>
    ensures { result ≡ routed (seen_routes routes.now) destination policy relays suppressed directive }
{
    if policy.force_route_discovery {
        return by_hint(directive, relays, suppressed);
    }
    let found = route_calls::next_hop(routes, destination);
    by_hop(found, directive, relays, suppressed)
}

// What the record of a destination says to a concentrator that does not force discovery; to any other it says nothing.
fn record_says(records: &RecordsSeen, destination: Nwk, policy: Policy) -> RecordSays
    ensures { result ≡ record_says policy (seen_table records.now) destination }
{
    if !(policy.is_concentrator & !policy.force_route_discovery) {
        return RecordSays::Nothing;
    }
    let place = records.place_of(destination);
    let Ok(i) = place else {
        return RecordSays::Nothing;
    };
    let n = records.lengths[i];
    if n == 0 {
        return RecordSays::Direct;
    }
    if n < policy.max_source_route {
        return RecordSays::Row(i);
    }
    RecordSays::Nothing
}

// The record of the destination, and then the Active route.
fn by_tables(
    routes: &RoutesSeen,
    records: &RecordsSeen,
    destination: Nwk,
    directive: RouteDirective,
    relays: usize,
    suppressed: bool,
    policy: Policy,
) -> Result<Choice, Refusal>
    ensures { result ≡ tabled (seen_routes routes.now) (seen_table records.now) destination policy relays suppressed directive }
{
    let says = record_says(records, destination, policy);
    match says {
        RecordSays::Nothing => by_route(routes, destination, directive, relays, suppressed, policy),
        RecordSays::Direct => Ok(Choice::Hop(destination)),
        RecordSays::Row(i) => Ok(Choice::ByRecord(i)),
    }
}

// The way to a destination: straight in direct mode, by a forced host route, straight to an end device child, by the tables, by the host's hint.
// `relays` is how many relays the host names; `suppressed`, whether no route may be discovered.
pub fn choose(
    routes: &RoutesSeen,
    records: &RecordsSeen,
    nwks: &[u16],
    links: &[u64],
    neighbors: usize,
    destination: Nwk,
    policy: Policy,
    relays: usize,
    suppressed: bool,
    kind: SendKind,
) -> Result<Choice, Refusal>
    requires { InUse neighbors (nwks.now ∷ links.now ∷ []) }
    ensures { Asked (lent_words nwks.now links.now neighbors) (λ xs. result ≡ chosen (seen_routes routes.now) (seen_table records.now) xs destination policy relays suppressed kind) }
{
    let SendKind::Route(directive) = kind else {
        return Ok(Choice::Hop(destination));
    };
    if let RouteDirective::Force(route) = directive {
        return by_host_route(route, relays);
    }
    let child = Filter::EndDeviceChildAt(destination);
    if neighbor_queries_lent::any_fitting(nwks, links, neighbors, child) {
        return Ok(Choice::Hop(destination));
    }
    by_tables(
        routes,
        records,
        destination,
        directive,
        relays,
        suppressed,
        policy,
    )
}
