// The rows of a state, place by place, at the door for C.
#![tactic(auto)]

ghost use Rattle.std.specs.Prelude.{◌≡◌};
ghost use Rattle.routing.specs.declared.Routing.{Routing};
ghost use Rattle.routing.specs.Queries.{route_at, discovery_at};
ghost use Rattle.door.specs.Lent.{lent, Asked};
ghost use Rattle.door_rows.specs.Rows.{route_at_places, route_places, route_numbers, discovery_at_places, discovery_places, discovery_numbers};

use discovery_table::DiscoveriesSeen;
use route_table::RoutesSeen;
use standard::{DiscoveryEntry, RouteEntry};

// The places of a route: whether there is one, and its fields; a yes or a no is 1 or 0.
// A flag or a number beside the values, and no Option or enum, since C reads these places.
#[derive(Drop)]
pub struct RoutePlaces {
    pub found: u8,
    pub destination: u16,
    pub status: u8,
    pub no_route_cache: u8,
    pub many_to_one: u8,
    pub route_record_required: u8,
    pub expired: u8,
    pub next_hop: u16,
    pub path_cost: u8,
    pub total_usage_count: u32,
    pub recent_activity: u8,
}

// The places of a discovery: whether there is one, and its fields.
// A flag or a number beside the values, and no Option or enum, since C reads these places.
#[derive(Drop)]
pub struct DiscoveryPlaces {
    pub found: u8,
    pub source_address: u16,
    pub route_request_id: u8,
    pub sender_address: u16,
    pub forward_cost: u8,
    pub residual_cost: u8,
    pub expiration_time: u64,
    pub destination_address: u16,
}

// A route, as the numbers of its places.
fn route_places(x: Option<RouteEntry>) -> RoutePlaces
    ensures { result ≡ route_places x }
{
    match x {
        None => RoutePlaces {
            found: 0,
            destination: 0,
            status: 0,
            no_route_cache: 0,
            many_to_one: 0,
            route_record_required: 0,
            expired: 0,
            next_hop: 0,
            path_cost: 0,
            total_usage_count: 0,
            recent_activity: 0,
        },
        Some(e) => {
            let s = e.status;
            RoutePlaces {
                found: 1,
                destination: e.destination.0,
                status: door::status_number(s),
                no_route_cache: door::flag(e.no_route_cache),
                many_to_one: door::flag(e.many_to_one),
                route_record_required: door::flag(e.route_record_required),
                expired: door::flag(e.expired),
                next_hop: e.next_hop_address.0,
                path_cost: e.path_cost,
                total_usage_count: e.total_usage_count,
                recent_activity: e.recent_activity,
            }
        }
    }
}

// A discovery, as the numbers of its places.
fn discovery_places(x: Option<DiscoveryEntry>) -> DiscoveryPlaces
    ensures { result ≡ discovery_places x }
{
    match x {
        None => DiscoveryPlaces {
            found: 0,
            source_address: 0,
            route_request_id: 0,
            sender_address: 0,
            forward_cost: 0,
            residual_cost: 0,
            expiration_time: 0,
            destination_address: 0,
        },
        Some(e) => DiscoveryPlaces {
            found: 1,
            source_address: e.source_address.0,
            route_request_id: e.route_request_id,
            sender_address: e.sender_address.0,
            forward_cost: e.forward_cost,
            residual_cost: e.residual_cost,
            expiration_time: e.expiration_time,
            destination_address: e.destination_address.0,
        },
    }
}

// The route at a place in ascending order, and nothing from the count on.
#[unsafe(no_mangle)]
pub extern "C" fn warpteasel_raw_route_at(
    route_keys: &[u16],
    route_words: &[u64],
    route_usage: &[u32],
    routes: usize,
    discovery_keys: &[u32],
    discovery_words: &[u64],
    discovery_ends: &[u64],
    discoveries: usize,
    record_keys: &[u16],
    record_lengths: &[u8],
    records: usize,
    place: usize,
    found: &mut u8,
    destination: &mut u16,
    status: &mut u8,
    no_route_cache: &mut u8,
    many_to_one: &mut u8,
    route_record_required: &mut u8,
    expired: &mut u8,
    next_hop: &mut u16,
    path_cost: &mut u8,
    total_usage_count: &mut u32,
    recent_activity: &mut u8,
) -> u8
    ensures { Asked route_numbers (λ (s : Routing). route_at s place)
        (lent route_keys.now route_words.now route_usage.now routes discovery_keys.now discovery_words.now discovery_ends.now discoveries record_keys.now record_lengths.now records)
        (route_at_places found.old destination.old status.old no_route_cache.old many_to_one.old route_record_required.old expired.old next_hop.old path_cost.old total_usage_count.old recent_activity.old)
        (route_at_places found.new destination.new status.new no_route_cache.new many_to_one.new route_record_required.new expired.new next_hop.new path_cost.new total_usage_count.new recent_activity.new)
        result }
{
    if !door::columns_formed(
        route_keys,
        route_words,
        route_usage,
        routes,
        discovery_keys,
        discovery_words,
        discovery_ends,
        discoveries,
        record_keys,
        record_lengths,
        records,
    ) {
        return 10;
    }
    let held = RoutesSeen {
        keys: route_keys,
        words: route_words,
        usage: route_usage,
        count: routes,
    };
    let x = held.at(place);
    let y = route_places(x);
    *found = y.found;
    *destination = y.destination;
    *status = y.status;
    *no_route_cache = y.no_route_cache;
    *many_to_one = y.many_to_one;
    *route_record_required = y.route_record_required;
    *expired = y.expired;
    *next_hop = y.next_hop;
    *path_cost = y.path_cost;
    *total_usage_count = y.total_usage_count;
    *recent_activity = y.recent_activity;
    0
}

// The discovery at a place in ascending order, and nothing from the count on.
#[unsafe(no_mangle)]
pub extern "C" fn warpteasel_raw_discovery_at(
    route_keys: &[u16],
    route_words: &[u64],
    route_usage: &[u32],
    routes: usize,
    discovery_keys: &[u32],
    discovery_words: &[u64],
    discovery_ends: &[u64],
    discoveries: usize,
    record_keys: &[u16],
    record_lengths: &[u8],
    records: usize,
    place: usize,
    found: &mut u8,
    source_address: &mut u16,
    route_request_id: &mut u8,
    sender_address: &mut u16,
    forward_cost: &mut u8,
    residual_cost: &mut u8,
    expiration_time: &mut u64,
    destination_address: &mut u16,
) -> u8
    ensures { Asked discovery_numbers (λ (s : Routing). discovery_at s place)
        (lent route_keys.now route_words.now route_usage.now routes discovery_keys.now discovery_words.now discovery_ends.now discoveries record_keys.now record_lengths.now records)
        (discovery_at_places found.old source_address.old route_request_id.old sender_address.old forward_cost.old residual_cost.old expiration_time.old destination_address.old)
        (discovery_at_places found.new source_address.new route_request_id.new sender_address.new forward_cost.new residual_cost.new expiration_time.new destination_address.new)
        result }
{
    if !door::columns_formed(
        route_keys,
        route_words,
        route_usage,
        routes,
        discovery_keys,
        discovery_words,
        discovery_ends,
        discoveries,
        record_keys,
        record_lengths,
        records,
    ) {
        return 10;
    }
    let open = DiscoveriesSeen {
        keys: discovery_keys,
        words: discovery_words,
        ends: discovery_ends,
        count: discoveries,
    };
    let x = open.at(place);
    let y = discovery_places(x);
    *found = y.found;
    *source_address = y.source_address;
    *route_request_id = y.route_request_id;
    *sender_address = y.sender_address;
    *forward_cost = y.forward_cost;
    *residual_cost = y.residual_cost;
    *expiration_time = y.expiration_time;
    *destination_address = y.destination_address;
    0
}
