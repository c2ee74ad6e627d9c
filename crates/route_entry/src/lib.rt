// One route: what a candidate, a search, a use and a many-to-one request do to it.
#![tactic(auto)]

ghost use Rattle.std.specs.Prelude.{◌≡◌};
ghost use Rattle.standard.specs.Route.{is_active, is_underway, new_route, with_status, via, suits, considered, considering, news, used, record_known};
ghost use Rattle.standard.specs.Request.{concentrator, flagged};

use standard::{ManyToOne, RouteEntry, RouteUpdate, Status};
use types::Nwk;

pub fn is_active(s: Status) -> bool
    ensures { result ≡ is_active s }
{
    s == Status::Active
}

pub fn is_underway(s: Status) -> bool
    ensures { result ≡ is_underway s }
{
    s == Status::DiscoveryUnderway
}

// A route that is made new.
pub fn new_route(destination: Nwk, status: Status, next_hop: Nwk) -> RouteEntry
    ensures { result ≡ new_route destination status next_hop }
{
    RouteEntry {
        destination,
        status,
        no_route_cache: false,
        many_to_one: false,
        route_record_required: false,
        expired: false,
        next_hop_address: next_hop,
        path_cost: 255,
        total_usage_count: 0,
        recent_activity: 0,
    }
}

pub fn with_status(e: RouteEntry, status: Status) -> RouteEntry
    ensures { result ≡ with_status status e }
{
    let destination = e.destination;
    let next_hop_address = e.next_hop_address;
    RouteEntry {
        destination,
        status,
        no_route_cache: e.no_route_cache,
        many_to_one: e.many_to_one,
        route_record_required: e.route_record_required,
        expired: e.expired,
        next_hop_address,
        path_cost: e.path_cost,
        total_usage_count: e.total_usage_count,
        recent_activity: e.recent_activity,
    }
}

// The route, Active by a hop at a cost.
pub fn via(e: RouteEntry, next_hop: Nwk, cost: u8) -> RouteEntry
    ensures { result ≡ via next_hop cost e }
{
    let destination = e.destination;
    RouteEntry {
        destination,
        status: Status::Active,
        no_route_cache: e.no_route_cache,
        many_to_one: e.many_to_one,
        route_record_required: e.route_record_required,
        expired: e.expired,
        next_hop_address: next_hop,
        path_cost: cost,
        total_usage_count: e.total_usage_count,
        recent_activity: e.recent_activity,
    }
}

// Whether a candidate of this cost replaces the route.
fn suits(e: RouteEntry, cost: u8) -> bool
    ensures { result ≡ suits cost e }
{
    let s = e.status;
    !is_active(s) | (cost < e.path_cost)
}

// What writing a hop over the route reports: nothing where it is Active by that hop already.
pub fn news(e: RouteEntry, next_hop: Nwk, cost: u8) -> Option<RouteUpdate>
    ensures { result ≡ news next_hop cost e }
{
    let s = e.status;
    let destination = e.destination;
    if is_active(s) & (e.next_hop_address == next_hop) {
        return None;
    }
    Some(RouteUpdate {
        destination,
        next_hop,
        path_cost: cost,
    })
}

// The route after a candidate.
pub fn considered(e: RouteEntry, next_hop: Nwk, cost: u8) -> RouteEntry
    ensures { result ≡ considered next_hop cost e }
{
    if suits(e, cost) {
        return via(e, next_hop, cost);
    }
    e
}

// What a candidate reports.
pub fn considering(e: RouteEntry, next_hop: Nwk, cost: u8) -> Option<RouteUpdate>
    ensures { result ≡ considering next_hop cost e }
{
    if suits(e, cost) {
        return news(e, next_hop, cost);
    }
    None
}

// The route after a frame was forwarded along it.
pub fn used(e: RouteEntry) -> RouteEntry
    ensures { result ≡ used e }
{
    let mut u = e;
    u.total_usage_count = e.total_usage_count.saturating_add(1);
    u.recent_activity = e.recent_activity.saturating_add(1);
    u
}

// The route, of whose concentrator it is known that it holds our record.
pub fn record_known(e: RouteEntry) -> RouteEntry
    ensures { result ≡ record_known e }
{
    if e.no_route_cache {
        return e;
    }
    let mut u = e;
    u.route_record_required = false;
    u
}

// The flags of a concentrator's route.
fn concentrator(e: RouteEntry, no_route_cache: bool) -> RouteEntry
    ensures { result ≡ concentrator no_route_cache e }
{
    let mut u = e;
    u.no_route_cache = no_route_cache;
    u.many_to_one = true;
    u.route_record_required = true;
    u
}

// The route after a request with this many-to-one field.
pub fn flagged(e: RouteEntry, many_to_one: ManyToOne) -> RouteEntry
    ensures { result ≡ flagged many_to_one e }
{
    match many_to_one {
        ManyToOne::NotManyToOne => e,
        ManyToOne::SenderSupportsRouteRecordTable => concentrator(e, false),
        ManyToOne::SenderDoesntSupportRouteRecordTable => concentrator(e, true),
        ManyToOne::Reserved => concentrator(e, false),
    }
}
