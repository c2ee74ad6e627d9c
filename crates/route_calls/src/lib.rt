// The calls that look at the route table alone, and the check of routes against discoveries, on columns that are lent.
#![tactic(auto)]

ghost use Rattle.std.specs.Prelude.{◌≡◌};
ghost use Rattle.standard.specs.declared.Status.TheVariants.{DiscoveryFailed};
ghost use Rattle.standard.specs.Calls.{change_route, restored, restore_route, sought, note_relayed, status_at, active_hop, hop_at, lacks_hop, is_faulty, first_fault};
ghost use Rattle.standard.specs.Ordered.{put};
ghost use Rattle.standard.specs.Route.{route_key, with_status, used, record_known};
ghost use Rattle.discovery_table.specs.Lent.{seen_discoveries};
ghost use Rattle.route_table.specs.Lent.{table, routes_of, value_routes, seen_routes, place_in, ValuesBecome};
ghost use Rattle.route_calls.specs.Answer.{step_to, Leaves, LeavesWithout, hop_answer, fault_of, checked_by};

use discovery_table::DiscoveriesSeen;
use route_table::{RouteValues, Routes, RoutesSeen};
use standard::{RouteEntry, Status};
use types::{Nwk, Refusal};

// The address that stands for a hop not known.
const UNKNOWN_HOP: u16 = 0xFFFF;

// What the check says: the first fault's kind and destination.
#[derive(Drop)]
pub enum Checked {
    Sound,
    UnknownHop(Nwk),
    Orphan(Nwk),
}

// The search for a destination found no way: its route, whatever its status, is DiscoveryFailed.
pub fn mark_discovery_failed(routes: &mut RouteValues, destination: Nwk)
    ensures { ValuesBecome routes.old routes.new (change_route destination.0 (with_status DiscoveryFailed) (value_routes routes.old)) }
{
    let Ok(i) = routes.seen().place_of(destination) else {
        return;
    };
    let e = routes.seen().entry_at(i);
    routes.set_at(i, route_entry::with_status(e, Status::DiscoveryFailed));
}

// A frame was forwarded along the route to a destination.
pub fn record_usage(routes: &mut RouteValues, destination: Nwk)
    ensures { ValuesBecome routes.old routes.new (change_route destination.0 used (value_routes routes.old)) }
{
    let Ok(i) = routes.seen().place_of(destination) else {
        return;
    };
    let e = routes.seen().entry_at(i);
    routes.set_at(i, route_entry::used(e));
}

// A source-routed frame of a concentrator shows that it holds our record.
pub fn note_source_routed_frame(routes: &mut RouteValues, concentrator: Nwk)
    ensures { ValuesBecome routes.old routes.new (change_route concentrator.0 record_known (value_routes routes.old)) }
{
    let Ok(i) = routes.seen().place_of(concentrator) else {
        return;
    };
    let e = routes.seen().entry_at(i);
    routes.set_at(i, route_entry::record_known(e));
}

// A route as a client hands it back on startup.
fn restored(destination: Nwk, next_hop: Nwk, cost: u8) -> RouteEntry
    ensures { result ≡ restored destination next_hop cost }
{
    let mut e = route_entry::new_route(destination, Status::Active, next_hop);
    e.path_cost = cost;
    e
}

// The route, with a search for it on its way, unless it is Active.
fn sought(e: RouteEntry) -> RouteEntry
    ensures { result ≡ sought e }
{
    let s = e.status;
    if route_entry::is_active(s) {
        return e;
    }
    route_entry::with_status(e, Status::DiscoveryUnderway)
}

// A route is stored at its place, unless it is new and no place is free.
fn store(routes: &mut Routes, place: Result<usize, usize>, e: RouteEntry) -> Result<(), Refusal>
    requires { place ≡ place_in (table routes.old) (route_key e) }
    ensures { Leaves routes.old routes.new result (step_to (routes_of routes.old) (put route_key e (routes_of routes.old))) }
{
    if !columns::has_room(place, routes.count, 64) {
        return Err(Refusal::RouteTableFull);
    }
    routes.put_at(place, e);
    Ok(())
}

// A client hands back a route; the whole entry is written anew.
pub fn restore_route(
    routes: &mut Routes,
    destination: Nwk,
    next_hop: Nwk,
    cost: u8,
) -> Result<(), Refusal>
    ensures { Leaves routes.old routes.new result (step_to (routes_of routes.old) (restore_route destination next_hop cost (routes_of routes.old))) }
{
    let place = routes.seen().place_of(destination);
    store(routes, place, restored(destination, next_hop, cost))
}

// A search of another's was relayed: the route to its destination is underway, unless it is Active.
pub fn note_relayed_discovery(routes: &mut Routes, destination: Nwk) -> Result<(), Refusal>
    ensures { Leaves routes.old routes.new result (step_to (routes_of routes.old) (note_relayed destination (routes_of routes.old))) }
{
    let place = routes.seen().place_of(destination);
    let e = search_tables::route_or(&routes.seen(), place, destination);
    store(routes, place, sought(e))
}

// How the route to a destination stands.
pub fn route_status(routes: &RoutesSeen, destination: Nwk) -> Option<Status>
    ensures { result ≡ status_at destination.0 (seen_routes routes.now) }
{
    let Some(e) = routes.find(destination) else {
        return None;
    };
    let s = e.status;
    Some(s)
}

// The hop of a route that was found.
fn hop_of(e: RouteEntry) -> Result<Option<Nwk>, Refusal>
    ensures { result ≡ hop_answer (active_hop (Some e)) }
{
    let s = e.status;
    if !route_entry::is_active(s) {
        return Ok(None);
    }
    let hop = e.next_hop_address;
    if hop.0 == UNKNOWN_HOP {
        return Err(Refusal::UnknownNextHop);
    }
    Ok(Some(hop))
}

// The next hop to a destination, by its Active route.
pub fn next_hop(routes: &RoutesSeen, destination: Nwk) -> Result<Option<Nwk>, Refusal>
    ensures { result ≡ hop_answer (hop_at destination.0 (seen_routes routes.now)) }
{
    let Some(e) = routes.find(destination) else {
        return Ok(None);
    };
    hop_of(e)
}

// The route to a destination is taken out, if there is one; whether there was.
pub fn remove_route(routes: &mut Routes, destination: Nwk) -> bool
    ensures { LeavesWithout routes.old routes.new result destination.0 }
{
    let n = routes.count;
    routes.remove(destination);
    routes.count < n
}

// Whether a route is Active by a hop that is not known.
fn lacks_hop(e: RouteEntry) -> bool
    ensures { result ≡ lacks_hop e }
{
    let s = e.status;
    route_entry::is_active(s) & (e.next_hop_address.0 == UNKNOWN_HOP)
}

// Whether the check finds fault with a route.
fn is_faulty(e: RouteEntry, discoveries: &DiscoveriesSeen) -> bool
    ensures { result ≡ is_faulty (seen_discoveries discoveries.now) e }
{
    if lacks_hop(e) {
        return true;
    }
    let s = e.status;
    if !route_entry::is_underway(s) {
        return false;
    }
    let destination = e.destination;
    !discoveries.names(destination)
}

// A faulty route's kind of fault, and its destination.
fn fault_of(e: RouteEntry) -> Checked
    ensures { result ≡ fault_of e }
{
    let destination = e.destination;
    if lacks_hop(e) {
        return Checked::UnknownHop(destination);
    }
    Checked::Orphan(destination)
}

// The first fault of the routes against the discoveries, in ascending order of destination.
pub fn check(routes: &RoutesSeen, discoveries: &DiscoveriesSeen) -> Checked
    ensures { result ≡ checked_by (first_fault (seen_discoveries discoveries.now) (seen_routes routes.now)) }
{
    for i in 0..routes.count {
        let e = routes.entry_at(i);
        if is_faulty(e, discoveries) {
            return fault_of(e);
        }
    }
    Checked::Sound
}
