// Expiry over both tables of searches: discoveries whose time is over go, and with them the routes that waited for them.
// What the tables would be after it is asked without making it, so that a call can be refused before it writes.
#![tactic(auto)]

ghost use Rattle.std.specs.Prelude.{not, ◌≡◌, leb};
ghost use Rattle.discovery_table.specs.Lent.{seen_discoveries};
ghost use Rattle.route_table.specs.Lent.{routes_of, Becomes};
ghost use Rattle.standard.specs.Discovery.{pair_key, discovery_key, live};
ghost use Rattle.standard.specs.Expiry.{stays, expired};
ghost use Rattle.standard.specs.Ordered.{lookup, count_with, keep};
ghost use Rattle.standard.specs.Query.{some_fits};
ghost use Rattle.standard.specs.Route.{route_key};
ghost use Rattle.search_tables.specs.Packed.{tables_of, Holds};
ghost use Rattle.search_tables.specs.Lent.{lent, rows_lent, seen, both, SameMemory};

use discovery_table::{Discoveries, DiscoveriesSeen};
use route_table::{Routes, RoutesSeen};
use standard::{DiscoveryEntry, RouteEntry};
use types::Nwk;

// Whether a route stays: it does not wait for a discovery, or for none that has gone, or one that is left names its destination too.
fn stays(e: RouteEntry, discoveries: &DiscoveriesSeen, now_ms: u64) -> bool
    ensures { let ds = seen_discoveries discoveries.now in
        result ≡ stays ds (keep (live now_ms) ds) e }
{
    let s = e.status;
    if !route_entry::is_underway(s) {
        return true;
    }
    let destination = e.destination;
    if !discoveries.names(destination) {
        return true;
    }
    discoveries.awaited(destination, now_ms)
}

// The routes that stay, in place, where the discoveries are as they were before expiry.
fn keep_pending(routes: &mut Routes, discoveries: &DiscoveriesSeen, now_ms: u64)
    ensures { Becomes routes.old routes.new (expired now_ms (both (routes_of routes.old) (seen_discoveries discoveries.now))).routes }
{
    let mut i: usize = 0;
    // `while`: a row that goes makes the rest shorter.
    while i < routes.count {
        let e = routes.seen().entry_at(i);
        if stays(e, discoveries, now_ms) {
            i += 1;
        } else {
            routes.remove_at(i);
        }
    }
}

// Both tables without what is over at `now_ms`, in place. Where no discovery has gone, the routes are not looked at.
pub fn expire(routes: &mut Routes, discoveries: &mut Discoveries, now_ms: u64)
    ensures memory { SameMemory routes.old routes.new discoveries.old discoveries.new }
    ensures left { Holds (lent routes.new discoveries.new) (expired now_ms (rows_lent routes.old discoveries.old)) }
{
    if !discoveries.seen().some_over(now_ms) {
        return;
    }
    let before = discoveries.seen();
    keep_pending(routes, &before, now_ms);
    discoveries.keep_live(now_ms);
}

// Whether expiry would take a route out.
fn frees_route(routes: &RoutesSeen, discoveries: &DiscoveriesSeen, now_ms: u64) -> bool
    ensures { let t = tables_of (seen routes.now discoveries.now) in
        result ≡ some_fits (λ e. not (stays t.discoveries (keep (live now_ms) t.discoveries) e)) t.routes }
{
    for i in 0..routes.count {
        let e = routes.entry_at(i);
        if !stays(e, discoveries, now_ms) {
            return true;
        }
    }
    false
}

// Whether there is room for a route to a destination once expiry is made: a free place, one that it has already, or one that expiry frees.
pub fn route_room(
    routes: &RoutesSeen,
    discoveries: &DiscoveriesSeen,
    destination: Nwk,
    now_ms: u64,
) -> bool
    ensures { result ≡ leb (count_with route_key destination.0 (expired now_ms (tables_of (seen routes.now discoveries.now))).routes) 64 }
{
    if routes.count < 64 {
        return true;
    }
    let Err(_) = routes.place_of(destination) else {
        return true;
    };
    frees_route(routes, discoveries, now_ms)
}

// Whether there is room for a discovery under a pair once expiry is made.
pub fn discovery_room(discoveries: &DiscoveriesSeen, source: Nwk, id: u8, now_ms: u64) -> bool
    ensures { result ≡ leb (count_with discovery_key (pair_key source id) (keep (live now_ms) (seen_discoveries discoveries.now))) 32 }
{
    if discoveries.count < 32 {
        return true;
    }
    let Err(_) = discoveries.place_of(source, id) else {
        return true;
    };
    discoveries.some_over(now_ms)
}

// The discovery under a pair that is left once expiry is made.
pub fn find_live(
    discoveries: &DiscoveriesSeen,
    source: Nwk,
    id: u8,
    now_ms: u64,
) -> Option<DiscoveryEntry>
    ensures { result ≡ lookup discovery_key (pair_key source id) (keep (live now_ms) (seen_discoveries discoveries.now)) }
{
    let Some(d) = discoveries.find(source, id) else {
        return None;
    };
    if d.expiration_time <= now_ms {
        return None;
    }
    Some(d)
}
