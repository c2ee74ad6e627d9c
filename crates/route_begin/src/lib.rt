// A search of our own, and a many-to-one advertisement, on the tables of route search that are lent: refused before anything is written, or else they change them in place.
#![tactic(auto)]

ghost use Rattle.std.specs.Prelude.{◌≡◌, ◌≤◌};
ghost use Rattle.types.specs.Clock.{time_sum};
ghost use Rattle.standard.specs.Expiry.{expired};
ghost use Rattle.standard.specs.Ordered.{put, count_with};
ghost use Rattle.standard.specs.Discovery.{pair_key, discovery_key};
ghost use Rattle.standard.specs.Route.{route_key};
ghost use Rattle.route_table.specs.Lent as route;
ghost use Rattle.discovery_table.specs.Lent as discovery;
ghost use Rattle.search_tables.specs.Packed.{InKey};
ghost use Rattle.search_tables.specs.Lent.{lent, rows_lent, SameMemory};
ghost use Rattle.route_begin.specs.Answer.{begun_with, by_time, begun, advertised, Leaves};
ghost use Rattle.route_begin.specs.Marked.{marked_routes, marked, noted, began_new};

use discovery_table::Discoveries;
use route_table::Routes;
use standard::{DiscoveryEntry, Status};
use types::{Nwk, Refusal};

// The route to the destination becomes DiscoveryUnderway, on a table that has room for it.
fn mark(routes: &mut Routes, destination: Nwk)
    requires { count_with route_key destination.0 (route.routes_of routes.old) ≤ 64 }
    ensures { route.Becomes routes.old routes.new (marked_routes destination (route.routes_of routes.old)) }
{
    let place = routes.seen().place_of(destination);
    let e = search_tables::route_or(&routes.seen(), place, destination);
    routes.put_at(
        place,
        route_entry::with_status(e, Status::DiscoveryUnderway),
    );
}

// A discovery of our own is stored, on a table that has room for it.
fn note(discoveries: &mut Discoveries, d: DiscoveryEntry, own: Nwk, id: u8)
    requires { InKey d own id × (count_with discovery_key (pair_key own id) (discovery.discoveries_of discoveries.old) ≤ 32) }
    ensures { discovery.Becomes discoveries.old discoveries.new (put discovery_key d (discovery.discoveries_of discoveries.old)) }
{
    let pair = discoveries.seen().place_of(own, id);
    discoveries.put_at(pair, d);
}

// A search whose id is used by a live entry, which is kept as it is.
fn begin_known(
    routes: &mut Routes,
    discoveries: &mut Discoveries,
    id: u8,
    destination: Nwk,
    now_ms: u64,
) -> Result<u8, Refusal>
    ensures memory { SameMemory routes.old routes.new discoveries.old discoveries.new }
    ensures left { let t = rows_lent routes.old discoveries.old in
        Leaves (lent routes.new discoveries.new) result (begun_with t id (marked destination (expired now_ms t))) }
{
    if !expiry::route_room(&routes.seen(), &discoveries.seen(), destination, now_ms) {
        return Err(Refusal::RouteTableFull);
    }
    expiry::expire(routes, discoveries, now_ms);
    mark(routes, destination);
    Ok(id)
}

// A search whose id is free: its discovery is d.
fn begin_with(
    routes: &mut Routes,
    discoveries: &mut Discoveries,
    d: DiscoveryEntry,
    own: Nwk,
    id: u8,
    destination: Nwk,
    now_ms: u64,
) -> Result<u8, Refusal>
    requires { InKey d own id }
    ensures memory { SameMemory routes.old routes.new discoveries.old discoveries.new }
    ensures left { let t = rows_lent routes.old discoveries.old in
        Leaves (lent routes.new discoveries.new) result (begun_with t id (noted d (marked destination (expired now_ms t)))) }
{
    if !expiry::route_room(&routes.seen(), &discoveries.seen(), destination, now_ms) {
        return Err(Refusal::RouteTableFull);
    }
    if !expiry::discovery_room(&discoveries.seen(), own, id, now_ms) {
        return Err(Refusal::DiscoveryTableFull);
    }
    expiry::expire(routes, discoveries, now_ms);
    mark(routes, destination);
    note(discoveries, d, own, id);
    Ok(id)
}

// A search whose id is free: its discovery expires `span` after `now_ms`.
fn begin_new(
    routes: &mut Routes,
    discoveries: &mut Discoveries,
    own: Nwk,
    id: u8,
    destination: Nwk,
    now_ms: u64,
    span: u64,
) -> Result<u8, Refusal>
    ensures memory { SameMemory routes.old routes.new discoveries.old discoveries.new }
    ensures left { let t = rows_lent routes.old discoveries.old in
        Leaves (lent routes.new discoveries.new) result (by_time t (time_sum now_ms span) id (began_new own id destination (expired now_ms t))) }
{
    let sum = types::time_sum(now_ms, span);
    match sum {
        Some(expires) => {
            let d = discovery_entry::own_discovery(own, id, expires, destination);
            begin_with(routes, discoveries, d, own, id, destination, now_ms)
        }
        None => Err(Refusal::TimePastEnd),
    }
}

// A search of our own for a destination, under a request id. A live entry under own address and id is kept as it is.
pub fn begin(
    routes: &mut Routes,
    discoveries: &mut Discoveries,
    own: Nwk,
    id: u8,
    destination: Nwk,
    now_ms: u64,
    span: u64,
) -> Result<u8, Refusal>
    ensures memory { SameMemory routes.old routes.new discoveries.old discoveries.new }
    ensures left { let t = rows_lent routes.old discoveries.old in
        Leaves (lent routes.new discoveries.new) result (begun t own id destination now_ms span) }
{
    let found = expiry::find_live(&discoveries.seen(), own, id, now_ms);
    match found {
        Some(_) => begin_known(routes, discoveries, id, destination, now_ms),
        None => begin_new(routes, discoveries, own, id, destination, now_ms, span),
    }
}

// An advertisement whose discovery is d.
fn advertise_with(
    routes: &mut Routes,
    discoveries: &mut Discoveries,
    d: DiscoveryEntry,
    own: Nwk,
    id: u8,
    now_ms: u64,
) -> Result<u8, Refusal>
    requires { InKey d own id }
    ensures memory { SameMemory routes.old routes.new discoveries.old discoveries.new }
    ensures left { let t = rows_lent routes.old discoveries.old in
        Leaves (lent routes.new discoveries.new) result (begun_with t id (noted d (expired now_ms t))) }
{
    if !expiry::discovery_room(&discoveries.seen(), own, id, now_ms) {
        return Err(Refusal::DiscoveryTableFull);
    }
    expiry::expire(routes, discoveries, now_ms);
    note(discoveries, d, own, id);
    Ok(id)
}

// A many-to-one advertisement under a request id: no route, and the entry under the id is overwritten.
pub fn advertise(
    routes: &mut Routes,
    discoveries: &mut Discoveries,
    own: Nwk,
    id: u8,
    now_ms: u64,
    span: u64,
) -> Result<u8, Refusal>
    ensures memory { SameMemory routes.old routes.new discoveries.old discoveries.new }
    ensures left { let t = rows_lent routes.old discoveries.old in
        Leaves (lent routes.new discoveries.new) result (advertised t own id now_ms span) }
{
    let sum = types::time_sum(now_ms, span);
    match sum {
        Some(expires) => {
            let d = discovery_entry::own_discovery(own, id, expires, Nwk(0xFFFC));
            advertise_with(routes, discoveries, d, own, id, now_ms)
        }
        None => Err(Refusal::TimePastEnd),
    }
}
