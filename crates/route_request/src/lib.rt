// A route request against the tables of route search that are lent: it is refused before anything is written, or else changes them in place.
#![tactic(auto)]

ghost use Rattle.std.specs.Prelude.{◌≡◌};
ghost use Rattle.types.specs.Clock.{time_sum};
ghost use Rattle.standard.specs.Expiry.{expired};
ghost use Rattle.standard.specs.Request.{accepting, request_to};
ghost use Rattle.search_tables.specs.Packed.{InKey};
ghost use Rattle.search_tables.specs.Lent.{lent, rows_lent, SameMemory};
ghost use Rattle.route_request.specs.Answer.{answered, by_time, requested, Leaves, Room};

use discovery_table::Discoveries;
use route_table::Routes;
use standard::{DiscoveryEntry, ManyToOne, RouteUpdate};
use types::{Nwk, Refusal};

// The discovery is stored, then the originator's route considers the sender: on tables whose expiry is done and that have room.
fn store(
    routes: &mut Routes,
    discoveries: &mut Discoveries,
    d: DiscoveryEntry,
    originator: Nwk,
    id: u8,
    sender: Nwk,
    cost: u8,
    many_to_one: ManyToOne,
) -> Result<(bool, Option<RouteUpdate>), Refusal>
    requires { InKey d originator id × Room originator id (rows_lent routes.old discoveries.old) }
    ensures memory { SameMemory routes.old routes.new discoveries.old discoveries.new }
    ensures left { let t = rows_lent routes.old discoveries.old in
        Leaves (lent routes.new discoveries.new) result (answered t (accepting originator sender cost many_to_one d t)) }
{
    let place = routes.seen().place_of(originator);
    let e = search_tables::route_or(&routes.seen(), place, originator);
    let f = route_entry::flagged(route_entry::considered(e, sender, cost), many_to_one);
    routes.put_at(place, f);
    let pair = discoveries.seen().place_of(originator, id);
    discoveries.put_at(pair, d);
    Ok((true, route_entry::considering(e, sender, cost)))
}

// A request that is as good as what is known, or new: refused where there is no room once expiry is made, else accepted.
fn accept(
    routes: &mut Routes,
    discoveries: &mut Discoveries,
    d: DiscoveryEntry,
    originator: Nwk,
    id: u8,
    sender: Nwk,
    cost: u8,
    many_to_one: ManyToOne,
    now_ms: u64,
) -> Result<(bool, Option<RouteUpdate>), Refusal>
    requires { InKey d originator id }
    ensures memory { SameMemory routes.old routes.new discoveries.old discoveries.new }
    ensures left { let t = rows_lent routes.old discoveries.old in
        Leaves (lent routes.new discoveries.new) result (answered t (accepting originator sender cost many_to_one d (expired now_ms t))) }
{
    if !expiry::route_room(&routes.seen(), &discoveries.seen(), originator, now_ms) {
        return Err(Refusal::RouteTableFull);
    }
    if !expiry::discovery_room(&discoveries.seen(), originator, id, now_ms) {
        return Err(Refusal::DiscoveryTableFull);
    }
    expiry::expire(routes, discoveries, now_ms);
    store(
        routes,
        discoveries,
        d,
        originator,
        id,
        sender,
        cost,
        many_to_one,
    )
}

// A pair that is known: a dearer request is not accepted, and nothing but the expiry happens.
fn request_known(
    routes: &mut Routes,
    discoveries: &mut Discoveries,
    d: DiscoveryEntry,
    originator: Nwk,
    id: u8,
    destination: Nwk,
    sender: Nwk,
    cost: u8,
    many_to_one: ManyToOne,
    now_ms: u64,
) -> Result<(bool, Option<RouteUpdate>), Refusal>
    requires { InKey d originator id }
    ensures memory { SameMemory routes.old routes.new discoveries.old discoveries.new }
    ensures left { let t = rows_lent routes.old discoveries.old in
        Leaves (lent routes.new discoveries.new) result (answered t (request_to originator id destination sender cost many_to_one 0 (expired now_ms t) (Some d))) }
{
    if d.forward_cost < cost {
        expiry::expire(routes, discoveries, now_ms);
        return Ok((false, None));
    }
    let better = discovery_entry::reached(d, sender, cost);
    accept(
        routes,
        discoveries,
        better,
        originator,
        id,
        sender,
        cost,
        many_to_one,
        now_ms,
    )
}

// A pair that is new: its discovery expires `span` after `now_ms`.
fn request_new(
    routes: &mut Routes,
    discoveries: &mut Discoveries,
    originator: Nwk,
    id: u8,
    destination: Nwk,
    sender: Nwk,
    cost: u8,
    many_to_one: ManyToOne,
    now_ms: u64,
    span: u64,
) -> Result<(bool, Option<RouteUpdate>), Refusal>
    ensures memory { SameMemory routes.old routes.new discoveries.old discoveries.new }
    ensures left { let t = rows_lent routes.old discoveries.old in
        Leaves (lent routes.new discoveries.new) result (by_time t (time_sum now_ms span) (λ expires. request_to originator id destination sender cost many_to_one expires (expired now_ms t) None)) }
{
    let sum = types::time_sum(now_ms, span);
    match sum {
        Some(expires) => {
            let d = discovery_entry::new_discovery(
                originator,
                id,
                sender,
                cost,
                expires,
                destination,
            );
            accept(
                routes,
                discoveries,
                d,
                originator,
                id,
                sender,
                cost,
                many_to_one,
                now_ms,
            )
        }
        None => Err(Refusal::TimePastEnd),
    }
}

// A request of the search (originator, id) for a destination, heard from a sender at a cost.
pub fn request(
    routes: &mut Routes,
    discoveries: &mut Discoveries,
    originator: Nwk,
    id: u8,
    destination: Nwk,
    sender: Nwk,
    cost: u8,
    many_to_one: ManyToOne,
    now_ms: u64,
    span: u64,
) -> Result<(bool, Option<RouteUpdate>), Refusal>
    ensures memory { SameMemory routes.old routes.new discoveries.old discoveries.new }
    ensures left { let t = rows_lent routes.old discoveries.old in
        Leaves (lent routes.new discoveries.new) result (requested t originator id destination sender cost many_to_one now_ms span) }
{
    let found = expiry::find_live(&discoveries.seen(), originator, id, now_ms);
    match found {
        Some(d) => {
            request_known(
                routes,
                discoveries,
                d,
                originator,
                id,
                destination,
                sender,
                cost,
                many_to_one,
                now_ms,
            )
        }
        None => {
            request_new(
                routes,
                discoveries,
                originator,
                id,
                destination,
                sender,
                cost,
                many_to_one,
                now_ms,
                span,
            )
        }
    }
}
