// A route reply against the tables of route search that are lent: what it changes is changed in place.
#![tactic(auto)]

ghost use Rattle.std.specs.Prelude.{◌≡◌};
ghost use Rattle.standard.specs.Reply.{written, reply_ours, reply_theirs, reply};
ghost use Rattle.route_table.specs.Lent.{SameKeys};
ghost use Rattle.search_tables.specs.Packed.{tables_of, Holds};
ghost use Rattle.search_tables.specs.Lent.{lent_values, SameValues};
ghost use Rattle.route_reply.specs.Answer.{answered, Leaves, Held};

use discovery_table::DiscoveryValues;
use route_table::Routes;
use standard::{DiscoveryEntry, RouteEntry, RouteReplyDisposition, RouteUpdate};
use types::{Nwk, Refusal};

// The responder's route in place j, Active by the sender, and the residual of the discovery in place i.
fn write_reply(
    routes: &mut Routes,
    discoveries: &mut DiscoveryValues,
    i: usize,
    d: DiscoveryEntry,
    j: usize,
    e: RouteEntry,
    sender: Nwk,
    cost: u8,
)
    requires { Held (lent_values routes.old discoveries.old) i d j e }
    ensures memory { SameValues routes.old routes.new discoveries.old discoveries.new }
    ensures kept { SameKeys routes.old routes.new }
    ensures left { Holds (lent_values routes.new discoveries.new) (written sender cost d e (tables_of (lent_values routes.old discoveries.old))) }
{
    let e2 = route_entry::via(e, sender, cost);
    let d2 = discovery_entry::settled(d, cost);
    routes.set_at(j, e2);
    discoveries.set_at(i, d2);
}

// A reply to our own search.
fn reply_ours(
    routes: &mut Routes,
    discoveries: &mut DiscoveryValues,
    i: usize,
    d: DiscoveryEntry,
    j: usize,
    e: RouteEntry,
    sender: Nwk,
    cost: u8,
) -> Result<(RouteReplyDisposition, Option<RouteUpdate>), Refusal>
    requires { Held (lent_values routes.old discoveries.old) i d j e }
    ensures memory { SameValues routes.old routes.new discoveries.old discoveries.new }
    ensures left { let t = tables_of (lent_values routes.old discoveries.old) in
        Leaves (lent_values routes.new discoveries.new) result (answered t (reply_ours sender cost d e t)) }
{
    let status = e.status;
    if route_entry::is_active(status) & (d.residual_cost <= cost) {
        return Ok((RouteReplyDisposition::Drop, None));
    }
    write_reply(routes, discoveries, i, d, j, e, sender, cost);
    Ok((
        RouteReplyDisposition::Established,
        route_entry::news(e, sender, cost),
    ))
}

// A reply to another node's search: it is handed on, and the originator's route, made if absent, considers the way that the request came.
fn reply_theirs(
    routes: &mut Routes,
    discoveries: &mut DiscoveryValues,
    i: usize,
    d: DiscoveryEntry,
    j: usize,
    e: RouteEntry,
    originator: Nwk,
    sender: Nwk,
    cost: u8,
) -> Result<(RouteReplyDisposition, Option<RouteUpdate>), Refusal>
    requires { Held (lent_values routes.old discoveries.old) i d j e }
    ensures memory { SameValues routes.old routes.new discoveries.old discoveries.new }
    ensures left { let t = tables_of (lent_values routes.old discoveries.old) in
        Leaves (lent_values routes.new discoveries.new) result (answered t (reply_theirs originator sender cost d e t)) }
{
    if d.residual_cost <= cost {
        return Ok((RouteReplyDisposition::Drop, None));
    }
    let back = routes.seen().place_of(originator);
    if !columns::has_room(back, routes.count, 64) {
        return Err(Refusal::RouteTableFull);
    }
    write_reply(routes, discoveries, i, d, j, e, sender, cost);
    let hop = d.sender_address;
    let o = search_tables::route_or(&routes.seen(), back, originator);
    let o2 = route_entry::considered(o, hop, d.forward_cost);
    routes.put_at(back, o2);
    Ok((
        RouteReplyDisposition::Relay {
            next_hop: hop,
            path_cost: cost,
        },
        route_entry::considering(o, hop, d.forward_cost),
    ))
}

// A reply to the search (originator, id) that names its responder: without the pair or a route to the responder it is dropped.
pub fn reply(
    routes: &mut Routes,
    discoveries: &mut DiscoveryValues,
    own: Nwk,
    originator: Nwk,
    id: u8,
    responder: Nwk,
    sender: Nwk,
    cost: u8,
) -> Result<(RouteReplyDisposition, Option<RouteUpdate>), Refusal>
    ensures memory { SameValues routes.old routes.new discoveries.old discoveries.new }
    ensures left { let t = tables_of (lent_values routes.old discoveries.old) in
        Leaves (lent_values routes.new discoveries.new) result (answered t (reply own originator id responder sender cost t)) }
{
    let Ok(i) = discoveries.seen().place_of(originator, id) else {
        return Ok((RouteReplyDisposition::Drop, None));
    };
    let Ok(j) = routes.seen().place_of(responder) else {
        return Ok((RouteReplyDisposition::Drop, None));
    };
    let d = discoveries.seen().entry_at(i);
    let e = routes.seen().entry_at(j);
    if originator == own {
        return reply_ours(routes, discoveries, i, d, j, e, sender, cost);
    }
    reply_theirs(routes, discoveries, i, d, j, e, originator, sender, cost)
}
