// A route reply at the door for C.
ghost use Rattle.std.specs.Prelude.{◌≡◌};
ghost use Rattle.standard.specs.Route.{nwk};
ghost use Rattle.door.specs.Lent.{lent, Says};
ghost use Rattle.door_search.specs.Reply.{disposition_places, reply_at, reply_numbers, ReplyMade};

use crate::DispositionPlaces;
use discovery_table::DiscoveryValues;
use route_table::Routes;
use standard::{RouteReplyDisposition, RouteUpdate};
use types::{Nwk, Refusal};

// What is to be done with a reply, as the numbers of its places.
fn disposition_places(d: RouteReplyDisposition) -> DispositionPlaces
    ensures { result ≡ disposition_places d }
{
    match d {
        RouteReplyDisposition::Drop => DispositionPlaces {
            disposition: 0,
            next_hop: 0,
            path_cost: 0,
        },
        RouteReplyDisposition::Established => DispositionPlaces {
            disposition: 1,
            next_hop: 0,
            path_cost: 0,
        },
        RouteReplyDisposition::Relay {
            next_hop,
            path_cost,
        } => DispositionPlaces {
            disposition: 2,
            next_hop: next_hop.0,
            path_cost,
        },
    }
}

// The numbers of a reply's answer.
fn say_reply(
    answer: Result<(RouteReplyDisposition, Option<RouteUpdate>), Refusal>,
    disposition: &mut u8,
    next_hop: &mut u16,
    path_cost: &mut u8,
    changed: &mut u8,
    changed_destination: &mut u16,
    changed_next_hop: &mut u16,
    changed_path_cost: &mut u8,
) -> u8
    ensures { Says reply_numbers answer
        (reply_at disposition.old next_hop.old path_cost.old changed.old changed_destination.old changed_next_hop.old changed_path_cost.old)
        (reply_at disposition.new next_hop.new path_cost.new changed.new changed_destination.new changed_next_hop.new changed_path_cost.new)
        result }
{
    match answer {
        Err(why) => why.number(),
        Ok((d, u)) => {
            let x = disposition_places(d);
            let y = door::update_places(u);
            *disposition = x.disposition;
            *next_hop = x.next_hop;
            *path_cost = x.path_cost;
            *changed = y.changed;
            *changed_destination = y.destination;
            *changed_next_hop = y.next_hop;
            *changed_path_cost = y.path_cost;
            0
        }
    }
}

// A route reply heard from `sender`: dropped, established for our own search, or to be relayed.
#[unsafe(no_mangle)]
pub extern "C" fn warpteasel_raw_accept_route_reply(
    route_keys: &mut [u16],
    route_words: &mut [u64],
    route_usage: &mut [u32],
    routes: &mut usize,
    discovery_keys: &[u32],
    discovery_words: &mut [u64],
    discovery_ends: &mut [u64],
    discoveries: usize,
    record_keys: &[u16],
    record_lengths: &[u8],
    records: usize,
    own: u16,
    originator: u16,
    request_id: u8,
    responder: u16,
    sender: u16,
    updated_path_cost: u8,
    disposition: &mut u8,
    next_hop: &mut u16,
    path_cost: &mut u8,
    changed: &mut u8,
    changed_destination: &mut u16,
    changed_next_hop: &mut u16,
    changed_path_cost: &mut u8,
) -> u8
    ensures { ReplyMade
        (lent route_keys.old route_words.old route_usage.old routes.old discovery_keys.now discovery_words.old discovery_ends.old discoveries record_keys.now record_lengths.now records)
        (lent route_keys.new route_words.new route_usage.new routes.new discovery_keys.now discovery_words.new discovery_ends.new discoveries record_keys.now record_lengths.now records)
        (nwk own) (nwk originator) request_id (nwk responder) (nwk sender) updated_path_cost
        (reply_at disposition.old next_hop.old path_cost.old changed.old changed_destination.old changed_next_hop.old changed_path_cost.old)
        (reply_at disposition.new next_hop.new path_cost.new changed.new changed_destination.new changed_next_hop.new changed_path_cost.new)
        result }
{
    let n = *routes;
    if !door::columns_formed(
        route_keys,
        route_words,
        route_usage,
        n,
        discovery_keys,
        discovery_words,
        discovery_ends,
        discoveries,
        record_keys,
        record_lengths,
        records,
    ) {
        return 10;
    }
    let mut held = Routes {
        keys: route_keys,
        words: route_words,
        usage: route_usage,
        count: n,
    };
    let mut open = DiscoveryValues {
        keys: discovery_keys,
        words: discovery_words,
        ends: discovery_ends,
        count: discoveries,
    };
    let answer = route_reply::reply(
        &mut held,
        &mut open,
        Nwk(own),
        Nwk(originator),
        request_id,
        Nwk(responder),
        Nwk(sender),
        updated_path_cost,
    );
    *routes = held.count;
    say_reply(
        answer,
        disposition,
        next_hop,
        path_cost,
        changed,
        changed_destination,
        changed_next_hop,
        changed_path_cost,
    )
}
