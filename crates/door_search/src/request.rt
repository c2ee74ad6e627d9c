// A route request at the door for C.
ghost use Rattle.standard.specs.Route.{nwk};
ghost use Rattle.door.specs.Lent.{lent, Says};
ghost use Rattle.door_search.specs.Request.{request_at, request_numbers, RequestMade};

use discovery_table::Discoveries;
use route_table::Routes;
use standard::RouteUpdate;
use types::{Nwk, Refusal};

// The numbers of a request's answer.
fn say_request(
    answer: Result<(bool, Option<RouteUpdate>), Refusal>,
    accepted: &mut u8,
    changed: &mut u8,
    changed_destination: &mut u16,
    changed_next_hop: &mut u16,
    changed_path_cost: &mut u8,
) -> u8
    ensures { Says request_numbers answer
        (request_at accepted.old changed.old changed_destination.old changed_next_hop.old changed_path_cost.old)
        (request_at accepted.new changed.new changed_destination.new changed_next_hop.new changed_path_cost.new)
        result }
{
    match answer {
        Err(why) => why.number(),
        Ok((yes, u)) => {
            let y = door::update_places(u);
            *accepted = door::flag(yes);
            *changed = y.changed;
            *changed_destination = y.destination;
            *changed_next_hop = y.next_hop;
            *changed_path_cost = y.path_cost;
            0
        }
    }
}

// A route request heard from `sender`: whether it is accepted, and what it did to the originator's route. The many-to-one field is its number,
// 3 the reserved value; the field has two bits, and a larger number is no call.
#[unsafe(no_mangle)]
pub extern "C" fn warpteasel_raw_accept_route_request(
    route_keys: &mut [u16],
    route_words: &mut [u64],
    route_usage: &mut [u32],
    routes: &mut usize,
    discovery_keys: &mut [u32],
    discovery_words: &mut [u64],
    discovery_ends: &mut [u64],
    discoveries: &mut usize,
    record_keys: &[u16],
    record_lengths: &[u8],
    records: usize,
    originator: u16,
    request_id: u8,
    destination: u16,
    sender: u16,
    updated_path_cost: u8,
    many_to_one: u8,
    now_ms: u64,
    route_discovery_time: u64,
    accepted: &mut u8,
    changed: &mut u8,
    changed_destination: &mut u16,
    changed_next_hop: &mut u16,
    changed_path_cost: &mut u8,
) -> u8
    ensures { RequestMade
        (lent route_keys.old route_words.old route_usage.old routes.old discovery_keys.old discovery_words.old discovery_ends.old discoveries.old record_keys.now record_lengths.now records)
        (lent route_keys.new route_words.new route_usage.new routes.new discovery_keys.new discovery_words.new discovery_ends.new discoveries.new record_keys.now record_lengths.now records)
        (nwk originator) request_id (nwk destination) (nwk sender) updated_path_cost many_to_one now_ms route_discovery_time
        (request_at accepted.old changed.old changed_destination.old changed_next_hop.old changed_path_cost.old)
        (request_at accepted.new changed.new changed_destination.new changed_next_hop.new changed_path_cost.new)
        result }
{
    if 3 < many_to_one {
        return door::NO_CALL;
    }
    let n = *routes;
    let m = *discoveries;
    if !door::columns_formed(
        route_keys,
        route_words,
        route_usage,
        n,
        discovery_keys,
        discovery_words,
        discovery_ends,
        m,
        record_keys,
        record_lengths,
        records,
    ) {
        return 10;
    }
    let field = route_args::many_to_one(many_to_one as u64);
    let mut held = Routes {
        keys: route_keys,
        words: route_words,
        usage: route_usage,
        count: n,
    };
    let mut open = Discoveries {
        keys: discovery_keys,
        words: discovery_words,
        ends: discovery_ends,
        count: m,
    };
    let answer = route_request::request(
        &mut held,
        &mut open,
        Nwk(originator),
        request_id,
        Nwk(destination),
        Nwk(sender),
        updated_path_cost,
        field,
        now_ms,
        route_discovery_time,
    );
    *routes = held.count;
    *discoveries = open.count;
    say_request(
        answer,
        accepted,
        changed,
        changed_destination,
        changed_next_hop,
        changed_path_cost,
    )
}
