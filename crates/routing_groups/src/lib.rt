// The routing calls by their numbers, a group to a function.
#![tactic(auto)]

pub mod changes;
pub mod questions;
pub mod records;

ghost use Rattle.std.specs.Prelude.{◌≡◌};
ghost use Rattle.numbers.specs.Said.{spoken};
ghost use Rattle.routing_groups.specs.Groups.{ask_routing, ask_records, change_routes, change_searches, load_routes, change_records, store_after_call};

use numbers::Answer;
use route_loads::RoutingReply;
use routing::Routing;

// The calls that ask the routing state.
pub fn ask_routing(routing: Routing, number: u64, args: &[u64]) -> Answer
    ensures { result ≡ spoken (ask_routing routing number args.now) }
{
    if number == 2 {
        return questions::check(routing);
    }
    if number == 12 {
        return questions::route_status(routing, args);
    }
    if number == 13 {
        return questions::route_count(routing);
    }
    if number == 14 {
        return questions::route_at(routing, args);
    }
    if number == 15 {
        return questions::next_hop(routing, args);
    }
    if number == 26 {
        return questions::discovery_deadline(routing, args);
    }
    if number == 71 {
        return questions::discovery_count(routing);
    }
    if number == 72 {
        return questions::discovery_at(routing, args);
    }
    if number == 73 {
        return questions::record_count(routing);
    }
    numbers::no_call()
}

// The calls that ask the route records, with the store that they are kept in.
pub fn ask_records(routing: Routing, number: u64, args: &[u64], store: &[u16]) -> Answer
    ensures { result ≡ spoken (ask_records routing number args.now store.now) }
{
    if number == 27 {
        return records::route_to(routing, args, store);
    }
    if number == 28 {
        return records::route_to_default(routing, args, store);
    }
    if number == 74 {
        return records::record_at(routing, args, store);
    }
    numbers::no_call()
}

// The calls that change the trigger counters and the routes.
pub fn change_routes(routing: Routing, number: u64, args: &[u64]) -> RoutingReply
    ensures { result ≡ change_routes routing number args.now }
{
    if number == 9 {
        return changes::note_route_error(routing, args);
    }
    if number == 10 {
        return changes::note_delivery_failure(routing, args);
    }
    if number == 11 {
        return changes::reset_mtorr_triggers(routing);
    }
    if number == 16 {
        return changes::mark_discovery_failed(routing, args);
    }
    if number == 17 {
        return changes::record_usage(routing, args);
    }
    if number == 18 {
        return changes::decay_activity(routing);
    }
    if number == 19 {
        return changes::invalidate_via(routing, args);
    }
    if number == 20 {
        return changes::remove_route(routing, args);
    }
    route_loads::no_call(routing)
}

// The calls that make routes and searches.
pub fn change_searches(routing: Routing, number: u64, args: &[u64]) -> RoutingReply
    ensures { result ≡ change_searches routing number args.now }
{
    if number == 21 {
        return changes::restore_route(routing, args);
    }
    if number == 24 {
        return changes::note_source_routed_frame(routing, args);
    }
    if number == 25 {
        return changes::note_relayed_discovery(routing, args);
    }
    if number == 29 {
        return changes::begin_discovery(routing, args);
    }
    if number == 30 {
        return changes::begin_many_to_one_advertisement(routing, args);
    }
    if number == 31 {
        return changes::accept_route_request(routing, args);
    }
    if number == 32 {
        return changes::accept_route_reply(routing, args);
    }
    route_loads::no_call(routing)
}

// The lines that set the routing state up, and those that damage it.
pub fn load_routes(routing: Routing, number: u64, args: &[u64]) -> RoutingReply
    ensures { result ≡ load_routes routing number args.now }
{
    if number == 3 {
        return route_loads::put_counters(routing, args);
    }
    if number == 4 {
        return route_loads::put_route(routing, args);
    }
    if number == 5 {
        return route_loads::put_discovery(routing, args);
    }
    if number == 75 {
        return route_loads::set_route_count(routing, args);
    }
    if number == 76 {
        return route_loads::set_discovery_count(routing, args);
    }
    if number == 77 {
        return route_loads::set_record_count(routing, args);
    }
    if number == 80 {
        return route_loads::set_route_key(routing, args);
    }
    if number == 81 {
        return route_loads::set_discovery_key(routing, args);
    }
    if number == 82 {
        return route_loads::set_record_key(routing, args);
    }
    route_loads::no_call(routing)
}

// The calls that change the route records and the store that they are kept in.
pub fn change_records(
    routing: Routing,
    number: u64,
    args: &[u64],
    store: &mut [u16],
) -> RoutingReply
    ensures value { result ≡ change_records routing number args.now store.old }
    ensures store_after { store.new ≡ store_after_call routing number args.now store.old }
{
    if number == 6 {
        return route_loads::put_record(routing, args, store);
    }
    if number == 22 {
        return records::store_route_record(routing, args, store);
    }
    if number == 23 {
        return records::remove_route_record(routing, args, store);
    }
    route_loads::no_call(routing)
}
