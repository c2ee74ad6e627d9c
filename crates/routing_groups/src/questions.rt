// The calls that ask the routing state, each read from numbers and answered as numbers.
ghost use Rattle.std.specs.Prelude.{◌≡◌};
ghost use Rattle.numbers.specs.Said.{spoken};
ghost use Rattle.routing_groups.specs.Asked.{check_call, route_status_call, route_count_call, route_at_call, next_hop_call, discovery_deadline_call, discovery_count_call, discovery_at_call, record_count_call};

use numbers::Answer;
use routing::Routing;

// The table check.
pub fn check(routing: Routing) -> Answer
    ensures { result ≡ spoken (check_call routing) }
{
    let o = routing.check();
    route_answers::check_answer(o)
}

// How the route to a destination stands.
pub fn route_status(routing: Routing, args: &[u64]) -> Answer
    ensures { result ≡ spoken (route_status_call routing args.now) }
{
    let x0 = numbers::nwk(args, 0);
    let o = routing.route_status(x0);
    route_answers::status_answer(o)
}

// How many routes there are.
pub fn route_count(routing: Routing) -> Answer
    ensures { result ≡ spoken (route_count_call routing) }
{
    let o = routing.route_count();
    route_answers::count_answer(o)
}

// The route at a place.
pub fn route_at(routing: Routing, args: &[u64]) -> Answer
    ensures { result ≡ spoken (route_at_call routing args.now) }
{
    let x0 = numbers::at(args, 0) as usize;
    let o = routing.route_at(x0);
    route_answers::route_at_answer(o)
}

// The next hop to a destination.
pub fn next_hop(routing: Routing, args: &[u64]) -> Answer
    ensures { result ≡ spoken (next_hop_call routing args.now) }
{
    let x0 = numbers::nwk(args, 0);
    let o = routing.next_hop(x0);
    route_answers::hop_answer(o)
}

// When the first live discovery of the way to a destination is over.
pub fn discovery_deadline(routing: Routing, args: &[u64]) -> Answer
    ensures { result ≡ spoken (discovery_deadline_call routing args.now) }
{
    let x0 = numbers::nwk(args, 0);
    let x1 = numbers::at(args, 1);
    let o = routing.discovery_deadline(x0, x1);
    route_answers::deadline_answer(o)
}

// How many discoveries there are.
pub fn discovery_count(routing: Routing) -> Answer
    ensures { result ≡ spoken (discovery_count_call routing) }
{
    let o = routing.discovery_count();
    route_answers::count_answer(o)
}

// The discovery at a place.
pub fn discovery_at(routing: Routing, args: &[u64]) -> Answer
    ensures { result ≡ spoken (discovery_at_call routing args.now) }
{
    let x0 = numbers::at(args, 0) as usize;
    let o = routing.discovery_at(x0);
    route_answers::discovery_at_answer(o)
}

// How many route records there are.
pub fn record_count(routing: Routing) -> Answer
    ensures { result ≡ spoken (record_count_call routing) }
{
    let o = routing.record_count();
    route_answers::count_answer(o)
}
