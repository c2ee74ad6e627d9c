// The calls that change the routing state, each read from numbers and answered as numbers.
ghost use Rattle.std.specs.Prelude.{◌≡◌};
ghost use Rattle.routing_groups.specs.Changed.{done_reply, told_reply, begin_reply, request_reply, reply_reply, note_route_error_call, note_delivery_failure_call, reset_mtorr_triggers_call, mark_discovery_failed_call, record_usage_call, decay_activity_call, invalidate_via_call, remove_route_call, restore_route_call, note_source_routed_frame_call, note_relayed_discovery_call, begin_discovery_call, begin_many_to_one_advertisement_call, accept_route_request_call, accept_route_reply_call};

use route_loads::RoutingReply;
use routing::{
    BeginOutcome, DoneOutcome, RouteReplyOutcome, RouteRequestOutcome, Routing, ToldOutcome,
};

// Done or refused, and the state after it.
fn done_reply(o: DoneOutcome) -> RoutingReply
    ensures { result ≡ done_reply o }
{
    let a = o.answer;
    let answer = route_answers::done_answer(a);
    let state = o.state;
    RoutingReply { answer, state }
}

// Yes or no, and the state after it.
pub fn told_reply(o: ToldOutcome) -> RoutingReply
    ensures { result ≡ told_reply o }
{
    let a = o.answer;
    let answer = route_answers::told_answer(a);
    let state = o.state;
    RoutingReply { answer, state }
}

// The id of what was begun, and the state after it.
fn begin_reply(o: BeginOutcome) -> RoutingReply
    ensures { result ≡ begin_reply o }
{
    let a = o.answer;
    let answer = route_answers::begin_answer(a);
    let state = o.state;
    RoutingReply { answer, state }
}

// A request's answer, and the state after it.
fn request_reply(o: RouteRequestOutcome) -> RoutingReply
    ensures { result ≡ request_reply o }
{
    let a = o.answer;
    let answer = route_answers::request_answer(a);
    let state = o.state;
    RoutingReply { answer, state }
}

// A reply's answer, and the state after it.
fn reply_reply(o: RouteReplyOutcome) -> RoutingReply
    ensures { result ≡ reply_reply o }
{
    let a = o.answer;
    let answer = route_answers::reply_answer(a);
    let state = o.state;
    RoutingReply { answer, state }
}

// A route failure was heard, and a threshold.
pub fn note_route_error(routing: Routing, args: &[u64]) -> RoutingReply
    ensures { result ≡ note_route_error_call routing args.now }
{
    let x0 = numbers::byte(args, 0);
    let o = routing.note_route_error(x0);
    told_reply(o)
}

// A delivery of our own failed, and a threshold.
pub fn note_delivery_failure(routing: Routing, args: &[u64]) -> RoutingReply
    ensures { result ≡ note_delivery_failure_call routing args.now }
{
    let x0 = numbers::byte(args, 0);
    let o = routing.note_delivery_failure(x0);
    told_reply(o)
}

// The trigger counters are set to 0.
pub fn reset_mtorr_triggers(routing: Routing) -> RoutingReply
    ensures { result ≡ reset_mtorr_triggers_call routing }
{
    let o = routing.reset_mtorr_triggers();
    done_reply(o)
}

// No discovery of the way to a destination has brought one.
pub fn mark_discovery_failed(routing: Routing, args: &[u64]) -> RoutingReply
    ensures { result ≡ mark_discovery_failed_call routing args.now }
{
    let x0 = numbers::nwk(args, 0);
    let o = routing.mark_discovery_failed(x0);
    done_reply(o)
}

// A frame was forwarded along the route to a destination.
pub fn record_usage(routing: Routing, args: &[u64]) -> RoutingReply
    ensures { result ≡ record_usage_call routing args.now }
{
    let x0 = numbers::nwk(args, 0);
    let o = routing.record_usage(x0);
    done_reply(o)
}

// The recent activity of every Active route goes down.
pub fn decay_activity(routing: Routing) -> RoutingReply
    ensures { result ≡ decay_activity_call routing }
{
    let o = routing.decay_activity();
    done_reply(o)
}

// A next hop is lost.
pub fn invalidate_via(routing: Routing, args: &[u64]) -> RoutingReply
    ensures { result ≡ invalidate_via_call routing args.now }
{
    let x0 = numbers::nwk(args, 0);
    let o = routing.invalidate_via(x0);
    done_reply(o)
}

// The route to a destination is removed.
pub fn remove_route(routing: Routing, args: &[u64]) -> RoutingReply
    ensures { result ≡ remove_route_call routing args.now }
{
    let x0 = numbers::nwk(args, 0);
    let o = routing.remove_route(x0);
    told_reply(o)
}

// A route is handed back: destination, hop and cost.
pub fn restore_route(routing: Routing, args: &[u64]) -> RoutingReply
    ensures { result ≡ restore_route_call routing args.now }
{
    let x0 = numbers::nwk(args, 0);
    let x1 = numbers::nwk(args, 1);
    let x2 = numbers::byte(args, 2);
    let o = routing.restore_route(x0, x1, x2);
    done_reply(o)
}

// A source-routed frame of a concentrator was heard.
pub fn note_source_routed_frame(routing: Routing, args: &[u64]) -> RoutingReply
    ensures { result ≡ note_source_routed_frame_call routing args.now }
{
    let x0 = numbers::nwk(args, 0);
    let o = routing.note_source_routed_frame(x0);
    done_reply(o)
}

// A search of another's was relayed.
pub fn note_relayed_discovery(routing: Routing, args: &[u64]) -> RoutingReply
    ensures { result ≡ note_relayed_discovery_call routing args.now }
{
    let x0 = numbers::nwk(args, 0);
    let o = routing.note_relayed_discovery(x0);
    done_reply(o)
}

// A search of our own: own address, destination, now and span.
pub fn begin_discovery(routing: Routing, args: &[u64]) -> RoutingReply
    ensures { result ≡ begin_discovery_call routing args.now }
{
    let x0 = numbers::nwk(args, 0);
    let x1 = numbers::nwk(args, 1);
    let x2 = numbers::at(args, 2);
    let x3 = numbers::at(args, 3);
    let o = routing.begin_discovery(x0, x1, x2, x3);
    begin_reply(o)
}

// A many-to-one advertisement: own address, now and span.
pub fn begin_many_to_one_advertisement(routing: Routing, args: &[u64]) -> RoutingReply
    ensures { result ≡ begin_many_to_one_advertisement_call routing args.now }
{
    let x0 = numbers::nwk(args, 0);
    let x1 = numbers::at(args, 1);
    let x2 = numbers::at(args, 2);
    let o = routing.begin_many_to_one_advertisement(x0, x1, x2);
    begin_reply(o)
}

// A route request: originator, id, destination, sender, cost, many-to-one, now and span.
pub fn accept_route_request(routing: Routing, args: &[u64]) -> RoutingReply
    ensures { result ≡ accept_route_request_call routing args.now }
{
    let x0 = numbers::nwk(args, 0);
    let x1 = numbers::byte(args, 1);
    let x2 = numbers::nwk(args, 2);
    let x3 = numbers::nwk(args, 3);
    let x4 = numbers::byte(args, 4);
    let x5 = route_args::many_to_one(numbers::at(args, 5));
    let x6 = numbers::at(args, 6);
    let x7 = numbers::at(args, 7);
    let o = routing.accept_route_request(x0, x1, x2, x3, x4, x5, x6, x7);
    request_reply(o)
}

// A route reply: own address, originator, id, responder, sender and cost.
pub fn accept_route_reply(routing: Routing, args: &[u64]) -> RoutingReply
    ensures { result ≡ accept_route_reply_call routing args.now }
{
    let x0 = numbers::nwk(args, 0);
    let x1 = numbers::nwk(args, 1);
    let x2 = numbers::byte(args, 2);
    let x3 = numbers::nwk(args, 3);
    let x4 = numbers::nwk(args, 4);
    let x5 = numbers::byte(args, 5);
    let o = routing.accept_route_reply(x0, x1, x2, x3, x4, x5);
    reply_reply(o)
}
