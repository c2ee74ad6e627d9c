// The calls on route records, each read from numbers and answered as numbers, with the relay store that the caller lends.
ghost use Rattle.std.specs.Prelude.{◌≡◌};
ghost use Rattle.numbers.specs.Said.{spoken};
ghost use Rattle.routing_groups.specs.Recorded.{record_reply, store_route_record_call, store_route_record_store, remove_route_record_call, remove_route_record_store, route_to_call, route_to_default_call, record_at_call};

use numbers::Answer;
use route_loads::RoutingReply;
use routing::{RecordOutcome, Routing};

// Whether a record changed what is known, and the state after it.
fn record_reply(o: RecordOutcome) -> RoutingReply
    ensures { result ≡ record_reply o }
{
    let a = o.answer;
    let answer = route_answers::record_answer(a);
    let state = o.state;
    RoutingReply { answer, state }
}

// A route record of a source: the source and the relays.
pub fn store_route_record(routing: Routing, args: &[u64], store: &mut [u16]) -> RoutingReply
    ensures value { result ≡ store_route_record_call routing args.now store.old }
    ensures store_after { store.new ≡ store_route_record_store routing args.now store.old }
{
    let source = numbers::nwk(args, 0);
    let l = route_args::relays(args, 1);
    let o = routing.store_route_record(store, source, l);
    record_reply(o)
}

// The record of a destination is removed.
pub fn remove_route_record(routing: Routing, args: &[u64], store: &mut [u16]) -> RoutingReply
    ensures value { result ≡ remove_route_record_call routing args.now store.old }
    ensures store_after { store.new ≡ remove_route_record_store routing args.now store.old }
{
    let destination = numbers::nwk(args, 0);
    let o = routing.remove_route_record(store, destination);
    crate::changes::told_reply(o)
}

// The way to a destination, by a limit.
pub fn route_to(routing: Routing, args: &[u64], store: &[u16]) -> Answer
    ensures { result ≡ spoken (route_to_call routing args.now store.now) }
{
    let destination = numbers::nwk(args, 0);
    let limit = numbers::byte(args, 1);
    let o = routing.route_to(store, destination, limit);
    route_answers::way_answer(o)
}

// The way to a destination, by the default policy.
pub fn route_to_default(routing: Routing, args: &[u64], store: &[u16]) -> Answer
    ensures { result ≡ spoken (route_to_default_call routing args.now store.now) }
{
    let destination = numbers::nwk(args, 0);
    let o = routing.route_to_default(store, destination);
    route_answers::way_answer(o)
}

// The route record at a place.
pub fn record_at(routing: Routing, args: &[u64], store: &[u16]) -> Answer
    ensures { result ≡ spoken (record_at_call routing args.now store.now) }
{
    let place = numbers::at(args, 0) as usize;
    let o = routing.record_at(store, place);
    route_answers::record_at_answer(o)
}
