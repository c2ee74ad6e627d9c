// The decision on the next hop, and the bit cleared for a relay, one function for each word of a script. The relay store is lent to be read.
#![tactic(auto)]

pub mod arguments;
pub mod header;

ghost use Rattle.std.specs.Prelude.{◌≡◌};
ghost use Rattle.numbers.specs.Said.{spoken};
ghost use Rattle.decision_lines.specs.Lines.{clear_call, resolve_call, resolve_default_call, decide_by};

use neighbors::Neighbors;
use numbers::Answer;
use routing::Routing;

// The end device initiator bit of a frame to be relayed.
pub fn clear_end_device_initiator_for_relay(state: Neighbors, args: &[u64]) -> Answer
    ensures { result ≡ spoken (clear_call state args.now) }
{
    let header = header::header(args, 0);
    let said = relay_header::clear_end_device_initiator_for_relay(state, header);
    arguments::clear_answer(said)
}

// The next hop by a policy.
pub fn resolve(routing: Routing, neighbors: Neighbors, args: &[u64], store: &[u16]) -> Answer
    ensures { result ≡ spoken (resolve_call routing neighbors args.now store.now) }
{
    let policy = arguments::policy(args);
    let mode = arguments::mode(args, 3);
    let header = header::header(args, arguments::after_mode(args, 3));
    let said = next_hop::resolve(routing, neighbors, store, header, mode, policy);
    arguments::resolve_answer(said)
}

// The next hop by the default policy.
pub fn resolve_default(
    routing: Routing,
    neighbors: Neighbors,
    args: &[u64],
    store: &[u16],
) -> Answer
    ensures { result ≡ spoken (resolve_default_call routing neighbors args.now store.now) }
{
    let mode = arguments::mode(args, 0);
    let header = header::header(args, arguments::after_mode(args, 0));
    let said = next_hop::resolve_default(routing, neighbors, store, header, mode);
    arguments::resolve_answer(said)
}

// The decisions by their numbers.
pub fn decide(
    routing: Routing,
    neighbors: Neighbors,
    number: u64,
    args: &[u64],
    store: &[u16],
) -> Answer
    ensures { result ≡ spoken (decide_by routing neighbors number args.now store.now) }
{
    if number == 68 {
        return clear_end_device_initiator_for_relay(neighbors, args);
    }
    if number == 69 {
        return resolve(routing, neighbors, args, store);
    }
    if number == 70 {
        return resolve_default(routing, neighbors, args, store);
    }
    numbers::no_call()
}
