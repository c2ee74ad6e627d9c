// What happens to neighbours and is answered with nothing more, one function for each word of a script.
ghost use Rattle.std.specs.Prelude.{◌≡◌};
ghost use Rattle.neighbor_groups.specs.Events.{changed, record_lqa_call, update_network_address_call, remove_call, record_outbound_activity_call, record_inbound_activity_call, record_transmit_failure_call, reset_transmit_failures_call};

use neighbor_loads::NeighborsReply;
use neighbors::{Neighbors, Outcome};

// A call that changes the neighbours and answers nothing more.
pub fn changed(outcome: Outcome) -> NeighborsReply
    ensures { result ≡ changed outcome }
{
    let state = outcome.state;
    let answer = outcome.answer;
    let said = neighbor_answers::done_answer(answer);
    NeighborsReply {
        answer: said,
        state,
    }
}

// A frame was heard from a transmitter, at a quality.
pub fn record_lqa(state: Neighbors, args: &[u64]) -> NeighborsReply
    ensures { result ≡ record_lqa_call state args.now }
{
    changed(neighbor_calls::record_lqa(state, numbers::nwk(args, 0), numbers::byte(args, 1)))
}

// A known device has another network address.
pub fn update_network_address(state: Neighbors, args: &[u64]) -> NeighborsReply
    ensures { result ≡ update_network_address_call state args.now }
{
    changed(state.update_network_address(numbers::eui64(args, 0), numbers::nwk(args, 1)))
}

// A neighbour is forgotten.
pub fn remove(state: Neighbors, args: &[u64]) -> NeighborsReply
    ensures { result ≡ remove_call state args.now }
{
    changed(state.remove(numbers::eui64(args, 0)))
}

// A unicast went out by a neighbour.
pub fn record_outbound_activity(state: Neighbors, args: &[u64]) -> NeighborsReply
    ensures { result ≡ record_outbound_activity_call state args.now }
{
    changed(state.record_outbound_activity(numbers::eui64(args, 0)))
}

// A unicast came in by a neighbour.
pub fn record_inbound_activity(state: Neighbors, args: &[u64]) -> NeighborsReply
    ensures { result ≡ record_inbound_activity_call state args.now }
{
    changed(state.record_inbound_activity(numbers::nwk(args, 0)))
}

// A unicast to a neighbour was not acknowledged.
pub fn record_transmit_failure(state: Neighbors, args: &[u64]) -> NeighborsReply
    ensures { result ≡ record_transmit_failure_call state args.now }
{
    changed(state.record_transmit_failure(numbers::eui64(args, 0)))
}

// Every failure is forgotten.
pub fn reset_transmit_failures(state: Neighbors, args: &[u64]) -> NeighborsReply
    ensures { result ≡ reset_transmit_failures_call state args.now }
{
    changed(state.reset_transmit_failures())
}
