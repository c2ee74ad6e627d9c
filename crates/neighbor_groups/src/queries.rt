// The questions about neighbours that are answered with a few numbers, one function for each word of a script.
ghost use Rattle.std.specs.Prelude.{◌≡◌};
ghost use Rattle.numbers.specs.Said.{spoken};
ghost use Rattle.neighbor_groups.specs.Queries.{lqi_to_link_cost_call, link_call, neighbour_count_call, neighbour_at_call, has_network_address_call, end_device_child_eui64_call, sleepy_child_eui64_call, contains_call, device_capability_call, end_device_child_count_call, is_unconfirmed_end_device_child_call, next_child_timeout_call, any_live_router_link_call};

use neighbors::Neighbors;
use numbers::Answer;

// The cost of a link of a quality.
pub fn lqi_to_link_cost(state: Neighbors, args: &[u64]) -> Answer
    ensures { result ≡ spoken (lqi_to_link_cost_call state args.now) }
{
    let cost = link_cost::lqi_to_link_cost(numbers::byte(args, 0));
    neighbor_answers::one(cost as u64)
}

// The radio link to the neighbour with a network address.
pub fn link(state: Neighbors, args: &[u64]) -> Answer
    ensures { result ≡ spoken (link_call state args.now) }
{
    let said = state.link(numbers::nwk(args, 0));
    neighbor_answers::link_answer(said)
}

// How many neighbours there are.
pub fn neighbour_count(state: Neighbors, args: &[u64]) -> Answer
    ensures { result ≡ spoken (neighbour_count_call state args.now) }
{
    let said = state.count();
    neighbor_answers::count_answer(said)
}

// The neighbour at a place.
pub fn neighbour_at(state: Neighbors, args: &[u64]) -> Answer
    ensures { result ≡ spoken (neighbour_at_call state args.now) }
{
    let said = state.entry_at(numbers::at(args, 0) as usize);
    neighbor_answers::entry_answer(said)
}

// Whether a neighbour has a network address.
pub fn has_network_address(state: Neighbors, args: &[u64]) -> Answer
    ensures { result ≡ spoken (has_network_address_call state args.now) }
{
    let said = state.has_network_address(numbers::nwk(args, 0));
    neighbor_answers::truth_answer(said)
}

// The end device child with a network address.
pub fn end_device_child_eui64(state: Neighbors, args: &[u64]) -> Answer
    ensures { result ≡ spoken (end_device_child_eui64_call state args.now) }
{
    let said = state.end_device_child_eui64(numbers::nwk(args, 0));
    neighbor_answers::eui64_answer(said)
}

// The sleepy child with a network address.
pub fn sleepy_child_eui64(state: Neighbors, args: &[u64]) -> Answer
    ensures { result ≡ spoken (sleepy_child_eui64_call state args.now) }
{
    let said = state.sleepy_child_eui64(numbers::nwk(args, 0));
    neighbor_answers::eui64_answer(said)
}

// Whether an extended address is a neighbour's.
pub fn contains(state: Neighbors, args: &[u64]) -> Answer
    ensures { result ≡ spoken (contains_call state args.now) }
{
    let said = state.contains(numbers::eui64(args, 0));
    neighbor_answers::truth_answer(said)
}

// The device type of a neighbour, and whether it listens when idle.
pub fn device_capability(state: Neighbors, args: &[u64]) -> Answer
    ensures { result ≡ spoken (device_capability_call state args.now) }
{
    let said = state.device_capability(numbers::eui64(args, 0));
    neighbor_answers::capability_answer(said)
}

// How many end device children there are.
pub fn end_device_child_count(state: Neighbors, args: &[u64]) -> Answer
    ensures { result ≡ spoken (end_device_child_count_call state args.now) }
{
    let said = state.end_device_child_count();
    neighbor_answers::count_answer(said)
}

// Whether a device is an end device child that has sent no keepalive yet.
pub fn is_unconfirmed_end_device_child(state: Neighbors, args: &[u64]) -> Answer
    ensures { result ≡ spoken (is_unconfirmed_end_device_child_call state args.now) }
{
    let said = state.is_unconfirmed_end_device_child(numbers::eui64(args, 0));
    neighbor_answers::truth_answer(said)
}

// The earliest deadline of an end device child.
pub fn next_child_timeout(state: Neighbors, args: &[u64]) -> Answer
    ensures { result ≡ spoken (next_child_timeout_call state args.now) }
{
    let said = state.next_child_timeout();
    neighbor_answers::moment_answer(said)
}

// Whether a router has listed this device with a cost.
pub fn any_live_router_link(state: Neighbors, args: &[u64]) -> Answer
    ensures { result ≡ spoken (any_live_router_link_call state args.now) }
{
    let said = state.any_live_router_link();
    neighbor_answers::truth_answer(said)
}
