// The calls about children, and a link status, with values that may be given and with lists, one function for each word of a script.
ghost use Rattle.std.specs.Prelude.{◌≡◌};
ghost use Rattle.neighbor_groups.specs.Child.{truth_reply, nwk_reply, removal_reply, announced_reply, refresh_child_timeout_call, set_child_timeout_call, take_child_call, remove_claimed_children_call, process_parent_annce_call, evict_timed_out_children_call, upsert_child_call, on_link_status_call};

use neighbor_calls::{Announced, NwkOutcome, Removal, TruthOutcome};
use neighbor_loads::NeighborsReply;
use neighbors::Neighbors;

// Yes or no, and the state after it.
fn truth_reply(outcome: TruthOutcome) -> NeighborsReply
    ensures { result ≡ truth_reply outcome }
{
    let state = outcome.state;
    let answer = outcome.answer;
    let said = neighbor_answers::truth_answer(answer);
    NeighborsReply {
        answer: said,
        state,
    }
}

// A network address where there is one, and the state after it.
fn nwk_reply(outcome: NwkOutcome) -> NeighborsReply
    ensures { result ≡ nwk_reply outcome }
{
    let state = outcome.state;
    let answer = outcome.answer;
    let said = neighbor_answers::nwk_answer(answer);
    NeighborsReply {
        answer: said,
        state,
    }
}

// The children that were removed, and the state after it.
fn removal_reply(outcome: Removal) -> NeighborsReply
    ensures { result ≡ removal_reply outcome }
{
    let state = outcome.state;
    let answer = outcome.answer;
    let removed = outcome.removed;
    let said = neighbor_answers::removed_answer(answer, removed);
    NeighborsReply {
        answer: said,
        state,
    }
}

// The children that are claimed back, those that were removed, and the state after it.
fn announced_reply(outcome: Announced) -> NeighborsReply
    ensures { result ≡ announced_reply outcome }
{
    let state = outcome.state;
    let answer = outcome.answer;
    let claimed = outcome.claimed;
    let removed = outcome.removed;
    let said = neighbor_answers::announced_answer(answer, claimed, removed);
    NeighborsReply {
        answer: said,
        state,
    }
}

// A data poll of a known device moves its deadline.
pub fn refresh_child_timeout(state: Neighbors, args: &[u64]) -> NeighborsReply
    ensures { result ≡ refresh_child_timeout_call state args.now }
{
    let poll = child_arguments::data_poll(args);
    let eui64 = poll.eui64;
    let nwk = poll.nwk;
    truth_reply(neighbor_calls::refresh_child_timeout(state, eui64, nwk, poll.now))
}

// An end device child asks for another period.
pub fn set_child_timeout(state: Neighbors, args: &[u64]) -> NeighborsReply
    ensures { result ≡ set_child_timeout_call state args.now }
{
    let nwk = numbers::nwk(args, 0);
    let timeout = numbers::at(args, 1);
    let configuration = numbers::short(args, 2);
    let now = numbers::at(args, 3);
    truth_reply(neighbor_calls::set_child_timeout(state, nwk, timeout, configuration, now))
}

// A child that attached elsewhere is taken out.
pub fn take_child(state: Neighbors, args: &[u64]) -> NeighborsReply
    ensures { result ≡ take_child_call state args.now }
{
    nwk_reply(neighbor_calls::take_child(state, numbers::eui64(args, 0)))
}

// Another router has claimed end devices with a keepalive of theirs: they go.
pub fn remove_claimed_children(state: Neighbors, args: &[u64]) -> NeighborsReply
    ensures { result ≡ remove_claimed_children_call state args.now }
{
    let claimed = child_arguments::names(args);
    removal_reply(neighbor_calls::remove_claimed_children(state, claimed))
}

// Another router announces end devices.
pub fn process_parent_annce(state: Neighbors, args: &[u64]) -> NeighborsReply
    ensures { result ≡ process_parent_annce_call state args.now }
{
    let announced = child_arguments::names(args);
    announced_reply(neighbor_calls::process_parent_annce(state, announced))
}

// The end device children whose deadline has passed are removed and named.
pub fn evict_timed_out_children(state: Neighbors, args: &[u64]) -> NeighborsReply
    ensures { result ≡ evict_timed_out_children_call state args.now }
{
    removal_reply(neighbor_calls::evict_timed_out_children(state, numbers::at(args, 0)))
}

// A child joins or rejoins.
pub fn upsert_child(state: Neighbors, args: &[u64]) -> NeighborsReply
    ensures { result ≡ upsert_child_call state args.now }
{
    let child = child_arguments::child(args);
    let now = numbers::at(args, 6);
    crate::events::changed(neighbor_calls::upsert_child(state, child, now))
}

// A link status command.
pub fn on_link_status(state: Neighbors, args: &[u64]) -> NeighborsReply
    ensures { result ≡ on_link_status_call state args.now }
{
    let own = numbers::nwk(args, 0);
    let name = numbers::eui64(args, 1);
    let nwk = numbers::nwk(args, 2);
    let lqi = numbers::byte(args, 3);
    let now = numbers::at(args, 6);
    let command = child_arguments::command(args);
    nwk_reply(neighbor_calls::on_link_status(state, own, name, nwk, lqi, command, now))
}
