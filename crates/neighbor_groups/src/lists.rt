// The questions about one whole entry, and those that are answered with a list, one function for each word of a script.
ghost use Rattle.std.specs.Prelude.{◌≡◌};
ghost use Rattle.standard.specs.Ordered.{lookup};
ghost use Rattle.numbers.specs.Said.{spoken};
ghost use Rattle.neighbor_table.specs.Entry.{neighbor_key};
ghost use Rattle.neighbors.specs.State.{WellFormed, rows};
ghost use Rattle.neighbor_groups.specs.Lists.{entry_of, lqa_call, incoming_link_cost_call, is_child_call, sleepy_children_call, end_device_children_call, expected_broadcast_relayers_call, link_status_entries_call};

use neighbor_table::NeighborEntry;
use neighbors::Neighbors;
use numbers::Answer;
use types::{Eui64, Refusal};

// What stands under an extended address.
fn look_up(state: Neighbors, eui64: Eui64) -> Option<NeighborEntry>
    requires { WellFormed state }
    ensures { result ≡ lookup neighbor_key eui64.0 (rows state) }
{
    let keys = state.keys;
    let nwks = state.nwks;
    let links = state.links;
    let counts = state.counts;
    let deadlines = state.deadlines;
    let periods = state.periods;
    let heard = state.heard;
    let added = state.added;
    let beacons = state.beacons;
    let bytes = state.bytes;
    neighbor_columns::find(
        &keys,
        &nwks,
        &links,
        &counts,
        &deadlines,
        &periods,
        &heard,
        &added,
        &beacons,
        &bytes,
        state.count,
        eui64,
    )
}

// The neighbour of an extended address.
fn entry_of(state: Neighbors, eui64: Eui64) -> Result<Option<NeighborEntry>, Refusal>
    ensures { result ≡ entry_of state eui64 }
{
    if !state.well_formed() {
        return Err(Refusal::StateIllFormed);
    }
    Ok(look_up(state, eui64))
}

// The quality at which a neighbour is heard.
pub fn lqa(state: Neighbors, args: &[u64]) -> Answer
    ensures { result ≡ spoken (lqa_call state args.now) }
{
    let said = entry_of(state, numbers::eui64(args, 0));
    neighbor_answers::quality_answer(said)
}

// The incoming cost of a neighbour's link.
pub fn incoming_link_cost(state: Neighbors, args: &[u64]) -> Answer
    ensures { result ≡ spoken (incoming_link_cost_call state args.now) }
{
    let said = entry_of(state, numbers::eui64(args, 0));
    neighbor_answers::cost_answer(said)
}

// Whether a neighbour is a child.
pub fn is_child(state: Neighbors, args: &[u64]) -> Answer
    ensures { result ≡ spoken (is_child_call state args.now) }
{
    let said = entry_of(state, numbers::eui64(args, 0));
    neighbor_answers::is_child_answer(said)
}

// Every child that sleeps when idle.
pub fn sleepy_children(state: Neighbors, args: &[u64]) -> Answer
    ensures { result ≡ spoken (sleepy_children_call state args.now) }
{
    let said = state.sleepy_children();
    neighbor_answers::children_answer(said)
}

// Every end device child.
pub fn end_device_children(state: Neighbors, args: &[u64]) -> Answer
    ensures { result ≡ spoken (end_device_children_call state args.now) }
{
    let said = state.end_device_children();
    neighbor_answers::eui64s_answer(said)
}

// The routers that are expected to relay a broadcast.
pub fn expected_broadcast_relayers(state: Neighbors, args: &[u64]) -> Answer
    ensures { result ≡ spoken (expected_broadcast_relayers_call state args.now) }
{
    let said = state.expected_broadcast_relayers();
    neighbor_answers::nwks_answer(said)
}

// The link statuses that are advertised.
pub fn link_status_entries(state: Neighbors, args: &[u64]) -> Answer
    ensures { result ≡ spoken (link_status_entries_call state args.now) }
{
    let said = state.link_status_entries();
    neighbor_answers::statuses_answer(said)
}
