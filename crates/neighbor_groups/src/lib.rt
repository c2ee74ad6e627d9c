// The neighbour calls by their numbers, a group to a function.
#![tactic(auto)]

pub mod child;
pub mod events;
pub mod lists;
pub mod queries;

ghost use Rattle.std.specs.Prelude.{◌≡◌};
ghost use Rattle.numbers.specs.Said.{spoken};
ghost use Rattle.neighbor_groups.specs.Groups.{ask_neighbors, ask_children, list_neighbors, note_neighbors, change_children, load_neighbors};

use neighbor_loads::NeighborsReply;
use neighbors::Neighbors;
use numbers::Answer;

// The calls that ask the neighbours of links and addresses.
pub fn ask_neighbors(state: Neighbors, number: u64, args: &[u64]) -> Answer
    ensures { result ≡ spoken (ask_neighbors state number args.now) }
{
    if number == 33 {
        return queries::lqi_to_link_cost(state, args);
    }
    if number == 35 {
        return queries::link(state, args);
    }
    if number == 36 {
        return queries::neighbour_count(state, args);
    }
    if number == 37 {
        return queries::neighbour_at(state, args);
    }
    if number == 41 {
        return queries::has_network_address(state, args);
    }
    if number == 42 {
        return queries::end_device_child_eui64(state, args);
    }
    if number == 43 {
        return queries::sleepy_child_eui64(state, args);
    }
    numbers::no_call()
}

// The calls that ask the neighbours of children.
pub fn ask_children(state: Neighbors, number: u64, args: &[u64]) -> Answer
    ensures { result ≡ spoken (ask_children state number args.now) }
{
    if number == 45 {
        return queries::contains(state, args);
    }
    if number == 46 {
        return queries::device_capability(state, args);
    }
    if number == 47 {
        return queries::end_device_child_count(state, args);
    }
    if number == 53 {
        return queries::is_unconfirmed_end_device_child(state, args);
    }
    if number == 57 {
        return queries::next_child_timeout(state, args);
    }
    if number == 60 {
        return queries::any_live_router_link(state, args);
    }
    numbers::no_call()
}

// The calls that ask one entry, or list the neighbours.
pub fn list_neighbors(state: Neighbors, number: u64, args: &[u64]) -> Answer
    ensures { result ≡ spoken (list_neighbors state number args.now) }
{
    if number == 38 {
        return lists::lqa(state, args);
    }
    if number == 39 {
        return lists::incoming_link_cost(state, args);
    }
    if number == 40 {
        return lists::is_child(state, args);
    }
    if number == 44 {
        return lists::sleepy_children(state, args);
    }
    if number == 52 {
        return lists::end_device_children(state, args);
    }
    if number == 61 {
        return lists::expected_broadcast_relayers(state, args);
    }
    if number == 62 {
        return lists::link_status_entries(state, args);
    }
    numbers::no_call()
}

// The calls that note what was heard and sent.
pub fn note_neighbors(state: Neighbors, number: u64, args: &[u64]) -> NeighborsReply
    ensures { result ≡ note_neighbors state number args.now }
{
    if number == 34 {
        return events::record_lqa(state, args);
    }
    if number == 50 {
        return events::update_network_address(state, args);
    }
    if number == 59 {
        return events::remove(state, args);
    }
    if number == 63 {
        return events::record_outbound_activity(state, args);
    }
    if number == 64 {
        return events::record_inbound_activity(state, args);
    }
    if number == 65 {
        return events::record_transmit_failure(state, args);
    }
    if number == 66 {
        return events::reset_transmit_failures(state, args);
    }
    neighbor_loads::no_call(state)
}

// The calls that change the children.
pub fn change_children(state: Neighbors, number: u64, args: &[u64]) -> NeighborsReply
    ensures { result ≡ change_children state number args.now }
{
    if number == 48 {
        return child::refresh_child_timeout(state, args);
    }
    if number == 49 {
        return child::set_child_timeout(state, args);
    }
    if number == 51 {
        return child::take_child(state, args);
    }
    if number == 54 {
        return child::remove_claimed_children(state, args);
    }
    if number == 55 {
        return child::process_parent_annce(state, args);
    }
    if number == 56 {
        return child::evict_timed_out_children(state, args);
    }
    if number == 58 {
        return child::upsert_child(state, args);
    }
    if number == 67 {
        return child::on_link_status(state, args);
    }
    neighbor_loads::no_call(state)
}

// The lines that set the neighbours up, and those that damage them.
pub fn load_neighbors(state: Neighbors, number: u64, args: &[u64]) -> NeighborsReply
    ensures { result ≡ load_neighbors state number args.now }
{
    if number == 7 {
        return neighbor_loads::put_neighbor(state, args);
    }
    if number == 8 {
        return neighbor_loads::put_waiting(state, args);
    }
    if number == 78 {
        return neighbor_loads::set_neighbor_count(state, args);
    }
    if number == 79 {
        return neighbor_loads::set_waiting_count(state, args);
    }
    if number == 83 {
        return neighbor_loads::set_neighbor_key(state, args);
    }
    if number == 84 {
        return neighbor_loads::set_waiting_key(state, args);
    }
    neighbor_loads::no_call(state)
}
