// One call given as numbers, answered as numbers.
#![tactic(auto)]

ghost use Rattle.std.specs.Prelude.{◌≡◌};
ghost use Rattle.numbers.specs.Said.{spoken};
ghost use Rattle.lines.specs.Lines.{line_said};
ghost use Rattle.calls.specs.Groups.{group_of, ask_by, routes_by, neighbors_by, call_of, routed_by, neighboured_by, store_of, world_lines};

use neighbor_loads::NeighborsReply;
use neighbors::Neighbors;
use numbers::Answer;
use route_loads::RoutingReply;
use routing::Routing;
use world::{Reply, World};

// The group of each number: 1 to 6 ask, 7 to 10 change the routing state, 11 to 13 the neighbours, and 14 makes both fresh; 0 for what is no call here.
const GROUPS: [u64; 87] = [
    14, 0, 1, 10, 10, 10, 7, 13, 13, 8, 8, 8, 1, 1, 1, 1, 8, 8, 8, 8, 8, 9, 7, 7, 9, 9, 1, 5, 5, 9,
    9, 9, 9, 2, 11, 2, 2, 2, 4, 4, 4, 2, 2, 2, 4, 3, 3, 3, 12, 12, 11, 12, 4, 3, 12, 12, 12, 3, 12,
    11, 3, 4, 4, 11, 11, 11, 11, 12, 6, 6, 6, 1, 1, 1, 5, 10, 10, 10, 13, 13, 10, 10, 10, 13, 13,
    0, 0,
];

// The group of a number, 0 for what is no call here.
pub fn group(number: u64) -> u64
    ensures { result ≡ group_of number }
{
    if number < 87 {
        let i = number as usize;
        return GROUPS[i];
    }
    0
}

// A call that asks.
fn ask(world: World, group: u64, number: u64, args: &[u64], store: &[u16]) -> Answer
    ensures { result ≡ spoken (ask_by world group number args.now store.now) }
{
    let routing = world.routing;
    let neighbors = world.neighbors;
    if group == 1 {
        return routing_groups::ask_routing(routing, number, args);
    }
    if group == 2 {
        return neighbor_groups::ask_neighbors(neighbors, number, args);
    }
    if group == 3 {
        return neighbor_groups::ask_children(neighbors, number, args);
    }
    if group == 4 {
        return neighbor_groups::list_neighbors(neighbors, number, args);
    }
    if group == 5 {
        return routing_groups::ask_records(routing, number, args, store);
    }
    if group == 6 {
        return decision_lines::decide(routing, neighbors, number, args, store);
    }
    numbers::no_call()
}

// A call that changes the routing state and is not lent the store. Never inlined, so that `call` is: both states are moved once less.
#[inline(never)]
fn change_routing(routing: Routing, group: u64, number: u64, args: &[u64]) -> RoutingReply
    ensures { result ≡ routes_by routing group number args.now }
{
    if group == 8 {
        return routing_groups::change_routes(routing, number, args);
    }
    if group == 9 {
        return routing_groups::change_searches(routing, number, args);
    }
    routing_groups::load_routes(routing, number, args)
}

// A call that changes the neighbours.
fn change_neighbors(state: Neighbors, group: u64, number: u64, args: &[u64]) -> NeighborsReply
    ensures { result ≡ neighbors_by state group number args.now }
{
    if group == 11 {
        return neighbor_groups::note_neighbors(state, number, args);
    }
    if group == 12 {
        return neighbor_groups::change_children(state, number, args);
    }
    neighbor_groups::load_neighbors(state, number, args)
}

// The routing state and the answer of a call on it, put into the world.
fn routed(world: World, x: RoutingReply) -> Reply
    ensures { result ≡ routed_by world x }
{
    let state = x.state;
    let answer = x.answer;
    world::routed(world, state, answer)
}

// The neighbours and the answer of a call on them, put into the world.
fn neighboured(world: World, x: NeighborsReply) -> Reply
    ensures { result ≡ neighboured_by world x }
{
    let state = x.state;
    let answer = x.answer;
    world::neighboured(world, state, answer)
}

// The call of a number. What is no call here leaves the world and the store.
pub fn call(world: World, number: u64, args: &[u64], store: &mut [u16]) -> Reply
    ensures value { result ≡ call_of world number args.now store.old }
    ensures store_after { store.new ≡ store_of world number args.now store.old }
{
    let g = group(number);
    if g < 7 {
        let answer = ask(world, g, number, args, store);
        return world::asked(world, answer);
    }
    if g == 7 {
        let routing = world.routing;
        return routed(
            world,
            routing_groups::change_records(routing, number, args, store),
        );
    }
    if g < 11 {
        let routing = world.routing;
        return routed(world, change_routing(routing, g, number, args));
    }
    if g < 14 {
        let neighbors = world.neighbors;
        return neighboured(world, change_neighbors(neighbors, g, number, args));
    }
    world::asked(world::fresh(), numbers::done())
}

// The line at a place of those that print the world, and no call from the last on.
pub fn table_line(world: World, index: u64, store: &[u16]) -> Answer
    ensures { result ≡ spoken (line_said (world_lines world store.now) index) }
{
    let s = world.routing;
    let n = route_loads::prints::line_count(s);
    let i = index as usize;
    if i < n {
        return route_loads::prints::line(s, i, store);
    }
    let b = world.neighbors;
    neighbor_loads::prints::line(b, i - n)
}
