// The two states that a script's calls are made on, side by side, and a call's answer with the world after it.
#![tactic(auto)]

ghost use Rattle.std.specs.Prelude.{◌≡◌};
ghost use Rattle.world.specs.Worlds.{fresh_world, asked, routed, neighboured};

use neighbors::Neighbors;
use numbers::Answer;
use routing::Routing;

#[derive(Clone, Copy)]
pub struct World {
    pub routing: Routing,
    pub neighbors: Neighbors,
}

// What a call is answered, and the world after it.
#[derive(Drop)]
pub struct Reply {
    pub world: World,
    pub answer: Answer,
}

// Both states fresh.
pub fn fresh() -> World
    ensures { result ≡ fresh_world }
{
    let routing = Routing::new();
    let neighbors = Neighbors::new();
    World { routing, neighbors }
}

// A question's answer: the world stays.
pub fn asked(world: World, answer: Answer) -> Reply
    ensures { result ≡ asked world answer }
{
    Reply { world, answer }
}

// The answer of a call on the routing state.
pub fn routed(world: World, routing: Routing, answer: Answer) -> Reply
    ensures { result ≡ routed world routing answer }
{
    let neighbors = world.neighbors;
    let world = World { routing, neighbors };
    Reply { world, answer }
}

// The answer of a call on the neighbours.
pub fn neighboured(world: World, neighbors: Neighbors, answer: Answer) -> Reply
    ensures { result ≡ neighboured world neighbors answer }
{
    let routing = world.routing;
    let world = World { routing, neighbors };
    Reply { world, answer }
}
