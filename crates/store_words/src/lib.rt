// The words that change the relay store itself, which a script uses to lend a store that is wrong; and the fresh state.
#![tactic(auto)]

ghost use Rattle.std.specs.Prelude.{◌≡◌};
ghost use Rattle.store_words.specs.Turns.{reset_turn, cleared, set_turn, stored, length_turn};

use numbers::Answer;
use world::World;

// What such a word leaves: the world, how many places of the store are lent, and the answer.
#[derive(Drop)]
pub struct Turn {
    pub world: World,
    pub length: usize,
    pub answer: Answer,
}

// Each place of the store 0.
fn clear(store: &mut [u16])
    ensures { store.new ≡ cleared store.old }
{
    store.fill(0);
}

// The fresh world, and the store with it.
pub fn reset(store: &mut [u16]) -> Turn
    ensures { (result ≡ reset_turn) × (store.new ≡ cleared store.old) }
{
    clear(store);
    let world = world::fresh();
    let answer = numbers::done();
    Turn {
        world,
        length: 2048,
        answer,
    }
}

// One number of the store set, at a place that it has.
pub fn set_store(world: World, length: usize, args: &[u64], store: &mut [u16]) -> Turn
    ensures { (result ≡ set_turn world length args.now store.old) × (store.new ≡ stored args.now store.old) }
{
    let i = numbers::at(args, 0) as usize;
    let v = numbers::nwk(args, 1);
    if i < store.len() {
        store[i] = v.0;
        let answer = numbers::done();
        return Turn {
            world,
            length,
            answer,
        };
    }
    let answer = numbers::no_call();
    Turn {
        world,
        length,
        answer,
    }
}

// How many places of the store are lent from now on.
pub fn set_store_length(world: World, length: usize, args: &[u64], store: &[u16]) -> Turn
    ensures { result ≡ length_turn world length args.now store.now }
{
    let n = numbers::at(args, 0) as usize;
    if n <= store.len() {
        let answer = numbers::done();
        return Turn {
            world,
            length: n,
            answer,
        };
    }
    let answer = numbers::no_call();
    Turn {
        world,
        length,
        answer,
    }
}
