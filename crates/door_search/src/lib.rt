// The calls of route search at the door for C.
#![tactic(auto)]

mod reply;
mod request;

// The places of what is to be done with a reply: drop 0, established 1, relay 2 with the hop and the cost to relay it with.
// A flag or a number beside the values, and no Option or enum, since C reads these places.
#[derive(Drop)]
pub struct DispositionPlaces {
    pub disposition: u8,
    pub next_hop: u16,
    pub path_cost: u8,
}
