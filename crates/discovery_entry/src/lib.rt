// One discovery: made by a request or by a search of our own, reached by a better request, settled by a reply.
#![tactic(auto)]

ghost use Rattle.std.specs.Prelude.{◌≡◌};
ghost use Rattle.standard.specs.Begin.{own_discovery};
ghost use Rattle.standard.specs.Reply.{settled};
ghost use Rattle.standard.specs.Request.{new_discovery, reached};

use standard::DiscoveryEntry;
use types::Nwk;

// A discovery that is made new.
pub fn new_discovery(
    source: Nwk,
    id: u8,
    sender: Nwk,
    forward_cost: u8,
    expires: u64,
    destination: Nwk,
) -> DiscoveryEntry
    ensures { result ≡ new_discovery source id sender forward_cost expires destination }
{
    DiscoveryEntry {
        route_request_id: id,
        source_address: source,
        sender_address: sender,
        forward_cost,
        residual_cost: 255,
        expiration_time: expires,
        destination_address: destination,
    }
}

// A discovery of our own: no sender, forward cost 0.
pub fn own_discovery(own: Nwk, id: u8, expires: u64, destination: Nwk) -> DiscoveryEntry
    ensures { result ≡ own_discovery own id expires destination }
{
    new_discovery(own, id, Nwk(0xFFFF), 0, expires, destination)
}

// The discovery after a request that is as good or better.
pub fn reached(d: DiscoveryEntry, sender: Nwk, cost: u8) -> DiscoveryEntry
    ensures { result ≡ reached sender cost d }
{
    let mut u = d;
    u.sender_address = sender;
    u.forward_cost = cost;
    u
}

// The discovery after a reply that is followed.
pub fn settled(d: DiscoveryEntry, cost: u8) -> DiscoveryEntry
    ensures { result ≡ settled cost d }
{
    let mut u = d;
    u.residual_cost = cost;
    u
}
