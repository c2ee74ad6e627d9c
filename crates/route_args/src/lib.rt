// The arguments of routing calls read from numbers: statuses, many-to-one fields, lists of relays, and whole entries, each from a place on.
#![tactic(auto)]

ghost use Rattle.std.specs.Prelude.{◌≡◌, ◌<◌};
ghost use Rattle.route_args.specs.Read.{many_to_one_of, status_of, relays_at, route_at, discovery_at};

use standard::{DiscoveryEntry, ManyToOne, RelayList, RouteEntry, Status};

// The many-to-one field by its number; a number past the last is Reserved.
pub fn many_to_one(n: u64) -> ManyToOne
    ensures { result ≡ many_to_one_of n }
{
    if n == 0 {
        return ManyToOne::NotManyToOne;
    }
    if n == 1 {
        return ManyToOne::SenderSupportsRouteRecordTable;
    }
    if n == 2 {
        return ManyToOne::SenderDoesntSupportRouteRecordTable;
    }
    ManyToOne::Reserved
}

// A route's status by its number; a number past the last is Inactive.
pub fn status(n: u64) -> Status
    ensures { result ≡ status_of n }
{
    if n == 0 {
        return Status::Active;
    }
    if n == 1 {
        return Status::DiscoveryUnderway;
    }
    if n == 2 {
        return Status::DiscoveryFailed;
    }
    Status::Inactive
}

// A list of relays: their count at a place, and they after it, of which 32 have a place in the list.
pub fn relays(args: &[u64], from: usize) -> RelayList
    requires { from < 65536 }
    ensures { result ≡ relays_at args.now from }
{
    let count = numbers::at(args, from) as usize;
    let mut l = relay_store::no_relays();
    l.count = count;
    for i in 0..count.min(32) {
        let a = numbers::nwk(args, from + 1 + i);
        l.addresses[i] = a;
    }
    l
}

// A route: destination, status, four flags, hop, cost, total and recent use.
pub fn route(args: &[u64], from: usize) -> RouteEntry
    requires { from < 65536 }
    ensures { result ≡ route_at args.now from }
{
    let destination = numbers::nwk(args, from);
    let status = status(numbers::at(args, from + 1));
    let no_route_cache = numbers::flag(args, from + 2);
    let many_to_one = numbers::flag(args, from + 3);
    let route_record_required = numbers::flag(args, from + 4);
    let expired = numbers::flag(args, from + 5);
    let next_hop_address = numbers::nwk(args, from + 6);
    let path_cost = numbers::byte(args, from + 7);
    let total_usage_count = numbers::counter(args, from + 8);
    let recent_activity = numbers::byte(args, from + 9);
    RouteEntry {
        destination,
        status,
        no_route_cache,
        many_to_one,
        route_record_required,
        expired,
        next_hop_address,
        path_cost,
        total_usage_count,
        recent_activity,
    }
}

// A discovery: source, id, sender, forward and residual cost, when it is over, destination.
pub fn discovery(args: &[u64], from: usize) -> DiscoveryEntry
    requires { from < 65536 }
    ensures { result ≡ discovery_at args.now from }
{
    let source_address = numbers::nwk(args, from);
    let route_request_id = numbers::byte(args, from + 1);
    let sender_address = numbers::nwk(args, from + 2);
    let forward_cost = numbers::byte(args, from + 3);
    let residual_cost = numbers::byte(args, from + 4);
    let expiration_time = numbers::at(args, from + 5);
    let destination_address = numbers::nwk(args, from + 6);
    DiscoveryEntry {
        route_request_id,
        source_address,
        sender_address,
        forward_cost,
        residual_cost,
        expiration_time,
        destination_address,
    }
}
