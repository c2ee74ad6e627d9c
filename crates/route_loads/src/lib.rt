// The lines that set the routing state up, and those that damage it: each puts one entry or one number, and nothing else.
#![tactic(auto)]

pub mod prints;

ghost use Rattle.std.specs.Prelude.{◌≡◌, ◌≤◌};
ghost use Rattle.route_loads.specs.Loads.{loaded, no_call, list_too_long, put_counters, route_put, put_route, discovery_put, put_discovery, record_put, record_put_store, put_record, put_record_store, set_route_count, set_route_key, set_discovery_count, set_discovery_key, set_record_count, set_record_key};

use discovery_table::Discoveries;
use numbers::Answer;
use record_table::Records;
use route_table::Routes;
use routing::Routing;
use standard::{DiscoveryEntry, RelayList, RouteEntry};
use types::{Nwk, Refusal};

// What a call on the routing state is answered, and the state after it.
#[derive(Drop)]
pub struct RoutingReply {
    pub answer: Answer,
    pub state: Routing,
}

// The line is done.
fn load(s: Routing) -> RoutingReply
    ensures { result ≡ loaded s }
{
    let answer = numbers::done();
    RoutingReply { answer, state: s }
}

// The line is no call on this state, which stays.
pub fn no_call(s: Routing) -> RoutingReply
    ensures { result ≡ no_call s }
{
    let answer = numbers::no_call();
    RoutingReply { answer, state: s }
}

// The list is too long for a record; the state stays.
fn refuse_list(s: Routing) -> RoutingReply
    ensures { result ≡ list_too_long s }
{
    let answer = numbers::refused(Refusal::ListTooLong);
    RoutingReply { answer, state: s }
}

// The last request id and the two trigger counters.
pub fn put_counters(s: Routing, args: &[u64]) -> RoutingReply
    ensures { result ≡ put_counters s args.now }
{
    let id = numbers::byte(args, 0);
    let errors = numbers::byte(args, 1);
    let failures = numbers::byte(args, 2);
    let mut x = s;
    x.request_sequence_number = id;
    x.mtorr_route_errors = errors;
    x.mtorr_delivery_failures = failures;
    load(x)
}

// An entry under its key, if there is room in a table that is well formed.
fn load_route(s: Routing, e: RouteEntry) -> RoutingReply
    ensures { result ≡ route_put e s }
{
    if !route_table::well_formed(&s.route_keys, &s.route_words, &s.route_usage, s.routes) {
        return no_call(s);
    }
    let mut x = s;
    let mut routes = Routes {
        keys: &mut x.route_keys,
        words: &mut x.route_words,
        usage: &mut x.route_usage,
        count: x.routes,
    };
    let place = routes.seen().place_of(e.destination);
    if !columns::has_room(place, s.routes, 64) {
        return no_call(s);
    }
    routes.put_at(place, e);
    x.routes = routes.count;
    load(x)
}

// A route as its line names it.
pub fn put_route(s: Routing, args: &[u64]) -> RoutingReply
    ensures { result ≡ put_route s args.now }
{
    let e = route_args::route(args, 0);
    load_route(s, e)
}

// An entry under its key, if there is room in a table that is well formed.
fn load_discovery(s: Routing, e: DiscoveryEntry) -> RoutingReply
    ensures { result ≡ discovery_put e s }
{
    if !discovery_table::well_formed(
        &s.discovery_keys,
        &s.discovery_words,
        &s.discovery_ends,
        s.discoveries,
    ) {
        return no_call(s);
    }
    let mut x = s;
    let mut discoveries = Discoveries {
        keys: &mut x.discovery_keys,
        words: &mut x.discovery_words,
        ends: &mut x.discovery_ends,
        count: x.discoveries,
    };
    let place = discoveries
        .seen()
        .place_of(e.source_address, e.route_request_id);
    if !columns::has_room(place, s.discoveries, 32) {
        return no_call(s);
    }
    discoveries.put_at(place, e);
    x.discoveries = discoveries.count;
    load(x)
}

// A discovery as its line names it.
pub fn put_discovery(s: Routing, args: &[u64]) -> RoutingReply
    ensures { result ≡ put_discovery s args.now }
{
    let e = route_args::discovery(args, 0);
    load_discovery(s, e)
}

// A record under its destination, if there is room in a table that is well formed and that the store agrees with.
fn load_record(s: Routing, store: &mut [u16], destination: Nwk, l: RelayList) -> RoutingReply
    requires { l.count ≤ 32 }
    ensures value { result ≡ record_put destination l s store.old }
    ensures store_after { store.new ≡ record_put_store destination l s store.old }
{
    if !record_table::well_formed(&s.record_keys, &s.record_lengths, s.records) {
        return no_call(s);
    }
    if !relay_store::agrees(&s.record_lengths, store) {
        return no_call(s);
    }
    let mut x = s;
    let mut records = Records {
        keys: &mut x.record_keys,
        lengths: &mut x.record_lengths,
        count: x.records,
    };
    let place = records.seen().place_of(destination);
    if !columns::has_room(place, s.records, 64) {
        return no_call(s);
    }
    route_record::put_record(&mut records, store, place, destination, l, 0);
    x.records = records.count;
    load(x)
}

// A record as its line names it: the destination and the relays.
pub fn put_record(s: Routing, args: &[u64], store: &mut [u16]) -> RoutingReply
    ensures value { result ≡ put_record s args.now store.old }
    ensures store_after { store.new ≡ put_record_store s args.now store.old }
{
    let destination = numbers::nwk(args, 0);
    let l = route_args::relays(args, 1);
    if 32 < l.count {
        return refuse_list(s);
    }
    load_record(s, store, destination, l)
}

// The count of a table that a line damages.
pub fn set_route_count(s: Routing, args: &[u64]) -> RoutingReply
    ensures { result ≡ set_route_count s args.now }
{
    let n = numbers::at(args, 0) as usize;
    let mut x = s;
    x.routes = n;
    load(x)
}

// A key of a table that a line damages: the place and the key.
pub fn set_route_key(s: Routing, args: &[u64]) -> RoutingReply
    ensures { result ≡ set_route_key s args.now }
{
    let i = numbers::at(args, 0) as usize;
    let k = numbers::at(args, 1);
    if (64 <= i) | (65535 < k) {
        return no_call(s);
    }
    let mut keys = s.route_keys;
    keys[i] = k as u16;
    let mut x = s;
    x.route_keys = keys;
    load(x)
}

// The count of a table that a line damages.
pub fn set_discovery_count(s: Routing, args: &[u64]) -> RoutingReply
    ensures { result ≡ set_discovery_count s args.now }
{
    let n = numbers::at(args, 0) as usize;
    let mut x = s;
    x.discoveries = n;
    load(x)
}

// A key of a table that a line damages: the place and the key.
pub fn set_discovery_key(s: Routing, args: &[u64]) -> RoutingReply
    ensures { result ≡ set_discovery_key s args.now }
{
    let i = numbers::at(args, 0) as usize;
    let k = numbers::at(args, 1);
    if (32 <= i) | (4294967295 < k) {
        return no_call(s);
    }
    let mut keys = s.discovery_keys;
    keys[i] = k as u32;
    let mut x = s;
    x.discovery_keys = keys;
    load(x)
}

// The count of a table that a line damages.
pub fn set_record_count(s: Routing, args: &[u64]) -> RoutingReply
    ensures { result ≡ set_record_count s args.now }
{
    let n = numbers::at(args, 0) as usize;
    let mut x = s;
    x.records = n;
    load(x)
}

// A key of a table that a line damages: the place and the key.
pub fn set_record_key(s: Routing, args: &[u64]) -> RoutingReply
    ensures { result ≡ set_record_key s args.now }
{
    let i = numbers::at(args, 0) as usize;
    let k = numbers::at(args, 1);
    if (64 <= i) | (65535 < k) {
        return no_call(s);
    }
    let mut keys = s.record_keys;
    keys[i] = k as u16;
    let mut x = s;
    x.record_keys = keys;
    load(x)
}
