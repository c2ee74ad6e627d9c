// The lines that print the routing state, each as numbers: counters, routes, discoveries, records. The columns are read as they are.
ghost use Rattle.std.specs.Prelude.{◌≡◌, ◌++◌, ◌<◌, min};
ghost use Rattle.numbers.specs.Said.{ok, spoken};
ghost use Rattle.lines.specs.Lines.{line_said};
ghost use Rattle.routing.specs.State.{route_table, discovery_table, record_table};
ghost use Rattle.route_loads.specs.Prints.{relays_held, counter_line, route_lines, discovery_lines, record_lines, routing_lines, after_routes, line_count};

use numbers::Answer;
use routing::Routing;
use standard::RelayList;
use types::Nwk;

// The relays that a row of a store holds; places past the store's end read 0.
fn row_relays(store: &[u16], i: usize, count: usize) -> RelayList
    requires { i < 64 }
    ensures { result ≡ relays_held store.now i count }
{
    let n = count.min(32);
    let from = 32 * i;
    let mut l = relay_store::no_relays();
    l.count = n;
    for j in 0..n {
        if store.len() <= from + j {
            return l;
        }
        let a = Nwk(store[from + j]);
        l.addresses[j] = a;
    }
    l
}

// The request id and the trigger counters.
fn counter_line(s: Routing) -> Answer
    ensures { result ≡ spoken (ok (counter_line s)) }
{
    let xs = [
        3,
        s.request_sequence_number as u64,
        s.mtorr_route_errors as u64,
        s.mtorr_delivery_failures as u64,
    ];
    numbers::said(&xs)
}

// The line of a route.
fn route_line(s: Routing, i: usize) -> Answer
    requires { i < min s.routes 64 }
    ensures { result ≡ spoken (line_said (route_lines (route_table s)) i) }
{
    let keys = s.route_keys;
    let words = s.route_words;
    let usage = s.route_usage;
    let e = route_table::entry_at(&keys, &words, &usage, i);
    route_answers::route_values(4, e)
}

// The line of a discovery.
fn discovery_line(s: Routing, i: usize) -> Answer
    requires { i < min s.discoveries 32 }
    ensures { result ≡ spoken (line_said (discovery_lines (discovery_table s)) i) }
{
    let keys = s.discovery_keys;
    let words = s.discovery_words;
    let ends = s.discovery_ends;
    let e = discovery_table::entry_at(&keys, &words, &ends, i);
    route_answers::discovery_values(5, e)
}

// The line of a record.
fn record_line(s: Routing, i: usize, store: &[u16]) -> Answer
    requires { i < min s.records 64 }
    ensures { result ≡ spoken (line_said (record_lines (record_table s) store.now) i) }
{
    let keys = s.record_keys;
    let lengths = s.record_lengths;
    let e = record_table::entry_at(&keys, &lengths, i);
    let d = e.destination;
    let l = row_relays(store, i, e.relay_count as usize);
    route_answers::record_values(6, d, l)
}

// A line of the records.
fn from_records(s: Routing, i: usize, store: &[u16]) -> Answer
    ensures { result ≡ spoken (line_said (record_lines (record_table s) store.now) i) }
{
    let n = s.records.min(64);
    if n <= i {
        return numbers::no_call();
    }
    record_line(s, i, store)
}

// A line of the discoveries or of what comes after them.
fn from_discoveries(s: Routing, i: usize, store: &[u16]) -> Answer
    ensures { result ≡ spoken (line_said (after_routes s store.now) i) }
{
    let n = s.discoveries.min(32);
    if i < n {
        return discovery_line(s, i);
    }
    from_records(s, i - n, store)
}

// A line of the routes or of what comes after them.
fn from_routes(s: Routing, i: usize, store: &[u16]) -> Answer
    ensures { result ≡ spoken (line_said (route_lines (route_table s) ++ after_routes s store.now) i) }
{
    let n = s.routes.min(64);
    if i < n {
        return route_line(s, i);
    }
    from_discoveries(s, i - n, store)
}

// The line at a place.
pub fn line(s: Routing, i: usize, store: &[u16]) -> Answer
    ensures { result ≡ spoken (line_said (routing_lines s store.now) i) }
{
    if i == 0 {
        return counter_line(s);
    }
    from_routes(s, i - 1, store)
}

// How many lines there are.
pub fn line_count(s: Routing) -> usize
    ensures { result ≡ line_count s }
{
    let a = s.routes.min(64);
    let b = s.discoveries.min(32);
    let c = s.records.min(64);
    1 + (a + (b + c))
}
