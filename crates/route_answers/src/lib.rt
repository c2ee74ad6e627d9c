// Each answer of the routing calls as numbers: one function for each kind of answer, with the definition that says it.
#![tactic(auto)]

ghost use Rattle.std.specs.Prelude.{◌≡◌, ◌∷◌, map};
ghost use Rattle.numbers.specs.Said.{ok, pushed_all, spoken};
ghost use Rattle.standard.specs.Numbers.{status_number, update_numbers, disposition_numbers};
ghost use Rattle.relay_store.specs.Store.{number, relays_of};
ghost use Rattle.route_answers.specs.Values.{route_numbers, discovery_numbers, relay_numbers, status_numbers, deadline_numbers, check_numbers, route_looked_numbers, discovery_looked_numbers};
ghost use Rattle.route_answers.specs.Answers.{status_said, hop_said, deadline_said, count_said, route_at_said, discovery_at_said, check_said, told_said, done_said, reply_said, request_said, begin_said, record_said, way_said, record_at_said};

use numbers::{Answer, Numbers};
use route_calls::Checked;
use routing::{RecordAtOutcome, RouteToAnswer, RouteToOutcome};
use standard::{DiscoveryEntry, RelayList, RouteEntry, RouteReplyDisposition, RouteUpdate, Status};
use types::{Nwk, Refusal};

// A status as its number.
pub fn status_number(s: Status) -> u64
    ensures { result ≡ status_number s }
{
    s as u64
}

// A route's numbers after a first one.
pub fn route_values(first: u64, e: RouteEntry) -> Answer
    ensures { result ≡ spoken (ok (first ∷ route_numbers e)) }
{
    let s = e.status;
    let status = status_number(s);
    let cache = numbers::flag_number(e.no_route_cache);
    let many = numbers::flag_number(e.many_to_one);
    let required = numbers::flag_number(e.route_record_required);
    let expired = numbers::flag_number(e.expired);
    let xs = [
        first,
        e.destination.0 as u64,
        status,
        cache,
        many,
        required,
        expired,
        e.next_hop_address.0 as u64,
        e.path_cost as u64,
        e.total_usage_count as u64,
        e.recent_activity as u64,
    ];
    numbers::said(&xs)
}

// A discovery's numbers after a first one.
pub fn discovery_values(first: u64, e: DiscoveryEntry) -> Answer
    ensures { result ≡ spoken (ok (first ∷ discovery_numbers e)) }
{
    let xs = [
        first,
        e.source_address.0 as u64,
        e.route_request_id as u64,
        e.sender_address.0 as u64,
        e.forward_cost as u64,
        e.residual_cost as u64,
        e.expiration_time,
        e.destination_address.0 as u64,
    ];
    numbers::said(&xs)
}

// The addresses of a list of relays, one by one.
fn push_addresses(n: Numbers, l: RelayList) -> Numbers
    ensures { result ≡ pushed_all n (map number (relays_of l)) }
{
    let count = l.count.min(32);
    let mut m = n;
    for a in &l.addresses[..count] {
        m = numbers::push(m, a.0 as u64);
    }
    m
}

// A list of relays: how many, and their addresses.
pub fn push_relays(n: Numbers, l: RelayList) -> Numbers
    ensures { result ≡ pushed_all n (relay_numbers l) }
{
    let m = numbers::push(n, l.count as u64);
    push_addresses(m, l)
}

// What a call reports of routes.
fn push_update(n: Numbers, u: Option<RouteUpdate>) -> Numbers
    ensures { result ≡ pushed_all n (update_numbers u) }
{
    match u {
        None => numbers::push(n, 0),
        Some(route) => {
            let xs = [
                1,
                route.destination.0 as u64,
                route.next_hop.0 as u64,
                route.path_cost as u64,
            ];
            numbers::push_each(n, &xs)
        }
    }
}

// What is done with a reply.
fn push_disposition(n: Numbers, d: RouteReplyDisposition) -> Numbers
    ensures { result ≡ pushed_all n (disposition_numbers d) }
{
    match d {
        RouteReplyDisposition::Drop => numbers::push(n, 0),
        RouteReplyDisposition::Established => numbers::push(n, 1),
        RouteReplyDisposition::Relay {
            next_hop,
            path_cost,
        } => {
            let xs = [2, next_hop.0 as u64, path_cost as u64];
            numbers::push_each(n, &xs)
        }
    }
}

fn say_status(s: Option<Status>) -> Answer
    ensures { result ≡ spoken (ok (status_numbers s)) }
{
    match s {
        None => numbers::said(&[0]),
        Some(status) => {
            let x = status_number(status);
            numbers::said(&[1, x])
        }
    }
}

fn say_deadline(d: Option<u64>) -> Answer
    ensures { result ≡ spoken (ok (deadline_numbers d)) }
{
    match d {
        None => numbers::said(&[0]),
        Some(time) => numbers::said(&[1, time]),
    }
}

fn say_check(x: Checked) -> Answer
    ensures { result ≡ spoken (ok (check_numbers x)) }
{
    match x {
        Checked::Sound => numbers::said(&[0]),
        Checked::UnknownHop(d) => numbers::said(&[1, d.0 as u64]),
        Checked::Orphan(d) => numbers::said(&[2, d.0 as u64]),
    }
}

fn say_route(x: Option<RouteEntry>) -> Answer
    ensures { result ≡ spoken (ok (route_looked_numbers x)) }
{
    match x {
        None => numbers::said(&[0]),
        Some(e) => route_values(1, e),
    }
}

fn say_discovery(x: Option<DiscoveryEntry>) -> Answer
    ensures { result ≡ spoken (ok (discovery_looked_numbers x)) }
{
    match x {
        None => numbers::said(&[0]),
        Some(e) => discovery_values(1, e),
    }
}

// How a route stands.
pub fn status_answer(o: Result<Option<Status>, Refusal>) -> Answer
    ensures { result ≡ spoken (status_said o) }
{
    match o {
        Err(why) => numbers::refused(why),
        Ok(s) => say_status(s),
    }
}

// The next hop.
pub fn hop_answer(o: Result<Option<Nwk>, Refusal>) -> Answer
    ensures { result ≡ spoken (hop_said o) }
{
    match o {
        Err(why) => numbers::refused(why),
        Ok(None) => numbers::said(&[0]),
        Ok(Some(n)) => numbers::said(&[1, n.0 as u64]),
    }
}

// When a discovery is over.
pub fn deadline_answer(o: Result<Option<u64>, Refusal>) -> Answer
    ensures { result ≡ spoken (deadline_said o) }
{
    match o {
        Err(why) => numbers::refused(why),
        Ok(d) => say_deadline(d),
    }
}

// How many rows a table has.
pub fn count_answer(o: Result<usize, Refusal>) -> Answer
    ensures { result ≡ spoken (count_said o) }
{
    match o {
        Err(why) => numbers::refused(why),
        Ok(n) => numbers::said(&[n as u64]),
    }
}

// The route at a place.
pub fn route_at_answer(o: Result<Option<RouteEntry>, Refusal>) -> Answer
    ensures { result ≡ spoken (route_at_said o) }
{
    match o {
        Err(why) => numbers::refused(why),
        Ok(x) => say_route(x),
    }
}

// The discovery at a place.
pub fn discovery_at_answer(o: Result<Option<DiscoveryEntry>, Refusal>) -> Answer
    ensures { result ≡ spoken (discovery_at_said o) }
{
    match o {
        Err(why) => numbers::refused(why),
        Ok(x) => say_discovery(x),
    }
}

// The table check.
pub fn check_answer(o: Result<Checked, Refusal>) -> Answer
    ensures { result ≡ spoken (check_said o) }
{
    match o {
        Err(why) => numbers::refused(why),
        Ok(x) => say_check(x),
    }
}

// Yes or no.
pub fn told_answer(o: Result<bool, Refusal>) -> Answer
    ensures { result ≡ spoken (told_said o) }
{
    match o {
        Err(why) => numbers::refused(why),
        Ok(b) => {
            let x = numbers::flag_number(b);
            numbers::said(&[x])
        }
    }
}

// Done, and nothing more.
pub fn done_answer(o: Result<(), Refusal>) -> Answer
    ensures { result ≡ spoken (done_said o) }
{
    match o {
        Err(why) => numbers::refused(why),
        Ok(()) => numbers::done(),
    }
}

// What becomes of a route reply.
pub fn reply_answer(o: Result<(RouteReplyDisposition, Option<RouteUpdate>), Refusal>) -> Answer
    ensures { result ≡ spoken (reply_said o) }
{
    match o {
        Err(why) => numbers::refused(why),
        Ok((d, u)) => {
            let n = numbers::none();
            let m = push_disposition(n, d);
            numbers::answered(push_update(m, u))
        }
    }
}

// What becomes of a route request.
pub fn request_answer(o: Result<(bool, Option<RouteUpdate>), Refusal>) -> Answer
    ensures { result ≡ spoken (request_said o) }
{
    match o {
        Err(why) => numbers::refused(why),
        Ok((accepted, u)) => {
            let n = numbers::none();
            let m = numbers::push(n, numbers::flag_number(accepted));
            numbers::answered(push_update(m, u))
        }
    }
}

// The request id of what was begun.
pub fn begin_answer(o: Result<u8, Refusal>) -> Answer
    ensures { result ≡ spoken (begin_said o) }
{
    match o {
        Err(why) => numbers::refused(why),
        Ok(id) => numbers::said(&[id as u64]),
    }
}

// Whether a route record changed what is known.
pub fn record_answer(o: Result<bool, Refusal>) -> Answer
    ensures { result ≡ spoken (record_said o) }
{
    match o {
        Err(why) => numbers::refused(why),
        Ok(b) => {
            let x = numbers::flag_number(b);
            numbers::said(&[x])
        }
    }
}

// The relays of a source route after a first number.
fn say_relays(first: u64, l: RelayList) -> Answer
    ensures { result ≡ spoken (ok (first ∷ relay_numbers l)) }
{
    let n = numbers::none();
    let m = numbers::push(n, first);
    numbers::answered(push_relays(m, l))
}

// The way to a destination.
pub fn way_answer(o: RouteToOutcome) -> Answer
    ensures { result ≡ spoken (way_said o.answer o.relays) }
{
    let answer = o.answer;
    match answer {
        Err(why) => numbers::refused(why),
        Ok(RouteToAnswer::NoRoute) => numbers::said(&[0]),
        Ok(RouteToAnswer::NextHop(n)) => numbers::said(&[1, n.0 as u64]),
        Ok(RouteToAnswer::SourceRoute) => {
            let l = o.relays;
            say_relays(2, l)
        }
    }
}

// A route record's numbers after a first one: its destination and its relays.
pub fn record_values(first: u64, destination: Nwk, l: RelayList) -> Answer
    ensures { result ≡ spoken (ok (first ∷ destination.0 ∷ relay_numbers l)) }
{
    let n = numbers::none();
    let m = numbers::push(n, first);
    let k = numbers::push(m, destination.0 as u64);
    numbers::answered(push_relays(k, l))
}

// The route record at a place.
pub fn record_at_answer(o: RecordAtOutcome) -> Answer
    ensures { result ≡ spoken (record_at_said o.answer o.relays) }
{
    let answer = o.answer;
    match answer {
        Err(why) => numbers::refused(why),
        Ok(None) => numbers::said(&[0]),
        Ok(Some(e)) => {
            let l = o.relays;
            let destination = e.destination;
            record_values(1, destination, l)
        }
    }
}
