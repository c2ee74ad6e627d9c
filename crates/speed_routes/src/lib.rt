// What the benchmark runs of the route searches: many calls on one state, in the exported form and on tables that are lent.
// A row of the inputs is eight numbers. The answers are added up, so that they can be compared with the Rust's.
#![tactic(auto)]

use discovery_table::{Discoveries, DiscoveryValues};
use route_table::Routes;
use routing::Routing;
use standard::{ManyToOne, RouteReplyDisposition, RouteUpdate};
use types::{Nwk, Refusal};

// The state after a call, and what its answer adds to the sum.
#[derive(Drop)]
pub struct Turn {
    pub state: Routing,
    pub weight: u64,
}

// A state with routes to 1 .. size, and searches of all but one of a half as many originators.
pub fn filled(size: u16) -> Routing {
    let s = with_routes(size);
    with_searches(s, size / 2)
}

fn with_routes(size: u16) -> Routing {
    let mut s = Routing::new();
    for i in 1..=size {
        let o = s.restore_route(Nwk(i), Nwk(2000), 3);
        s = o.state;
    }
    s
}

fn with_searches(state: Routing, count: u16) -> Routing {
    let mut s = state;
    for i in 1..count {
        let o = s.accept_route_request(
            Nwk(i),
            1,
            Nwk(3000),
            Nwk(2000),
            200,
            ManyToOne::NotManyToOne,
            0,
            1000000000000,
        );
        s = o.state;
    }
    s
}

fn reply_weight(a: Result<(RouteReplyDisposition, Option<RouteUpdate>), Refusal>) -> u64 {
    let Ok((d, _)) = a else {
        return 7;
    };
    match d {
        RouteReplyDisposition::Drop => 1,
        RouteReplyDisposition::Established => 2,
        RouteReplyDisposition::Relay {
            next_hop,
            path_cost,
        } => next_hop.0 as u64 + path_cost as u64,
    }
}

fn request_weight(a: Result<(bool, Option<RouteUpdate>), Refusal>) -> u64 {
    match a {
        Err(_) => 7,
        Ok((accepted, _)) => accepted as u64,
    }
}

fn begin_weight(a: Result<u8, Refusal>) -> u64 {
    match a {
        Err(_) => 7,
        Ok(id) => id as u64,
    }
}

// A reply: own, originator, id, responder, sender, cost.
fn reply(state: Routing, row: &[u64]) -> Turn {
    let o = state.accept_route_reply(
        numbers::nwk(row, 0),
        numbers::nwk(row, 1),
        numbers::byte(row, 2),
        numbers::nwk(row, 3),
        numbers::nwk(row, 4),
        numbers::byte(row, 5),
    );
    let state = o.state;
    let answer = o.answer;
    let weight = reply_weight(answer);
    Turn { state, weight }
}

pub fn replies(state: Routing, inputs: &[u64]) -> u64 {
    let mut s = state;
    let mut sum: u64 = 0;
    for row in inputs.chunks_exact(8) {
        let x = reply(s, row);
        s = x.state;
        sum = std::num::wrapping_add_u64(sum, x.weight);
    }
    sum
}

// The same on tables that are lent.
fn reply_lent(
    routes: &mut Routes,
    discoveries: &mut DiscoveryValues,
    row: &[u64],
) -> Result<(RouteReplyDisposition, Option<RouteUpdate>), Refusal> {
    route_reply::reply(
        routes,
        discoveries,
        numbers::nwk(row, 0),
        numbers::nwk(row, 1),
        numbers::byte(row, 2),
        numbers::nwk(row, 3),
        numbers::nwk(row, 4),
        numbers::byte(row, 5),
    )
}

// The tests of the exported form once, before the first row.
pub fn replies_core(state: Routing, inputs: &[u64]) -> u64 {
    if !route_table::well_formed(
        &state.route_keys,
        &state.route_words,
        &state.route_usage,
        state.routes,
    ) {
        return 0;
    }
    if !discovery_table::well_formed(
        &state.discovery_keys,
        &state.discovery_words,
        &state.discovery_ends,
        state.discoveries,
    ) {
        return 0;
    }
    let mut held = state;
    let mut routes = Routes {
        keys: &mut held.route_keys,
        words: &mut held.route_words,
        usage: &mut held.route_usage,
        count: held.routes,
    };
    let mut discoveries = DiscoveryValues {
        keys: &state.discovery_keys,
        words: &mut held.discovery_words,
        ends: &mut held.discovery_ends,
        count: held.discoveries,
    };
    let mut sum: u64 = 0;
    for row in inputs.chunks_exact(8) {
        let answer = reply_lent(&mut routes, &mut discoveries, row);
        sum = std::num::wrapping_add_u64(sum, reply_weight(answer));
    }
    sum
}

// A request: originator, id, destination, sender, cost, and the moment at place 6.
fn request(state: Routing, row: &[u64]) -> Turn {
    let o = state.accept_route_request(
        numbers::nwk(row, 0),
        numbers::byte(row, 1),
        numbers::nwk(row, 2),
        numbers::nwk(row, 3),
        numbers::byte(row, 4),
        ManyToOne::NotManyToOne,
        numbers::at(row, 6),
        1000,
    );
    let state = o.state;
    let answer = o.answer;
    let weight = request_weight(answer);
    Turn { state, weight }
}

pub fn requests(state: Routing, inputs: &[u64]) -> u64 {
    let mut s = state;
    let mut sum: u64 = 0;
    for row in inputs.chunks_exact(8) {
        let x = request(s, row);
        s = x.state;
        sum = std::num::wrapping_add_u64(sum, x.weight);
    }
    sum
}

// The same on tables that are lent.
fn request_lent(
    routes: &mut Routes,
    discoveries: &mut Discoveries,
    row: &[u64],
) -> Result<(bool, Option<RouteUpdate>), Refusal> {
    route_request::request(
        routes,
        discoveries,
        numbers::nwk(row, 0),
        numbers::byte(row, 1),
        numbers::nwk(row, 2),
        numbers::nwk(row, 3),
        numbers::byte(row, 4),
        ManyToOne::NotManyToOne,
        numbers::at(row, 6),
        1000,
    )
}

// The tests of the exported form once, before the first row.
pub fn requests_core(state: Routing, inputs: &[u64]) -> u64 {
    if !route_table::well_formed(
        &state.route_keys,
        &state.route_words,
        &state.route_usage,
        state.routes,
    ) {
        return 0;
    }
    if !discovery_table::well_formed(
        &state.discovery_keys,
        &state.discovery_words,
        &state.discovery_ends,
        state.discoveries,
    ) {
        return 0;
    }
    let mut held = state;
    let mut routes = Routes {
        keys: &mut held.route_keys,
        words: &mut held.route_words,
        usage: &mut held.route_usage,
        count: held.routes,
    };
    let mut discoveries = Discoveries {
        keys: &mut held.discovery_keys,
        words: &mut held.discovery_words,
        ends: &mut held.discovery_ends,
        count: held.discoveries,
    };
    let mut sum: u64 = 0;
    for row in inputs.chunks_exact(8) {
        let answer = request_lent(&mut routes, &mut discoveries, row);
        sum = std::num::wrapping_add_u64(sum, request_weight(answer));
    }
    sum
}

// A begin: own, destination, the moment and the span.
fn begin(state: Routing, row: &[u64]) -> Turn {
    let o = state.begin_discovery(
        numbers::nwk(row, 0),
        numbers::nwk(row, 1),
        numbers::at(row, 2),
        numbers::at(row, 3),
    );
    let state = o.state;
    let answer = o.answer;
    let weight = begin_weight(answer);
    Turn { state, weight }
}

pub fn begins(state: Routing, inputs: &[u64]) -> u64 {
    let mut s = state;
    let mut sum: u64 = 0;
    for row in inputs.chunks_exact(8) {
        let x = begin(s, row);
        s = x.state;
        sum = std::num::wrapping_add_u64(sum, x.weight);
    }
    sum
}

// The same on tables that are lent, under the next request id.
fn begin_lent(
    routes: &mut Routes,
    discoveries: &mut Discoveries,
    id: u8,
    row: &[u64],
) -> Result<u8, Refusal> {
    route_begin::begin(
        routes,
        discoveries,
        numbers::nwk(row, 0),
        id,
        numbers::nwk(row, 1),
        numbers::at(row, 2),
        numbers::at(row, 3),
    )
}

// The last request id after a search was begun or refused.
fn begun(a: Result<u8, Refusal>, last: u8) -> u8 {
    match a {
        Err(_) => last,
        Ok(id) => id,
    }
}

// The tests of the exported form once, before the first row.
pub fn begins_core(state: Routing, inputs: &[u64]) -> u64 {
    if !route_table::well_formed(
        &state.route_keys,
        &state.route_words,
        &state.route_usage,
        state.routes,
    ) {
        return 0;
    }
    if !discovery_table::well_formed(
        &state.discovery_keys,
        &state.discovery_words,
        &state.discovery_ends,
        state.discoveries,
    ) {
        return 0;
    }
    let mut held = state;
    let mut routes = Routes {
        keys: &mut held.route_keys,
        words: &mut held.route_words,
        usage: &mut held.route_usage,
        count: held.routes,
    };
    let mut discoveries = Discoveries {
        keys: &mut held.discovery_keys,
        words: &mut held.discovery_words,
        ends: &mut held.discovery_ends,
        count: held.discoveries,
    };
    let mut last = state.request_sequence_number;
    let mut sum: u64 = 0;
    for row in inputs.chunks_exact(8) {
        let id = types::next_id(last);
        let answer = begin_lent(&mut routes, &mut discoveries, id, row);
        last = begun(answer, last);
        sum = std::num::wrapping_add_u64(sum, begin_weight(answer));
    }
    sum
}
