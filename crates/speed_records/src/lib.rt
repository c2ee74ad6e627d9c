// What the benchmark runs of the route records: many calls on one state and store, in the exported form and on columns that are lent.
// A row of the inputs is eight numbers. The answers are added up, so that they can be compared with the Rust's.
#![tactic(auto)]

ghost use Rattle.std.specs.Prelude.{◌≤◌};
ghost use Rattle.record_table.specs.Lent.{table, SameColumns};
ghost use Rattle.relay_store.specs.Store.{Agrees};
ghost use Rattle.routing.specs.State.{WellFormed, record_table};

use record_table::Records;
use routing::{RouteToAnswer, RouteToOutcome, Routing};
use speed_routes::Turn;
use standard::RelayList;
use types::{Nwk, Refusal};

// At most three relays: how many at place 1, the relays after it.
fn relays_in(row: &[u64]) -> RelayList
    ensures { result.count ≤ 32 }
{
    let a = Nwk(0);
    let mut addresses = [a; 32];
    addresses[0] = numbers::nwk(row, 2);
    addresses[1] = numbers::nwk(row, 3);
    addresses[2] = numbers::nwk(row, 4);
    let count = (numbers::at(row, 1) % 4) as usize;
    RelayList { count, addresses }
}

// The records of 1 .. size, where there are any: those from 4 on have the relays 1, 2 and 3.
pub fn filled_records(state: Routing, store: &mut [u16], size: u16) -> Routing {
    let first = [0u64, 3, 1, 2, 3];
    let relays = relays_in(&first);
    let mut s = state;
    for i in 4..=size {
        let o = s.store_route_record(store, Nwk(i), relays);
        s = o.state;
    }
    s
}

fn record_weight(a: Result<bool, Refusal>) -> u64 {
    match a {
        Err(_) => 7,
        Ok(changed) => changed as u64,
    }
}

fn way_weight(o: RouteToOutcome) -> u64 {
    let answer = o.answer;
    let relays = o.relays;
    match answer {
        Err(_) => 7,
        Ok(RouteToAnswer::NoRoute) => 1,
        Ok(RouteToAnswer::NextHop(hop)) => hop.0 as u64,
        Ok(RouteToAnswer::SourceRoute) => {
            let a = relays.addresses[0];
            std::num::wrapping_add_u64(relays.count as u64, a.0 as u64)
        }
    }
}

// A route record: source, how many relays, the relays.
fn record(state: Routing, store: &mut [u16], row: &[u64]) -> Turn {
    let relays = relays_in(row);
    let o = state.store_route_record(store, numbers::nwk(row, 0), relays);
    let state = o.state;
    let answer = o.answer;
    let weight = record_weight(answer);
    Turn { state, weight }
}

pub fn records(state: Routing, store: &mut [u16], inputs: &[u64]) -> u64 {
    let mut s = state;
    let mut sum: u64 = 0;
    for row in inputs.chunks_exact(8) {
        let x = record(s, store, row);
        s = x.state;
        sum = std::num::wrapping_add_u64(sum, x.weight);
    }
    sum
}

// The same on a table that is lent.
fn record_lent(records: &mut Records, store: &mut [u16], row: &[u64]) -> Result<bool, Refusal>
    requires { Agrees (table records.old) store.old }
    ensures { SameColumns records.old records.new × Agrees (table records.new) store.new }
{
    let relays = relays_in(row);
    route_record::store_record(records, store, numbers::nwk(row, 0), relays)
}

// The tests of the exported form once, before the first row.
pub fn records_core(state: Routing, store: &mut [u16], inputs: &[u64]) -> u64 {
    if !record_table::well_formed(&state.record_keys, &state.record_lengths, state.records) {
        return 0;
    }
    if !relay_store::agrees(&state.record_lengths, store) {
        return 0;
    }
    let mut held = state;
    let mut records = Records {
        keys: &mut held.record_keys,
        lengths: &mut held.record_lengths,
        count: held.records,
    };
    let mut sum: u64 = 0;
    for row in inputs.chunks_exact(8) {
        let answer = record_lent(&mut records, store, row);
        sum = std::num::wrapping_add_u64(sum, record_weight(answer));
    }
    sum
}

// A route query: destination and limit.
fn way(state: Routing, store: &[u16], row: &[u64]) -> u64 {
    let o = state.route_to(store, numbers::nwk(row, 0), numbers::byte(row, 1));
    way_weight(o)
}

pub fn ways(state: Routing, store: &[u16], inputs: &[u64]) -> u64 {
    let mut sum: u64 = 0;
    for row in inputs.chunks_exact(8) {
        let x = way(state, store, row);
        sum = std::num::wrapping_add_u64(sum, x);
    }
    sum
}

fn way_core(state: Routing, store: &[u16], row: &[u64]) -> u64
    requires { WellFormed state × Agrees (record_table state) store.now }
{
    let o = state.route_to_core(store, numbers::nwk(row, 0), numbers::byte(row, 1));
    way_weight(o)
}

fn ways_held(state: Routing, store: &[u16], inputs: &[u64]) -> u64
    requires { WellFormed state × Agrees (record_table state) store.now }
{
    let mut sum: u64 = 0;
    for row in inputs.chunks_exact(8) {
        let x = way_core(state, store, row);
        sum = std::num::wrapping_add_u64(sum, x);
    }
    sum
}

// The tests of the exported form once, before the first row.
pub fn ways_core(state: Routing, store: &[u16], inputs: &[u64]) -> u64 {
    if !state.well_formed() {
        return 0;
    }
    if !state.agrees(store) {
        return 0;
    }
    ways_held(state, store, inputs)
}
