// What the calls of the door for C share. The caller's own memory is the state: its columns are lent to each call, and a call writes in them and in
// the places for its answer. A call returns 0, or the number of its refusal; a refused call writes nothing.
// In a call that is answered every place is written, with 0 where the answer names nothing.
#![tactic(auto)]

ghost use Rattle.std.specs.Prelude.{◌≡◌};
ghost use Rattle.numbers.specs.Said.{flag_number};
ghost use Rattle.standard.specs.Numbers.{status_number};
ghost use Rattle.route_table.specs.Table as route;
ghost use Rattle.discovery_table.specs.Table as discovery;
ghost use Rattle.record_table.specs.Table as record_of;
ghost use Rattle.routing.specs.State.{formed_in};
ghost use Rattle.door.specs.Places.{update_places, done_status};

use standard::{RouteUpdate, Status};
use types::Refusal;

// What is returned for numbers that are no call: one is no value of its field. It is no refusal's number, and comes before any.
pub const NO_CALL: u8 = 255;

// Whether the columns of the three tables are well formed: `routing::columns_formed`, with a lifetime for each column, since a call is lent some for
// change and some for reading.
pub fn columns_formed(
    route_keys: &[u16],
    route_words: &[u64],
    route_usage: &[u32],
    routes: usize,
    discovery_keys: &[u32],
    discovery_words: &[u64],
    discovery_ends: &[u64],
    discoveries: usize,
    record_keys: &[u16],
    record_lengths: &[u8],
    records: usize,
) -> bool
    ensures { result ≡ formed_in (route.in_columns route_keys.now route_words.now route_usage.now routes) (discovery.in_columns discovery_keys.now discovery_words.now discovery_ends.now discoveries) (record_of.in_columns record_keys.now record_lengths.now records) }
{
    let routes_fine = route_table::well_formed(route_keys, route_words, route_usage, routes);
    let discoveries_fine = discovery_table::well_formed(
        discovery_keys,
        discovery_words,
        discovery_ends,
        discoveries,
    );
    let records_fine = record_table::well_formed(record_keys, record_lengths, records);
    routes_fine & (discoveries_fine & records_fine)
}

// What is reported of routes: whether one changed, and then its destination, next hop and cost.
// A flag or a number beside the values, and no Option or enum, since C reads these places.
#[derive(Drop)]
pub struct UpdatePlaces {
    pub changed: u8,
    pub destination: u16,
    pub next_hop: u16,
    pub path_cost: u8,
}

// An update as the numbers of its places.
pub fn update_places(update: Option<RouteUpdate>) -> UpdatePlaces
    ensures { result ≡ update_places update }
{
    match update {
        None => UpdatePlaces {
            changed: 0,
            destination: 0,
            next_hop: 0,
            path_cost: 0,
        },
        Some(u) => UpdatePlaces {
            changed: 1,
            destination: u.destination.0,
            next_hop: u.next_hop.0,
            path_cost: u.path_cost,
        },
    }
}

// A yes or a no, as a number.
pub fn flag(b: bool) -> u8
    ensures { result ≡ flag_number b }
{
    u8::from(b)
}

// The status of a call that is done or refused.
pub fn done_status(answer: Result<(), Refusal>) -> u8
    ensures { result ≡ done_status answer }
{
    match answer {
        Err(why) => why.number(),
        Ok(()) => 0,
    }
}

// A route's status by its number.
pub fn status_number(status: Status) -> u8
    ensures { result ≡ status_number status }
{
    status as u8
}
