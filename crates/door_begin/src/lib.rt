// A search of our own and an advertisement, at the door for C.
#![tactic(auto)]

ghost use Rattle.standard.specs.Route.{nwk};
ghost use Rattle.door.specs.Lent.{lent_with, the_id};
ghost use Rattle.door_begin.specs.Begin.{SaysBegun, BeginMade, AdvertiseMade};

use discovery_table::Discoveries;
use route_table::Routes;
use types::{Nwk, Refusal};

// The number of the answer, and the id as the last one if it was used.
fn say_begun(answer: Result<u8, Refusal>, id: u8, last: &mut u8, request_id: &mut u8) -> u8
    ensures { SaysBegun answer id last.old last.new request_id.old request_id.new result }
{
    match answer {
        Err(why) => why.number(),
        Ok(i) => {
            *last = id;
            *request_id = i;
            0
        }
    }
}

// A search of our own: the route becomes DiscoveryUnderway; the answer is the request id, which is the last one from now on.
#[unsafe(no_mangle)]
pub extern "C" fn warpteasel_raw_begin_discovery(
    route_keys: &mut [u16],
    route_words: &mut [u64],
    route_usage: &mut [u32],
    routes: &mut usize,
    discovery_keys: &mut [u32],
    discovery_words: &mut [u64],
    discovery_ends: &mut [u64],
    discoveries: &mut usize,
    record_keys: &[u16],
    record_lengths: &[u8],
    records: usize,
    request_sequence_number: &mut u8,
    own: u16,
    destination: u16,
    now_ms: u64,
    route_discovery_time: u64,
    request_id: &mut u8,
) -> u8
    ensures { BeginMade
        (lent_with (the_id request_sequence_number.old) route_keys.old route_words.old route_usage.old routes.old discovery_keys.old discovery_words.old discovery_ends.old discoveries.old record_keys.now record_lengths.now records)
        (lent_with (the_id request_sequence_number.new) route_keys.new route_words.new route_usage.new routes.new discovery_keys.new discovery_words.new discovery_ends.new discoveries.new record_keys.now record_lengths.now records)
        (nwk own) (nwk destination) now_ms route_discovery_time
        request_id.old request_id.new result }
{
    let n = *routes;
    let m = *discoveries;
    if !door::columns_formed(
        route_keys,
        route_words,
        route_usage,
        n,
        discovery_keys,
        discovery_words,
        discovery_ends,
        m,
        record_keys,
        record_lengths,
        records,
    ) {
        return 10;
    }
    let id = types::next_id(*request_sequence_number);
    let mut held = Routes {
        keys: route_keys,
        words: route_words,
        usage: route_usage,
        count: n,
    };
    let mut open = Discoveries {
        keys: discovery_keys,
        words: discovery_words,
        ends: discovery_ends,
        count: m,
    };
    let answer = route_begin::begin(
        &mut held,
        &mut open,
        Nwk(own),
        id,
        Nwk(destination),
        now_ms,
        route_discovery_time,
    );
    *routes = held.count;
    *discoveries = open.count;
    say_begun(answer, id, request_sequence_number, request_id)
}

// A many-to-one advertisement: the entry that stops its echoes; the answer is the request id, which is the last one from now on.
#[unsafe(no_mangle)]
pub extern "C" fn warpteasel_raw_begin_many_to_one_advertisement(
    route_keys: &mut [u16],
    route_words: &mut [u64],
    route_usage: &mut [u32],
    routes: &mut usize,
    discovery_keys: &mut [u32],
    discovery_words: &mut [u64],
    discovery_ends: &mut [u64],
    discoveries: &mut usize,
    record_keys: &[u16],
    record_lengths: &[u8],
    records: usize,
    request_sequence_number: &mut u8,
    own: u16,
    now_ms: u64,
    route_discovery_time: u64,
    request_id: &mut u8,
) -> u8
    ensures { AdvertiseMade
        (lent_with (the_id request_sequence_number.old) route_keys.old route_words.old route_usage.old routes.old discovery_keys.old discovery_words.old discovery_ends.old discoveries.old record_keys.now record_lengths.now records)
        (lent_with (the_id request_sequence_number.new) route_keys.new route_words.new route_usage.new routes.new discovery_keys.new discovery_words.new discovery_ends.new discoveries.new record_keys.now record_lengths.now records)
        (nwk own) now_ms route_discovery_time
        request_id.old request_id.new result }
{
    let n = *routes;
    let m = *discoveries;
    if !door::columns_formed(
        route_keys,
        route_words,
        route_usage,
        n,
        discovery_keys,
        discovery_words,
        discovery_ends,
        m,
        record_keys,
        record_lengths,
        records,
    ) {
        return 10;
    }
    let id = types::next_id(*request_sequence_number);
    let mut held = Routes {
        keys: route_keys,
        words: route_words,
        usage: route_usage,
        count: n,
    };
    let mut open = Discoveries {
        keys: discovery_keys,
        words: discovery_words,
        ends: discovery_ends,
        count: m,
    };
    let answer = route_begin::advertise(
        &mut held,
        &mut open,
        Nwk(own),
        id,
        now_ms,
        route_discovery_time,
    );
    *routes = held.count;
    *discoveries = open.count;
    say_begun(answer, id, request_sequence_number, request_id)
}
