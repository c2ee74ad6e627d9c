// The questions of the door for C. Columns are lent as `&[..]`, so that several threads may ask of one state at once.
#![tactic(auto)]

ghost use Rattle.std.specs.Prelude.{◌≡◌};
ghost use Rattle.standard.specs.Route.{nwk};
ghost use Rattle.routing.specs.declared.Routing.{Routing};
ghost use Rattle.routing.specs.Queries.{next_hop_of, route_status, discovery_deadline, route_count, discovery_count, check_tables};
ghost use Rattle.routing.specs.Records.{record_count};
ghost use Rattle.door.specs.Lent.{lent, Says, Asked};
ghost use Rattle.door_queries.specs.Questions.{hop_at, hop_numbers, status_at, status_places, status_numbers, deadline_at, deadline_places, deadline_numbers, count_numbers, check_at, check_places, check_numbers};

use discovery_table::DiscoveriesSeen;
use route_calls::Checked;
use route_table::RoutesSeen;
use standard::Status;
use types::{Nwk, Refusal};

// The places of a next hop: whether there is one, and the hop.
// A flag or a number beside the values, and no Option or enum, since C reads these places.
#[derive(Drop)]
pub struct HopPlaces {
    pub found: u8,
    pub next_hop: u16,
}

// The places of a route's status: whether there is a route, and its status by number.
// A flag or a number beside the values, and no Option or enum, since C reads these places.
#[derive(Drop)]
pub struct StatusPlaces {
    pub found: u8,
    pub status: u8,
}

// The places of a deadline: whether there is a discovery, and when it is over.
// A flag or a number beside the values, and no Option or enum, since C reads these places.
#[derive(Drop)]
pub struct DeadlinePlaces {
    pub found: u8,
    pub time: u64,
}

// The places of the table check: sound 0; an Active route with an unknown hop 1, a search that no discovery names 2, and the route's destination.
// A flag or a number beside the values, and no Option or enum, since C reads these places.
#[derive(Drop)]
pub struct CheckPlaces {
    pub fault: u8,
    pub destination: u16,
}

// The numbers of a hop that the route table names: one that is not known is refusal 6.
fn say_hop(hop: Result<Option<Nwk>, Refusal>, found: &mut u8, next_hop: &mut u16) -> u8
    ensures { Says hop_numbers hop (hop_at found.old next_hop.old) (hop_at found.new next_hop.new) result }
{
    match hop {
        Ok(None) => {
            *found = 0;
            *next_hop = 0;
            0
        }
        Ok(Some(n)) => {
            *found = 1;
            *next_hop = n.0;
            0
        }
        Err(why) => why.number(),
    }
}

// A route's status, as the numbers of its places.
fn status_places(answer: Option<Status>) -> StatusPlaces
    ensures { result ≡ status_places answer }
{
    match answer {
        None => StatusPlaces {
            found: 0,
            status: 0,
        },
        Some(s) => StatusPlaces {
            found: 1,
            status: door::status_number(s),
        },
    }
}

// A deadline, as the numbers of its places.
fn deadline_places(deadline: Option<u64>) -> DeadlinePlaces
    ensures { result ≡ deadline_places deadline }
{
    match deadline {
        None => DeadlinePlaces { found: 0, time: 0 },
        Some(time) => DeadlinePlaces { found: 1, time },
    }
}

// What the check says, as the numbers of its places.
fn check_places(checked: Checked) -> CheckPlaces
    ensures { result ≡ check_places checked }
{
    match checked {
        Checked::Sound => CheckPlaces {
            fault: 0,
            destination: 0,
        },
        Checked::UnknownHop(d) => CheckPlaces {
            fault: 1,
            destination: d.0,
        },
        Checked::Orphan(d) => CheckPlaces {
            fault: 2,
            destination: d.0,
        },
    }
}

// The next hop to a destination by its Active route. A hop that is not known is refusal 6.
#[unsafe(no_mangle)]
pub extern "C" fn warpteasel_raw_next_hop(
    route_keys: &[u16],
    route_words: &[u64],
    route_usage: &[u32],
    routes: usize,
    discovery_keys: &[u32],
    discovery_words: &[u64],
    discovery_ends: &[u64],
    discoveries: usize,
    record_keys: &[u16],
    record_lengths: &[u8],
    records: usize,
    destination: u16,
    found: &mut u8,
    next_hop: &mut u16,
) -> u8
    ensures { Asked hop_numbers (λ (s : Routing). next_hop_of s (nwk destination))
        (lent route_keys.now route_words.now route_usage.now routes discovery_keys.now discovery_words.now discovery_ends.now discoveries record_keys.now record_lengths.now records)
        (hop_at found.old next_hop.old) (hop_at found.new next_hop.new) result }
{
    if !door::columns_formed(
        route_keys,
        route_words,
        route_usage,
        routes,
        discovery_keys,
        discovery_words,
        discovery_ends,
        discoveries,
        record_keys,
        record_lengths,
        records,
    ) {
        return 10;
    }
    let held = RoutesSeen {
        keys: route_keys,
        words: route_words,
        usage: route_usage,
        count: routes,
    };
    let hop = route_calls::next_hop(&held, Nwk(destination));
    say_hop(hop, found, next_hop)
}

// How the route to a destination stands.
#[unsafe(no_mangle)]
pub extern "C" fn warpteasel_raw_route_status(
    route_keys: &[u16],
    route_words: &[u64],
    route_usage: &[u32],
    routes: usize,
    discovery_keys: &[u32],
    discovery_words: &[u64],
    discovery_ends: &[u64],
    discoveries: usize,
    record_keys: &[u16],
    record_lengths: &[u8],
    records: usize,
    destination: u16,
    found: &mut u8,
    status: &mut u8,
) -> u8
    ensures { Asked status_numbers (λ (s : Routing). route_status s (nwk destination))
        (lent route_keys.now route_words.now route_usage.now routes discovery_keys.now discovery_words.now discovery_ends.now discoveries record_keys.now record_lengths.now records)
        (status_at found.old status.old) (status_at found.new status.new) result }
{
    if !door::columns_formed(
        route_keys,
        route_words,
        route_usage,
        routes,
        discovery_keys,
        discovery_words,
        discovery_ends,
        discoveries,
        record_keys,
        record_lengths,
        records,
    ) {
        return 10;
    }
    let held = RoutesSeen {
        keys: route_keys,
        words: route_words,
        usage: route_usage,
        count: routes,
    };
    let x = route_calls::route_status(&held, Nwk(destination));
    let y = status_places(x);
    *found = y.found;
    *status = y.status;
    0
}

// When the first live discovery of the way to a destination is over.
#[unsafe(no_mangle)]
pub extern "C" fn warpteasel_raw_discovery_deadline(
    route_keys: &[u16],
    route_words: &[u64],
    route_usage: &[u32],
    routes: usize,
    discovery_keys: &[u32],
    discovery_words: &[u64],
    discovery_ends: &[u64],
    discoveries: usize,
    record_keys: &[u16],
    record_lengths: &[u8],
    records: usize,
    destination: u16,
    now_ms: u64,
    found: &mut u8,
    time: &mut u64,
) -> u8
    ensures { Asked deadline_numbers (λ (s : Routing). discovery_deadline s (nwk destination) now_ms)
        (lent route_keys.now route_words.now route_usage.now routes discovery_keys.now discovery_words.now discovery_ends.now discoveries record_keys.now record_lengths.now records)
        (deadline_at found.old time.old) (deadline_at found.new time.new) result }
{
    if !door::columns_formed(
        route_keys,
        route_words,
        route_usage,
        routes,
        discovery_keys,
        discovery_words,
        discovery_ends,
        discoveries,
        record_keys,
        record_lengths,
        records,
    ) {
        return 10;
    }
    let open = DiscoveriesSeen {
        keys: discovery_keys,
        words: discovery_words,
        ends: discovery_ends,
        count: discoveries,
    };
    let x = open.discovery_deadline(Nwk(destination), now_ms);
    let y = deadline_places(x);
    *found = y.found;
    *time = y.time;
    0
}

// The table check: sound, or the first fault in ascending order of destination.
#[unsafe(no_mangle)]
pub extern "C" fn warpteasel_raw_check(
    route_keys: &[u16],
    route_words: &[u64],
    route_usage: &[u32],
    routes: usize,
    discovery_keys: &[u32],
    discovery_words: &[u64],
    discovery_ends: &[u64],
    discoveries: usize,
    record_keys: &[u16],
    record_lengths: &[u8],
    records: usize,
    fault: &mut u8,
    destination: &mut u16,
) -> u8
    ensures { Asked check_numbers (λ (s : Routing). check_tables s)
        (lent route_keys.now route_words.now route_usage.now routes discovery_keys.now discovery_words.now discovery_ends.now discoveries record_keys.now record_lengths.now records)
        (check_at fault.old destination.old) (check_at fault.new destination.new) result }
{
    if !door::columns_formed(
        route_keys,
        route_words,
        route_usage,
        routes,
        discovery_keys,
        discovery_words,
        discovery_ends,
        discoveries,
        record_keys,
        record_lengths,
        records,
    ) {
        return 10;
    }
    let held = RoutesSeen {
        keys: route_keys,
        words: route_words,
        usage: route_usage,
        count: routes,
    };
    let open = DiscoveriesSeen {
        keys: discovery_keys,
        words: discovery_words,
        ends: discovery_ends,
        count: discoveries,
    };
    let x = route_calls::check(&held, &open);
    let y = check_places(x);
    *fault = y.fault;
    *destination = y.destination;
    0
}

// How many routes there are.
#[unsafe(no_mangle)]
pub extern "C" fn warpteasel_raw_route_count(
    route_keys: &[u16],
    route_words: &[u64],
    route_usage: &[u32],
    routes: usize,
    discovery_keys: &[u32],
    discovery_words: &[u64],
    discovery_ends: &[u64],
    discoveries: usize,
    record_keys: &[u16],
    record_lengths: &[u8],
    records: usize,
    count: &mut usize,
) -> u8
    ensures { Asked count_numbers (λ (s : Routing). route_count s)
        (lent route_keys.now route_words.now route_usage.now routes discovery_keys.now discovery_words.now discovery_ends.now discoveries record_keys.now record_lengths.now records)
        count.old count.new result }
{
    if !door::columns_formed(
        route_keys,
        route_words,
        route_usage,
        routes,
        discovery_keys,
        discovery_words,
        discovery_ends,
        discoveries,
        record_keys,
        record_lengths,
        records,
    ) {
        return 10;
    }
    *count = routes;
    0
}

// How many discoveries there are.
#[unsafe(no_mangle)]
pub extern "C" fn warpteasel_raw_discovery_count(
    route_keys: &[u16],
    route_words: &[u64],
    route_usage: &[u32],
    routes: usize,
    discovery_keys: &[u32],
    discovery_words: &[u64],
    discovery_ends: &[u64],
    discoveries: usize,
    record_keys: &[u16],
    record_lengths: &[u8],
    records: usize,
    count: &mut usize,
) -> u8
    ensures { Asked count_numbers (λ (s : Routing). discovery_count s)
        (lent route_keys.now route_words.now route_usage.now routes discovery_keys.now discovery_words.now discovery_ends.now discoveries record_keys.now record_lengths.now records)
        count.old count.new result }
{
    if !door::columns_formed(
        route_keys,
        route_words,
        route_usage,
        routes,
        discovery_keys,
        discovery_words,
        discovery_ends,
        discoveries,
        record_keys,
        record_lengths,
        records,
    ) {
        return 10;
    }
    *count = discoveries;
    0
}

// How many route records there are.
#[unsafe(no_mangle)]
pub extern "C" fn warpteasel_raw_record_count(
    route_keys: &[u16],
    route_words: &[u64],
    route_usage: &[u32],
    routes: usize,
    discovery_keys: &[u32],
    discovery_words: &[u64],
    discovery_ends: &[u64],
    discoveries: usize,
    record_keys: &[u16],
    record_lengths: &[u8],
    records: usize,
    count: &mut usize,
) -> u8
    ensures { Asked count_numbers (λ (s : Routing). record_count s)
        (lent route_keys.now route_words.now route_usage.now routes discovery_keys.now discovery_words.now discovery_ends.now discoveries record_keys.now record_lengths.now records)
        count.old count.new result }
{
    if !door::columns_formed(
        route_keys,
        route_words,
        route_usage,
        routes,
        discovery_keys,
        discovery_words,
        discovery_ends,
        discoveries,
        record_keys,
        record_lengths,
        records,
    ) {
        return 10;
    }
    *count = records;
    0
}
