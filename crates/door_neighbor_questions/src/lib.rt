// The questions that are asked of the neighbours, at the door for C. Columns are lent as `&[..]`, so that several threads may ask of one state at once.
#![tactic(auto)]

ghost use Rattle.std.specs.Prelude.{◌≡◌, Ok};
ghost use Rattle.standard.specs.LinkCost.{link_cost};
ghost use Rattle.neighbors.specs.declared.Neighbors.{Neighbors};
ghost use Rattle.neighbors.specs.Queries as ask;
ghost use Rattle.door.specs.Lent.{Says, Asked};
ghost use Rattle.door_neighbors.specs.Answers.{name_at};
ghost use Rattle.door_neighbors.specs.Lent.{lent, TruthAsked, NameAsked};
ghost use Rattle.door_neighbor_questions.specs.Questions.{link_at, link_numbers, capability_at, capability_numbers, moment_at, moment_numbers, count_numbers};

use neighbor_queries::{Capability, NeighborLink};
use types::{Eui64, Nwk, Refusal};

// The places of a radio link: whether there is one, the neighbour's extended address, and the cost of the link both ways.
// A flag or a number beside the values, and no Option or enum, since C reads these places.
#[derive(Drop)]
pub struct LinkPlaces {
    pub found: u8,
    pub eui64: u64,
    pub outgoing_cost: u8,
    pub incoming_cost: u8,
}

// The places of what a neighbour can do: whether it is one, its device type by number, and whether it listens when idle.
// A flag or a number beside the values, and no Option or enum, since C reads these places.
#[derive(Drop)]
pub struct CapabilityPlaces {
    pub found: u8,
    pub device_type: u8,
    pub rx_on_when_idle: u8,
}

// The places of a moment that there may be: whether there is one, and the moment.
// A flag or a number beside the values, and no Option or enum, since C reads these places.
#[derive(Drop)]
pub struct MomentPlaces {
    pub found: u8,
    pub time: u64,
}

// The numbers of a link.
fn say_link(
    answer: Result<Option<NeighborLink>, Refusal>,
    found: &mut u8,
    eui64: &mut u64,
    outgoing_cost: &mut u8,
    incoming_cost: &mut u8,
) -> u8
    ensures { Says link_numbers answer (link_at found.old eui64.old outgoing_cost.old incoming_cost.old) (link_at found.new eui64.new outgoing_cost.new incoming_cost.new) result }
{
    match answer {
        Ok(Some(l)) => {
            *found = 1;
            *eui64 = l.eui64.0;
            *outgoing_cost = l.outgoing_cost;
            *incoming_cost = l.incoming_cost;
            0
        }
        Ok(None) => {
            *found = 0;
            *eui64 = 0;
            *outgoing_cost = 0;
            *incoming_cost = 0;
            0
        }
        Err(why) => why.number(),
    }
}

// The numbers of what a neighbour can do.
fn say_capability(
    answer: Result<Option<Capability>, Refusal>,
    found: &mut u8,
    device_type: &mut u8,
    rx_on_when_idle: &mut u8,
) -> u8
    ensures { Says capability_numbers answer (capability_at found.old device_type.old rx_on_when_idle.old) (capability_at found.new device_type.new rx_on_when_idle.new) result }
{
    match answer {
        Ok(Some(able)) => {
            let kind = able.device_type;
            *found = 1;
            *device_type = kind.number();
            *rx_on_when_idle = door::flag(able.rx_on_when_idle);
            0
        }
        Ok(None) => {
            *found = 0;
            *device_type = 0;
            *rx_on_when_idle = 0;
            0
        }
        Err(why) => why.number(),
    }
}

// The numbers of a moment, as it is answered.
fn say_moment(moment: Option<u64>, found: &mut u8, time: &mut u64) -> u8
    ensures { Says moment_numbers (Ok moment) (moment_at found.old time.old) (moment_at found.new time.new) result }
{
    match moment {
        Some(at) => {
            *found = 1;
            *time = at;
            0
        }
        None => {
            *found = 0;
            *time = 0;
            0
        }
    }
}

// The cost of a link by the quality at which it is heard, from 7 down to 1 as it gets better.
#[unsafe(no_mangle)]
pub extern "C" fn warpteasel_raw_lqi_to_link_cost(lqi: u8) -> u8
    ensures { result ≡ link_cost lqi }
{
    link_cost::lqi_to_link_cost(lqi)
}

// How many neighbours there are.
#[unsafe(no_mangle)]
pub extern "C" fn warpteasel_raw_neighbor_count(
    keys: &[u64],
    nwks: &[u16],
    links: &[u64],
    counts: &[u64],
    deadlines: &[u64],
    periods: &[u64],
    heard: &[u64],
    added: &[u64],
    beacons: &[u64],
    bytes: &[u64],
    count: usize,
    senders: &[u16],
    samples: &[u64],
    waiting: usize,
    total: &mut usize,
) -> u8
    ensures { Asked count_numbers (λ (s : Neighbors). ask.count s)
        (lent keys.now nwks.now links.now counts.now deadlines.now periods.now heard.now added.now beacons.now bytes.now count senders.now samples.now waiting)
        total.old total.new result }
{
    if !door_neighbors::columns_formed(
        keys, nwks, links, counts, deadlines, periods, heard, added, beacons, bytes, count,
        senders, samples, waiting,
    ) {
        return 10;
    }
    *total = count;
    0
}

// The radio link to the neighbour with a network address.
#[unsafe(no_mangle)]
pub extern "C" fn warpteasel_raw_link(
    keys: &[u64],
    nwks: &[u16],
    links: &[u64],
    counts: &[u64],
    deadlines: &[u64],
    periods: &[u64],
    heard: &[u64],
    added: &[u64],
    beacons: &[u64],
    bytes: &[u64],
    count: usize,
    senders: &[u16],
    samples: &[u64],
    waiting: usize,
    nwk: u16,
    found: &mut u8,
    eui64: &mut u64,
    outgoing_cost: &mut u8,
    incoming_cost: &mut u8,
) -> u8
    ensures { Asked link_numbers (λ (s : Neighbors). ask.link s (record { 0 = nwk }))
        (lent keys.now nwks.now links.now counts.now deadlines.now periods.now heard.now added.now beacons.now bytes.now count senders.now samples.now waiting)
        (link_at found.old eui64.old outgoing_cost.old incoming_cost.old) (link_at found.new eui64.new outgoing_cost.new incoming_cost.new) result }
{
    if !door_neighbors::columns_formed(
        keys, nwks, links, counts, deadlines, periods, heard, added, beacons, bytes, count,
        senders, samples, waiting,
    ) {
        return 10;
    }
    let link = neighbor_questions_lent::link(keys, nwks, links, count, Nwk(nwk));
    say_link(link, found, eui64, outgoing_cost, incoming_cost)
}

// Whether a neighbour has a network address.
#[unsafe(no_mangle)]
pub extern "C" fn warpteasel_raw_has_network_address(
    keys: &[u64],
    nwks: &[u16],
    links: &[u64],
    counts: &[u64],
    deadlines: &[u64],
    periods: &[u64],
    heard: &[u64],
    added: &[u64],
    beacons: &[u64],
    bytes: &[u64],
    count: usize,
    senders: &[u16],
    samples: &[u64],
    waiting: usize,
    nwk: u16,
    told: &mut u8,
) -> u8
    ensures { TruthAsked (λ (s : Neighbors). ask.has_network_address s (record { 0 = nwk }))
        (lent keys.now nwks.now links.now counts.now deadlines.now periods.now heard.now added.now beacons.now bytes.now count senders.now samples.now waiting)
        told.old told.new result }
{
    if !door_neighbors::columns_formed(
        keys, nwks, links, counts, deadlines, periods, heard, added, beacons, bytes, count,
        senders, samples, waiting,
    ) {
        return 10;
    }
    let known = neighbor_queries_lent::has_network_address(nwks, count, Nwk(nwk));
    *told = door::flag(known);
    0
}

// The extended address of the end device child with a network address.
#[unsafe(no_mangle)]
pub extern "C" fn warpteasel_raw_end_device_child_eui64(
    keys: &[u64],
    nwks: &[u16],
    links: &[u64],
    counts: &[u64],
    deadlines: &[u64],
    periods: &[u64],
    heard: &[u64],
    added: &[u64],
    beacons: &[u64],
    bytes: &[u64],
    count: usize,
    senders: &[u16],
    samples: &[u64],
    waiting: usize,
    nwk: u16,
    found: &mut u8,
    eui64: &mut u64,
) -> u8
    ensures { NameAsked (λ (s : Neighbors). ask.end_device_child_eui64 s (record { 0 = nwk }))
        (lent keys.now nwks.now links.now counts.now deadlines.now periods.now heard.now added.now beacons.now bytes.now count senders.now samples.now waiting)
        (name_at found.old eui64.old) (name_at found.new eui64.new) result }
{
    if !door_neighbors::columns_formed(
        keys, nwks, links, counts, deadlines, periods, heard, added, beacons, bytes, count,
        senders, samples, waiting,
    ) {
        return 10;
    }
    let child = neighbor_questions_lent::end_device_child_eui64(keys, nwks, links, count, Nwk(nwk));
    door_neighbors::say_name(child, found, eui64)
}

// The extended address of the child with a network address that sleeps when idle.
#[unsafe(no_mangle)]
pub extern "C" fn warpteasel_raw_sleepy_child_eui64(
    keys: &[u64],
    nwks: &[u16],
    links: &[u64],
    counts: &[u64],
    deadlines: &[u64],
    periods: &[u64],
    heard: &[u64],
    added: &[u64],
    beacons: &[u64],
    bytes: &[u64],
    count: usize,
    senders: &[u16],
    samples: &[u64],
    waiting: usize,
    nwk: u16,
    found: &mut u8,
    eui64: &mut u64,
) -> u8
    ensures { NameAsked (λ (s : Neighbors). ask.sleepy_child_eui64 s (record { 0 = nwk }))
        (lent keys.now nwks.now links.now counts.now deadlines.now periods.now heard.now added.now beacons.now bytes.now count senders.now samples.now waiting)
        (name_at found.old eui64.old) (name_at found.new eui64.new) result }
{
    if !door_neighbors::columns_formed(
        keys, nwks, links, counts, deadlines, periods, heard, added, beacons, bytes, count,
        senders, samples, waiting,
    ) {
        return 10;
    }
    let child = neighbor_questions_lent::sleepy_child_eui64(keys, nwks, links, count, Nwk(nwk));
    door_neighbors::say_name(child, found, eui64)
}

// Whether an extended address is a neighbour's.
#[unsafe(no_mangle)]
pub extern "C" fn warpteasel_raw_contains(
    keys: &[u64],
    nwks: &[u16],
    links: &[u64],
    counts: &[u64],
    deadlines: &[u64],
    periods: &[u64],
    heard: &[u64],
    added: &[u64],
    beacons: &[u64],
    bytes: &[u64],
    count: usize,
    senders: &[u16],
    samples: &[u64],
    waiting: usize,
    eui64: u64,
    told: &mut u8,
) -> u8
    ensures { TruthAsked (λ (s : Neighbors). ask.contains s (record { 0 = eui64 }))
        (lent keys.now nwks.now links.now counts.now deadlines.now periods.now heard.now added.now beacons.now bytes.now count senders.now samples.now waiting)
        told.old told.new result }
{
    if !door_neighbors::columns_formed(
        keys, nwks, links, counts, deadlines, periods, heard, added, beacons, bytes, count,
        senders, samples, waiting,
    ) {
        return 10;
    }
    let known = neighbor_questions_lent::contains(keys, count, Eui64(eui64));
    *told = door::flag(known);
    0
}

// The device type of a neighbour, and whether it listens when idle.
#[unsafe(no_mangle)]
pub extern "C" fn warpteasel_raw_device_capability(
    keys: &[u64],
    nwks: &[u16],
    links: &[u64],
    counts: &[u64],
    deadlines: &[u64],
    periods: &[u64],
    heard: &[u64],
    added: &[u64],
    beacons: &[u64],
    bytes: &[u64],
    count: usize,
    senders: &[u16],
    samples: &[u64],
    waiting: usize,
    eui64: u64,
    found: &mut u8,
    device_type: &mut u8,
    rx_on_when_idle: &mut u8,
) -> u8
    ensures { Asked capability_numbers (λ (s : Neighbors). ask.device_capability s (record { 0 = eui64 }))
        (lent keys.now nwks.now links.now counts.now deadlines.now periods.now heard.now added.now beacons.now bytes.now count senders.now samples.now waiting)
        (capability_at found.old device_type.old rx_on_when_idle.old) (capability_at found.new device_type.new rx_on_when_idle.new) result }
{
    if !door_neighbors::columns_formed(
        keys, nwks, links, counts, deadlines, periods, heard, added, beacons, bytes, count,
        senders, samples, waiting,
    ) {
        return 10;
    }
    let able = neighbor_questions_lent::device_capability(keys, links, count, Eui64(eui64));
    say_capability(able, found, device_type, rx_on_when_idle)
}

// How many end device children there are.
#[unsafe(no_mangle)]
pub extern "C" fn warpteasel_raw_end_device_child_count(
    keys: &[u64],
    nwks: &[u16],
    links: &[u64],
    counts: &[u64],
    deadlines: &[u64],
    periods: &[u64],
    heard: &[u64],
    added: &[u64],
    beacons: &[u64],
    bytes: &[u64],
    count: usize,
    senders: &[u16],
    samples: &[u64],
    waiting: usize,
    total: &mut usize,
) -> u8
    ensures { Asked count_numbers (λ (s : Neighbors). ask.end_device_child_count s)
        (lent keys.now nwks.now links.now counts.now deadlines.now periods.now heard.now added.now beacons.now bytes.now count senders.now samples.now waiting)
        total.old total.new result }
{
    if !door_neighbors::columns_formed(
        keys, nwks, links, counts, deadlines, periods, heard, added, beacons, bytes, count,
        senders, samples, waiting,
    ) {
        return 10;
    }
    *total = neighbor_questions_lent::end_device_child_count(nwks, links, count);
    0
}

// Whether a device is an end device child that has sent no keepalive yet.
#[unsafe(no_mangle)]
pub extern "C" fn warpteasel_raw_is_unconfirmed_end_device_child(
    keys: &[u64],
    nwks: &[u16],
    links: &[u64],
    counts: &[u64],
    deadlines: &[u64],
    periods: &[u64],
    heard: &[u64],
    added: &[u64],
    beacons: &[u64],
    bytes: &[u64],
    count: usize,
    senders: &[u16],
    samples: &[u64],
    waiting: usize,
    eui64: u64,
    told: &mut u8,
) -> u8
    ensures { TruthAsked (λ (s : Neighbors). ask.is_unconfirmed_end_device_child s (record { 0 = eui64 }))
        (lent keys.now nwks.now links.now counts.now deadlines.now periods.now heard.now added.now beacons.now bytes.now count senders.now samples.now waiting)
        told.old told.new result }
{
    if !door_neighbors::columns_formed(
        keys, nwks, links, counts, deadlines, periods, heard, added, beacons, bytes, count,
        senders, samples, waiting,
    ) {
        return 10;
    }
    let silent = neighbor_questions_lent::is_unconfirmed_end_device_child(
        keys,
        links,
        count,
        Eui64(eui64),
    );
    *told = door::flag(silent);
    0
}

// Whether a router has listed this device with a cost.
#[unsafe(no_mangle)]
pub extern "C" fn warpteasel_raw_any_live_router_link(
    keys: &[u64],
    nwks: &[u16],
    links: &[u64],
    counts: &[u64],
    deadlines: &[u64],
    periods: &[u64],
    heard: &[u64],
    added: &[u64],
    beacons: &[u64],
    bytes: &[u64],
    count: usize,
    senders: &[u16],
    samples: &[u64],
    waiting: usize,
    told: &mut u8,
) -> u8
    ensures { TruthAsked (λ (s : Neighbors). ask.any_live_router_link s)
        (lent keys.now nwks.now links.now counts.now deadlines.now periods.now heard.now added.now beacons.now bytes.now count senders.now samples.now waiting)
        told.old told.new result }
{
    if !door_neighbors::columns_formed(
        keys, nwks, links, counts, deadlines, periods, heard, added, beacons, bytes, count,
        senders, samples, waiting,
    ) {
        return 10;
    }
    let live = neighbor_questions_lent::any_live_router_link(nwks, links, count);
    *told = door::flag(live);
    0
}

// The earliest deadline of an end device child.
#[unsafe(no_mangle)]
pub extern "C" fn warpteasel_raw_next_child_timeout(
    keys: &[u64],
    nwks: &[u16],
    links: &[u64],
    counts: &[u64],
    deadlines: &[u64],
    periods: &[u64],
    heard: &[u64],
    added: &[u64],
    beacons: &[u64],
    bytes: &[u64],
    count: usize,
    senders: &[u16],
    samples: &[u64],
    waiting: usize,
    found: &mut u8,
    time: &mut u64,
) -> u8
    ensures { Asked moment_numbers (λ (s : Neighbors). ask.next_child_timeout s)
        (lent keys.now nwks.now links.now counts.now deadlines.now periods.now heard.now added.now beacons.now bytes.now count senders.now samples.now waiting)
        (moment_at found.old time.old) (moment_at found.new time.new) result }
{
    if !door_neighbors::columns_formed(
        keys, nwks, links, counts, deadlines, periods, heard, added, beacons, bytes, count,
        senders, samples, waiting,
    ) {
        return 10;
    }
    let next = neighbor_questions_lent::next_child_timeout(nwks, links, deadlines, count);
    say_moment(next, found, time)
}
