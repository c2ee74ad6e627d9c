// The rows of the neighbours, place by place, at the door for C.
#![tactic(auto)]

ghost use Rattle.std.specs.Prelude.{◌≡◌};
ghost use Rattle.neighbors.specs.declared.Neighbors.{Neighbors};
ghost use Rattle.neighbors.specs.Queries as ask;
ghost use Rattle.door.specs.Lent.{Asked};
ghost use Rattle.door_neighbors.specs.Lent.{lent};
ghost use Rattle.door_neighbor_rows.specs.Rows.{neighbor_at_places, quality_places, entry_places, no_places, neighbor_places, neighbor_numbers};

use neighbor_table::NeighborEntry;

// The places of the quality at which a neighbour is heard: whether it is known, and the quality.
// A flag or a number beside the values, and no Option or enum, since C reads these places.
#[derive(Drop)]
pub struct QualityPlaces {
    pub known: u8,
    pub lqa: u8,
}

// The places of a neighbour: whether there is one, its fields, and what is read off them; a yes or a no is 1 or 0.
// A flag or a number beside the values, and no Option or enum, since C reads these places.
#[derive(Drop)]
pub struct NeighborPlaces {
    pub found: u8,
    pub extended_address: u64,
    pub network_address: u16,
    pub device_type: u8,
    pub rx_on_when_idle: u8,
    pub end_device_configuration: u16,
    pub timeout_at: u64,
    pub device_timeout: u64,
    pub relationship: u8,
    pub transmit_failure: u8,
    // How many samples are held, where the next one goes, and the three places.
    pub samples_held: u8,
    pub next_sample: u8,
    pub first_sample: u8,
    pub second_sample: u8,
    pub third_sample: u8,
    pub outgoing_cost: u8,
    pub last_link_status_timestamp: u64,
    pub incoming_beacon_timestamp: u32,
    pub beacon_transmission_time_offset: u32,
    pub keepalive_received: u8,
    pub mac_unicast_bytes_transmitted: u32,
    pub mac_unicast_bytes_received: u32,
    pub router_added_timestamp: u64,
    pub router_connectivity: u8,
    pub router_neighbor_set_diversity: u8,
    pub router_outbound_activity: u8,
    pub router_inbound_activity: u8,
    pub security_timer: u8,
    // What the entry says of itself: its quality, its incoming cost, whether it is a child.
    pub lqa_known: u8,
    pub lqa: u8,
    pub incoming_link_cost: u8,
    pub is_child: u8,
}

// A quality, as the numbers of its places.
fn quality_places(quality: Option<u8>) -> QualityPlaces
    ensures { result ≡ quality_places quality }
{
    match quality {
        None => QualityPlaces { known: 0, lqa: 0 },
        Some(lqa) => QualityPlaces { known: 1, lqa },
    }
}

// The places where there is no neighbour.
fn no_places() -> NeighborPlaces
    ensures { result ≡ no_places }
{
    NeighborPlaces {
        found: 0,
        extended_address: 0,
        network_address: 0,
        device_type: 0,
        rx_on_when_idle: 0,
        end_device_configuration: 0,
        timeout_at: 0,
        device_timeout: 0,
        relationship: 0,
        transmit_failure: 0,
        samples_held: 0,
        next_sample: 0,
        first_sample: 0,
        second_sample: 0,
        third_sample: 0,
        outgoing_cost: 0,
        last_link_status_timestamp: 0,
        incoming_beacon_timestamp: 0,
        beacon_transmission_time_offset: 0,
        keepalive_received: 0,
        mac_unicast_bytes_transmitted: 0,
        mac_unicast_bytes_received: 0,
        router_added_timestamp: 0,
        router_connectivity: 0,
        router_neighbor_set_diversity: 0,
        router_outbound_activity: 0,
        router_inbound_activity: 0,
        security_timer: 0,
        lqa_known: 0,
        lqa: 0,
        incoming_link_cost: 0,
        is_child: 0,
    }
}

// An entry, as the numbers of its places.
fn entry_places(e: NeighborEntry) -> NeighborPlaces
    ensures { result ≡ entry_places e }
{
    let kind = e.device_type;
    let relation = e.relationship;
    let ring = e.lqas;
    let values = ring.values;
    let quality = quality_places(e.lqa());
    NeighborPlaces {
        found: 1,
        extended_address: e.extended_address.0,
        network_address: e.network_address.0,
        device_type: kind.number(),
        rx_on_when_idle: door::flag(e.rx_on_when_idle),
        end_device_configuration: e.end_device_configuration,
        timeout_at: e.timeout_at,
        device_timeout: e.device_timeout,
        relationship: relation.number(),
        transmit_failure: e.transmit_failure,
        samples_held: ring.len,
        next_sample: ring.next,
        first_sample: values[0],
        second_sample: values[1],
        third_sample: values[2],
        outgoing_cost: e.outgoing_cost,
        last_link_status_timestamp: e.last_link_status_timestamp,
        incoming_beacon_timestamp: e.incoming_beacon_timestamp,
        beacon_transmission_time_offset: e.beacon_transmission_time_offset,
        keepalive_received: door::flag(e.keepalive_received),
        mac_unicast_bytes_transmitted: e.mac_unicast_bytes_transmitted,
        mac_unicast_bytes_received: e.mac_unicast_bytes_received,
        router_added_timestamp: e.router_added_timestamp,
        router_connectivity: e.router_connectivity,
        router_neighbor_set_diversity: e.router_neighbor_set_diversity,
        router_outbound_activity: e.router_outbound_activity,
        router_inbound_activity: e.router_inbound_activity,
        security_timer: e.security_timer,
        lqa_known: quality.known,
        lqa: quality.lqa,
        incoming_link_cost: e.incoming_link_cost(),
        is_child: door::flag(e.is_child()),
    }
}

// What was looked up, as the numbers of its places.
fn neighbor_places(found: Option<NeighborEntry>) -> NeighborPlaces
    ensures { result ≡ neighbor_places found }
{
    match found {
        Some(e) => entry_places(e),
        None => no_places(),
    }
}

// The neighbour at a place, in order of extended address, and nothing from the count on.
#[unsafe(no_mangle)]
pub extern "C" fn warpteasel_raw_neighbor_at(
    keys: &[u64],
    nwks: &[u16],
    links: &[u64],
    counts: &[u64],
    deadlines: &[u64],
    periods: &[u64],
    heard: &[u64],
    added: &[u64],
    beacons: &[u64],
    bytes: &[u64],
    count: usize,
    senders: &[u16],
    samples: &[u64],
    waiting: usize,
    place: usize,
    found: &mut u8,
    extended_address: &mut u64,
    network_address: &mut u16,
    device_type: &mut u8,
    rx_on_when_idle: &mut u8,
    end_device_configuration: &mut u16,
    timeout_at: &mut u64,
    device_timeout: &mut u64,
    relationship: &mut u8,
    transmit_failure: &mut u8,
    samples_held: &mut u8,
    next_sample: &mut u8,
    first_sample: &mut u8,
    second_sample: &mut u8,
    third_sample: &mut u8,
    outgoing_cost: &mut u8,
    last_link_status_timestamp: &mut u64,
    incoming_beacon_timestamp: &mut u32,
    beacon_transmission_time_offset: &mut u32,
    keepalive_received: &mut u8,
    mac_unicast_bytes_transmitted: &mut u32,
    mac_unicast_bytes_received: &mut u32,
    router_added_timestamp: &mut u64,
    router_connectivity: &mut u8,
    router_neighbor_set_diversity: &mut u8,
    router_outbound_activity: &mut u8,
    router_inbound_activity: &mut u8,
    security_timer: &mut u8,
    lqa_known: &mut u8,
    lqa: &mut u8,
    incoming_link_cost: &mut u8,
    is_child: &mut u8,
) -> u8
    ensures { Asked neighbor_numbers (λ (s : Neighbors). ask.entry_at s place)
        (lent keys.now nwks.now links.now counts.now deadlines.now periods.now heard.now added.now beacons.now bytes.now count senders.now samples.now waiting)
        (neighbor_at_places found.old extended_address.old network_address.old device_type.old rx_on_when_idle.old end_device_configuration.old timeout_at.old device_timeout.old relationship.old transmit_failure.old samples_held.old next_sample.old first_sample.old second_sample.old third_sample.old outgoing_cost.old last_link_status_timestamp.old incoming_beacon_timestamp.old beacon_transmission_time_offset.old keepalive_received.old mac_unicast_bytes_transmitted.old mac_unicast_bytes_received.old router_added_timestamp.old router_connectivity.old router_neighbor_set_diversity.old router_outbound_activity.old router_inbound_activity.old security_timer.old lqa_known.old lqa.old incoming_link_cost.old is_child.old)
        (neighbor_at_places found.new extended_address.new network_address.new device_type.new rx_on_when_idle.new end_device_configuration.new timeout_at.new device_timeout.new relationship.new transmit_failure.new samples_held.new next_sample.new first_sample.new second_sample.new third_sample.new outgoing_cost.new last_link_status_timestamp.new incoming_beacon_timestamp.new beacon_transmission_time_offset.new keepalive_received.new mac_unicast_bytes_transmitted.new mac_unicast_bytes_received.new router_added_timestamp.new router_connectivity.new router_neighbor_set_diversity.new router_outbound_activity.new router_inbound_activity.new security_timer.new lqa_known.new lqa.new incoming_link_cost.new is_child.new)
        result }
{
    if !door_neighbors::columns_formed(
        keys, nwks, links, counts, deadlines, periods, heard, added, beacons, bytes, count,
        senders, samples, waiting,
    ) {
        return 10;
    }
    let x = neighbor_columns::at(
        keys, nwks, links, counts, deadlines, periods, heard, added, beacons, bytes, count, place,
    );
    let y = neighbor_places(x);
    *found = y.found;
    *extended_address = y.extended_address;
    *network_address = y.network_address;
    *device_type = y.device_type;
    *rx_on_when_idle = y.rx_on_when_idle;
    *end_device_configuration = y.end_device_configuration;
    *timeout_at = y.timeout_at;
    *device_timeout = y.device_timeout;
    *relationship = y.relationship;
    *transmit_failure = y.transmit_failure;
    *samples_held = y.samples_held;
    *next_sample = y.next_sample;
    *first_sample = y.first_sample;
    *second_sample = y.second_sample;
    *third_sample = y.third_sample;
    *outgoing_cost = y.outgoing_cost;
    *last_link_status_timestamp = y.last_link_status_timestamp;
    *incoming_beacon_timestamp = y.incoming_beacon_timestamp;
    *beacon_transmission_time_offset = y.beacon_transmission_time_offset;
    *keepalive_received = y.keepalive_received;
    *mac_unicast_bytes_transmitted = y.mac_unicast_bytes_transmitted;
    *mac_unicast_bytes_received = y.mac_unicast_bytes_received;
    *router_added_timestamp = y.router_added_timestamp;
    *router_connectivity = y.router_connectivity;
    *router_neighbor_set_diversity = y.router_neighbor_set_diversity;
    *router_outbound_activity = y.router_outbound_activity;
    *router_inbound_activity = y.router_inbound_activity;
    *security_timer = y.security_timer;
    *lqa_known = y.lqa_known;
    *lqa = y.lqa;
    *incoming_link_cost = y.incoming_link_cost;
    *is_child = y.is_child;
    0
}
