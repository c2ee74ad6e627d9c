// Link status commands: what a neighbour says of its links, and what that makes of our entry for it.
#![tactic(auto)]

ghost use Rattle.std.specs.Prelude.{cond, true, ◌≡◌, ◌+◌, ◌-◌, ◌≤◌, ◌<◌, min};
ghost use Rattle.flat_map.specs.Table.{every};
ghost use Rattle.link_status.specs.Digest.{as_router, begun, finished, new_router};
ghost use Rattle.link_status.specs.Statuses.{costs_fit, worth, counted, statuses_of};

use neighbor_queries::LinkStatus;
use neighbor_table::{NeighborEntry, NwkDeviceType, Relationship};
use ring_buffer::RingBuffer;
use types::{Eui64, Nwk};

// The statuses of one command; the count may pass the capacity.
#[derive(Clone, Copy)]
pub struct LinkStatusCommand {
    pub is_first_frame: bool,
    pub is_last_frame: bool,
    pub count: usize,
    pub statuses: [LinkStatus; 31],
}

// What the statuses passed so far add up to.
#[derive(Clone, Copy)]
pub struct Tally {
    pub connectivity: u8,
    pub diversity: u8,
    pub cost: u8,
}

fn costs_fit(status: LinkStatus) -> bool
    ensures { result ≡ costs_fit status }
{
    (status.incoming_cost <= 7) & (status.outgoing_cost <= 7)
}

// Whether every cost of a command is one that a link can have.
pub fn all_costs_fit(command: LinkStatusCommand) -> bool
    requires { command.count ≤ 31 }
    ensures { result ≡ every costs_fit (statuses_of command) }
{
    command.statuses[..command.count]
        .iter()
        .all(|status| costs_fit(*status))
}

// What a link is worth: 7 less the larger of its costs.
fn worth_of(status: LinkStatus) -> u8
    requires { costs_fit status ≡ true }
    ensures { result ≡ worth status }
{
    let incoming = status.incoming_cost;
    let outgoing = status.outgoing_cost;
    if incoming <= outgoing {
        7 - outgoing
    } else {
        7 - incoming
    }
}

// A sum that stops at 255, made only where it is asked for.
fn add_where(on: bool, x: u8, by: u8) -> u8
    ensures { result ≡ cond on (min (x + by) 255) x }
{
    if on { x.saturating_add(by) } else { x }
}

fn pick(on: bool, x: u8, other: u8) -> u8
    ensures { result ≡ cond on x other }
{
    if on { x } else { other }
}

// One status more.
pub fn count_one(own: Nwk, live: bool, status: LinkStatus, x: Tally) -> Tally
    requires { costs_fit status ≡ true }
    ensures { result ≡ counted own live status x }
{
    let by = worth_of(status);
    let heard = 0 < status.outgoing_cost;
    let address = status.address;
    Tally {
        connectivity: add_where(heard, x.connectivity, by),
        diversity: add_where(heard & !live, x.diversity, by),
        cost: pick(address == own, status.incoming_cost, x.cost),
    }
}

// The child timeout of a new neighbour, 0xFFFFFFFF seconds in milliseconds: it never ends.
const FOREVER: u64 = 4294967295000;

// A device that sends a link status is no end device.
pub fn as_router(d: NwkDeviceType) -> NwkDeviceType
    ensures { result ≡ as_router d }
{
    match d {
        NwkDeviceType::Coordinator => NwkDeviceType::Coordinator,
        NwkDeviceType::Router => NwkDeviceType::Router,
        NwkDeviceType::EndDevice => NwkDeviceType::Router,
    }
}

// A first frame starts from nothing, any other from what is stored.
pub fn begin(e: NeighborEntry, first: bool) -> Tally
    ensures { result ≡ begun first e }
{
    Tally {
        connectivity: pick(first, 0, e.router_connectivity),
        diversity: pick(first, 0, e.router_neighbor_set_diversity),
        cost: pick(first, 0, e.outgoing_cost),
    }
}

// What the command leaves in the entry.
pub fn finish(e: NeighborEntry, x: Tally, now: u64) -> NeighborEntry
    ensures { result ≡ finished now x e }
{
    let extended_address = e.extended_address;
    let network_address = e.network_address;
    let was = e.device_type;
    let relationship = e.relationship;
    let lqas = e.lqas;
    NeighborEntry {
        extended_address,
        network_address,
        device_type: as_router(was),
        rx_on_when_idle: e.rx_on_when_idle | was.is_end_device(),
        end_device_configuration: e.end_device_configuration,
        timeout_at: e.timeout_at,
        device_timeout: e.device_timeout,
        relationship,
        transmit_failure: e.transmit_failure,
        lqas,
        outgoing_cost: x.cost,
        last_link_status_timestamp: now,
        incoming_beacon_timestamp: e.incoming_beacon_timestamp,
        beacon_transmission_time_offset: e.beacon_transmission_time_offset,
        keepalive_received: e.keepalive_received,
        mac_unicast_bytes_transmitted: e.mac_unicast_bytes_transmitted,
        mac_unicast_bytes_received: e.mac_unicast_bytes_received,
        router_added_timestamp: e.router_added_timestamp,
        router_connectivity: x.connectivity,
        router_neighbor_set_diversity: x.diversity,
        router_outbound_activity: e.router_outbound_activity,
        router_inbound_activity: e.router_inbound_activity,
        security_timer: e.security_timer,
    }
}

// A neighbour that was not known: a sibling router.
pub fn new_router(name: Eui64, nwk: Nwk, at: u64, now: u64, lqas: RingBuffer) -> NeighborEntry
    ensures { result ≡ new_router name nwk at now lqas }
{
    NeighborEntry {
        extended_address: name,
        network_address: nwk,
        device_type: NwkDeviceType::Router,
        rx_on_when_idle: true,
        end_device_configuration: 0,
        timeout_at: at,
        device_timeout: FOREVER,
        relationship: Relationship::Sibling,
        transmit_failure: 0,
        lqas,
        outgoing_cost: 0,
        last_link_status_timestamp: now,
        incoming_beacon_timestamp: 0,
        beacon_transmission_time_offset: 0,
        keepalive_received: true,
        mac_unicast_bytes_transmitted: 0,
        mac_unicast_bytes_received: 0,
        router_added_timestamp: now,
        router_connectivity: 0,
        router_neighbor_set_diversity: 0,
        router_outbound_activity: 0,
        router_inbound_activity: 0,
        security_timer: 0,
    }
}
