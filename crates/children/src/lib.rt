// A child as it joins or rejoins, and how a neighbour may be named.
#![tactic(auto)]

ghost use Rattle.std.specs.Prelude.{◌≡◌};
ghost use Rattle.children.specs.Attach.{start_in, attached};

use neighbor_table::{NeighborEntry, NwkDeviceType, Relationship};
use ring_buffer::RingBuffer;
use types::{Eui64, Nwk};

// A child as it joins or rejoins.
#[derive(Drop)]
pub struct ChildDescriptor {
    pub eui64: Eui64,
    pub network_address: Nwk,
    pub device_type: NwkDeviceType,
    pub rx_on_when_idle: bool,
    pub device_timeout: u64,
    pub relationship: Relationship,
}

// The entry that a joining child starts from: the one that it has, or a new one.
pub fn start_in(found: Option<NeighborEntry>, eui64: Eui64, now: u64) -> NeighborEntry
    ensures { result ≡ start_in found eui64 now }
{
    match found {
        Some(e) => e,
        None => NeighborEntry {
            extended_address: eui64,
            network_address: Nwk(0),
            device_type: NwkDeviceType::Coordinator,
            rx_on_when_idle: false,
            end_device_configuration: 0,
            timeout_at: 0,
            device_timeout: 0,
            relationship: Relationship::Parent,
            transmit_failure: 0,
            lqas: RingBuffer::new(),
            outgoing_cost: 0,
            last_link_status_timestamp: now,
            incoming_beacon_timestamp: 0,
            beacon_transmission_time_offset: 0,
            keepalive_received: false,
            mac_unicast_bytes_transmitted: 0,
            mac_unicast_bytes_received: 0,
            router_added_timestamp: now,
            router_connectivity: 0,
            router_neighbor_set_diversity: 0,
            router_outbound_activity: 0,
            router_inbound_activity: 0,
            security_timer: 0,
        },
    }
}

// What a device may change from one attachment to the next is stored anew.
pub fn attach(child: ChildDescriptor, at: u64, e: NeighborEntry) -> NeighborEntry
    ensures { result ≡ attached child at e }
{
    let extended_address = e.extended_address;
    let network_address = child.network_address;
    let device_type = child.device_type;
    let relationship = child.relationship;
    let lqas = e.lqas;
    NeighborEntry {
        extended_address,
        network_address,
        device_type,
        rx_on_when_idle: child.rx_on_when_idle,
        end_device_configuration: e.end_device_configuration,
        timeout_at: at,
        device_timeout: child.device_timeout,
        relationship,
        transmit_failure: e.transmit_failure,
        lqas,
        outgoing_cost: e.outgoing_cost,
        last_link_status_timestamp: e.last_link_status_timestamp,
        incoming_beacon_timestamp: e.incoming_beacon_timestamp,
        beacon_transmission_time_offset: e.beacon_transmission_time_offset,
        keepalive_received: e.keepalive_received,
        mac_unicast_bytes_transmitted: e.mac_unicast_bytes_transmitted,
        mac_unicast_bytes_received: e.mac_unicast_bytes_received,
        router_added_timestamp: e.router_added_timestamp,
        router_connectivity: e.router_connectivity,
        router_neighbor_set_diversity: e.router_neighbor_set_diversity,
        router_outbound_activity: e.router_outbound_activity,
        router_inbound_activity: e.router_inbound_activity,
        security_timer: e.security_timer,
    }
}
