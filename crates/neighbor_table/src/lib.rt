// A row of the neighbour table: its fields and what is read off them.
#![tactic(auto)]

ghost use Rattle.std.specs.Prelude.{◌≡◌};
ghost use Rattle.neighbor_table.specs.Entry.{is_router, is_end_device, is_child_of, quality_of, cost_of, device_type_number, relationship_number};

use ring_buffer::RingBuffer;
use types::{Eui64, Nwk};

// What a device is to its network, in the specification's number order.
#[derive(Clone, Copy, Debug, PartialEq, Eq)]
pub enum NwkDeviceType {
    Coordinator,
    Router,
    EndDevice,
}

impl NwkDeviceType {
    pub fn number(self) -> u8
        ensures { result ≡ device_type_number self }
    {
        self as u8
    }

    pub fn is_router(self) -> bool
        ensures { result ≡ is_router self }
    {
        self == NwkDeviceType::Router
    }

    pub fn is_end_device(self) -> bool
        ensures { result ≡ is_end_device self }
    {
        self == NwkDeviceType::EndDevice
    }
}

// What a neighbour is to this device, in the specification's number order.
#[derive(Clone, Copy, Debug, PartialEq, Eq)]
pub enum Relationship {
    Parent,
    Child,
    Sibling,
    NoneOfTheAbove,
    PreviousChild,
    UnauthenticatedChild,
    UnauthorizedChildWithRelayAllowed,
    LostChild,
    AddressConflictChild,
    BackboneMeshSibling,
}

impl Relationship {
    pub fn number(self) -> u8
        ensures { result ≡ relationship_number self }
    {
        self as u8
    }

    // A child, authenticated or not yet.
    pub fn is_child(self) -> bool
        ensures { result ≡ is_child_of self }
    {
        matches!(
            self,
            Relationship::Child | Relationship::UnauthenticatedChild
        )
    }
}

// A row of the neighbour table. Moments and periods are in milliseconds.
#[derive(Clone, Copy)]
pub struct NeighborEntry {
    pub extended_address: Eui64,
    pub network_address: Nwk,
    pub device_type: NwkDeviceType,
    pub rx_on_when_idle: bool,
    pub end_device_configuration: u16,
    // An end device child is evicted at this moment, unless a keepalive moves it.
    pub timeout_at: u64,
    // The period by which a keepalive moves it.
    pub device_timeout: u64,
    pub relationship: Relationship,
    pub transmit_failure: u8,
    pub lqas: RingBuffer,
    // The link's cost as the neighbour measures it; 0 where no link status has said it.
    pub outgoing_cost: u8,
    pub last_link_status_timestamp: u64,
    pub incoming_beacon_timestamp: u32,
    pub beacon_transmission_time_offset: u32,
    pub keepalive_received: bool,
    pub mac_unicast_bytes_transmitted: u32,
    pub mac_unicast_bytes_received: u32,
    pub router_added_timestamp: u64,
    pub router_connectivity: u8,
    pub router_neighbor_set_diversity: u8,
    pub router_outbound_activity: u8,
    pub router_inbound_activity: u8,
    pub security_timer: u8,
}

impl NeighborEntry {
    pub fn lqa(self) -> Option<u8>
        ensures { result ≡ quality_of self.lqas }
    {
        let lqas = self.lqas;
        if lqas.is_full() {
            Some(ring_buffer::median(lqas.values()))
        } else {
            None
        }
    }

    pub fn incoming_link_cost(self) -> u8
        ensures { result ≡ cost_of (quality_of self.lqas) }
    {
        let quality = self.lqa();
        match quality {
            None => 0,
            Some(lqi) => link_cost::lqi_to_link_cost(lqi),
        }
    }

    pub fn is_child(self) -> bool
        ensures { result ≡ is_child_of self.relationship }
    {
        let relationship = self.relationship;
        relationship.is_child()
    }
}
