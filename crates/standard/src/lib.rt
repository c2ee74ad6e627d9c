// The words of the routing rules: what a row of each table holds, field by field, and what a call can say.
// The rules over them are definitions, in specs/.
#![tactic(auto)]

use types::Nwk;

// How a route stands, in the specification's number order.
#[derive(Clone, Copy, Debug, PartialEq, Eq)]
pub enum Status {
    Active,
    DiscoveryUnderway,
    DiscoveryFailed,
    Inactive,
}

// A row of the route table.
#[derive(Clone, Copy)]
pub struct RouteEntry {
    pub destination: Nwk,
    pub status: Status,
    pub no_route_cache: bool,
    pub many_to_one: bool,
    pub route_record_required: bool,
    pub expired: bool,
    pub next_hop_address: Nwk,
    pub path_cost: u8,
    pub total_usage_count: u32,
    pub recent_activity: u8,
}

// A row of the route discovery table.
#[derive(Clone, Copy)]
pub struct DiscoveryEntry {
    pub route_request_id: u8,
    pub source_address: Nwk,
    pub sender_address: Nwk,
    pub forward_cost: u8,
    pub residual_cost: u8,
    pub expiration_time: u64,
    pub destination_address: Nwk,
}

// A row of the route record table; its relays stand in the lent store.
#[derive(Drop)]
pub struct RecordEntry {
    pub destination: Nwk,
    pub relay_count: u8,
}

// The many-to-one field of a route request, in number order.
#[derive(Clone, Copy, Debug, PartialEq, Eq)]
pub enum ManyToOne {
    NotManyToOne,
    SenderSupportsRouteRecordTable,
    SenderDoesntSupportRouteRecordTable,
    Reserved,
}

// A route established or re-pointed.
#[derive(Drop)]
pub struct RouteUpdate {
    pub destination: Nwk,
    pub next_hop: Nwk,
    pub path_cost: u8,
}

// What is to be done with a route reply.
#[derive(Drop)]
pub enum RouteReplyDisposition {
    Drop,
    Established,
    Relay { next_hop: Nwk, path_cost: u8 },
}

// Relays, the one next to the destination first, at most 32: what a list given names, whose count may pass its places, or what an answer names.
#[derive(Clone, Copy)]
pub struct RelayList {
    pub count: usize,
    pub addresses: [Nwk; 32],
}

// What a destination's record says of the way to it.
#[derive(Drop)]
pub enum RecordRoute {
    Direct,
    SourceRoute,
}
