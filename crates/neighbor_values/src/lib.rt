// Neighbours, waiting entries, children, link statuses and lists of them as numbers, in the order in which a script takes and prints them.
#![tactic(auto)]

ghost use Rattle.std.specs.Prelude.{◌≡◌, ◌<◌};
ghost use Rattle.numbers.specs.Said.{flag_number, pushed, pushed_all};
ghost use Rattle.neighbor_table.specs.Entry.{device_type_number, relationship_number};
ghost use Rattle.neighbor_values.specs.Kinds.{device_type_of, relationship_of};
ghost use Rattle.neighbor_values.specs.Reading.{samples_at, neighbor_at, waiting_entry_at};
ghost use Rattle.neighbor_values.specs.Values.{name_numbers, samples_numbers, link_numbers, router_numbers, neighbor_numbers, child_numbers, status_numbers, children_numbers, eui64s_numbers, nwks_numbers, statuses_numbers};

use neighbor_queries::{Child, ChildList, Eui64List, LinkStatus, LinkStatusList, NwkList};
use neighbor_table::{NeighborEntry, NwkDeviceType, Relationship};
use numbers::Numbers;
use ring_buffer::RingBuffer;
use types::{Eui64, Nwk};
use waiting_table::WaitingEntry;

// The device type of a number; a number past the last gives the last.
pub fn device_type(number: u64) -> NwkDeviceType
    ensures { result ≡ device_type_of number }
{
    let all = [
        NwkDeviceType::Coordinator,
        NwkDeviceType::Router,
        NwkDeviceType::EndDevice,
    ];
    let i = (number as usize).min(2);
    all[i]
}

// The relationship of a number; a number past the last gives the last.
pub fn relationship(number: u64) -> Relationship
    ensures { result ≡ relationship_of number }
{
    let all = [
        Relationship::Parent,
        Relationship::Child,
        Relationship::Sibling,
        Relationship::NoneOfTheAbove,
        Relationship::PreviousChild,
        Relationship::UnauthenticatedChild,
        Relationship::UnauthorizedChildWithRelayAllowed,
        Relationship::LostChild,
        Relationship::AddressConflictChild,
        Relationship::BackboneMeshSibling,
    ];
    let i = (number as usize).min(9);
    all[i]
}

// The samples that begin at a place.
pub fn samples_at(args: &[u64], i: usize) -> RingBuffer
    requires { i < 65600 }
    ensures { result ≡ samples_at args.now i }
{
    let len = numbers::byte(args, i);
    let next = numbers::byte(args, i + 1);
    let first = numbers::byte(args, i + 2);
    let second = numbers::byte(args, i + 3);
    let third = numbers::byte(args, i + 4);
    let values = [first, second, third];
    RingBuffer { values, len, next }
}

// The neighbour that begins at a place.
pub fn neighbor_at(args: &[u64], i: usize) -> NeighborEntry
    requires { i < 65536 }
    ensures { result ≡ neighbor_at args.now i }
{
    NeighborEntry {
        extended_address: numbers::eui64(args, i),
        network_address: numbers::nwk(args, i + 1),
        device_type: device_type(numbers::at(args, i + 2)),
        rx_on_when_idle: numbers::flag(args, i + 3),
        end_device_configuration: numbers::short(args, i + 4),
        timeout_at: numbers::at(args, i + 5),
        device_timeout: numbers::at(args, i + 6),
        relationship: relationship(numbers::at(args, i + 7)),
        transmit_failure: numbers::byte(args, i + 8),
        lqas: samples_at(args, i + 9),
        outgoing_cost: numbers::byte(args, i + 14),
        last_link_status_timestamp: numbers::at(args, i + 15),
        incoming_beacon_timestamp: numbers::counter(args, i + 16),
        beacon_transmission_time_offset: numbers::counter(args, i + 17),
        keepalive_received: numbers::flag(args, i + 18),
        mac_unicast_bytes_transmitted: numbers::counter(args, i + 19),
        mac_unicast_bytes_received: numbers::counter(args, i + 20),
        router_added_timestamp: numbers::at(args, i + 21),
        router_connectivity: numbers::byte(args, i + 22),
        router_neighbor_set_diversity: numbers::byte(args, i + 23),
        router_outbound_activity: numbers::byte(args, i + 24),
        router_inbound_activity: numbers::byte(args, i + 25),
        security_timer: numbers::byte(args, i + 26),
    }
}

// The waiting entry that begins at a place.
pub fn waiting_entry_at(args: &[u64], i: usize) -> WaitingEntry
    requires { i < 65536 }
    ensures { result ≡ waiting_entry_at args.now i }
{
    let network_address = numbers::nwk(args, i);
    let lqas = samples_at(args, i + 1);
    WaitingEntry {
        network_address,
        lqas,
    }
}

// A byte more.
pub fn push_byte(n: Numbers, x: u8) -> Numbers
    ensures { result ≡ pushed n x }
{
    numbers::push(n, x as u64)
}

// A number of 16 bits more.
fn push_short(n: Numbers, x: u16) -> Numbers
    ensures { result ≡ pushed n x }
{
    numbers::push(n, x as u64)
}

// A number of 32 bits more.
fn push_counter(n: Numbers, x: u32) -> Numbers
    ensures { result ≡ pushed n x }
{
    numbers::push(n, x as u64)
}

// A bool more.
pub fn push_flag(n: Numbers, b: bool) -> Numbers
    ensures { result ≡ pushed n (flag_number b) }
{
    numbers::push(n, numbers::flag_number(b))
}

// An extended address more.
pub fn push_eui64(n: Numbers, a: Eui64) -> Numbers
    ensures { result ≡ pushed n a.0 }
{
    numbers::push(n, a.0)
}

// A network address more.
pub fn push_nwk(n: Numbers, a: Nwk) -> Numbers
    ensures { result ≡ pushed n a.0 }
{
    numbers::push(n, a.0 as u64)
}

// A device type more.
pub fn push_device_type(n: Numbers, kind: NwkDeviceType) -> Numbers
    ensures { result ≡ pushed n (device_type_number kind) }
{
    push_byte(n, kind.number())
}

// A relationship more.
fn push_relationship(n: Numbers, r: Relationship) -> Numbers
    ensures { result ≡ pushed n (relationship_number r) }
{
    push_byte(n, r.number())
}

fn push_name(n: Numbers, e: NeighborEntry) -> Numbers
    ensures { result ≡ pushed_all n (name_numbers e) }
{
    let eui64 = e.extended_address;
    let nwk = e.network_address;
    let kind = e.device_type;
    let relationship = e.relationship;
    let a = push_eui64(n, eui64);
    let b = push_nwk(a, nwk);
    let c = push_device_type(b, kind);
    let d = push_flag(c, e.rx_on_when_idle);
    let f = push_short(d, e.end_device_configuration);
    let g = numbers::push(f, e.timeout_at);
    let h = numbers::push(g, e.device_timeout);
    let i = push_relationship(h, relationship);
    push_byte(i, e.transmit_failure)
}

// The samples as they are held.
pub fn push_samples(n: Numbers, samples: RingBuffer) -> Numbers
    ensures { result ≡ pushed_all n (samples_numbers samples) }
{
    let values = samples.values;
    let a = push_byte(n, samples.len);
    let b = push_byte(a, samples.next);
    let c = push_byte(b, values[0]);
    let d = push_byte(c, values[1]);
    push_byte(d, values[2])
}

fn push_link(n: Numbers, e: NeighborEntry) -> Numbers
    ensures { result ≡ pushed_all n (link_numbers e) }
{
    let a = push_byte(n, e.outgoing_cost);
    let b = numbers::push(a, e.last_link_status_timestamp);
    let c = push_counter(b, e.incoming_beacon_timestamp);
    let d = push_counter(c, e.beacon_transmission_time_offset);
    let f = push_flag(d, e.keepalive_received);
    let g = push_counter(f, e.mac_unicast_bytes_transmitted);
    push_counter(g, e.mac_unicast_bytes_received)
}

fn push_router(n: Numbers, e: NeighborEntry) -> Numbers
    ensures { result ≡ pushed_all n (router_numbers e) }
{
    let a = numbers::push(n, e.router_added_timestamp);
    let b = push_byte(a, e.router_connectivity);
    let c = push_byte(b, e.router_neighbor_set_diversity);
    let d = push_byte(c, e.router_outbound_activity);
    let f = push_byte(d, e.router_inbound_activity);
    push_byte(f, e.security_timer)
}

// A whole neighbour, in the order in which a script takes it.
pub fn push_neighbor(n: Numbers, e: NeighborEntry) -> Numbers
    ensures { result ≡ pushed_all n (neighbor_numbers e) }
{
    let lqas = e.lqas;
    let named = push_name(n, e);
    let sampled = push_samples(named, lqas);
    let linked = push_link(sampled, e);
    push_router(linked, e)
}

fn push_child(n: Numbers, child: Child) -> Numbers
    ensures { result ≡ pushed_all n (child_numbers child) }
{
    let eui64 = child.eui64;
    let nwk = child.network_address;
    let m = push_eui64(n, eui64);
    push_nwk(m, nwk)
}

fn push_status(n: Numbers, status: LinkStatus) -> Numbers
    ensures { result ≡ pushed_all n (status_numbers status) }
{
    let nwk = status.address;
    let m = push_nwk(n, nwk);
    let k = push_byte(m, status.incoming_cost);
    push_byte(k, status.outgoing_cost)
}

pub fn push_children(n: Numbers, list: ChildList) -> Numbers
    ensures { result ≡ pushed_all n (children_numbers list) }
{
    let count = list.count;
    let end = count.min(64);
    let mut m = numbers::push(n, count as u64);
    for i in 0..end {
        let child = list.children[i];
        m = push_child(m, child);
    }
    m
}

pub fn push_eui64s(n: Numbers, list: Eui64List) -> Numbers
    ensures { result ≡ pushed_all n (eui64s_numbers list) }
{
    let count = list.count;
    let end = count.min(64);
    let mut m = numbers::push(n, count as u64);
    for i in 0..end {
        let eui64 = list.addresses[i];
        m = push_eui64(m, eui64);
    }
    m
}

pub fn push_nwks(n: Numbers, list: NwkList) -> Numbers
    ensures { result ≡ pushed_all n (nwks_numbers list) }
{
    let count = list.count;
    let end = count.min(64);
    let mut m = numbers::push(n, count as u64);
    for i in 0..end {
        let nwk = list.addresses[i];
        m = push_nwk(m, nwk);
    }
    m
}

pub fn push_statuses(n: Numbers, list: LinkStatusList) -> Numbers
    ensures { result ≡ pushed_all n (statuses_numbers list) }
{
    let count = list.count;
    let end = count.min(64);
    let mut m = numbers::push(n, count as u64);
    for i in 0..end {
        let status = list.statuses[i];
        m = push_status(m, status);
    }
    m
}
