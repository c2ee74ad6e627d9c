// A network header as numbers: read from a place on, and put after other values.
ghost use Rattle.std.specs.Prelude.{◌≡◌, ◌<◌};
ghost use Rattle.numbers.specs.Said.{pushed, pushed_all};
ghost use Rattle.frame.specs.Numbers.{frame_type_number, discovery_number, name_numbers, byte_numbers, control_numbers, route_numbers, header_numbers};
ghost use Rattle.decision_lines.specs.Header.{frame_type_of, discovery_of, control_at, optional_eui64_at, optional_byte_at, route_at, header_at};

use frame::{NwkFrameControl, NwkFrameType, NwkHeader, NwkRouteDiscovery, NwkSourceRoute};
use numbers::Numbers;
use types::Eui64;

// The frame type of a number.
fn frame_type(number: u64) -> NwkFrameType
    ensures { result ≡ frame_type_of number }
{
    let all = [
        NwkFrameType::Data,
        NwkFrameType::Command,
        NwkFrameType::Command,
        NwkFrameType::Interpan,
    ];
    let i = (number as usize).min(3);
    all[i]
}

// What may be discovered, of a number.
fn discovery(number: u64) -> NwkRouteDiscovery
    ensures { result ≡ discovery_of number }
{
    let all = [
        NwkRouteDiscovery::Suppress,
        NwkRouteDiscovery::Enable,
        NwkRouteDiscovery::WithMulticast,
    ];
    let i = (number as usize).min(2);
    all[i]
}

fn control(args: &[u64], i: usize) -> NwkFrameControl
    requires { i < 128 }
    ensures { result ≡ control_at args.now i }
{
    let frame_type = frame_type(numbers::at(args, i));
    let protocol_version = numbers::byte(args, i + 1);
    let discover_route = discovery(numbers::at(args, i + 2));
    let multicast = numbers::flag(args, i + 3);
    let security = numbers::flag(args, i + 4);
    let source_route = numbers::flag(args, i + 5);
    let destination = numbers::flag(args, i + 6);
    let extended_source = numbers::flag(args, i + 7);
    let end_device_initiator = numbers::flag(args, i + 8);
    let reserved1 = numbers::byte(args, i + 9);
    NwkFrameControl {
        frame_type,
        protocol_version,
        discover_route,
        multicast,
        security,
        source_route,
        destination,
        extended_source,
        end_device_initiator,
        reserved1,
    }
}

// An extended address that may be given, at a place.
fn optional_eui64(args: &[u64], i: usize) -> Option<Eui64>
    requires { i < 256 }
    ensures { result ≡ optional_eui64_at args.now i }
{
    if numbers::flag(args, i) {
        Some(numbers::eui64(args, i + 1))
    } else {
        None
    }
}

// A byte that may be given, at a place.
fn optional_byte(args: &[u64], i: usize) -> Option<u8>
    requires { i < 256 }
    ensures { result ≡ optional_byte_at args.now i }
{
    if numbers::flag(args, i) {
        Some(numbers::byte(args, i + 1))
    } else {
        None
    }
}

fn route(args: &[u64], i: usize) -> NwkSourceRoute
    requires { i < 200 }
    ensures { result ≡ route_at args.now i }
{
    let relay_index = numbers::byte(args, i + 1);
    let relays = route_args::relays(args, i + 2);
    NwkSourceRoute {
        relay_index,
        relays,
    }
}

// The header that starts at a place.
pub fn header(args: &[u64], from: usize) -> NwkHeader
    requires { from < 128 }
    ensures { result ≡ header_at args.now from }
{
    let i = from + 14;
    let j = child_arguments::after(args, i);
    let k = child_arguments::after(args, j);
    let l = child_arguments::after(args, k);
    let frame_control = control(args, from);
    let destination = numbers::nwk(args, from + 10);
    let source = numbers::nwk(args, from + 11);
    let radius = numbers::byte(args, from + 12);
    let sequence_number = numbers::byte(args, from + 13);
    let destination_ieee = optional_eui64(args, i);
    let source_ieee = optional_eui64(args, j);
    let multicast_control = optional_byte(args, k);
    let has_source_route = numbers::flag(args, l);
    let source_route = route(args, l);
    NwkHeader {
        frame_control,
        destination,
        source,
        radius,
        sequence_number,
        destination_ieee,
        source_ieee,
        multicast_control,
        has_source_route,
        source_route,
    }
}

fn push_frame_type(n: Numbers, kind: NwkFrameType) -> Numbers
    ensures { result ≡ pushed n (frame_type_number kind) }
{
    neighbor_values::push_byte(n, kind.number())
}

fn push_discovery(n: Numbers, discovery: NwkRouteDiscovery) -> Numbers
    ensures { result ≡ pushed n (discovery_number discovery) }
{
    neighbor_values::push_byte(n, discovery.number())
}

fn push_control(n: Numbers, control: NwkFrameControl) -> Numbers
    ensures { result ≡ pushed_all n (control_numbers control) }
{
    let kind = control.frame_type;
    let discovery = control.discover_route;
    let a = push_frame_type(n, kind);
    let b = neighbor_values::push_byte(a, control.protocol_version);
    let c = push_discovery(b, discovery);
    let d = neighbor_values::push_flag(c, control.multicast);
    let e = neighbor_values::push_flag(d, control.security);
    let f = neighbor_values::push_flag(e, control.source_route);
    let g = neighbor_values::push_flag(f, control.destination);
    let h = neighbor_values::push_flag(g, control.extended_source);
    let i = neighbor_values::push_flag(h, control.end_device_initiator);
    neighbor_values::push_byte(i, control.reserved1)
}

fn push_optional_eui64(n: Numbers, name: Option<Eui64>) -> Numbers
    ensures { result ≡ pushed_all n (name_numbers name) }
{
    match name {
        None => numbers::push(n, 0),
        Some(eui64) => {
            let m = numbers::push(n, 1);
            neighbor_values::push_eui64(m, eui64)
        }
    }
}

fn push_optional_byte(n: Numbers, byte: Option<u8>) -> Numbers
    ensures { result ≡ pushed_all n (byte_numbers byte) }
{
    match byte {
        None => numbers::push(n, 0),
        Some(b) => {
            let m = numbers::push(n, 1);
            neighbor_values::push_byte(m, b)
        }
    }
}

fn push_route(n: Numbers, has: bool, route: NwkSourceRoute) -> Numbers
    ensures { result ≡ pushed_all n (route_numbers has route) }
{
    let relays = route.relays;
    if has {
        let m = numbers::push(n, 1);
        let k = neighbor_values::push_byte(m, route.relay_index);
        route_answers::push_relays(k, relays)
    } else {
        numbers::push(n, 0)
    }
}

// A whole header, in the order in which a script takes it.
pub fn push_header(n: Numbers, h: NwkHeader) -> Numbers
    ensures { result ≡ pushed_all n (header_numbers h) }
{
    let frame_control = h.frame_control;
    let destination = h.destination;
    let source = h.source;
    let destination_ieee = h.destination_ieee;
    let source_ieee = h.source_ieee;
    let multicast_control = h.multicast_control;
    let route = h.source_route;
    let a = push_control(n, frame_control);
    let b = neighbor_values::push_nwk(a, destination);
    let c = neighbor_values::push_nwk(b, source);
    let d = neighbor_values::push_byte(c, h.radius);
    let e = neighbor_values::push_byte(d, h.sequence_number);
    let f = push_optional_eui64(e, destination_ieee);
    let g = push_optional_eui64(f, source_ieee);
    let i = push_optional_byte(g, multicast_control);
    push_route(i, h.has_source_route, route)
}
