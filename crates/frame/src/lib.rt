// The network header by value, field by field as the Rust has it, and the two changes that a call makes to one.
#![tactic(auto)]

ghost use Rattle.std.specs.Prelude.{◌≡◌, ◌<◌, ◌≤◌};
ghost use Rattle.frame.specs.Numbers.{frame_type_number, discovery_number};
ghost use Rattle.frame.specs.Header.{is_suppressed, carries_long, routed_control, source_routed, relayed_control, initiator_cleared};

use standard::RelayList;
use types::{Eui64, Nwk};

// What a frame carries; 2 is no type.
#[derive(Clone, Copy, Debug, PartialEq, Eq)]
pub enum NwkFrameType {
    Data = 0,
    Command = 1,
    Interpan = 3,
}

// Whether a route may be discovered for a frame.
#[derive(Clone, Copy, Debug, PartialEq, Eq)]
pub enum NwkRouteDiscovery {
    Suppress,
    Enable,
    WithMulticast,
}

// The first two bytes of a header. The version has four bits there, the reserved field two.
#[derive(Clone, Copy)]
pub struct NwkFrameControl {
    pub frame_type: NwkFrameType,
    pub protocol_version: u8,
    pub discover_route: NwkRouteDiscovery,
    pub multicast: bool,
    pub security: bool,
    pub source_route: bool,
    pub destination: bool,
    pub extended_source: bool,
    pub end_device_initiator: bool,
    pub reserved1: u8,
}

// The relays of a source route, the one next to the destination first, and the place of the relay that is to come.
#[derive(Clone, Copy)]
pub struct NwkSourceRoute {
    pub relay_index: u8,
    pub relays: RelayList,
}

// A network header. The source route is one only if the flag before it says so; the bit in the frame control is a field of its own.
#[derive(Clone, Copy)]
pub struct NwkHeader {
    pub frame_control: NwkFrameControl,
    pub destination: Nwk,
    pub source: Nwk,
    pub radius: u8,
    pub sequence_number: u8,
    pub destination_ieee: Option<Eui64>,
    pub source_ieee: Option<Eui64>,
    pub multicast_control: Option<u8>,
    pub has_source_route: bool,
    pub source_route: NwkSourceRoute,
}

impl NwkFrameType {
    // The number in the frame control.
    pub fn number(self) -> u8
        ensures { result ≡ frame_type_number self }
    {
        self as u8
    }
}

impl NwkRouteDiscovery {
    // The number in the frame control.
    pub fn number(self) -> u8
        ensures { result ≡ discovery_number self }
    {
        self as u8
    }

    // Whether no route may be discovered.
    pub fn is_suppressed(self) -> bool
        ensures { result ≡ is_suppressed self }
    {
        self == NwkRouteDiscovery::Suppress
    }
}

impl NwkFrameControl {
    // A source route is carried, and no route is discovered.
    fn with_source_route(self) -> NwkFrameControl
        ensures { result ≡ routed_control self }
    {
        let frame_type = self.frame_type;
        NwkFrameControl {
            frame_type,
            protocol_version: self.protocol_version,
            discover_route: NwkRouteDiscovery::Suppress,
            multicast: self.multicast,
            security: self.security,
            source_route: true,
            destination: self.destination,
            extended_source: self.extended_source,
            end_device_initiator: self.end_device_initiator,
            reserved1: self.reserved1,
        }
    }

    // The end device initiator bit cleared.
    fn without_initiator(self) -> NwkFrameControl
        ensures { result ≡ relayed_control self }
    {
        let mut control = self;
        control.end_device_initiator = false;
        control
    }
}

impl NwkHeader {
    // Whether the header has a source route of more than 32 relays.
    pub fn carries_long(self) -> bool
        ensures { result ≡ carries_long self }
    {
        let route = self.source_route;
        let relays = route.relays;
        self.has_source_route & (32 < relays.count)
    }

    // The header with a source route: the flag, the whole list, the place of the last relay, and no discovery.
    pub fn with_source_route(self, relays: RelayList) -> NwkHeader
        requires { (0 < relays.count) × (relays.count ≤ 32) }
        ensures { result ≡ source_routed self relays }
    {
        let control = self.frame_control;
        let frame_control = control.with_source_route();
        let relay_index = (relays.count - 1) as u8;
        let source_route = NwkSourceRoute {
            relay_index,
            relays,
        };
        let mut h = self;
        h.frame_control = frame_control;
        h.has_source_route = true;
        h.source_route = source_route;
        h
    }

    // The header with its end device initiator bit cleared.
    pub fn with_initiator_cleared(self) -> NwkHeader
        ensures { result ≡ initiator_cleared self }
    {
        let control = self.frame_control;
        let frame_control = control.without_initiator();
        let mut h = self;
        h.frame_control = frame_control;
        h
    }
}
