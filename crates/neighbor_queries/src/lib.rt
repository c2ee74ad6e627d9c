// Questions to the neighbours and what they are answered: which rows are asked for, lists, a link, and what a neighbour can do.
#![tactic(auto)]

ghost use Rattle.std.specs.Prelude.{◌≡◌, [], ◌<◌};
ghost use Rattle.neighbor_queries.specs.Lists.{child_list, eui_list, nwk_list, status_list, one_more_child, one_more_eui, one_more_nwk, one_more_status};

use neighbor_table::NwkDeviceType;
use types::{Eui64, Nwk};

// Which neighbours are asked for.
#[derive(Clone, Copy)]
pub enum Filter {
    // Those with a network address.
    Address(Nwk),
    EndDeviceChild,
    EndDeviceChildAt(Nwk),
    // Children that do not listen when idle.
    SleepyChild,
    SleepyChildAt(Nwk),
    // Routers that have listed this device with a cost.
    LiveRouter,
    // Any neighbour with a network address and a cost.
    LiveLinkAt(Nwk),
    // Routers of which enough samples are held.
    SampledRouter,
    // End device children whose deadline is at or before a moment.
    TimedOut(u64),
}

// A child by both its addresses.
#[derive(Clone, Copy)]
pub struct Child {
    pub eui64: Eui64,
    pub network_address: Nwk,
}

// The cost of one link both ways, as a link status says it.
#[derive(Clone, Copy)]
pub struct LinkStatus {
    pub address: Nwk,
    pub incoming_cost: u8,
    pub outgoing_cost: u8,
}

#[derive(Clone, Copy)]
pub struct ChildList {
    pub count: usize,
    pub children: [Child; 64],
}

#[derive(Clone, Copy)]
pub struct Eui64List {
    pub count: usize,
    pub addresses: [Eui64; 64],
}

#[derive(Clone, Copy)]
pub struct NwkList {
    pub count: usize,
    pub addresses: [Nwk; 64],
}

#[derive(Clone, Copy)]
pub struct LinkStatusList {
    pub count: usize,
    pub statuses: [LinkStatus; 64],
}

// The radio link to one neighbour.
#[derive(Drop)]
pub struct NeighborLink {
    pub eui64: Eui64,
    // The cost as the neighbour measures it.
    pub outgoing_cost: u8,
    // The cost as this device measures it.
    pub incoming_cost: u8,
}

// What a neighbour can do.
#[derive(Drop)]
pub struct Capability {
    pub device_type: NwkDeviceType,
    pub rx_on_when_idle: bool,
}

impl ChildList {
    pub fn new() -> ChildList
        ensures { result ≡ child_list [] }
    {
        let blank = Child {
            eui64: Eui64(0),
            network_address: Nwk(0),
        };
        ChildList {
            count: 0,
            children: [blank; 64],
        }
    }

    pub fn push(self, child: Child) -> ChildList
        requires { self.count < 64 }
        ensures { result ≡ one_more_child self child }
    {
        let mut list = self;
        let at = self.count;
        list.children[at] = child;
        list.count = at + 1;
        list
    }
}

impl Eui64List {
    pub fn new() -> Eui64List
        ensures { result ≡ eui_list [] }
    {
        let blank = Eui64(0);
        Eui64List {
            count: 0,
            addresses: [blank; 64],
        }
    }

    pub fn push(self, address: Eui64) -> Eui64List
        requires { self.count < 64 }
        ensures { result ≡ one_more_eui self address }
    {
        let mut list = self;
        let at = self.count;
        list.addresses[at] = address;
        list.count = at + 1;
        list
    }
}

impl NwkList {
    pub fn new() -> NwkList
        ensures { result ≡ nwk_list [] }
    {
        let blank = Nwk(0);
        NwkList {
            count: 0,
            addresses: [blank; 64],
        }
    }

    pub fn push(self, address: Nwk) -> NwkList
        requires { self.count < 64 }
        ensures { result ≡ one_more_nwk self address }
    {
        let mut list = self;
        let at = self.count;
        list.addresses[at] = address;
        list.count = at + 1;
        list
    }
}

impl LinkStatusList {
    pub fn new() -> LinkStatusList
        ensures { result ≡ status_list [] }
    {
        let blank = LinkStatus {
            address: Nwk(0),
            incoming_cost: 0,
            outgoing_cost: 0,
        };
        LinkStatusList {
            count: 0,
            statuses: [blank; 64],
        }
    }

    pub fn push(self, status: LinkStatus) -> LinkStatusList
        requires { self.count < 64 }
        ensures { result ≡ one_more_status self status }
    {
        let mut list = self;
        let at = self.count;
        list.statuses[at] = status;
        list.count = at + 1;
        list
    }
}
