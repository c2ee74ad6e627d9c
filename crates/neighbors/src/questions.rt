// The questions. A state that is not well formed is refused.
ghost use Rattle.std.specs.Prelude.{◌≡◌};
ghost use Rattle.neighbors.specs.Queries.{link, count, entry_at, has_network_address, end_device_child_eui64, sleepy_child_eui64, sleepy_children, contains, device_capability, end_device_child_count, end_device_children, is_unconfirmed_end_device_child, any_live_router_link, next_child_timeout, expected_broadcast_relayers, link_status_entries};

use crate::Neighbors;
use neighbor_queries::{Capability, ChildList, Eui64List, LinkStatusList, NeighborLink, NwkList};
use neighbor_table::NeighborEntry;
use types::{Eui64, Nwk, Refusal};

impl Neighbors {
    // How many neighbours there are.
    pub fn count(self) -> Result<usize, Refusal>
        ensures { result ≡ count self }
    {
        if !self.well_formed() {
            return Err(Refusal::StateIllFormed);
        }
        Ok(self.count)
    }

    // The neighbour at a place, in order of extended address; nothing from the count on.
    pub fn entry_at(self, place: usize) -> Result<Option<NeighborEntry>, Refusal>
        ensures { result ≡ entry_at self place }
    {
        if !self.well_formed() {
            return Err(Refusal::StateIllFormed);
        }
        let keys = self.keys;
        let nwks = self.nwks;
        let links = self.links;
        let counts = self.counts;
        let deadlines = self.deadlines;
        let periods = self.periods;
        let heard = self.heard;
        let added = self.added;
        let beacons = self.beacons;
        let bytes = self.bytes;
        Ok(neighbor_columns::at(
            &keys, &nwks, &links, &counts, &deadlines, &periods, &heard, &added, &beacons, &bytes,
            self.count, place,
        ))
    }

    // The radio link to the neighbour with a network address.
    pub fn link(self, nwk: Nwk) -> Result<Option<NeighborLink>, Refusal>
        ensures { result ≡ link self nwk }
    {
        if !self.well_formed() {
            return Err(Refusal::StateIllFormed);
        }
        let keys = self.keys;
        let nwks = self.nwks;
        let links = self.links;
        neighbor_questions_lent::link(&keys, &nwks, &links, self.count, nwk)
    }

    // Whether a neighbour has a network address.
    pub fn has_network_address(self, nwk: Nwk) -> Result<bool, Refusal>
        ensures { result ≡ has_network_address self nwk }
    {
        if !self.well_formed() {
            return Err(Refusal::StateIllFormed);
        }
        let nwks = self.nwks;
        Ok(neighbor_queries_lent::has_network_address(&nwks, self.count, nwk))
    }

    // The extended address of the end device child with a network address.
    pub fn end_device_child_eui64(self, nwk: Nwk) -> Result<Option<Eui64>, Refusal>
        ensures { result ≡ end_device_child_eui64 self nwk }
    {
        if !self.well_formed() {
            return Err(Refusal::StateIllFormed);
        }
        let keys = self.keys;
        let nwks = self.nwks;
        let links = self.links;
        neighbor_questions_lent::end_device_child_eui64(&keys, &nwks, &links, self.count, nwk)
    }

    // The extended address of the child with a network address that sleeps when idle.
    pub fn sleepy_child_eui64(self, nwk: Nwk) -> Result<Option<Eui64>, Refusal>
        ensures { result ≡ sleepy_child_eui64 self nwk }
    {
        if !self.well_formed() {
            return Err(Refusal::StateIllFormed);
        }
        let keys = self.keys;
        let nwks = self.nwks;
        let links = self.links;
        neighbor_questions_lent::sleepy_child_eui64(&keys, &nwks, &links, self.count, nwk)
    }

    // Every child that sleeps when idle: a broadcast goes to each by a unicast (05-3474, 3.6.6).
    pub fn sleepy_children(self) -> Result<ChildList, Refusal>
        ensures { result ≡ sleepy_children self }
    {
        if !self.well_formed() {
            return Err(Refusal::StateIllFormed);
        }
        let keys = self.keys;
        let nwks = self.nwks;
        let links = self.links;
        Ok(neighbor_questions_lent::sleepy_children(&keys, &nwks, &links, self.count))
    }

    // Whether an extended address is a neighbour's.
    pub fn contains(self, eui64: Eui64) -> Result<bool, Refusal>
        ensures { result ≡ contains self eui64 }
    {
        if !self.well_formed() {
            return Err(Refusal::StateIllFormed);
        }
        let keys = self.keys;
        Ok(neighbor_questions_lent::contains(&keys, self.count, eui64))
    }

    // The device type of a neighbour, and whether it listens when idle.
    pub fn device_capability(self, eui64: Eui64) -> Result<Option<Capability>, Refusal>
        ensures { result ≡ device_capability self eui64 }
    {
        if !self.well_formed() {
            return Err(Refusal::StateIllFormed);
        }
        let keys = self.keys;
        let links = self.links;
        neighbor_questions_lent::device_capability(&keys, &links, self.count, eui64)
    }

    // How many end device children there are.
    pub fn end_device_child_count(self) -> Result<usize, Refusal>
        ensures { result ≡ end_device_child_count self }
    {
        if !self.well_formed() {
            return Err(Refusal::StateIllFormed);
        }
        let nwks = self.nwks;
        let links = self.links;
        Ok(neighbor_questions_lent::end_device_child_count(&nwks, &links, self.count))
    }

    // Every end device child, for the announcement after a start (05-3474, 2.4.3.1.12.1).
    pub fn end_device_children(self) -> Result<Eui64List, Refusal>
        ensures { result ≡ end_device_children self }
    {
        if !self.well_formed() {
            return Err(Refusal::StateIllFormed);
        }
        let keys = self.keys;
        let nwks = self.nwks;
        let links = self.links;
        Ok(neighbor_questions_lent::end_device_children(&keys, &nwks, &links, self.count))
    }

    // Whether a device is an end device child that has sent no keepalive yet.
    pub fn is_unconfirmed_end_device_child(self, eui64: Eui64) -> Result<bool, Refusal>
        ensures { result ≡ is_unconfirmed_end_device_child self eui64 }
    {
        if !self.well_formed() {
            return Err(Refusal::StateIllFormed);
        }
        let keys = self.keys;
        let links = self.links;
        Ok(neighbor_questions_lent::is_unconfirmed_end_device_child(
            &keys, &links, self.count, eui64,
        ))
    }

    // Whether a router has listed this device with a cost.
    pub fn any_live_router_link(self) -> Result<bool, Refusal>
        ensures { result ≡ any_live_router_link self }
    {
        if !self.well_formed() {
            return Err(Refusal::StateIllFormed);
        }
        let nwks = self.nwks;
        let links = self.links;
        Ok(neighbor_questions_lent::any_live_router_link(&nwks, &links, self.count))
    }

    // The earliest deadline of an end device child.
    pub fn next_child_timeout(self) -> Result<Option<u64>, Refusal>
        ensures { result ≡ next_child_timeout self }
    {
        if !self.well_formed() {
            return Err(Refusal::StateIllFormed);
        }
        let nwks = self.nwks;
        let links = self.links;
        let deadlines = self.deadlines;
        Ok(neighbor_questions_lent::next_child_timeout(&nwks, &links, &deadlines, self.count))
    }

    // The routers that are expected to relay a broadcast (05-3474, 3.6.6).
    pub fn expected_broadcast_relayers(self) -> Result<NwkList, Refusal>
        ensures { result ≡ expected_broadcast_relayers self }
    {
        if !self.well_formed() {
            return Err(Refusal::StateIllFormed);
        }
        let nwks = self.nwks;
        let links = self.links;
        Ok(neighbor_questions_lent::expected_broadcast_relayers(&nwks, &links, self.count))
    }

    // The link statuses that are advertised: one for each router of which enough samples are held.
    pub fn link_status_entries(self) -> Result<LinkStatusList, Refusal>
        ensures { result ≡ link_status_entries self }
    {
        if !self.well_formed() {
            return Err(Refusal::StateIllFormed);
        }
        let nwks = self.nwks;
        let links = self.links;
        Ok(neighbor_questions_lent::link_status_entries(&nwks, &links, self.count))
    }
}
