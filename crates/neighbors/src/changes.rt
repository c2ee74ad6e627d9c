// The changes of one neighbour, or of all. A state that is not well formed is refused as it is.
ghost use Rattle.std.specs.Prelude.{◌≡◌};
ghost use Rattle.neighbors.specs.Changes.{update_network_address, remove, record_outbound_activity, record_inbound_activity, record_transmit_failure, reset_transmit_failures};

use crate::{Neighbors, Outcome};
use types::{Eui64, Nwk, Refusal};

impl Neighbors {
    // A known device has another network address.
    pub fn update_network_address(self, eui64: Eui64, nwk: Nwk) -> Outcome
        ensures { result ≡ update_network_address self eui64 nwk }
    {
        if !self.well_formed() {
            return self.refuse(Refusal::StateIllFormed);
        }
        let keys = self.keys;
        let mut nwks = self.nwks;
        neighbor_changes_lent::update_network_address(&keys, &mut nwks, self.count, eui64, nwk);
        let mut state = self;
        state.nwks = nwks;
        Outcome {
            answer: Ok(()),
            state,
        }
    }

    // A unicast went out by a neighbour.
    pub fn record_outbound_activity(self, eui64: Eui64) -> Outcome
        ensures { result ≡ record_outbound_activity self eui64 }
    {
        if !self.well_formed() {
            return self.refuse(Refusal::StateIllFormed);
        }
        let keys = self.keys;
        let mut counts = self.counts;
        neighbor_changes_lent::record_outbound_activity(&keys, &mut counts, self.count, eui64);
        let mut state = self;
        state.counts = counts;
        Outcome {
            answer: Ok(()),
            state,
        }
    }

    // A unicast came in by a neighbour.
    pub fn record_inbound_activity(self, nwk: Nwk) -> Outcome
        ensures { result ≡ record_inbound_activity self nwk }
    {
        if !self.well_formed() {
            return self.refuse(Refusal::StateIllFormed);
        }
        let nwks = self.nwks;
        let mut counts = self.counts;
        neighbor_changes_lent::record_inbound_activity(&nwks, &mut counts, self.count, nwk);
        let mut state = self;
        state.counts = counts;
        Outcome {
            answer: Ok(()),
            state,
        }
    }

    // A unicast to a neighbour was not acknowledged.
    pub fn record_transmit_failure(self, eui64: Eui64) -> Outcome
        ensures { result ≡ record_transmit_failure self eui64 }
    {
        if !self.well_formed() {
            return self.refuse(Refusal::StateIllFormed);
        }
        let keys = self.keys;
        let mut counts = self.counts;
        neighbor_changes_lent::record_transmit_failure(&keys, &mut counts, self.count, eui64);
        let mut state = self;
        state.counts = counts;
        Outcome {
            answer: Ok(()),
            state,
        }
    }

    // Every failure is forgotten, as the counter of all transmissions wrapped (05-3474, table 3-75).
    pub fn reset_transmit_failures(self) -> Outcome
        ensures { result ≡ reset_transmit_failures self }
    {
        if !self.well_formed() {
            return self.refuse(Refusal::StateIllFormed);
        }
        let mut counts = self.counts;
        neighbor_changes_lent::reset_transmit_failures(&mut counts, self.count);
        let mut state = self;
        state.counts = counts;
        Outcome {
            answer: Ok(()),
            state,
        }
    }

    // A neighbour is forgotten.
    pub fn remove(self, eui64: Eui64) -> Outcome
        ensures { result ≡ remove self eui64 }
    {
        if !self.well_formed() {
            return self.refuse(Refusal::StateIllFormed);
        }
        let mut keys = self.keys;
        let mut nwks = self.nwks;
        let mut links = self.links;
        let mut counts = self.counts;
        let mut deadlines = self.deadlines;
        let mut periods = self.periods;
        let mut heard = self.heard;
        let mut added = self.added;
        let mut beacons = self.beacons;
        let mut bytes = self.bytes;
        let count = neighbor_changes_lent::remove(
            &mut keys,
            &mut nwks,
            &mut links,
            &mut counts,
            &mut deadlines,
            &mut periods,
            &mut heard,
            &mut added,
            &mut beacons,
            &mut bytes,
            self.count,
            eui64,
        );
        let senders = self.senders;
        let samples = self.samples;
        Outcome {
            answer: Ok(()),
            state: Neighbors {
                keys,
                nwks,
                links,
                counts,
                deadlines,
                periods,
                heard,
                added,
                beacons,
                bytes,
                count,
                senders,
                samples,
                waiting: self.waiting,
            },
        }
    }
}
