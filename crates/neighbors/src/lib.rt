// The neighbours by value: who is heard, at what cost, and which of them are children. Each call tests the state, lends the columns that
// it touches to the call on lent columns, and puts back those that changed.
#![tactic(auto)]

mod changes;
mod questions;

ghost use Rattle.std.specs.Prelude.{◌≡◌};
ghost use Rattle.neighbor_columns.specs.Table as neighbours;
ghost use Rattle.waiting_columns.specs.Table as waits;
ghost use Rattle.neighbors.specs.State.{well_formed, formed_in, fresh};
ghost use Rattle.neighbors.specs.Changes.{refused};

use types::Refusal;

// The columns of the neighbours, and those of the senders that are none yet, whose samples wait.
#[derive(Clone, Copy)]
pub struct Neighbors {
    // Extended addresses, in their order.
    pub keys: [u64; 64],
    pub nwks: [u16; 64],
    pub links: [u64; 64],
    pub counts: [u64; 64],
    pub deadlines: [u64; 64],
    pub periods: [u64; 64],
    pub heard: [u64; 64],
    pub added: [u64; 64],
    pub beacons: [u64; 64],
    pub bytes: [u64; 64],
    pub count: usize,
    // Network addresses, in their order.
    pub senders: [u16; 64],
    pub samples: [u64; 64],
    pub waiting: usize,
}

// A changed state, or the given one where the call is refused.
#[derive(Drop)]
pub struct Outcome {
    pub answer: Result<(), Refusal>,
    pub state: Neighbors,
}

// Whether the columns of both tables are well formed.
pub fn columns_formed<'a>(
    keys: &'a [u64],
    nwks: &'a [u16],
    links: &'a [u64],
    counts: &'a [u64],
    deadlines: &'a [u64],
    periods: &'a [u64],
    heard: &'a [u64],
    added: &'a [u64],
    beacons: &'a [u64],
    bytes: &'a [u64],
    count: usize,
    senders: &'a [u16],
    samples: &'a [u64],
    waiting: usize,
) -> bool
    ensures { result ≡ formed_in (neighbours.in_columns keys.now nwks.now links.now counts.now deadlines.now periods.now heard.now added.now beacons.now bytes.now count) (waits.in_columns senders.now samples.now waiting) }
{
    let known = neighbor_columns::well_formed(
        keys, nwks, links, counts, deadlines, periods, heard, added, beacons, bytes, count,
    );
    let heard_of = waiting_columns::well_formed(senders, samples, waiting);
    known & heard_of
}

impl Neighbors {
    // No neighbour, and no sample waiting.
    pub fn new() -> Neighbors
        ensures { result ≡ fresh }
    {
        Neighbors {
            keys: [0; 64],
            nwks: [0; 64],
            links: [0; 64],
            counts: [0; 64],
            deadlines: [0; 64],
            periods: [0; 64],
            heard: [0; 64],
            added: [0; 64],
            beacons: [0; 64],
            bytes: [0; 64],
            count: 0,
            senders: [0; 64],
            samples: [0; 64],
            waiting: 0,
        }
    }

    // Whether both tables are well formed.
    pub fn well_formed(self) -> bool
        ensures { result ≡ well_formed self }
    {
        let keys = self.keys;
        let nwks = self.nwks;
        let links = self.links;
        let counts = self.counts;
        let deadlines = self.deadlines;
        let periods = self.periods;
        let heard = self.heard;
        let added = self.added;
        let beacons = self.beacons;
        let bytes = self.bytes;
        let senders = self.senders;
        let samples = self.samples;
        columns_formed(
            &keys,
            &nwks,
            &links,
            &counts,
            &deadlines,
            &periods,
            &heard,
            &added,
            &beacons,
            &bytes,
            self.count,
            &senders,
            &samples,
            self.waiting,
        )
    }

    // The state as it came, for a refusal.
    pub fn refuse(self, refusal: Refusal) -> Outcome
        ensures { result ≡ refused self refusal }
    {
        Outcome {
            answer: Err(refusal),
            state: self,
        }
    }
}
