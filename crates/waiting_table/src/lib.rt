// A row of the waiting table: a sender that is no neighbour yet, with the samples of its link.
#![tactic(auto)]

ghost use Rattle.std.specs.Prelude.{◌≡◌};
ghost use Rattle.waiting_table.specs.Entry.{ring_in};

use ring_buffer::RingBuffer;
use types::Nwk;

// A sender with its samples.
#[derive(Drop)]
pub struct WaitingEntry {
    pub network_address: Nwk,
    pub lqas: RingBuffer,
}

// The samples that a look-up found, none where it found no sender.
pub fn ring_in(found: Option<WaitingEntry>) -> RingBuffer
    ensures { result ≡ ring_in found }
{
    match found {
        Some(e) => e.lqas,
        None => RingBuffer::new(),
    }
}
