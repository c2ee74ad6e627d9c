// Samples of link quality, in columns that are lent: to the neighbour that sent, or to wait where the sender is none yet.
// Of the neighbours' columns only network addresses and link words are lent.
#![tactic(auto)]

ghost use Rattle.std.specs.Prelude.{[], ◌∷◌, ◌≡◌, ◌≤◌};
ghost use Rattle.columns.specs.Columns.{Long};
ghost use Rattle.neighbor_columns.specs.Codec.{link_of, CleanLink};
ghost use Rattle.neighbor_columns.specs.Lent.{with_nwks, with_links, with_count, Asked, Changed};
ghost use Rattle.waiting_columns.specs.Table as waits;
ghost use Rattle.link_quality.specs.Rules.{room_for, waiting_after, sampled_link, record_sample, record_waiting};

use ring_buffer::RingBuffer;
use types::Nwk;
use waiting_table::WaitingEntry;

// A link word with one more sample. The ring is its lowest 40 bits; what stands above stays.
fn sampled_link(word: u64, lqi: u8) -> u64
    ensures { (link_of result ≡ sampled_link lqi (link_of word)) × (CleanLink word → CleanLink result) }
{
    let held = RingBuffer::of_word(word);
    let lqas = held.push(lqi);
    lqas.word() + word / 1099511627776 * 1099511627776
}

// The waiting samples with room for a sender: where there is none, the lowest address goes. How many senders there are after.
fn make_room(senders: &mut [u16], samples: &mut [u64], waiting: usize, nwk: Nwk) -> usize
    requires { waits.Formed64 (waits.in_columns senders.old samples.old waiting) }
    ensures { waits.Keeps (waits.in_columns senders.new samples.new result)
        (room_for nwk (waits.rows_of (waits.in_columns senders.old samples.old waiting))) }
{
    if waiting_columns::has_room(senders, samples, waiting, nwk) {
        waiting
    } else {
        waiting_columns::pop_first(senders, samples, waiting)
    }
}

// A sample more of a sender that is no neighbour yet. How many senders wait after.
fn wait(senders: &mut [u16], samples: &mut [u64], waiting: usize, nwk: Nwk, lqi: u8) -> usize
    requires { waits.WellFormed (waits.in_columns senders.old samples.old waiting) }
    ensures { waits.Holds (waits.in_columns senders.new samples.new result)
        (waiting_after nwk lqi (waits.rows_of (waits.in_columns senders.old samples.old waiting))) }
{
    let n = make_room(senders, samples, waiting, nwk);
    let found = waiting_columns::find(senders, samples, n, nwk);
    let held = waiting_table::ring_in(found);
    let lqas = held.push(lqi);
    let e = WaitingEntry {
        network_address: nwk,
        lqas,
    };
    let place = waiting_columns::place_of(senders, samples, n, nwk);
    waiting_columns::put_at(senders, samples, n, place, e)
}

// A frame was heard from a transmitter, at a quality. Answers how many senders wait after.
pub fn record_lqa(
    nwks: &[u16],
    links: &mut [u64],
    count: usize,
    senders: &mut [u16],
    samples: &mut [u64],
    waiting: usize,
    sender: Nwk,
    lqi: u8,
) -> usize
    requires { Long 64 (nwks.now ∷ links.old ∷ []) × (count ≤ 64)
        × waits.WellFormed (waits.in_columns senders.old samples.old waiting) }
    ensures { Changed (λ t. with_nwks nwks.now (with_links links.old (with_count count t))) (λ t. with_nwks nwks.now (with_links links.new (with_count count t))) (record_sample sender lqi)
        × Asked (λ t. with_nwks nwks.now (with_count count t)) (λ xs. waits.Holds (waits.in_columns senders.new samples.new result) (record_waiting sender lqi xs (waits.rows_of (waits.in_columns senders.old samples.old waiting)))) }
{
    let i = columns::first16(nwks, count, sender.0);
    if i < count {
        links[i] = sampled_link(links[i], lqi);
        return waiting;
    }
    wait(senders, samples, waiting, sender, lqi)
}
