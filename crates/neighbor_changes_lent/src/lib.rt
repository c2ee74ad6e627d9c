// Changes of the neighbour table in columns that are lent: of one neighbour that is looked up, of all, and one taken out.
// Each is lent the columns that it touches, and is a step on the rows of every table that has them.
#![tactic(auto)]

ghost use Rattle.std.specs.Prelude.{[], ◌∷◌, map, ◌≡◌, ◌≤◌};
ghost use Rattle.standard.specs.Ordered as ordered;
ghost use Rattle.columns.specs.Columns.{Ordered, Long};
ghost use Rattle.neighbor_table.specs.Entry.{neighbor_key};
ghost use Rattle.neighbor_queries.specs.declared.Filter.TheVariants as filters;
ghost use Rattle.neighbor_changes.specs.declared.Change.TheVariants as changes;
ghost use Rattle.neighbor_changes.specs.Change.{forgiven};
ghost use Rattle.neighbor_changes.specs.Rules.{changed_at, changed_first};
ghost use Rattle.neighbor_columns.specs.Codec.{counts_of};
ghost use Rattle.neighbor_columns.specs.Table.{WellFormed, Holds, in_columns, rows_of};
ghost use Rattle.neighbor_columns.specs.Lent.{lent_keys, lent_counts, with_nwks, with_counts, with_count, Changed};
ghost use Rattle.neighbor_changes_lent.specs.declared.Counter.TheVariants.{Sent, Received, Failed};
ghost use Rattle.neighbor_changes_lent.specs.Counts.{change_of, counted};

use neighbor_columns::CountsPart;
use types::{Eui64, Nwk};

// Which counter of a neighbour a unicast moves.
#[derive(Drop)]
pub enum Counter {
    Sent,
    Received,
    Failed,
}

// The counts after a unicast went out. Each counter stops at 255.
fn sent(part: CountsPart) -> CountsPart
    ensures { result ≡ counted Sent part }
{
    let mut x = part;
    let outbound = part.router_outbound_activity;
    x.router_outbound_activity = outbound.saturating_add(1);
    x
}

// The counts after a unicast came in.
fn received(part: CountsPart) -> CountsPart
    ensures { result ≡ counted Received part }
{
    let mut x = part;
    let inbound = part.router_inbound_activity;
    x.router_inbound_activity = inbound.saturating_add(1);
    x
}

// The counts after a unicast was not acknowledged.
fn failed(part: CountsPart) -> CountsPart
    ensures { result ≡ counted Failed part }
{
    let mut x = part;
    let failures = part.transmit_failure;
    x.transmit_failure = failures.saturating_add(1);
    x
}

// A counts word with one more on a counter.
fn one_more(word: u64, counter: Counter) -> u64
    ensures { counts_of result ≡ counted counter (counts_of word) }
{
    let part = neighbor_columns::counts_of(word);
    match counter {
        Counter::Sent => neighbor_columns::counts_word(sent(part)),
        Counter::Received => neighbor_columns::counts_word(received(part)),
        Counter::Failed => neighbor_columns::counts_word(failed(part)),
    }
}

// One more on a counter of the neighbour with an extended address.
fn count_at(keys: &[u64], counts: &mut [u64], count: usize, eui64: Eui64, counter: Counter)
    requires { Ordered 64 keys.now (counts.old ∷ []) count }
    ensures { Changed (lent_counts keys.now counts.old count) (lent_counts keys.now counts.new count) (changed_at (change_of counter) eui64) }
{
    let place = neighbor_columns::place_of(keys, count, eui64);
    match place {
        Ok(i) => {
            counts[i] = one_more(counts[i], counter);
        }
        Err(_) => {}
    }
}

// A unicast went out by a neighbour.
pub fn record_outbound_activity(keys: &[u64], counts: &mut [u64], count: usize, eui64: Eui64)
    requires { Ordered 64 keys.now (counts.old ∷ []) count }
    ensures { Changed (lent_counts keys.now counts.old count) (lent_counts keys.now counts.new count) (changed_at changes.Outbound eui64) }
{
    count_at(keys, counts, count, eui64, Counter::Sent);
}

// A unicast to a neighbour was not acknowledged.
pub fn record_transmit_failure(keys: &[u64], counts: &mut [u64], count: usize, eui64: Eui64)
    requires { Ordered 64 keys.now (counts.old ∷ []) count }
    ensures { Changed (lent_counts keys.now counts.old count) (lent_counts keys.now counts.new count) (changed_at changes.Failure eui64) }
{
    count_at(keys, counts, count, eui64, Counter::Failed);
}

// A unicast came in by a neighbour.
pub fn record_inbound_activity(nwks: &[u16], counts: &mut [u64], count: usize, nwk: Nwk)
    requires { Long 64 (nwks.now ∷ counts.old ∷ []) × (count ≤ 64) }
    ensures { Changed (λ t. with_nwks nwks.now (with_counts counts.old (with_count count t))) (λ t. with_nwks nwks.now (with_counts counts.new (with_count count t))) (changed_first changes.Inbound (filters.Address nwk)) }
{
    let i = columns::first16(nwks, count, nwk.0);
    if i < count {
        counts[i] = one_more(counts[i], Counter::Received);
    }
}

// A known device has another network address.
pub fn update_network_address(keys: &[u64], nwks: &mut [u16], count: usize, eui64: Eui64, nwk: Nwk)
    requires { Ordered 64 keys.now (nwks.old ∷ []) count }
    ensures { Changed (λ t. with_nwks nwks.old (lent_keys keys.now count t)) (λ t. with_nwks nwks.new (lent_keys keys.now count t)) (changed_at (changes.Address nwk) eui64) }
{
    let place = neighbor_columns::place_of(keys, count, eui64);
    match place {
        Ok(i) => {
            nwks[i] = nwk.0;
        }
        Err(_) => {}
    }
}

// Every failure is forgotten, as the counter of all transmissions wrapped (05-3474, table 3-75).
pub fn reset_transmit_failures(counts: &mut [u64], count: usize)
    requires { Long 64 (counts.old ∷ []) × (count ≤ 64) }
    ensures { Changed (λ t. with_counts counts.old (with_count count t)) (λ t. with_counts counts.new (with_count count t)) (map forgiven) }
{
    for i in 0..count {
        let word = counts[i];
        counts[i] = word - word % 256;
    }
}

// A neighbour is forgotten. How many there are after it.
pub fn remove(
    keys: &mut [u64],
    nwks: &mut [u16],
    links: &mut [u64],
    counts: &mut [u64],
    deadlines: &mut [u64],
    periods: &mut [u64],
    heard: &mut [u64],
    added: &mut [u64],
    beacons: &mut [u64],
    bytes: &mut [u64],
    count: usize,
    eui64: Eui64,
) -> usize
    requires { WellFormed (in_columns keys.old nwks.old links.old counts.old deadlines.old periods.old heard.old added.old beacons.old bytes.old count) }
    ensures { Holds (in_columns keys.new nwks.new links.new counts.new deadlines.new periods.new heard.new added.new beacons.new bytes.new result) (ordered.remove neighbor_key eui64.0 (rows_of (in_columns keys.old nwks.old links.old counts.old deadlines.old periods.old heard.old added.old beacons.old bytes.old count))) }
{
    neighbor_steps::remove(
        keys, nwks, links, counts, deadlines, periods, heard, added, beacons, bytes, count, eui64,
    )
}
