// The link status command on the columns of the neighbours and of the waiting samples, lent and changed in place.
// A refusal is decided before anything is written. The columns are asked to be well formed; the test is made above.
#![tactic(auto)]

ghost use Rattle.std.specs.Prelude.{cond, ◌&&◌, map, ◌≡◌, ◌+◌, ◌*◌, ◌≤◌, ◌<◌, eqb, ltb, take, length};
ghost use Rattle.flat_map.specs.Table.{Rising};
ghost use Rattle.types.specs.Clock.{last_time};
ghost use Rattle.neighbor_columns.specs.Lent.{Asked, with_nwks};
ghost use Rattle.neighbor_columns.specs.Table.{in_columns, rows_of, WellFormed};
ghost use Rattle.waiting_columns.specs.Table as waits;
ghost use Rattle.link_status.specs.Digest.{finished, forever, new_router, samples_of, tally_by};
ghost use Rattle.link_status.specs.Statuses.{among, is_live_at, live_number, statuses_of, tallied};
ghost use Rattle.link_status_lent.specs.Columns.{lent_live, lent_status, number_in, begun_in, finished_link, finished_counts, Fair, Stores, Digests, Decides, on_link_status_rows, Leaves};

use link_status::{LinkStatusCommand, Tally};
use neighbor_columns::{CountsPart, LinkPart};
use neighbor_table::NeighborEntry;
use types::{Eui64, Nwk, Refusal};

// What a command answers, and how many neighbours and waiting senders there are after it.
#[derive(Drop)]
pub struct Digested {
    pub answer: Result<Option<Nwk>, Refusal>,
    pub neighbors: usize,
    pub waiting: usize,
}

// What is decided before anything is written: the place of a sender that is known or new, or a refusal.
#[derive(Drop)]
pub enum Verdict {
    Known(usize),
    New(usize),
    Turned(Refusal),
}

// The child timeout of a new neighbour, 0xFFFFFFFF seconds in milliseconds: it never ends.
const FOREVER: u64 = 4294967295000;

// A neighbour's address doubled, and one more where the link to it is live.
fn live_number(nwk: u16, link: u64) -> u32
    ensures { result ≡ number_in nwk link }
{
    let doubled = nwk as u32 * 2;
    if 0 < link / 1099511627776 % 256 {
        doubled + 1
    } else {
        doubled
    }
}

// The numbers of all neighbours, so that their columns are gone through once and not for each status.
fn live_numbers(nwks: &[u16], links: &[u64], count: usize, numbers: &mut [u32])
    requires { (count ≤ 64) × (count ≤ length nwks.now) × (count ≤ length links.now) × (count ≤ length numbers.old) }
    ensures { Asked (lent_live nwks.now links.now count) (λ xs. take count numbers.new ≡ map live_number xs) }
{
    for i in 0..count {
        numbers[i] = live_number(nwks[i], links[i]);
    }
}

// Whether a number is among the first n.
fn is_among(numbers: &[u32], n: usize, x: u32) -> bool
    requires { n ≤ length numbers.now }
    ensures { result ≡ among x (take n numbers.now) }
{
    let mut found = false;
    for number in &numbers[..n] {
        found |= *number == x;
    }
    found
}

// The statuses of a command in their order, by the numbers of the neighbours.
fn count_all(numbers: &[u32], n: usize, own: Nwk, command: LinkStatusCommand, start: Tally) -> Tally
    requires { (n ≤ length numbers.now) × Fair command }
    ensures { result ≡ tallied own (λ a. among (a.0 * 2 + 1) (take n numbers.now)) (statuses_of command) start }
{
    let mut x = start;
    for i in 0..command.count {
        let status = command.statuses[i];
        let address = status.address;
        let live = is_among(numbers, n, address.0 as u32 * 2 + 1);
        x = link_status::count_one(own, live, status, x);
    }
    x
}

// All statuses of a command; live links are judged by the neighbours as they are before the call.
fn add_up(
    nwks: &[u16],
    links: &[u64],
    count: usize,
    own: Nwk,
    command: LinkStatusCommand,
    start: Tally,
) -> Tally
    requires { (count ≤ 64) × (count ≤ length nwks.now) × (count ≤ length links.now) × Fair command }
    ensures { Asked (lent_live nwks.now links.now count) (λ xs. result ≡ tallied own (is_live_at xs) (statuses_of command) start) }
{
    let mut numbers = [0u32; 64];
    live_numbers(nwks, links, count, &mut numbers);
    count_all(&numbers, count, own, command, start)
}

// A first frame starts from nothing, any other from what is stored.
fn begin(first: bool, l: LinkPart, c: CountsPart) -> Tally
    ensures { result ≡ begun_in first l c }
{
    if first {
        Tally {
            connectivity: 0,
            diversity: 0,
            cost: 0,
        }
    } else {
        Tally {
            connectivity: c.router_connectivity,
            diversity: c.router_neighbor_set_diversity,
            cost: l.outgoing_cost,
        }
    }
}

// What the command leaves in a link word: the cost, and a router that listens when idle where it was an end device.
fn finish_link(l: LinkPart, x: Tally) -> LinkPart
    ensures { result ≡ finished_link x l }
{
    let lqas = l.lqas;
    let was = l.device_type;
    let relationship = l.relationship;
    LinkPart {
        lqas,
        outgoing_cost: x.cost,
        device_type: link_status::as_router(was),
        relationship,
        rx_on_when_idle: l.rx_on_when_idle | was.is_end_device(),
        keepalive_received: l.keepalive_received,
    }
}

// What the command leaves in a counts word: connectivity and diversity.
fn finish_counts(c: CountsPart, x: Tally) -> CountsPart
    ensures { result ≡ finished_counts x c }
{
    CountsPart {
        transmit_failure: c.transmit_failure,
        router_connectivity: x.connectivity,
        router_neighbor_set_diversity: x.diversity,
        router_outbound_activity: c.router_outbound_activity,
        router_inbound_activity: c.router_inbound_activity,
        security_timer: c.security_timer,
        end_device_configuration: c.end_device_configuration,
    }
}

// The tally stored in the row of a place, with the moment.
fn store(
    links: &mut [u64],
    counts: &mut [u64],
    heard: &mut [u64],
    count: usize,
    i: usize,
    x: Tally,
    now_ms: u64,
)
    requires { (i < 64) × (i < length links.old) × (i < length counts.old) × (i < length heard.old) }
    ensures { Stores (lent_status links.old counts.old heard.old count) (lent_status links.new counts.new heard.new count) i now_ms x }
{
    let l = neighbor_columns::link_of(links[i]);
    let c = neighbor_columns::counts_of(counts[i]);
    links[i] = neighbor_columns::link_word(finish_link(l, x));
    counts[i] = neighbor_columns::counts_word(finish_counts(c, x));
    heard[i] = now_ms;
}

// The stored address where the link had a cost and has none.
fn lost_link(had: u8, address: Nwk, x: Tally) -> Result<Option<Nwk>, Refusal>
    ensures { result ≡ cond (ltb 0 had && eqb x.cost 0) (Ok (Some address)) (Ok None) }
{
    if (0 < had) & (x.cost == 0) {
        Ok(Some(address))
    } else {
        Ok(None)
    }
}

// The command digested into the row of a place. Answers its address where the link is lost.
fn digest_at(
    nwks: &[u16],
    links: &mut [u64],
    counts: &mut [u64],
    heard: &mut [u64],
    count: usize,
    i: usize,
    own: Nwk,
    command: LinkStatusCommand,
    now_ms: u64,
) -> Result<Option<Nwk>, Refusal>
    requires { (i < count) × (count ≤ 64) × (count ≤ length nwks.now) × (count ≤ length links.old) × (count ≤ length counts.old) × (count ≤ length heard.old) × Fair command }
    ensures { Digests (λ t. with_nwks nwks.now (lent_status links.old counts.old heard.old count t))
        (λ t. with_nwks nwks.now (lent_status links.new counts.new heard.new count t)) i own command now_ms result }
{
    let l = neighbor_columns::link_of(links[i]);
    let c = neighbor_columns::counts_of(counts[i]);
    let start = begin(command.is_first_frame, l, c);
    let x = add_up(nwks, links, count, own, command, start);
    store(links, counts, heard, count, i, x, now_ms);
    lost_link(l.outgoing_cost, Nwk(nwks[i]), x)
}

// A neighbour that was not known: a sibling router, with the samples that waited for it and one more.
fn router_of(
    senders: &[u16],
    samples: &[u64],
    waiting: usize,
    name: Eui64,
    nwk: Nwk,
    lqi: u8,
    now_ms: u64,
) -> NeighborEntry
    requires { waits.Formed64 (waits.in_columns senders.now samples.now waiting) × (now_ms + forever ≤ last_time) }
    ensures { result ≡ new_router name nwk (now_ms + forever) now_ms (samples_of nwk lqi (waits.rows_of (waits.in_columns senders.now samples.now waiting))) }
{
    let found = waiting_columns::find(senders, samples, waiting, nwk);
    let held = waiting_table::ring_in(found);
    let lqas = held.push(lqi);
    link_status::new_router(name, nwk, now_ms + FOREVER, now_ms, lqas)
}

// The command digested into a row that is not in the table yet.
fn enter(
    nwks: &[u16],
    links: &[u64],
    count: usize,
    own: Nwk,
    e: NeighborEntry,
    command: LinkStatusCommand,
    now_ms: u64,
) -> NeighborEntry
    requires { (count ≤ 64) × (count ≤ length nwks.now) × (count ≤ length links.now) × Fair command }
    ensures { Asked (lent_live nwks.now links.now count) (λ xs. result ≡ finished now_ms (tally_by xs own command e) e) }
{
    let start = link_status::begin(e, command.is_first_frame);
    let x = add_up(nwks, links, count, own, command, start);
    link_status::finish(e, x, now_ms)
}

// What is decided before anything is written. The refusals come in their order.
fn decide(
    keys: &[u64],
    count: usize,
    name: Eui64,
    command: LinkStatusCommand,
    now_ms: u64,
) -> Verdict
    requires { (count ≤ length keys.now) × Rising keys.now count }
    ensures { Decides keys.now count name command now_ms result }
{
    if 31 < command.count {
        return Verdict::Turned(Refusal::ListTooLong);
    }
    if !link_status::all_costs_fit(command) {
        return Verdict::Turned(Refusal::LinkCostTooHigh);
    }
    let place = neighbor_columns::place_of(keys, count, name);
    match place {
        Ok(i) => Verdict::Known(i),
        Err(i) => {
            let sum = types::time_sum(now_ms, FOREVER);
            match sum {
                Some(_) => {
                    if count < 64 {
                        Verdict::New(i)
                    } else {
                        Verdict::Turned(Refusal::NeighborTableFull)
                    }
                }
                None => Verdict::Turned(Refusal::TimePastEnd),
            }
        }
    }
}

fn answered(answer: Result<Option<Nwk>, Refusal>, neighbors: usize, waiting: usize) -> Digested
    ensures { (result.answer ≡ answer) × (result.neighbors ≡ neighbors) × (result.waiting ≡ waiting) }
{
    Digested {
        answer,
        neighbors,
        waiting,
    }
}

// A link status command (05-3474, 3.6.4.4.2). Answers the sender's stored address where its link is lost,
// and how many neighbours and waiting senders there are after it.
pub fn on_link_status(
    keys: &mut [u64],
    nwks: &mut [u16],
    links: &mut [u64],
    counts: &mut [u64],
    deadlines: &mut [u64],
    periods: &mut [u64],
    heard: &mut [u64],
    added: &mut [u64],
    beacons: &mut [u64],
    bytes: &mut [u64],
    count: usize,
    senders: &mut [u16],
    samples: &mut [u64],
    waiting: usize,
    own: Nwk,
    name: Eui64,
    nwk: Nwk,
    lqi: u8,
    command: LinkStatusCommand,
    now_ms: u64,
) -> Digested
    requires { WellFormed (in_columns keys.old nwks.old links.old counts.old deadlines.old periods.old heard.old added.old beacons.old bytes.old count)
        × waits.WellFormed (waits.in_columns senders.old samples.old waiting) }
    ensures { Leaves (on_link_status_rows (rows_of (in_columns keys.old nwks.old links.old counts.old deadlines.old periods.old heard.old added.old beacons.old bytes.old count)) (waits.rows_of (waits.in_columns senders.old samples.old waiting)) own name nwk lqi command now_ms)
        result.answer
        (in_columns keys.new nwks.new links.new counts.new deadlines.new periods.new heard.new added.new beacons.new bytes.new result.neighbors)
        (waits.in_columns senders.new samples.new result.waiting) }
{
    let verdict = decide(keys, count, name, command, now_ms);
    match verdict {
        Verdict::Known(i) => {
            let answer = digest_at(nwks, links, counts, heard, count, i, own, command, now_ms);
            let left = waiting_columns::remove(senders, samples, waiting, nwk);
            answered(answer, count, left)
        }
        Verdict::New(i) => {
            let router = router_of(senders, samples, waiting, name, nwk, lqi, now_ms);
            let e = enter(nwks, links, count, own, router, command, now_ms);
            let n = neighbor_steps::insert_at(
                keys, nwks, links, counts, deadlines, periods, heard, added, beacons, bytes, count,
                i, e,
            );
            let left = waiting_columns::remove(senders, samples, waiting, nwk);
            answered(Ok(None), n, left)
        }
        Verdict::Turned(r) => answered(Err(r), count, waiting),
    }
}
