// What the benchmark runs of the link statuses: many calls on one state, in the exported form and on columns that are lent.
// A row of the inputs is eight numbers. The answers are added up, so that they can be compared with the Rust's.
#![tactic(auto)]

ghost use Rattle.std.specs.Prelude.{◌≡◌};
ghost use Rattle.neighbor_columns.specs.Table.{in_columns, WellFormed};
ghost use Rattle.waiting_columns.specs.Table as waits;
ghost use Rattle.neighbors.specs.State as state-of;
ghost use Rattle.speed_links.specs.Command.{link_to, eight_links};

use link_status::LinkStatusCommand;
use link_status_lent::Digested;
use neighbor_calls::NwkOutcome;
use neighbor_queries::LinkStatus;
use neighbors::Neighbors;
use types::{Nwk, Refusal};

fn status(n: u8) -> LinkStatus
    ensures { result ≡ link_to n }
{
    LinkStatus {
        address: Nwk(n as u16),
        incoming_cost: n % 8,
        outgoing_cost: n % 3,
    }
}

// The links to 1 .. 8.
pub fn command() -> LinkStatusCommand
    ensures { result ≡ eight_links }
{
    let a = status(0);
    let mut statuses = [a; 31];
    statuses[0] = status(1);
    statuses[1] = status(2);
    statuses[2] = status(3);
    statuses[3] = status(4);
    statuses[4] = status(5);
    statuses[5] = status(6);
    statuses[6] = status(7);
    statuses[7] = status(8);
    LinkStatusCommand {
        is_first_frame: true,
        is_last_frame: true,
        count: 8,
        statuses,
    }
}

fn link_weight(a: Result<Option<Nwk>, Refusal>) -> u64 {
    match a {
        Err(_) => 7,
        Ok(None) => 1,
        Ok(Some(n)) => n.0 as u64,
    }
}

// A link status: own, extended address, address, quality and the moment.
fn link(state: Neighbors, command: LinkStatusCommand, row: &[u64]) -> NwkOutcome {
    neighbor_calls::on_link_status(
        state,
        numbers::nwk(row, 0),
        numbers::eui64(row, 1),
        numbers::nwk(row, 2),
        numbers::byte(row, 3),
        command,
        numbers::at(row, 4),
    )
}

// The neighbours 1 .. size, each a router.
pub fn filled_links(size: u16) -> Neighbors {
    let c = command();
    let mut s = Neighbors::new();
    for i in 1..=size {
        let row = [1u64, i as u64, i as u64, 200, 0];
        let x = link(s, c, &row);
        s = x.state;
    }
    s
}

pub fn links(state: Neighbors, inputs: &[u64]) -> u64 {
    let c = command();
    let mut s = state;
    let mut sum: u64 = 0;
    for row in inputs.chunks_exact(8) {
        let x = link(s, c, row);
        s = x.state;
        let answer = x.answer;
        sum = std::num::wrapping_add_u64(sum, link_weight(answer));
    }
    sum
}

// The same on columns that are lent.
fn link_lent(
    keys: &mut [u64],
    nwks: &mut [u16],
    links: &mut [u64],
    counts: &mut [u64],
    deadlines: &mut [u64],
    periods: &mut [u64],
    heard: &mut [u64],
    added: &mut [u64],
    beacons: &mut [u64],
    bytes: &mut [u64],
    count: usize,
    senders: &mut [u16],
    samples: &mut [u64],
    waiting: usize,
    command: LinkStatusCommand,
    row: &[u64],
) -> Digested
    requires { WellFormed (in_columns keys.old nwks.old links.old counts.old deadlines.old periods.old heard.old added.old beacons.old bytes.old count)
        × waits.WellFormed (waits.in_columns senders.old samples.old waiting) }
    ensures { WellFormed (in_columns keys.new nwks.new links.new counts.new deadlines.new periods.new heard.new added.new beacons.new bytes.new result.neighbors)
        × waits.WellFormed (waits.in_columns senders.new samples.new result.waiting) }
{
    link_status_lent::on_link_status(
        keys,
        nwks,
        links,
        counts,
        deadlines,
        periods,
        heard,
        added,
        beacons,
        bytes,
        count,
        senders,
        samples,
        waiting,
        numbers::nwk(row, 0),
        numbers::eui64(row, 1),
        numbers::nwk(row, 2),
        numbers::byte(row, 3),
        command,
        numbers::at(row, 4),
    )
}

fn links_held(state: Neighbors, inputs: &[u64]) -> u64
    requires { state-of.WellFormed state }
{
    let mut keys = state.keys;
    let mut nwks = state.nwks;
    let mut links = state.links;
    let mut counts = state.counts;
    let mut deadlines = state.deadlines;
    let mut periods = state.periods;
    let mut heard = state.heard;
    let mut added = state.added;
    let mut beacons = state.beacons;
    let mut bytes = state.bytes;
    let mut senders = state.senders;
    let mut samples = state.samples;
    let mut count = state.count;
    let mut waiting = state.waiting;
    let c = command();
    let mut sum: u64 = 0;
    for row in inputs.chunks_exact(8) {
        let x = link_lent(
            &mut keys,
            &mut nwks,
            &mut links,
            &mut counts,
            &mut deadlines,
            &mut periods,
            &mut heard,
            &mut added,
            &mut beacons,
            &mut bytes,
            count,
            &mut senders,
            &mut samples,
            waiting,
            c,
            row,
        );
        let answer = x.answer;
        count = x.neighbors;
        waiting = x.waiting;
        sum = std::num::wrapping_add_u64(sum, link_weight(answer));
    }
    sum
}

// The test of the exported form once, before the first row.
pub fn links_core(state: Neighbors, inputs: &[u64]) -> u64 {
    if !state.well_formed() {
        return 0;
    }
    links_held(state, inputs)
}
