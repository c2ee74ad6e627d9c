// The lines that print the neighbours, each as numbers: the neighbours, and the senders whose samples wait. The columns are read as they are.
ghost use Rattle.std.specs.Prelude.{◌≡◌, ◌<◌, min};
ghost use Rattle.numbers.specs.Said.{spoken};
ghost use Rattle.lines.specs.Lines.{line_said};
ghost use Rattle.neighbors.specs.State.{table_in, waiting_in};
ghost use Rattle.neighbor_loads.specs.Prints.{neighbor_rows, waiting_rows, neighbor_lines};

use neighbors::Neighbors;
use numbers::Answer;

// The line of a neighbour.
fn neighbor_line(s: Neighbors, i: usize) -> Answer
    requires { i < min s.count 64 }
    ensures { result ≡ spoken (line_said (neighbor_rows (table_in s)) i) }
{
    let keys = s.keys;
    let nwks = s.nwks;
    let links = s.links;
    let counts = s.counts;
    let deadlines = s.deadlines;
    let periods = s.periods;
    let heard = s.heard;
    let added = s.added;
    let beacons = s.beacons;
    let bytes = s.bytes;
    let e = neighbor_columns::entry_at(
        &keys, &nwks, &links, &counts, &deadlines, &periods, &heard, &added, &beacons, &bytes, i,
    );
    let n = numbers::none();
    let m = numbers::push(n, 7);
    numbers::answered(neighbor_values::push_neighbor(m, e))
}

// The line of a sender.
fn waiting_line(s: Neighbors, i: usize) -> Answer
    requires { i < min s.waiting 64 }
    ensures { result ≡ spoken (line_said (waiting_rows (waiting_in s)) i) }
{
    let senders = s.senders;
    let samples = s.samples;
    let e = waiting_columns::entry_at(&senders, &samples, i);
    let lqas = e.lqas;
    let n = numbers::none();
    let m = numbers::push(n, 8);
    let k = numbers::push(m, e.network_address.0 as u64);
    numbers::answered(neighbor_values::push_samples(k, lqas))
}

// A line of the senders.
fn from_waiting(s: Neighbors, i: usize) -> Answer
    ensures { result ≡ spoken (line_said (waiting_rows (waiting_in s)) i) }
{
    let n = s.waiting.min(64);
    if n <= i {
        return numbers::no_call();
    }
    waiting_line(s, i)
}

// The line at a place.
pub fn line(s: Neighbors, i: usize) -> Answer
    ensures { result ≡ spoken (line_said (neighbor_lines s) i) }
{
    let n = s.count.min(64);
    if i < n {
        return neighbor_line(s, i);
    }
    from_waiting(s, i - n)
}
