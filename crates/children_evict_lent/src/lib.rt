// The children among the neighbours, in columns that are lent: those that were not heard in time go. All ten columns are lent.
#![tactic(auto)]

ghost use Rattle.std.specs.Prelude.{◌≡◌};
ghost use Rattle.neighbor_columns.specs.Table.{in_columns, rows_of, WellFormed, Holds};
ghost use Rattle.children_evict_lent.specs.Rules.{evicted, evict_timed_out_children};

use neighbor_queries::ChildList;

// The children that went, and how many neighbours there are after.
#[derive(Drop)]
pub struct Evicted {
    pub removed: ChildList,
    pub count: usize,
}

// The neighbours but the end device children whose deadline has come, in place; how many they are.
fn keep_timely(
    keys: &mut [u64],
    nwks: &mut [u16],
    links: &mut [u64],
    counts: &mut [u64],
    deadlines: &mut [u64],
    periods: &mut [u64],
    heard: &mut [u64],
    added: &mut [u64],
    beacons: &mut [u64],
    bytes: &mut [u64],
    count: usize,
    now_ms: u64,
) -> usize
    requires { WellFormed (in_columns keys.old nwks.old links.old counts.old deadlines.old periods.old heard.old added.old beacons.old bytes.old count) }
    ensures { Holds (in_columns keys.new nwks.new links.new counts.new deadlines.new periods.new heard.new added.new beacons.new bytes.new result) (evict_timed_out_children now_ms (rows_of (in_columns keys.old nwks.old links.old counts.old deadlines.old periods.old heard.old added.old beacons.old bytes.old count))) }
{
    let mut n = count;
    let mut i: usize = 0;
    // A row that goes makes room for the next in its own place, so that the place and the count do not simply count.
    while i < n {
        if neighbor_queries_lent::is_timed_out(links[i], deadlines[i], now_ms) {
            n = neighbor_steps::remove_at(
                keys, nwks, links, counts, deadlines, periods, heard, added, beacons, bytes, n, i,
            );
        } else {
            i += 1;
        }
    }
    n
}

// The neighbours but the end device children whose deadline has come, where `gone` says how many these are; how many are left.
fn drop_late(
    keys: &mut [u64],
    nwks: &mut [u16],
    links: &mut [u64],
    counts: &mut [u64],
    deadlines: &mut [u64],
    periods: &mut [u64],
    heard: &mut [u64],
    added: &mut [u64],
    beacons: &mut [u64],
    bytes: &mut [u64],
    count: usize,
    now_ms: u64,
    gone: usize,
) -> usize
    requires formed { WellFormed (in_columns keys.old nwks.old links.old counts.old deadlines.old periods.old heard.old added.old beacons.old bytes.old count) }
    requires told { gone ≡ (evicted now_ms (rows_of (in_columns keys.old nwks.old links.old counts.old deadlines.old periods.old heard.old added.old beacons.old bytes.old count))).count }
    ensures { Holds (in_columns keys.new nwks.new links.new counts.new deadlines.new periods.new heard.new added.new beacons.new bytes.new result) (evict_timed_out_children now_ms (rows_of (in_columns keys.old nwks.old links.old counts.old deadlines.old periods.old heard.old added.old beacons.old bytes.old count))) }
{
    if gone == 0 {
        return count;
    }
    keep_timely(
        keys, nwks, links, counts, deadlines, periods, heard, added, beacons, bytes, count, now_ms,
    )
}

// End device children whose deadline has come are removed (05-3474, 3.6.10.1). Answers which.
pub fn evict_timed_out_children(
    keys: &mut [u64],
    nwks: &mut [u16],
    links: &mut [u64],
    counts: &mut [u64],
    deadlines: &mut [u64],
    periods: &mut [u64],
    heard: &mut [u64],
    added: &mut [u64],
    beacons: &mut [u64],
    bytes: &mut [u64],
    count: usize,
    now_ms: u64,
) -> Evicted
    requires { WellFormed (in_columns keys.old nwks.old links.old counts.old deadlines.old periods.old heard.old added.old beacons.old bytes.old count) }
    ensures { (result.removed ≡ evicted now_ms (rows_of (in_columns keys.old nwks.old links.old counts.old deadlines.old periods.old heard.old added.old beacons.old bytes.old count)))
        × Holds (in_columns keys.new nwks.new links.new counts.new deadlines.new periods.new heard.new added.new beacons.new bytes.new result.count) (evict_timed_out_children now_ms (rows_of (in_columns keys.old nwks.old links.old counts.old deadlines.old periods.old heard.old added.old beacons.old bytes.old count))) }
{
    let removed = neighbor_queries_lent::timed_out_children(
        keys, nwks, links, deadlines, count, now_ms,
    );
    let left = drop_late(
        keys,
        nwks,
        links,
        counts,
        deadlines,
        periods,
        heard,
        added,
        beacons,
        bytes,
        count,
        now_ms,
        removed.count,
    );
    Evicted {
        removed,
        count: left,
    }
}
