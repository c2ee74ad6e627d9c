// The children among the neighbours, in columns that are lent: how they come and how they go. All ten columns are lent.
// Each call decides its refusals before it writes, and answers how many neighbours there are after it.
#![tactic(auto)]

ghost use Rattle.std.specs.Prelude.{◌≡◌};
ghost use Rattle.types.specs.Clock.{time_sum};
ghost use Rattle.standard.specs.Ordered.{lookup};
ghost use Rattle.neighbor_table.specs.Entry.{neighbor_key, is_child_of};
ghost use Rattle.neighbor_columns.specs.Codec.{link_of};
ghost use Rattle.neighbor_columns.specs.Table.{in_columns, rows_of, WellFormed, Holds};
ghost use Rattle.children_moves_lent.specs.Rules.{take_answer, take_child, upsert_answer, upserted, upsert_child};

use children::ChildDescriptor;
use types::{Eui64, Nwk, Refusal};

// A network address, if there is one, and how many neighbours there are after.
#[derive(Drop)]
pub struct Taken {
    pub answer: Result<Option<Nwk>, Refusal>,
    pub count: usize,
}

// Whether a call was done, and how many neighbours there are after.
#[derive(Drop)]
pub struct Upserted {
    pub answer: Result<(), Refusal>,
    pub count: usize,
}

// Whether a link word is that of a child.
fn is_child_link(word: u64) -> bool
    ensures { result ≡ is_child_of (link_of word).relationship }
{
    let part = neighbor_columns::link_of(word);
    let relationship = part.relationship;
    relationship.is_child()
}

// A child that attached elsewhere is taken out. Answers its network address.
pub fn take_child(
    keys: &mut [u64],
    nwks: &mut [u16],
    links: &mut [u64],
    counts: &mut [u64],
    deadlines: &mut [u64],
    periods: &mut [u64],
    heard: &mut [u64],
    added: &mut [u64],
    beacons: &mut [u64],
    bytes: &mut [u64],
    count: usize,
    eui64: Eui64,
) -> Taken
    requires { WellFormed (in_columns keys.old nwks.old links.old counts.old deadlines.old periods.old heard.old added.old beacons.old bytes.old count) }
    ensures { (result.answer ≡ take_answer (lookup neighbor_key eui64.0 (rows_of (in_columns keys.old nwks.old links.old counts.old deadlines.old periods.old heard.old added.old beacons.old bytes.old count))))
        × Holds (in_columns keys.new nwks.new links.new counts.new deadlines.new periods.new heard.new added.new beacons.new bytes.new result.count) (take_child eui64 (rows_of (in_columns keys.old nwks.old links.old counts.old deadlines.old periods.old heard.old added.old beacons.old bytes.old count))) }
{
    let place = neighbor_columns::place_of(keys, count, eui64);
    match place {
        Ok(i) => {
            if !is_child_link(links[i]) {
                return Taken {
                    answer: Ok(None),
                    count,
                };
            }
            let address = Nwk(nwks[i]);
            let left = neighbor_steps::remove_at(
                keys, nwks, links, counts, deadlines, periods, heard, added, beacons, bytes, count,
                i,
            );
            Taken {
                answer: Ok(Some(address)),
                count: left,
            }
        }
        Err(_) => Taken {
            answer: Ok(None),
            count,
        },
    }
}

// A joining child is stored, where there is room for it.
fn place(
    keys: &mut [u64],
    nwks: &mut [u16],
    links: &mut [u64],
    counts: &mut [u64],
    deadlines: &mut [u64],
    periods: &mut [u64],
    heard: &mut [u64],
    added: &mut [u64],
    beacons: &mut [u64],
    bytes: &mut [u64],
    count: usize,
    child: ChildDescriptor,
    at: u64,
    now_ms: u64,
) -> Upserted
    requires { WellFormed (in_columns keys.old nwks.old links.old counts.old deadlines.old periods.old heard.old added.old beacons.old bytes.old count) }
    ensures { (result.answer ≡ upsert_answer child (Some at) (rows_of (in_columns keys.old nwks.old links.old counts.old deadlines.old periods.old heard.old added.old beacons.old bytes.old count)))
        × Holds (in_columns keys.new nwks.new links.new counts.new deadlines.new periods.new heard.new added.new beacons.new bytes.new result.count) (upserted child now_ms (Some at) (rows_of (in_columns keys.old nwks.old links.old counts.old deadlines.old periods.old heard.old added.old beacons.old bytes.old count))) }
{
    let eui64 = child.eui64;
    if !neighbor_columns::has_room(keys, count, eui64) {
        return Upserted {
            answer: Err(Refusal::NeighborTableFull),
            count,
        };
    }
    let known = neighbor_columns::find(
        keys, nwks, links, counts, deadlines, periods, heard, added, beacons, bytes, count, eui64,
    );
    let e = children::attach(child, at, children::start_in(known, eui64, now_ms));
    let place = neighbor_columns::place_of(keys, count, eui64);
    let left = neighbor_steps::put_at(
        keys, nwks, links, counts, deadlines, periods, heard, added, beacons, bytes, count, place,
        e,
    );
    Upserted {
        answer: Ok(()),
        count: left,
    }
}

// A child joins or rejoins; what is known of it stays, but for what it says of itself.
pub fn upsert_child(
    keys: &mut [u64],
    nwks: &mut [u16],
    links: &mut [u64],
    counts: &mut [u64],
    deadlines: &mut [u64],
    periods: &mut [u64],
    heard: &mut [u64],
    added: &mut [u64],
    beacons: &mut [u64],
    bytes: &mut [u64],
    count: usize,
    child: ChildDescriptor,
    now_ms: u64,
) -> Upserted
    requires { WellFormed (in_columns keys.old nwks.old links.old counts.old deadlines.old periods.old heard.old added.old beacons.old bytes.old count) }
    ensures { (result.answer ≡ upsert_answer child (time_sum now_ms child.device_timeout) (rows_of (in_columns keys.old nwks.old links.old counts.old deadlines.old periods.old heard.old added.old beacons.old bytes.old count)))
        × Holds (in_columns keys.new nwks.new links.new counts.new deadlines.new periods.new heard.new added.new beacons.new bytes.new result.count) (upsert_child child now_ms (rows_of (in_columns keys.old nwks.old links.old counts.old deadlines.old periods.old heard.old added.old beacons.old bytes.old count))) }
{
    let sum = types::time_sum(now_ms, child.device_timeout);
    match sum {
        Some(at) => place(
            keys, nwks, links, counts, deadlines, periods, heard, added, beacons, bytes, count,
            child, at, now_ms,
        ),
        None => Upserted {
            answer: Err(Refusal::TimePastEnd),
            count,
        },
    }
}
