// The announcement of another router at the door for C. Each number of the lists that it is answered with goes out to 64 places.
#![tactic(auto)]

ghost use Rattle.door.specs.Lent.{Says};
ghost use Rattle.door_neighbors.specs.Lent.{lent};
ghost use Rattle.door_lists.specs.Lists.{Places64, addresses_at, children_at};
ghost use Rattle.door_announcements.specs.Announced.{both_lists, both_at, both_numbers, AnnceMade};

use neighbor_queries::{ChildList, Eui64List};
use types::Refusal;

// The numbers of an answer with both lists beside it.
fn say_both(
    answer: Result<(), Refusal>,
    claims: Eui64List,
    removed: ChildList,
    claimed_total: &mut usize,
    claimed: &mut [u64],
    total: &mut usize,
    eui64s: &mut [u64],
    addresses: &mut [u16],
) -> u8
    requires { Places64 claimed.old × Places64 eui64s.old × Places64 addresses.old }
    ensures { Says both_numbers (both_lists answer claims removed)
        (both_at (addresses_at claimed_total.old claimed.old) (children_at total.old eui64s.old addresses.old))
        (both_at (addresses_at claimed_total.new claimed.new) (children_at total.new eui64s.new addresses.new))
        result }
{
    match answer {
        Ok(()) => {
            door_lists::write_names(claims, claimed_total, claimed);
            door_lists::write_children(removed, total, eui64s, addresses);
            0
        }
        Err(why) => why.number(),
    }
}

// Another router announces children: those that have sent a keepalive here are claimed back, the others go (05-3474, 2.4.4.2.22.1); which.
#[unsafe(no_mangle)]
pub extern "C" fn warpteasel_raw_process_parent_annce(
    keys: &mut [u64],
    nwks: &mut [u16],
    links: &mut [u64],
    counts: &mut [u64],
    deadlines: &mut [u64],
    periods: &mut [u64],
    heard: &mut [u64],
    added: &mut [u64],
    beacons: &mut [u64],
    bytes: &mut [u64],
    count: &mut usize,
    senders: &[u16],
    samples: &[u64],
    waiting: usize,
    announced: &[u64],
    claimed_total: &mut usize,
    claimed: &mut [u64],
    total: &mut usize,
    eui64s: &mut [u64],
    addresses: &mut [u16],
) -> u8
    ensures { AnnceMade announced.now
        (lent keys.old nwks.old links.old counts.old deadlines.old periods.old heard.old added.old beacons.old bytes.old count.old senders.now samples.now waiting)
        (lent keys.new nwks.new links.new counts.new deadlines.new periods.new heard.new added.new beacons.new bytes.new count.new senders.now samples.now waiting)
        (both_at (addresses_at claimed_total.old claimed.old) (children_at total.old eui64s.old addresses.old))
        (both_at (addresses_at claimed_total.new claimed.new) (children_at total.new eui64s.new addresses.new))
        result }
{
    if claimed.len() != 64 {
        return door::NO_CALL;
    }
    if eui64s.len() != 64 {
        return door::NO_CALL;
    }
    if addresses.len() != 64 {
        return door::NO_CALL;
    }
    let n = *count;
    if !door_neighbors::columns_formed(
        keys, nwks, links, counts, deadlines, periods, heard, added, beacons, bytes, n, senders,
        samples, waiting,
    ) {
        return 10;
    }
    let list = door_lists::names_given(announced);
    let x = parent_annce::process_parent_annce(
        keys, nwks, links, counts, deadlines, periods, heard, added, beacons, bytes, n, list,
    );
    *count = x.count;
    let answer = x.answer;
    let claims = x.claimed;
    let removed = x.removed;
    say_both(
        answer,
        claims,
        removed,
        claimed_total,
        claimed,
        total,
        eui64s,
        addresses,
    )
}
