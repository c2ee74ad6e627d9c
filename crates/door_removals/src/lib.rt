// The calls at the door for C that remove children. Each number of the lists that they answer goes out to 64 places.
#![tactic(auto)]

ghost use Rattle.door_neighbors.specs.Lent.{lent};
ghost use Rattle.door_lists.specs.Lists.{children_at};
ghost use Rattle.door_removals.specs.Removals.{EvictionMade, ClaimMade};

// End device children whose deadline has come are removed (05-3474, 3.6.10.1); which.
#[unsafe(no_mangle)]
pub extern "C" fn warpteasel_raw_evict_timed_out_children(
    keys: &mut [u64],
    nwks: &mut [u16],
    links: &mut [u64],
    counts: &mut [u64],
    deadlines: &mut [u64],
    periods: &mut [u64],
    heard: &mut [u64],
    added: &mut [u64],
    beacons: &mut [u64],
    bytes: &mut [u64],
    count: &mut usize,
    senders: &[u16],
    samples: &[u64],
    waiting: usize,
    now_ms: u64,
    total: &mut usize,
    eui64s: &mut [u64],
    addresses: &mut [u16],
) -> u8
    ensures { EvictionMade now_ms
        (lent keys.old nwks.old links.old counts.old deadlines.old periods.old heard.old added.old beacons.old bytes.old count.old senders.now samples.now waiting)
        (lent keys.new nwks.new links.new counts.new deadlines.new periods.new heard.new added.new beacons.new bytes.new count.new senders.now samples.now waiting)
        (children_at total.old eui64s.old addresses.old)
        (children_at total.new eui64s.new addresses.new)
        result }
{
    if eui64s.len() != 64 {
        return door::NO_CALL;
    }
    if addresses.len() != 64 {
        return door::NO_CALL;
    }
    let n = *count;
    if !door_neighbors::columns_formed(
        keys, nwks, links, counts, deadlines, periods, heard, added, beacons, bytes, n, senders,
        samples, waiting,
    ) {
        return 10;
    }
    let x = children_evict_lent::evict_timed_out_children(
        keys, nwks, links, counts, deadlines, periods, heard, added, beacons, bytes, n, now_ms,
    );
    *count = x.count;
    let removed = x.removed;
    door_lists::write_children(removed, total, eui64s, addresses);
    0
}

// Another router claims children: every end device of its list goes (05-3474, 2.4.4.2.22.2); which.
#[unsafe(no_mangle)]
pub extern "C" fn warpteasel_raw_remove_claimed_children(
    keys: &mut [u64],
    nwks: &mut [u16],
    links: &mut [u64],
    counts: &mut [u64],
    deadlines: &mut [u64],
    periods: &mut [u64],
    heard: &mut [u64],
    added: &mut [u64],
    beacons: &mut [u64],
    bytes: &mut [u64],
    count: &mut usize,
    senders: &[u16],
    samples: &[u64],
    waiting: usize,
    claims: &[u64],
    total: &mut usize,
    eui64s: &mut [u64],
    addresses: &mut [u16],
) -> u8
    ensures { ClaimMade claims.now
        (lent keys.old nwks.old links.old counts.old deadlines.old periods.old heard.old added.old beacons.old bytes.old count.old senders.now samples.now waiting)
        (lent keys.new nwks.new links.new counts.new deadlines.new periods.new heard.new added.new beacons.new bytes.new count.new senders.now samples.now waiting)
        (children_at total.old eui64s.old addresses.old)
        (children_at total.new eui64s.new addresses.new)
        result }
{
    if eui64s.len() != 64 {
        return door::NO_CALL;
    }
    if addresses.len() != 64 {
        return door::NO_CALL;
    }
    let n = *count;
    if !door_neighbors::columns_formed(
        keys, nwks, links, counts, deadlines, periods, heard, added, beacons, bytes, n, senders,
        samples, waiting,
    ) {
        return 10;
    }
    let list = door_lists::names_given(claims);
    let x = parent_annce::remove_claimed_children(
        keys, nwks, links, counts, deadlines, periods, heard, added, beacons, bytes, n, list,
    );
    *count = x.count;
    let answer = x.answer;
    let removed = x.removed;
    door_lists::say_children(answer, removed, total, eui64s, addresses)
}
