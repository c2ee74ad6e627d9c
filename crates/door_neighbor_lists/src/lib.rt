// The questions to neighbours at the door for C that are answered with a list. Each of a list's numbers goes out to 64 places.
#![tactic(auto)]

ghost use Rattle.door_neighbors.specs.Lent.{lent};
ghost use Rattle.door_lists.specs.Lists.{addresses_at, children_at, statuses_at};
ghost use Rattle.door_neighbor_lists.specs.Questions.{SleepyAsked, EndDevicesAsked, RelayersAsked, StatusesAsked};

// Every child that sleeps when idle: a broadcast goes to each by a unicast (05-3474, 3.6.6).
#[unsafe(no_mangle)]
pub extern "C" fn warpteasel_raw_sleepy_children(
    keys: &[u64],
    nwks: &[u16],
    links: &[u64],
    counts: &[u64],
    deadlines: &[u64],
    periods: &[u64],
    heard: &[u64],
    added: &[u64],
    beacons: &[u64],
    bytes: &[u64],
    count: usize,
    senders: &[u16],
    samples: &[u64],
    waiting: usize,
    total: &mut usize,
    eui64s: &mut [u64],
    addresses: &mut [u16],
) -> u8
    ensures { SleepyAsked
        (lent keys.now nwks.now links.now counts.now deadlines.now periods.now heard.now added.now beacons.now bytes.now count senders.now samples.now waiting)
        (children_at total.old eui64s.old addresses.old)
        (children_at total.new eui64s.new addresses.new)
        result }
{
    if eui64s.len() != 64 {
        return door::NO_CALL;
    }
    if addresses.len() != 64 {
        return door::NO_CALL;
    }
    if !door_neighbors::columns_formed(
        keys, nwks, links, counts, deadlines, periods, heard, added, beacons, bytes, count,
        senders, samples, waiting,
    ) {
        return 10;
    }
    let list = neighbor_questions_lent::sleepy_children(keys, nwks, links, count);
    door_lists::write_children(list, total, eui64s, addresses);
    0
}

// Every end device child, for the announcement after a start (05-3474, 2.4.3.1.12.1).
#[unsafe(no_mangle)]
pub extern "C" fn warpteasel_raw_end_device_children(
    keys: &[u64],
    nwks: &[u16],
    links: &[u64],
    counts: &[u64],
    deadlines: &[u64],
    periods: &[u64],
    heard: &[u64],
    added: &[u64],
    beacons: &[u64],
    bytes: &[u64],
    count: usize,
    senders: &[u16],
    samples: &[u64],
    waiting: usize,
    total: &mut usize,
    eui64s: &mut [u64],
) -> u8
    ensures { EndDevicesAsked
        (lent keys.now nwks.now links.now counts.now deadlines.now periods.now heard.now added.now beacons.now bytes.now count senders.now samples.now waiting)
        (addresses_at total.old eui64s.old)
        (addresses_at total.new eui64s.new)
        result }
{
    if eui64s.len() != 64 {
        return door::NO_CALL;
    }
    if !door_neighbors::columns_formed(
        keys, nwks, links, counts, deadlines, periods, heard, added, beacons, bytes, count,
        senders, samples, waiting,
    ) {
        return 10;
    }
    let list = neighbor_questions_lent::end_device_children(keys, nwks, links, count);
    door_lists::write_names(list, total, eui64s);
    0
}

// The routers that are expected to relay a broadcast (05-3474, 3.6.6).
#[unsafe(no_mangle)]
pub extern "C" fn warpteasel_raw_expected_broadcast_relayers(
    keys: &[u64],
    nwks: &[u16],
    links: &[u64],
    counts: &[u64],
    deadlines: &[u64],
    periods: &[u64],
    heard: &[u64],
    added: &[u64],
    beacons: &[u64],
    bytes: &[u64],
    count: usize,
    senders: &[u16],
    samples: &[u64],
    waiting: usize,
    total: &mut usize,
    addresses: &mut [u16],
) -> u8
    ensures { RelayersAsked
        (lent keys.now nwks.now links.now counts.now deadlines.now periods.now heard.now added.now beacons.now bytes.now count senders.now samples.now waiting)
        (addresses_at total.old addresses.old)
        (addresses_at total.new addresses.new)
        result }
{
    if addresses.len() != 64 {
        return door::NO_CALL;
    }
    if !door_neighbors::columns_formed(
        keys, nwks, links, counts, deadlines, periods, heard, added, beacons, bytes, count,
        senders, samples, waiting,
    ) {
        return 10;
    }
    let list = neighbor_questions_lent::expected_broadcast_relayers(nwks, links, count);
    door_lists::write_addresses(list, total, addresses);
    0
}

// The link statuses that are advertised: one for each router of which enough samples are held.
#[unsafe(no_mangle)]
pub extern "C" fn warpteasel_raw_link_status_entries(
    keys: &[u64],
    nwks: &[u16],
    links: &[u64],
    counts: &[u64],
    deadlines: &[u64],
    periods: &[u64],
    heard: &[u64],
    added: &[u64],
    beacons: &[u64],
    bytes: &[u64],
    count: usize,
    senders: &[u16],
    samples: &[u64],
    waiting: usize,
    total: &mut usize,
    addresses: &mut [u16],
    incoming_costs: &mut [u8],
    outgoing_costs: &mut [u8],
) -> u8
    ensures { StatusesAsked
        (lent keys.now nwks.now links.now counts.now deadlines.now periods.now heard.now added.now beacons.now bytes.now count senders.now samples.now waiting)
        (statuses_at total.old addresses.old incoming_costs.old outgoing_costs.old)
        (statuses_at total.new addresses.new incoming_costs.new outgoing_costs.new)
        result }
{
    if addresses.len() != 64 {
        return door::NO_CALL;
    }
    if incoming_costs.len() != 64 {
        return door::NO_CALL;
    }
    if outgoing_costs.len() != 64 {
        return door::NO_CALL;
    }
    if !door_neighbors::columns_formed(
        keys, nwks, links, counts, deadlines, periods, heard, added, beacons, bytes, count,
        senders, samples, waiting,
    ) {
        return 10;
    }
    let list = neighbor_questions_lent::link_status_entries(nwks, links, count);
    door_lists::write_statuses(list, total, addresses, incoming_costs, outgoing_costs);
    0
}
