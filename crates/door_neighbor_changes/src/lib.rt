// The calls at the door for C that change one neighbour that is there, or all, or forget one.
#![tactic(auto)]

ghost use Rattle.neighbors.specs.declared.Neighbors.{Neighbors};
ghost use Rattle.neighbors.specs.Changes.{update_network_address, remove, record_outbound_activity, record_inbound_activity, record_transmit_failure, reset_transmit_failures};
ghost use Rattle.neighbor_calls.specs.Samples.{record_lqa};
ghost use Rattle.door_neighbors.specs.Lent.{lent, DoneMade};

use types::{Eui64, Nwk};

// A known device has another network address.
#[unsafe(no_mangle)]
pub extern "C" fn warpteasel_raw_update_network_address(
    keys: &[u64],
    nwks: &mut [u16],
    links: &[u64],
    counts: &[u64],
    deadlines: &[u64],
    periods: &[u64],
    heard: &[u64],
    added: &[u64],
    beacons: &[u64],
    bytes: &[u64],
    count: usize,
    senders: &[u16],
    samples: &[u64],
    waiting: usize,
    eui64: u64,
    nwk: u16,
) -> u8
    ensures { DoneMade (λ (s : Neighbors). update_network_address s (record { 0 = eui64 }) (record { 0 = nwk }))
        (lent keys.now nwks.old links.now counts.now deadlines.now periods.now heard.now added.now beacons.now bytes.now count senders.now samples.now waiting)
        (lent keys.now nwks.new links.now counts.now deadlines.now periods.now heard.now added.now beacons.now bytes.now count senders.now samples.now waiting)
        result }
{
    if !door_neighbors::columns_formed(
        keys, nwks, links, counts, deadlines, periods, heard, added, beacons, bytes, count,
        senders, samples, waiting,
    ) {
        return 10;
    }
    neighbor_changes_lent::update_network_address(keys, nwks, count, Eui64(eui64), Nwk(nwk));
    0
}

// A unicast went out by a neighbour.
#[unsafe(no_mangle)]
pub extern "C" fn warpteasel_raw_record_outbound_activity(
    keys: &[u64],
    nwks: &[u16],
    links: &[u64],
    counts: &mut [u64],
    deadlines: &[u64],
    periods: &[u64],
    heard: &[u64],
    added: &[u64],
    beacons: &[u64],
    bytes: &[u64],
    count: usize,
    senders: &[u16],
    samples: &[u64],
    waiting: usize,
    eui64: u64,
) -> u8
    ensures { DoneMade (λ (s : Neighbors). record_outbound_activity s (record { 0 = eui64 }))
        (lent keys.now nwks.now links.now counts.old deadlines.now periods.now heard.now added.now beacons.now bytes.now count senders.now samples.now waiting)
        (lent keys.now nwks.now links.now counts.new deadlines.now periods.now heard.now added.now beacons.now bytes.now count senders.now samples.now waiting)
        result }
{
    if !door_neighbors::columns_formed(
        keys, nwks, links, counts, deadlines, periods, heard, added, beacons, bytes, count,
        senders, samples, waiting,
    ) {
        return 10;
    }
    neighbor_changes_lent::record_outbound_activity(keys, counts, count, Eui64(eui64));
    0
}

// A unicast came in by a neighbour.
#[unsafe(no_mangle)]
pub extern "C" fn warpteasel_raw_record_inbound_activity(
    keys: &[u64],
    nwks: &[u16],
    links: &[u64],
    counts: &mut [u64],
    deadlines: &[u64],
    periods: &[u64],
    heard: &[u64],
    added: &[u64],
    beacons: &[u64],
    bytes: &[u64],
    count: usize,
    senders: &[u16],
    samples: &[u64],
    waiting: usize,
    nwk: u16,
) -> u8
    ensures { DoneMade (λ (s : Neighbors). record_inbound_activity s (record { 0 = nwk }))
        (lent keys.now nwks.now links.now counts.old deadlines.now periods.now heard.now added.now beacons.now bytes.now count senders.now samples.now waiting)
        (lent keys.now nwks.now links.now counts.new deadlines.now periods.now heard.now added.now beacons.now bytes.now count senders.now samples.now waiting)
        result }
{
    if !door_neighbors::columns_formed(
        keys, nwks, links, counts, deadlines, periods, heard, added, beacons, bytes, count,
        senders, samples, waiting,
    ) {
        return 10;
    }
    neighbor_changes_lent::record_inbound_activity(nwks, counts, count, Nwk(nwk));
    0
}

// A unicast to a neighbour was not acknowledged.
#[unsafe(no_mangle)]
pub extern "C" fn warpteasel_raw_record_transmit_failure(
    keys: &[u64],
    nwks: &[u16],
    links: &[u64],
    counts: &mut [u64],
    deadlines: &[u64],
    periods: &[u64],
    heard: &[u64],
    added: &[u64],
    beacons: &[u64],
    bytes: &[u64],
    count: usize,
    senders: &[u16],
    samples: &[u64],
    waiting: usize,
    eui64: u64,
) -> u8
    ensures { DoneMade (λ (s : Neighbors). record_transmit_failure s (record { 0 = eui64 }))
        (lent keys.now nwks.now links.now counts.old deadlines.now periods.now heard.now added.now beacons.now bytes.now count senders.now samples.now waiting)
        (lent keys.now nwks.now links.now counts.new deadlines.now periods.now heard.now added.now beacons.now bytes.now count senders.now samples.now waiting)
        result }
{
    if !door_neighbors::columns_formed(
        keys, nwks, links, counts, deadlines, periods, heard, added, beacons, bytes, count,
        senders, samples, waiting,
    ) {
        return 10;
    }
    neighbor_changes_lent::record_transmit_failure(keys, counts, count, Eui64(eui64));
    0
}

// Every failure is forgotten, as the counter of all transmissions wrapped (05-3474, table 3-75).
#[unsafe(no_mangle)]
pub extern "C" fn warpteasel_raw_reset_transmit_failures(
    keys: &[u64],
    nwks: &[u16],
    links: &[u64],
    counts: &mut [u64],
    deadlines: &[u64],
    periods: &[u64],
    heard: &[u64],
    added: &[u64],
    beacons: &[u64],
    bytes: &[u64],
    count: usize,
    senders: &[u16],
    samples: &[u64],
    waiting: usize,
) -> u8
    ensures { DoneMade (λ (s : Neighbors). reset_transmit_failures s)
        (lent keys.now nwks.now links.now counts.old deadlines.now periods.now heard.now added.now beacons.now bytes.now count senders.now samples.now waiting)
        (lent keys.now nwks.now links.now counts.new deadlines.now periods.now heard.now added.now beacons.now bytes.now count senders.now samples.now waiting)
        result }
{
    if !door_neighbors::columns_formed(
        keys, nwks, links, counts, deadlines, periods, heard, added, beacons, bytes, count,
        senders, samples, waiting,
    ) {
        return 10;
    }
    neighbor_changes_lent::reset_transmit_failures(counts, count);
    0
}

// A neighbour is forgotten.
#[unsafe(no_mangle)]
pub extern "C" fn warpteasel_raw_remove_neighbor(
    keys: &mut [u64],
    nwks: &mut [u16],
    links: &mut [u64],
    counts: &mut [u64],
    deadlines: &mut [u64],
    periods: &mut [u64],
    heard: &mut [u64],
    added: &mut [u64],
    beacons: &mut [u64],
    bytes: &mut [u64],
    count: &mut usize,
    senders: &[u16],
    samples: &[u64],
    waiting: usize,
    eui64: u64,
) -> u8
    ensures { DoneMade (λ (s : Neighbors). remove s (record { 0 = eui64 }))
        (lent keys.old nwks.old links.old counts.old deadlines.old periods.old heard.old added.old beacons.old bytes.old count.old senders.now samples.now waiting)
        (lent keys.new nwks.new links.new counts.new deadlines.new periods.new heard.new added.new beacons.new bytes.new count.new senders.now samples.now waiting)
        result }
{
    let n = *count;
    if !door_neighbors::columns_formed(
        keys, nwks, links, counts, deadlines, periods, heard, added, beacons, bytes, n, senders,
        samples, waiting,
    ) {
        return 10;
    }
    *count = neighbor_changes_lent::remove(
        keys,
        nwks,
        links,
        counts,
        deadlines,
        periods,
        heard,
        added,
        beacons,
        bytes,
        n,
        Eui64(eui64),
    );
    0
}

// A frame was heard from a transmitter, at a quality.
#[unsafe(no_mangle)]
pub extern "C" fn warpteasel_raw_record_lqa(
    keys: &[u64],
    nwks: &[u16],
    links: &mut [u64],
    counts: &[u64],
    deadlines: &[u64],
    periods: &[u64],
    heard: &[u64],
    added: &[u64],
    beacons: &[u64],
    bytes: &[u64],
    count: usize,
    senders: &mut [u16],
    samples: &mut [u64],
    waiting: &mut usize,
    sender: u16,
    lqi: u8,
) -> u8
    ensures { DoneMade (λ (s : Neighbors). record_lqa s (record { 0 = sender }) lqi)
        (lent keys.now nwks.now links.old counts.now deadlines.now periods.now heard.now added.now beacons.now bytes.now count senders.old samples.old waiting.old)
        (lent keys.now nwks.now links.new counts.now deadlines.now periods.now heard.now added.now beacons.now bytes.now count senders.new samples.new waiting.new)
        result }
{
    let w = *waiting;
    if !door_neighbors::columns_formed(
        keys, nwks, links, counts, deadlines, periods, heard, added, beacons, bytes, count,
        senders, samples, w,
    ) {
        return 10;
    }
    *waiting = link_quality::record_lqa(nwks, links, count, senders, samples, w, Nwk(sender), lqi);
    0
}
