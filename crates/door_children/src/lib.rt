// The calls about children at the door for C.
#![tactic(auto)]

ghost use Rattle.std.specs.Prelude.{◌≡◌};
ghost use Rattle.standard.specs.Tells.{Tells};
ghost use Rattle.neighbors.specs.declared.Neighbors.{Neighbors};
ghost use Rattle.neighbor_calls.specs.Children.{set_child_timeout, take_child};
ghost use Rattle.door_neighbors.specs.Answers.{address_at};
ghost use Rattle.door_neighbors.specs.Lent.{lent};
ghost use Rattle.door_children.specs.Children.{maybe_name, maybe_address, child_of, IsChild, TruthMade, AddressMade, RefreshMade, UpsertMade};

use children::ChildDescriptor;
use types::{Eui64, Nwk};

// An extended address that is given where its flag is 1.
fn maybe_name(given: u8, eui64: u64) -> Option<Eui64>
    ensures { result ≡ maybe_name given eui64 }
{
    if given == 1 { Some(Eui64(eui64)) } else { None }
}

// A network address that is given where its flag is 1.
fn maybe_address(given: u8, nwk: u16) -> Option<Nwk>
    ensures { result ≡ maybe_address given nwk }
{
    if given == 1 { Some(Nwk(nwk)) } else { None }
}

// Whether a device type, a flag and a relationship are each the number of one.
fn is_child(device_type: u8, rx_on_when_idle: u8, relationship: u8) -> bool
    ensures { Tells (IsChild device_type rx_on_when_idle relationship) result }
{
    (device_type <= 2) & ((rx_on_when_idle <= 1) & (relationship <= 9))
}

// A child as it joins or rejoins.
fn child_of(
    eui64: u64,
    network_address: u16,
    device_type: u8,
    rx_on_when_idle: u8,
    device_timeout: u64,
    relationship: u8,
) -> ChildDescriptor
    ensures { result ≡ child_of eui64 network_address device_type rx_on_when_idle device_timeout relationship }
{
    let kind = neighbor_columns::device_type_of(device_type as u64);
    let relation = neighbor_columns::relationship_of(relationship as u64);
    ChildDescriptor {
        eui64: Eui64(eui64),
        network_address: Nwk(network_address),
        device_type: kind,
        rx_on_when_idle: rx_on_when_idle == 1,
        device_timeout,
        relationship: relation,
    }
}

// A data poll of a known device moves its deadline (05-3474, 3.6.10.4): whether the device is known. It is named by either address, or by both;
// a flag that is neither 0 nor 1 is no call.
#[unsafe(no_mangle)]
pub extern "C" fn warpteasel_raw_refresh_child_timeout(
    keys: &[u64],
    nwks: &[u16],
    links: &mut [u64],
    counts: &[u64],
    deadlines: &mut [u64],
    periods: &[u64],
    heard: &[u64],
    added: &[u64],
    beacons: &[u64],
    bytes: &[u64],
    count: usize,
    senders: &[u16],
    samples: &[u64],
    waiting: usize,
    eui64_given: u8,
    eui64: u64,
    nwk_given: u8,
    nwk: u16,
    now_ms: u64,
    told: &mut u8,
) -> u8
    ensures { RefreshMade
        (lent keys.now nwks.now links.old counts.now deadlines.old periods.now heard.now added.now beacons.now bytes.now count senders.now samples.now waiting)
        (lent keys.now nwks.now links.new counts.now deadlines.new periods.now heard.now added.now beacons.now bytes.now count senders.now samples.now waiting)
        eui64_given eui64 nwk_given nwk now_ms told.old told.new result }
{
    if 1 < eui64_given {
        return door::NO_CALL;
    }
    if 1 < nwk_given {
        return door::NO_CALL;
    }
    if !door_neighbors::columns_formed(
        keys, nwks, links, counts, deadlines, periods, heard, added, beacons, bytes, count,
        senders, samples, waiting,
    ) {
        return 10;
    }
    let name = maybe_name(eui64_given, eui64);
    let address = maybe_address(nwk_given, nwk);
    let answer = children_lent::refresh_child_timeout(
        keys, nwks, links, deadlines, periods, count, name, address, now_ms,
    );
    door_neighbors::say_truth(answer, told)
}

// An end device child asks for another period (05-3474, 3.6.10.2): whether there is such a child.
#[unsafe(no_mangle)]
pub extern "C" fn warpteasel_raw_set_child_timeout(
    keys: &[u64],
    nwks: &[u16],
    links: &mut [u64],
    counts: &mut [u64],
    deadlines: &mut [u64],
    periods: &mut [u64],
    heard: &[u64],
    added: &[u64],
    beacons: &[u64],
    bytes: &[u64],
    count: usize,
    senders: &[u16],
    samples: &[u64],
    waiting: usize,
    nwk: u16,
    timeout: u64,
    configuration: u16,
    now_ms: u64,
    told: &mut u8,
) -> u8
    ensures { TruthMade (λ (s : Neighbors). set_child_timeout s (record { 0 = nwk }) timeout configuration now_ms)
        (lent keys.now nwks.now links.old counts.old deadlines.old periods.old heard.now added.now beacons.now bytes.now count senders.now samples.now waiting)
        (lent keys.now nwks.now links.new counts.new deadlines.new periods.new heard.now added.now beacons.now bytes.now count senders.now samples.now waiting)
        told.old told.new result }
{
    if !door_neighbors::columns_formed(
        keys, nwks, links, counts, deadlines, periods, heard, added, beacons, bytes, count,
        senders, samples, waiting,
    ) {
        return 10;
    }
    let answer = children_lent::set_child_timeout(
        nwks,
        links,
        counts,
        deadlines,
        periods,
        count,
        Nwk(nwk),
        timeout,
        configuration,
        now_ms,
    );
    door_neighbors::say_truth(answer, told)
}

// A child that attached elsewhere is taken out: whether there was one, and its network address.
#[unsafe(no_mangle)]
pub extern "C" fn warpteasel_raw_take_child(
    keys: &mut [u64],
    nwks: &mut [u16],
    links: &mut [u64],
    counts: &mut [u64],
    deadlines: &mut [u64],
    periods: &mut [u64],
    heard: &mut [u64],
    added: &mut [u64],
    beacons: &mut [u64],
    bytes: &mut [u64],
    count: &mut usize,
    senders: &[u16],
    samples: &[u64],
    waiting: usize,
    eui64: u64,
    found: &mut u8,
    nwk: &mut u16,
) -> u8
    ensures { AddressMade (λ (s : Neighbors). take_child s (record { 0 = eui64 }))
        (lent keys.old nwks.old links.old counts.old deadlines.old periods.old heard.old added.old beacons.old bytes.old count.old senders.now samples.now waiting)
        (lent keys.new nwks.new links.new counts.new deadlines.new periods.new heard.new added.new beacons.new bytes.new count.new senders.now samples.now waiting)
        (address_at found.old nwk.old) (address_at found.new nwk.new) result }
{
    let n = *count;
    if !door_neighbors::columns_formed(
        keys, nwks, links, counts, deadlines, periods, heard, added, beacons, bytes, n, senders,
        samples, waiting,
    ) {
        return 10;
    }
    let x = children_moves_lent::take_child(
        keys,
        nwks,
        links,
        counts,
        deadlines,
        periods,
        heard,
        added,
        beacons,
        bytes,
        n,
        Eui64(eui64),
    );
    *count = x.count;
    let answer = x.answer;
    door_neighbors::say_address(answer, found, nwk)
}

// A child joins or rejoins; what is known of it stays, but for what it says of itself. A number that is no device type, flag or relationship is no call.
#[unsafe(no_mangle)]
pub extern "C" fn warpteasel_raw_upsert_child(
    keys: &mut [u64],
    nwks: &mut [u16],
    links: &mut [u64],
    counts: &mut [u64],
    deadlines: &mut [u64],
    periods: &mut [u64],
    heard: &mut [u64],
    added: &mut [u64],
    beacons: &mut [u64],
    bytes: &mut [u64],
    count: &mut usize,
    senders: &[u16],
    samples: &[u64],
    waiting: usize,
    eui64: u64,
    network_address: u16,
    device_type: u8,
    rx_on_when_idle: u8,
    device_timeout: u64,
    relationship: u8,
    now_ms: u64,
) -> u8
    ensures { UpsertMade
        (lent keys.old nwks.old links.old counts.old deadlines.old periods.old heard.old added.old beacons.old bytes.old count.old senders.now samples.now waiting)
        (lent keys.new nwks.new links.new counts.new deadlines.new periods.new heard.new added.new beacons.new bytes.new count.new senders.now samples.now waiting)
        eui64 network_address device_type rx_on_when_idle device_timeout relationship now_ms result }
{
    if !is_child(device_type, rx_on_when_idle, relationship) {
        return door::NO_CALL;
    }
    let n = *count;
    if !door_neighbors::columns_formed(
        keys, nwks, links, counts, deadlines, periods, heard, added, beacons, bytes, n, senders,
        samples, waiting,
    ) {
        return 10;
    }
    let child = child_of(
        eui64,
        network_address,
        device_type,
        rx_on_when_idle,
        device_timeout,
        relationship,
    );
    let x = children_moves_lent::upsert_child(
        keys, nwks, links, counts, deadlines, periods, heard, added, beacons, bytes, n, child,
        now_ms,
    );
    *count = x.count;
    let answer = x.answer;
    door_neighbors::done_status(answer)
}
