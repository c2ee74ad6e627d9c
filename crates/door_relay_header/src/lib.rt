// What a router does to the header of a frame that it relays, at the door for C. Of the header that the caller keeps the fields that the call reads are
// lent, and the end device initiator bit, which it may clear.
#![tactic(auto)]

ghost use Rattle.std.specs.Prelude.{[], ◌∷◌, ℕ, ◌≤◌};
ghost use Rattle.standard.specs.Route.{nwk};
ghost use Rattle.neighbor_columns.specs.Lent as rows;
ghost use Rattle.neighbor_queries_lent.specs.Read.{InUse, lent_words};
ghost use Rattle.relay_header.specs.Relayed.{cleared_on};
ghost use Rattle.door.specs.Lent.{Asked};
ghost use Rattle.door_neighbors.specs.Lent.{lent};
ghost use Rattle.door_relay_header.specs.Relayed.{header_in, clear_at, clear_numbers, ClearAsked};

use neighbor_queries::Filter;
use types::Nwk;

// The rule on two columns that are lent, network addresses and link words. Where the bit is not set, no neighbour is looked for.
fn clear(
    nwks: &[u16],
    links: &[u64],
    neighbors: usize,
    source: Nwk,
    bit: &mut u8,
    cleared: &mut u8,
) -> u8
    requires { InUse neighbors (nwks.now ∷ links.now ∷ []) × (bit.old ≤ 1) }
    ensures { (has count : ℕ) → rows.Asked (lent_words nwks.now links.now neighbors)
        (λ xs. Asked clear_numbers (cleared_on xs) (header_in source has count bit.old)
        (clear_at bit.old cleared.old) (clear_at bit.new cleared.new) result) }
{
    if *bit == 0 {
        *cleared = 0;
        return 0;
    }
    let child = Filter::EndDeviceChildAt(source);
    if neighbor_queries_lent::any_fitting(nwks, links, neighbors, child) {
        *bit = 0;
        *cleared = 1;
        return 0;
    }
    *cleared = 0;
    0
}

// The end device initiator bit of a frame to be relayed is cleared if an end device child of ours sent it.
#[unsafe(no_mangle)]
pub extern "C" fn warpteasel_raw_clear_end_device_initiator_for_relay(
    keys: &[u64],
    nwks: &[u16],
    links: &[u64],
    counts: &[u64],
    deadlines: &[u64],
    periods: &[u64],
    heard: &[u64],
    added: &[u64],
    beacons: &[u64],
    bytes: &[u64],
    count: usize,
    senders: &[u16],
    samples: &[u64],
    waiting: usize,
    source: u16,
    has_source_route: u8,
    relay_count: usize,
    end_device_initiator: &mut u8,
    cleared: &mut u8,
) -> u8
    ensures { ClearAsked
        (lent keys.now nwks.now links.now counts.now deadlines.now periods.now heard.now added.now beacons.now bytes.now count senders.now samples.now waiting)
        (nwk source) has_source_route relay_count
        (clear_at end_device_initiator.old cleared.old)
        (clear_at end_device_initiator.new cleared.new)
        result }
{
    if 1 < has_source_route {
        return door::NO_CALL;
    }
    if 1 < *end_device_initiator {
        return door::NO_CALL;
    }
    if !door_neighbors::columns_formed(
        keys, nwks, links, counts, deadlines, periods, heard, added, beacons, bytes, count,
        senders, samples, waiting,
    ) {
        return 10;
    }
    if (has_source_route == 1) & (32 < relay_count) {
        return 8;
    }
    clear(
        nwks,
        links,
        count,
        Nwk(source),
        end_device_initiator,
        cleared,
    )
}
