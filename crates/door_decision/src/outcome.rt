// The outcome of a choice, written to its places: the header's fields are left as they are, or a source route is set in them.
ghost use Rattle.std.specs.Prelude.{◌≡◌, ◌<◌, ◌≤◌, length, take};
ghost use Rattle.types.specs.declared.Nwk.{Nwk};
ghost use Rattle.flat_map.specs.Rows.{pad};
ghost use Rattle.frame.specs.declared.NwkHeader.{NwkHeader};
ghost use Rattle.next_hop.specs.Made.{made, Makeable};
ghost use Rattle.door.specs.Lent.{Asked};
ghost use Rattle.door_records.specs.Records.{given};
ghost use Rattle.door_decision.specs.Header.{header_at, Values, header_in};
ghost use Rattle.door_decision.specs.Decision.{resolve_at, resolve_numbers, routed_places};

use hop_choice::Choice;
use types::Refusal;

// The first relays of a list copied to the header's places, with 0 after them.
fn copy_relays(from: &[u16], count: usize, relays: &mut [u16])
    requires { (count ≤ 32) × (count ≤ length from.now) × (length relays.old ≡ 32) }
    ensures { relays.new ≡ pad 32 0 (take count from.now) }
{
    relays[..count].copy_from_slice(&from[..count]);
    relays[count..].fill(0);
}

// A source route of the first relays of a list, set in the header's fields, and the hop to the last of them.
fn set_route(
    from: &[u16],
    count: usize,
    discover_route: &mut u8,
    source_route: &mut u8,
    has_source_route: &mut u8,
    relay_index: &mut u8,
    relay_count: &mut usize,
    relays: &mut [u16],
    decision: &mut u8,
    next_hop: &mut u16,
)
    requires { (0 < count) × (count ≤ 32) × (count ≤ length from.now) × (length relays.old ≡ 32) }
    ensures { resolve_at discover_route.new source_route.new has_source_route.new relay_index.new relay_count.new relays.new decision.new next_hop.new ≡ routed_places (given (take count from.now)) }
{
    let last = count - 1;
    *discover_route = 0;
    *source_route = 1;
    *has_source_route = 1;
    *relay_index = last as u8;
    *relay_count = count;
    *decision = 0;
    *next_hop = from[last];
    copy_relays(from, count, relays);
}

// The numbers of a choice. The relays of a record are read from its row of the store; those of the host are given.
pub fn say_choice(
    choice: Result<Choice, Refusal>,
    record_lengths: &[u8],
    store: &[u16],
    host_relays: &[u16],
    discover_route: &mut u8,
    source_route: &mut u8,
    has_source_route: &mut u8,
    relay_index: &mut u8,
    relay_count: &mut usize,
    relays: &mut [u16],
    decision: &mut u8,
    next_hop: &mut u16,
) -> u8
    requires { (length record_lengths.now ≡ 64) × (length store.now ≡ 2048) × Makeable (given host_relays.now) record_lengths.now choice
        × Values (header_at discover_route.old source_route.old has_source_route.old relay_index.old relay_count.old relays.old) }
    ensures { (d : Nwk) → Asked resolve_numbers
        (λ (h : NwkHeader). made h (given host_relays.now) record_lengths.now store.now choice)
        (header_in d (header_at discover_route.old source_route.old has_source_route.old relay_index.old relay_count.old relays.old))
        (resolve_at discover_route.old source_route.old has_source_route.old relay_index.old relay_count.old relays.old decision.old next_hop.old)
        (resolve_at discover_route.new source_route.new has_source_route.new relay_index.new relay_count.new relays.new decision.new next_hop.new)
        result }
{
    match choice {
        Err(why) => why.number(),
        Ok(Choice::Hop(n)) => {
            *decision = 0;
            *next_hop = n.0;
            0
        }
        Ok(Choice::ByRecord(i)) => {
            let start = 32 * i;
            let known = record_lengths[i] as usize;
            set_route(
                &store[start..start + 32],
                known,
                discover_route,
                source_route,
                has_source_route,
                relay_index,
                relay_count,
                relays,
                decision,
                next_hop,
            );
            0
        }
        Ok(Choice::ByHost) => {
            set_route(
                host_relays,
                host_relays.len(),
                discover_route,
                source_route,
                has_source_route,
                relay_index,
                relay_count,
                relays,
                decision,
                next_hop,
            );
            0
        }
        Ok(Choice::NeedDiscovery) => {
            *decision = 1;
            *next_hop = 0;
            0
        }
        Ok(Choice::Discard) => {
            *decision = 2;
            *next_hop = 0;
            0
        }
    }
}
