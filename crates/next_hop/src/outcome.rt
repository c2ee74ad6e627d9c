// The outcome of a choice: the header goes in and out once.
ghost use Rattle.std.specs.Prelude.{◌≡◌, ◌<◌, ◌≤◌, length};
ghost use Rattle.next_hop.specs.Decision.{hop_to, refused_with, by_source_route};
ghost use Rattle.next_hop.specs.Made.{made, Makeable};

use crate::{NextHop, ResolveOutcome};
use frame::NwkHeader;
use hop_choice::Choice;
use standard::RelayList;
use types::{Nwk, Refusal};

// A hop, with the header as it came.
pub fn hop(header: NwkHeader, next: Nwk) -> ResolveOutcome
    ensures { result ≡ hop_to header next }
{
    ResolveOutcome {
        answer: Ok(NextHop::Resolved(next)),
        header,
    }
}

// The header as it came, for a refusal.
pub fn refuse(header: NwkHeader, refusal: Refusal) -> ResolveOutcome
    ensures { result ≡ refused_with header refusal }
{
    ResolveOutcome {
        answer: Err(refusal),
        header,
    }
}

// A source route: the hop is the last relay.
pub fn by_source_route(header: NwkHeader, relays: RelayList) -> ResolveOutcome
    requires { (0 < relays.count) × (relays.count ≤ 32) }
    ensures { result ≡ by_source_route header relays }
{
    let last = relays.count - 1;
    let next = relays.addresses[last];
    hop(header.with_source_route(relays), next)
}

// The outcome of a choice. The relays of a record are read from its row of the store; those of the host are given.
pub fn make(
    choice: Result<Choice, Refusal>,
    record_lengths: &[u8],
    store: &[u16],
    header: NwkHeader,
    relays: RelayList,
) -> ResolveOutcome
    requires { (length record_lengths.now ≡ 64) × (length store.now ≡ 2048) × Makeable relays record_lengths.now choice }
    ensures { result ≡ made header relays record_lengths.now store.now choice }
{
    match choice {
        Err(refusal) => refuse(header, refusal),
        Ok(Choice::Hop(next)) => hop(header, next),
        Ok(Choice::ByRecord(i)) => {
            let known = relay_store::relays_at(store, i, record_lengths[i] as usize);
            by_source_route(header, known)
        }
        Ok(Choice::ByHost) => by_source_route(header, relays),
        Ok(Choice::NeedDiscovery) => ResolveOutcome {
            answer: Ok(NextHop::NeedDiscovery),
            header,
        },
        Ok(Choice::Discard) => ResolveOutcome {
            answer: Ok(NextHop::Discard),
            header,
        },
    }
}
