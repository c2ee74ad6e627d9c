// What a router does to the header of a frame that it relays for one of its end device children.
#![tactic(auto)]

ghost use Rattle.std.specs.Prelude.{[], ◌∷◌, ◌≡◌};
ghost use Rattle.neighbor_columns.specs.Lent.{Asked};
ghost use Rattle.neighbor_queries_lent.specs.Read.{InUse, lent_words};
ghost use Rattle.relay_header.specs.Relayed.{told, refused, cleared_on, cleared};

use frame::NwkHeader;
use neighbor_queries::Filter;
use neighbors::Neighbors;
use types::Refusal;

// Whether the bit was cleared, and the header after the call.
#[derive(Drop)]
pub struct ClearOutcome {
    pub answer: Result<bool, Refusal>,
    pub header: NwkHeader,
}

// A yes or no beside a header.
fn tell(answer: bool, header: NwkHeader) -> ClearOutcome
    ensures { result ≡ told answer header }
{
    ClearOutcome {
        answer: Ok(answer),
        header,
    }
}

// The header as it came, for a refusal.
fn refuse(refusal: Refusal, header: NwkHeader) -> ClearOutcome
    ensures { result ≡ refused refusal header }
{
    ClearOutcome {
        answer: Err(refusal),
        header,
    }
}

// The rule on two columns that are lent, network addresses and link words. Where the bit is not set, no neighbour is looked for.
pub fn clear_initiator(nwks: &[u16], links: &[u64], count: usize, header: NwkHeader) -> ClearOutcome
    requires { InUse count (nwks.now ∷ links.now ∷ []) }
    ensures { Asked (lent_words nwks.now links.now count) (λ xs. result ≡ cleared_on xs header) }
{
    let control = header.frame_control;
    if !control.end_device_initiator {
        return tell(false, header);
    }
    let source = header.source;
    let child = Filter::EndDeviceChildAt(source);
    if neighbor_queries_lent::any_fitting(nwks, links, count, child) {
        return tell(true, header.with_initiator_cleared());
    }
    tell(false, header)
}

// The end device initiator bit of a frame to be relayed is cleared if an end device child of ours sent it.
pub fn clear_end_device_initiator_for_relay(neighbors: Neighbors, header: NwkHeader) -> ClearOutcome
    ensures { result ≡ cleared neighbors header }
{
    if !neighbors.well_formed() {
        return refuse(Refusal::StateIllFormed, header);
    }
    if header.carries_long() {
        return refuse(Refusal::ListTooLong, header);
    }
    let nwks = neighbors.nwks;
    let links = neighbors.links;
    clear_initiator(&nwks, &links, neighbors.count, header)
}
