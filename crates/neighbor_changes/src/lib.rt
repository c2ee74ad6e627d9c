// What can happen to one neighbour. The rules on rows are in specs/; the calls on columns stand above.
#![tactic(auto)]

use types::Nwk;

// What happens to one neighbour.
#[derive(Drop)]
pub enum Change {
    // A sample of its link quality.
    Sample(u8),
    // A unicast went out by it.
    Outbound,
    // A unicast came in by it.
    Inbound,
    // A unicast to it was not acknowledged.
    Failure,
    Address(Nwk),
    // A keepalive, with the deadline that it gives.
    Keepalive(u64),
    // Another keepalive period, with the deadline that it gives.
    Timeout {
        period: u64,
        configuration: u16,
        at: u64,
    },
}
