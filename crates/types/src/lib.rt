// The kinds of number that every part shares: addresses, refusals, and the clock's sum.
#![tactic(auto)]

ghost use Rattle.std.specs.Prelude.{◌≡◌, ◌+◌, ◌%◌};
ghost use Rattle.types.specs.Refusal.{refusal_number};
ghost use Rattle.types.specs.Clock.{time_sum};

// The last millisecond that the clock can count to, 2^64 - 1.
pub const LAST_TIME: u64 = 18446744073709551615;

// A network address: 16 bits, given by the network.
#[derive(Clone, Copy, Debug, PartialEq, Eq)]
pub struct Nwk(pub u16);

// An extended address: its eight over-the-air bytes, the first as the most significant, so that numbers go in the Rust's order.
#[derive(Clone, Copy, Debug, PartialEq, Eq)]
pub struct Eui64(pub u64);

// Why a call is refused, in the order of the refusals' numbers.
#[derive(Clone, Copy, Debug, PartialEq, Eq)]
pub enum Refusal {
    RouteTableFull = 1,
    DiscoveryTableFull = 2,
    RecordTableFull = 3,
    NeighborTableFull = 4,
    TimePastEnd = 5,
    UnknownNextHop = 6,
    EmptySourceRoute = 7,
    ListTooLong = 8,
    StoreDisagrees = 9,
    StateIllFormed = 10,
    LinkCostTooHigh = 11,
}

impl Refusal {
    // The number that callers are told.
    pub fn number(self) -> u8
        ensures { result ≡ refusal_number self }
    {
        self as u8
    }
}

// The moment `span` milliseconds after `now`. What is left of the clock is compared, so that no sum wraps.
pub fn time_sum(now: u64, span: u64) -> Option<u64>
    ensures { result ≡ time_sum now span }
{
    if span <= LAST_TIME - now {
        Some(now + span)
    } else {
        None
    }
}

// The request id after `id`: 255 goes to 0.
pub fn next_id(id: u8) -> u8
    ensures { result ≡ (id + 1) % 256 }
{
    id.wrapping_add(1)
}
