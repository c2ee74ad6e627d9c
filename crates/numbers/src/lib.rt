// Calls and answers as numbers: arguments read from a slice, an answer's values put one after another.
#![tactic(auto)]

ghost use Rattle.std.specs.Prelude.{◌≡◌, [], ◌%◌};
ghost use Rattle.numbers.specs.Said.{ok, bad, refused_by, flag_number, empty, pushed, pushed_all, spoken};
ghost use Rattle.numbers.specs.Read.{number_at, byte_at, short_at, counter_at, flag_at, nwk_at, eui64_at};

use types::{Eui64, Nwk, Refusal};

// Up to 256 numbers; 0 from the count on.
#[derive(Drop)]
pub struct Numbers {
    pub count: usize,
    pub values: [u64; 256],
}

// An answer: kind 0 with its values, kind 1 with a refusal's number, or kind 2, no call.
#[derive(Drop)]
pub struct Answer {
    pub kind: u8,
    pub numbers: Numbers,
}

// No number.
pub fn none() -> Numbers
    ensures { result ≡ empty }
{
    Numbers {
        count: 0,
        values: [0; 256],
    }
}

// One more number, where there is a place for it.
pub fn push(n: Numbers, x: u64) -> Numbers
    ensures { result ≡ pushed n x }
{
    let i = n.count;
    if i < 256 {
        let mut m = n;
        m.values[i] = x;
        m.count = i + 1;
        return m;
    }
    n
}

// More numbers, in their order.
pub fn push_each(n: Numbers, xs: &[u64]) -> Numbers
    ensures { result ≡ pushed_all n xs.now }
{
    let mut m = n;
    for x in xs {
        m = push(m, *x);
    }
    m
}

// A bool as a number.
pub fn flag_number(b: bool) -> u64
    ensures { result ≡ flag_number b }
{
    u64::from(b)
}

// A call that is answered with numbers.
pub fn answered(numbers: Numbers) -> Answer
    ensures { result ≡ record { kind = 0; numbers = numbers } }
{
    Answer { kind: 0, numbers }
}

// A call that is answered with these values.
pub fn said(xs: &[u64]) -> Answer
    ensures { result ≡ spoken (ok xs.now) }
{
    let n = none();
    answered(push_each(n, xs))
}

// A call that is done, and says nothing more.
pub fn done() -> Answer
    ensures { result ≡ spoken (ok []) }
{
    answered(none())
}

// A call that is refused.
pub fn refused(why: Refusal) -> Answer
    ensures { result ≡ spoken (refused_by why) }
{
    let n = none();
    let numbers = push(n, u64::from(why.number()));
    Answer { kind: 1, numbers }
}

// What is no call.
pub fn no_call() -> Answer
    ensures { result ≡ spoken bad }
{
    let numbers = none();
    Answer { kind: 2, numbers }
}

// The number at a place, and 0 past the last.
pub fn at(args: &[u64], i: usize) -> u64
    ensures { result ≡ number_at args.now i }
{
    args.get(i).copied().unwrap_or(0)
}

// The byte at a place.
pub fn byte(args: &[u64], i: usize) -> u8
    ensures { result ≡ byte_at args.now i }
{
    (at(args, i) % 256) as u8
}

// The number of 16 bits at a place.
pub fn short(args: &[u64], i: usize) -> u16
    ensures { result ≡ short_at args.now i }
{
    (at(args, i) % 65536) as u16
}

// The number of 32 bits at a place.
pub fn counter(args: &[u64], i: usize) -> u32
    ensures { result ≡ counter_at args.now i }
{
    (at(args, i) % 4294967296) as u32
}

// The bool at a place.
pub fn flag(args: &[u64], i: usize) -> bool
    ensures { result ≡ flag_at args.now i }
{
    at(args, i) != 0
}

// The network address at a place.
pub fn nwk(args: &[u64], i: usize) -> Nwk
    ensures { result ≡ nwk_at args.now i }
{
    Nwk(short(args, i))
}

// The extended address at a place.
pub fn eui64(args: &[u64], i: usize) -> Eui64
    ensures { result ≡ eui64_at args.now i }
{
    Eui64(at(args, i))
}
