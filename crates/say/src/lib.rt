// Answers as text, written into a buffer that the caller lends from a place on; a line is at most 5,400 bytes long.
#![tactic(auto)]

ghost use Rattle.std.specs.Prelude.{◌≡◌, ◌∷◌, ◌+◌, ◌<◌, take, drop};
ghost use Rattle.say.specs.Page.{page, put_byte, puts};
ghost use Rattle.say.specs.Text.{digits, decimal, spaced, line, answer_line, put_word, table_line, end_line};

use numbers::{Answer, Numbers};

// One byte.
fn put(out: &mut [u8], at: usize, b: u8) -> usize
    ensures { page out.new result ≡ put_byte (page out.old at) b }
{
    if at < out.len() {
        out[at] = b;
        return at + 1;
    }
    at
}

// Bytes, one after the other.
fn put_all(out: &mut [u8], at: usize, bytes: &[u8]) -> usize
    ensures { page out.new result ≡ puts (page out.old at) bytes.now }
{
    let mut to = at;
    for b in bytes {
        to = put(out, to, *b);
    }
    to
}

// A digit as its byte.
fn digit(d: u64) -> u8
    requires { d < 10 }
    ensures { result ≡ 48 + d }
{
    (48 + d) as u8
}

// The last k digits of a number, with no zero before the first.
fn put_digits(out: &mut [u8], at: usize, n: u64, k: usize) -> usize
    ensures { page out.new result ≡ puts (page out.old at) (digits k n) }
{
    if k == 0 {
        return at;
    }
    if n < 10 {
        return put(out, at, digit(n));
    }
    let to = put_digits(out, at, n / 10, k - 1);
    put(out, to, digit(n % 10))
}

// A space and a number.
fn put_number(out: &mut [u8], at: usize, n: u64) -> usize
    ensures { page out.new result ≡ puts (page out.old at) (32 ∷ decimal n) }
{
    let to = put(out, at, 32);
    put_digits(out, to, n, 20)
}

// The numbers from one place to another, each after a space.
fn put_numbers(out: &mut [u8], at: usize, xs: &[u64], from: usize, end: usize) -> usize
    ensures { page out.new result ≡ puts (page out.old at) (spaced (drop from (take end xs.now))) }
{
    let mut to = at;
    for i in from..end.min(xs.len()) {
        to = put_number(out, to, xs[i]);
    }
    to
}

// A line: a word, numbers, and a line feed.
fn put_line(out: &mut [u8], at: usize, word: &[u8], xs: &[u64], from: usize, end: usize) -> usize
    ensures { page out.new result ≡ puts (page out.old at) (line word.now (drop from (take end xs.now))) }
{
    let named = put_all(out, at, word);
    let told = put_numbers(out, named, xs, from, end);
    put(out, told, 10)
}

// The line of an answer.
pub fn answer(out: &mut [u8], at: usize, a: Answer) -> usize
    ensures { page out.new result ≡ puts (page out.old at) (answer_line a) }
{
    let kind = a.kind;
    let n = a.numbers;
    if kind == 0 {
        return put_line(out, at, b"ok", &n.values, 0, n.count);
    }
    if kind == 1 {
        return put_line(out, at, b"refuse", &n.values, 0, n.count);
    }
    put_line(out, at, b"bad", &n.values, 0, 0)
}

// The word that puts an entry of a table, and its numbers.
fn put_entry(out: &mut [u8], at: usize, word: u64, xs: &[u64], end: usize) -> usize
    ensures { page out.new result ≡ puts (page out.old at) (line (put_word word) (drop 1 (take end xs.now))) }
{
    if word == 3 {
        return put_line(out, at, b"put_counters", xs, 1, end);
    }
    if word == 4 {
        return put_line(out, at, b"put_route", xs, 1, end);
    }
    if word == 5 {
        return put_line(out, at, b"put_discovery", xs, 1, end);
    }
    if word == 6 {
        return put_line(out, at, b"put_record", xs, 1, end);
    }
    if word == 7 {
        return put_line(out, at, b"put_neighbour", xs, 1, end);
    }
    put_line(out, at, b"put_waiting", xs, 1, end)
}

// A line of a printed state: the first number is the word's.
pub fn table_line(out: &mut [u8], at: usize, n: Numbers) -> usize
    ensures { page out.new result ≡ puts (page out.old at) (table_line n) }
{
    let word = n.values[0];
    put_entry(out, at, word, &n.values, n.count)
}

// The last line of a printed state.
pub fn end_line(out: &mut [u8], at: usize) -> usize
    ensures { page out.new result ≡ puts (page out.old at) end_line }
{
    let none = [0u64; 1];
    put_line(out, at, b"end", &none, 0, 0)
}
