// Reads a script from standard input, makes its calls, and writes a line of answer for each to standard output.
// Input and answers go in parts of 65,536 bytes; a line may have any length.
#![tactic(auto)]

ghost use Rattle.std.specs.Prelude.{◌≡◌, ◌+◌, ◌<◌, ◌≤◌, length, take};

use numbers::Answer;
use script::{Line, Scan};
use std::io;
use std::io::Read;
use store_words::Turn;
use world::World;

// The calls that this program answers itself, by their numbers in the table of words.
const RESET: u64 = 0;

const TABLES: u64 = 1;

const SET_STORE: u64 = 85;

const SET_STORE_LENGTH: u64 = 86;

// How long the lent part of the relay store is at the start.
const LENT: usize = 2048;

// The world, how much of the store is lent, the line being read, and how many bytes of answers wait.
#[derive(Drop)]
struct Machine {
    world: World,
    length: usize,
    scan: Scan,
    waiting: usize,
}

// A number of bytes, at most all of them.
fn of_bytes(n: usize, all: &[u8]) -> usize
    ensures within { result ≤ length all.now }
    ensures taken { result ≡ length (take result all.now) }
{
    if n <= all.len() { n } else { all.len() }
}

// A number of places of the store, at most all of them.
fn of_places(n: usize, all: &[u16]) -> usize
    ensures within { result ≤ length all.now }
    ensures taken { result ≡ length (take result all.now) }
{
    if n <= all.len() { n } else { all.len() }
}

// A number of values, at most all of them.
fn of_values(n: usize, all: &[u64]) -> usize
    ensures within { result ≤ length all.now }
    ensures taken { result ≡ length (take result all.now) }
{
    if n <= all.len() { n } else { all.len() }
}

// The answers that wait, written out.
fn flush(rt: &impl Print, out: &[u8], waiting: usize) -> io::Result<usize> {
    let n = of_bytes(waiting, out);
    rt.write_all(&out[..n])?;
    Ok(0)
}

// A place with room for a line of answer, of at most 5,400 bytes.
fn room(rt: &impl Print, out: &[u8], waiting: usize) -> io::Result<usize> {
    if waiting < 60000 {
        return Ok(waiting);
    }
    flush(rt, out, waiting)
}

// One line of answer.
fn tell(rt: &impl Print, out: &mut [u8], waiting: usize, a: Answer) -> io::Result<usize> {
    let at = room(rt, out, waiting)?;
    Ok(say::answer(out, at, a))
}

// The whole state as lines that put it, and `end`.
fn tell_tables(
    rt: &impl Print,
    world: World,
    store: &[u16],
    out: &mut [u8],
    waiting: usize,
) -> io::Result<usize> {
    let mut to = waiting;
    for i in 0..1000 {
        let a = calls::table_line(world, i, store);
        to = room(rt, out, to)?;
        if a.kind != 0 {
            return Ok(say::end_line(out, to));
        }
        let n = a.numbers;
        to = say::table_line(out, to, n);
    }
    Ok(to)
}

// Any other call, on the part of the store that is lent.
fn call(world: World, length: usize, number: u64, args: &[u64], store: &mut [u16]) -> Turn {
    let n = of_places(length, store);
    let r = calls::call(world, number, args, &mut store[..n]);
    let next = r.world;
    let answer = r.answer;
    Turn {
        world: next,
        length,
        answer,
    }
}

fn play(world: World, length: usize, number: u64, args: &[u64], store: &mut [u16]) -> Turn {
    if number == RESET {
        return store_words::reset(store);
    }
    if number == SET_STORE {
        return store_words::set_store(world, length, args, store);
    }
    if number == SET_STORE_LENGTH {
        return store_words::set_store_length(world, length, args, store);
    }
    call(world, length, number, args, store)
}

// The machine ready for the next line.
fn ready(world: World, length: usize, waiting: usize) -> Machine {
    let scan = script::blank();
    Machine {
        world,
        length,
        scan,
        waiting,
    }
}

// A call made and answered. Never inlined, so that `line` does not move the machine once more.
#[inline(never)]
fn made(
    rt: &impl Print,
    m: Machine,
    number: u64,
    args: &[u64],
    store: &mut [u16],
    out: &mut [u8],
) -> io::Result<Machine> {
    let world = m.world;
    let length = m.length;
    if number == TABLES {
        let n = of_places(length, store);
        let waiting = tell_tables(rt, world, &store[..n], out, m.waiting)?;
        return Ok(ready(world, length, waiting));
    }
    let t = play(world, length, number, args, store);
    let next = t.world;
    let answer = t.answer;
    let waiting = tell(rt, out, m.waiting, answer)?;
    Ok(ready(next, t.length, waiting))
}

// A line that is no call.
fn bad(rt: &impl Print, m: Machine, out: &mut [u8]) -> io::Result<Machine> {
    let world = m.world;
    let waiting = tell(rt, out, m.waiting, numbers::no_call())?;
    Ok(ready(world, m.length, waiting))
}

// A word with numbers.
fn spoken(
    rt: &impl Print,
    m: Machine,
    word: &[u8],
    args: &[u64],
    store: &mut [u16],
    out: &mut [u8],
) -> io::Result<Machine> {
    let meaning = words::called(word, args);
    match meaning {
        Some(number) => made(rt, m, number, args, store, out),
        None => bad(rt, m, out),
    }
}

fn taken_apart(
    rt: &impl Print,
    m: Machine,
    word: &[u8],
    values: &[u64],
    store: &mut [u16],
    out: &mut [u8],
) -> io::Result<Machine> {
    let scan = m.scan;
    let n = of_bytes(scan.length, word);
    let count = of_values(scan.count, values);
    spoken(rt, m, &word[..n], &values[..count], store, out)
}

fn said(
    rt: &impl Print,
    scan: Scan,
    m: Machine,
    store: &mut [u16],
    out: &mut [u8],
) -> io::Result<Machine> {
    let word = scan.word;
    let values = scan.values;
    taken_apart(rt, m, &word, &values, store, out)
}

// A whole line answered.
fn line(rt: &impl Print, m: Machine, store: &mut [u16], out: &mut [u8]) -> io::Result<Machine> {
    let scan = m.scan;
    let kind = script::line_of(scan);
    match kind {
        Line::Passed => {
            let world = m.world;
            Ok(ready(world, m.length, m.waiting))
        }
        Line::Call => said(rt, scan, m, store, out),
        Line::Bad => bad(rt, m, out),
    }
}

// The bytes of a line that stand in a part of the input, read.
fn read_on(m: Machine, bytes: &[u8], from: usize, to: usize) -> Machine {
    if to < from {
        return m;
    }
    if bytes.len() < to {
        return m;
    }
    let world = m.world;
    let scan = script::feed(m.scan, &bytes[from..to]);
    Machine {
        world,
        length: m.length,
        scan,
        waiting: m.waiting,
    }
}

// The place after one that is not the last.
fn after(to: usize, end: usize) -> usize
    requires { to < end }
    ensures { result ≡ to + 1 }
{
    to + 1
}

// A part of the input: the lines that end in it are answered, and the last one is begun.
fn part(
    rt: &impl Print,
    m: Machine,
    bytes: &[u8],
    store: &mut [u16],
    out: &mut [u8],
) -> io::Result<Machine> {
    let mut w = m;
    let mut from: usize = 0;
    // A turn passes a whole line, not one byte.
    while from < bytes.len() {
        let to = script::line_end(bytes, from);
        w = read_on(w, bytes, from, to);
        if bytes.len() <= to {
            return Ok(w);
        }
        w = line(rt, w, store, out)?;
        from = after(to, bytes.len());
    }
    Ok(w)
}

// One read of the input; whether there was any.
#[derive(Drop)]
struct Taken {
    machine: Machine,
    more: bool,
}

fn step(
    rt: &impl Print,
    reader: &mut impl Read,
    m: Machine,
    input: &mut [u8],
    store: &mut [u16],
    out: &mut [u8],
) -> io::Result<Taken> {
    let n = match reader.read(input) {
        Ok(n) => n,
        Err(e) => {
            // What was answered before the read failed is still written.
            flush(rt, out, m.waiting)?;
            return Err(e);
        }
    };
    if n == 0 {
        return Ok(Taken {
            machine: m,
            more: false,
        });
    }
    let machine = part(rt, m, &input[..n], store, out)?;
    Ok(Taken {
        machine,
        more: true,
    })
}

// The whole input. No run uses up the turns.
fn read_all(
    rt: &impl Print,
    reader: &mut impl Read,
    m: Machine,
    input: &mut [u8],
    store: &mut [u16],
    out: &mut [u8],
) -> io::Result<Machine> {
    let mut w = m;
    for _ in 0..u64::MAX {
        let s = step(rt, reader, w, input, store, out)?;
        w = s.machine;
        if !s.more {
            return Ok(w);
        }
    }
    Ok(w)
}

// The last line, which needs no line feed, and the answers that wait.
fn finish(rt: &impl Print, m: Machine, store: &mut [u16], out: &mut [u8]) -> io::Result<()> {
    let w = line(rt, m, store, out)?;
    flush(rt, out, w.waiting)?;
    Ok(())
}

// 65,536 zeros, for a part of the input or of the answers.
fn large_buffer() -> [u8; 65536]
    ensures { 65536 ≡ length result }
{
    [0; 65536]
}

fn main(rt: HostRuntime) -> io::Result<()> {
    let mut reader = rt.stdin();
    let mut input = large_buffer();
    let mut out = large_buffer();
    // one place more than a store has, for `set_store_length`
    let mut store = [0u16; 2049];
    let world = world::fresh();
    let m = read_all(
        &rt,
        &mut reader,
        ready(world, LENT, 0),
        &mut input,
        &mut store,
        &mut out,
    )?;
    finish(&rt, m, &mut store, &mut out)
}
