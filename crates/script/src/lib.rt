// The reader of scripts: a line's bytes come in parts of any size and are read in constant space, so a line may have any length.
#![tactic(auto)]

ghost use Rattle.std.specs.Prelude.{◌≡◌, ◌+◌, ◌-◌, ◌*◌, leb, drop};
ghost use Rattle.script.specs.Reading.{blank, is_digit, is_letter, turned, spelt, opened, grown, first, letter, start, digit, step, fed, line_of, until_feed};

// Where a reader stands in a line.
const FRESH: u8 = 0;

const IN_WORD: u8 = 1;

const AFTER_SPACE: u8 = 2;

const IN_NUMBER: u8 = 3;

const IN_COMMENT: u8 = 4;

const BAD: u8 = 5;

// What is read of a line: its word, and its numbers with the one being read as the last.
#[derive(Clone, Copy)]
pub struct Scan {
    pub mode: u8,
    pub length: usize,
    pub word: [u8; 40],
    pub count: usize,
    pub values: [u64; 256],
}

// What a line is: passed over, a word with numbers, or neither.
#[derive(Drop)]
pub enum Line {
    Passed,
    Call,
    Bad,
}

// Nothing read.
pub fn blank() -> Scan
    ensures { result ≡ blank }
{
    Scan {
        mode: FRESH,
        length: 0,
        word: [0u8; 40],
        count: 0,
        values: [0u64; 256],
    }
}

fn is_digit(b: u8) -> bool
    ensures { result ≡ is_digit b }
{
    (48 <= b) & (b <= 57)
}

fn is_letter(b: u8) -> bool
    ensures { result ≡ is_letter b }
{
    ((97 <= b) & (b <= 122)) | (is_digit(b) | (b == 95))
}

fn turned(m: u8, s: Scan) -> Scan
    ensures { result ≡ turned m s }
{
    let mut t = s;
    t.mode = m;
    t
}

// One byte more of the word.
fn spelt(s: Scan, b: u8) -> Scan
    ensures { result ≡ spelt s b }
{
    let at = s.length;
    if 40 <= at {
        return turned(BAD, s);
    }
    let mut t = s;
    t.word[at] = b;
    t.length = at + 1;
    t.mode = IN_WORD;
    t
}

// The first digit of one number more.
fn opened(s: Scan, d: u64) -> Scan
    ensures { result ≡ opened s d }
{
    let at = s.count;
    if 256 <= at {
        return turned(BAD, s);
    }
    let mut t = s;
    t.values[at] = d;
    t.count = at + 1;
    t.mode = IN_NUMBER;
    t
}

// The place of the last of `count` numbers.
fn last(count: usize) -> usize
    ensures { result ≡ count - 1 }
{
    if count == 0 { 0 } else { count - 1 }
}

// Whether ten times a number and a digit is at most 2^64 - 1.
fn has_room(v: u64, d: u64) -> bool
    ensures { result ≡ leb (v * 10 + d) 18446744073709551615 }
{
    if 1844674407370955161 < v {
        return false;
    }
    d <= 18446744073709551615 - v * 10
}

// One digit more of the last number.
fn grown(s: Scan, d: u64) -> Scan
    ensures { result ≡ grown s d }
{
    let at = last(s.count);
    if 256 <= at {
        return turned(BAD, s);
    }
    let v = s.values[at];
    if !has_room(v, d) {
        return turned(BAD, s);
    }
    let mut t = s;
    t.values[at] = v * 10 + d;
    t
}

// A line's first byte: `#` begins a comment.
fn first(s: Scan, b: u8) -> Scan
    ensures { result ≡ first s b }
{
    if b == 35 {
        return turned(IN_COMMENT, s);
    }
    if is_letter(b) {
        return spelt(s, b);
    }
    turned(BAD, s)
}

// A byte after one of the word.
fn letter(s: Scan, b: u8) -> Scan
    ensures { result ≡ letter s b }
{
    if b == 32 {
        return turned(AFTER_SPACE, s);
    }
    if is_letter(b) {
        return spelt(s, b);
    }
    turned(BAD, s)
}

// A byte after a space.
fn start(s: Scan, b: u8) -> Scan
    ensures { result ≡ start s b }
{
    if !is_digit(b) {
        return turned(BAD, s);
    }
    opened(s, (b - 48) as u64)
}

// A byte after a digit of a number.
fn digit(s: Scan, b: u8) -> Scan
    ensures { result ≡ digit s b }
{
    if b == 32 {
        return turned(AFTER_SPACE, s);
    }
    if !is_digit(b) {
        return turned(BAD, s);
    }
    grown(s, (b - 48) as u64)
}

// One byte of a line.
pub fn step(s: Scan, b: u8) -> Scan
    ensures { result ≡ step s b }
{
    let mode = s.mode;
    if mode == FRESH {
        return first(s, b);
    }
    if mode == IN_WORD {
        return letter(s, b);
    }
    if mode == AFTER_SPACE {
        return start(s, b);
    }
    if mode == IN_NUMBER {
        return digit(s, b);
    }
    s
}

// A part of a line, which holds no line feed.
pub fn feed(s: Scan, bytes: &[u8]) -> Scan
    ensures { result ≡ fed s bytes.now }
{
    let mut t = s;
    for b in bytes {
        t = step(t, *b);
    }
    t
}

// What a line is, once its last byte is read.
pub fn line_of(s: Scan) -> Line
    ensures { result ≡ line_of s }
{
    let mode = s.mode;
    if (mode == FRESH) | (mode == IN_COMMENT) {
        return Line::Passed;
    }
    if (mode == IN_WORD) | (mode == IN_NUMBER) {
        return Line::Call;
    }
    Line::Bad
}

// The place of the first line feed from `from` on, or of the end.
pub fn line_end(bytes: &[u8], from: usize) -> usize
    ensures { result ≡ from + until_feed (drop from bytes.now) }
{
    for i in from..bytes.len() {
        if bytes[i] == 10 {
            return i;
        }
    }
    from.max(bytes.len())
}
