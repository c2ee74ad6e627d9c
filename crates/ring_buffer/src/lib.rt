// The last three link samples and their median; a ring of samples as one number.
#![tactic(auto)]

ghost use Rattle.std.specs.Prelude.{◌==◌, ◌+◌, ◌*◌, ◌<◌, min, ◌≡◌, eqb, drop};
ghost use Rattle.std.specs.List.{list_all};
ghost use Rattle.standard.specs.Median.{Ordered, median_of};
ghost use Rattle.standard.specs.Tells.{Tells};
ghost use Rattle.ring_buffer.specs.Ring.{fresh, after_push, WellFormed, well_formed};
ghost use Rattle.ring_buffer.specs.Word.{ring_of, ring_word, word_end, InRange};
ghost use Rattle.ring_buffer.specs.Exchange.{exchanged};

// Three samples, by value.
pub type Samples = [u8; 3];

// The last three values pushed. `len` of the places are in use, and the next push writes place `next`.
#[derive(Clone, Copy)]
pub struct RingBuffer {
    pub values: [u8; 3],
    pub len: u8,
    pub next: u8,
}

impl RingBuffer {
    // No value held.
    pub fn new() -> RingBuffer
        ensures { result ≡ fresh }
    {
        RingBuffer {
            values: [0; 3],
            len: 0,
            next: 0,
        }
    }

    // Writes the next place, which holds the oldest value once three are held. A place past the third counts round from the first.
    pub fn push(self, value: u8) -> RingBuffer
        ensures { result ≡ after_push self value }
    {
        let at = self.next % 3;
        let mut values = self.values;
        values[at as usize] = value;
        RingBuffer {
            values,
            len: one_more(self.len),
            next: (at + 1) % 3,
        }
    }

    // How many values are held.
    pub fn len(self) -> usize
        ensures { result ≡ self.len }
    {
        self.len as usize
    }

    // Whether three values are held.
    pub fn is_full(self) -> bool
        ensures { result ≡ eqb self.len 3 }
    {
        self.len == 3
    }

    // The three places, used or not.
    pub fn values(self) -> Samples
        ensures { result ≡ self.values }
    {
        self.values
    }

    // Whether count, next place and unused places agree, as they do in every ring that pushes make from a new one.
    pub fn well_formed(self) -> bool
        ensures { Tells (WellFormed self) result }
    {
        let len = self.len;
        let next = self.next;
        if len < 3 {
            if next == len {
                zero_from(&self.values, len as usize)
            } else {
                false
            }
        } else if len == 3 {
            next < 3
        } else {
            false
        }
    }

    // The ring in a word, from its lowest 40 bits.
    pub fn of_word(word: u64) -> RingBuffer
        ensures { result ≡ ring_of word }
    {
        RingBuffer {
            values: [
                (word % 256) as u8,
                (word / 256 % 256) as u8,
                (word / 65536 % 256) as u8,
            ],
            len: (word / 16777216 % 256) as u8,
            next: (word / 4294967296 % 256) as u8,
        }
    }

    // The word of the ring. Every ring of a program is within the word's fields.
    pub fn word(self) -> u64
        ensures { (result ≡ ring_word self) × (result < word_end) × InRange self }
    {
        let values = self.values;
        packed(values[0], values[1], values[2], self.len, self.next)
    }
}

// The fields of a word, each a byte, put together.
fn packed(first: u8, second: u8, third: u8, len: u8, next: u8) -> u64
    ensures { (result ≡ first + second * 256 + third * 65536 + len * 16777216 + next * 4294967296) × (result < word_end)
        × (first < 256) × (second < 256) × (third < 256) × (len < 256) × (next < 256) }
{
    first as u64
        + second as u64 * 256
        + third as u64 * 65536
        + len as u64 * 16777216
        + next as u64 * 4294967296
}

// Whether the ring in a word is well formed: no sample held, or one, two or three, with a next place that fits.
// What stands above the first sample is compared as one number of 32 bits.
pub fn word_sound(word: u64) -> bool
    ensures { result ≡ well_formed (ring_of word) }
{
    let above = (word / 256 % 4294967296) as u32;
    let none = word % 1099511627776 == 0;
    let one = above == 16842752;
    let two = above / 256 == 131584;
    let three = (above / 65536 % 256 == 3) & (above < 50331648);
    none | one | two | three
}

// The count after a push, which stops at three.
fn one_more(len: u8) -> u8
    ensures { result ≡ min (len + 1) 3 }
{
    if len < 3 { len + 1 } else { 3 }
}

// Whether every value from the place `from` on is 0.
fn zero_from(values: &[u8], from: usize) -> bool
    ensures { result ≡ list_all (λ x. x == 0) (drop from values.now) }
{
    values.iter().skip(from).all(|x| *x == 0)
}

// The samples with the one at `i` and the one after it in ascending order.
fn exchange(samples: [u8; 3], i: usize) -> [u8; 3]
    requires { i < 2 }
    ensures { result ≡ exchanged i samples }
{
    let mut swapped = samples;
    if samples[i + 1] < samples[i] {
        swapped.swap(i, i + 1);
    }
    swapped
}

// The samples in ascending order: the greatest goes to the end, and then the first two are put in order.
pub fn ordered(samples: [u8; 3]) -> Samples
    ensures { Ordered samples result }
{
    exchange(exchange(exchange(samples, 0), 1), 0)
}

// The middle one of the samples in order: the link quality.
pub fn median(samples: [u8; 3]) -> u8
    ensures { result ≡ median_of samples }
{
    let sorted = ordered(samples);
    sorted[1]
}
