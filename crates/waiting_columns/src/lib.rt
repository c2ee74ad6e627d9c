// The waiting table, link samples of senders that are no neighbours yet, in columns of numbers that are lent and changed in place.
// Each function is a step on the senders that the columns hold.
#![tactic(auto)]

ghost use Rattle.std.specs.Prelude.{◌≡◌, ◌+◌, ◌-◌, ◌≤◌, ◌<◌, leb, length, take, get_or};
ghost use Rattle.flat_map.specs.Seek.{place_of};
ghost use Rattle.flat_map.specs.Shift.{shift_out};
ghost use Rattle.standard.specs.Ordered.{lookup, put, remove, pop_first, count_with};
ghost use Rattle.standard.specs.Tells.{Tells};
ghost use Rattle.waiting_columns.specs.Codec.{waiting_in};
ghost use Rattle.waiting_table.specs.Entry.{waiting_key};
ghost use Rattle.waiting_columns.specs.Table.{in_columns, Formed64, formed64, RingsSound, well_formed, rows_of, Keeps};

use ring_buffer::RingBuffer;
use types::Nwk;
use waiting_table::WaitingEntry;

// Whether columns make a table, whatever the samples say.
pub fn formed(keys: &[u16], samples: &[u64], count: usize) -> bool
    ensures { result ≡ formed64 (in_columns keys.now samples.now count) }
{
    if keys.len() != 64 {
        return false;
    }
    if samples.len() != 64 {
        return false;
    }
    if 64 < count {
        return false;
    }
    let up = columns::rising(keys, count);
    let no_keys = columns::zero_from(keys, count);
    let no_samples = columns::zero_from(samples, count);
    let small = columns::under(samples, 1099511627776);
    up & no_keys & no_samples & small
}

// Whether each of the first `count` words of samples holds a ring that is well formed.
fn rings_sound(samples: &[u64], count: usize) -> bool
    requires { count ≤ length samples.now }
    ensures { Tells (RingsSound samples.now count) result }
{
    let mut ok = true;
    for w in &samples[..count] {
        ok = ok & ring_buffer::word_sound(*w);
    }
    ok
}

// Whether columns are a well-formed table.
pub fn well_formed(keys: &[u16], samples: &[u64], count: usize) -> bool
    ensures { result ≡ well_formed (in_columns keys.now samples.now count) }
{
    if !formed(keys, samples, count) {
        return false;
    }
    rings_sound(samples, count)
}

// Where the samples of a sender stand, or would stand.
pub fn place_of(keys: &[u16], samples: &[u64], count: usize, nwk: Nwk) -> Result<usize, usize>
    requires { Formed64 (in_columns keys.now samples.now count) }
    ensures { result ≡ place_of (take count keys.now) nwk.0 }
{
    columns::index_of(keys, count, nwk.0)
}

// The entry in a place.
pub fn entry_at(keys: &[u16], samples: &[u64], i: usize) -> WaitingEntry
    requires { (i < length keys.now) × (i < length samples.now) }
    ensures { result ≡ waiting_in (get_or keys.now i 0) (get_or samples.now i 0) }
{
    WaitingEntry {
        network_address: Nwk(keys[i]),
        lqas: RingBuffer::of_word(samples[i]),
    }
}

// The samples of a sender.
pub fn find(keys: &[u16], samples: &[u64], count: usize, nwk: Nwk) -> Option<WaitingEntry>
    requires { Formed64 (in_columns keys.now samples.now count) }
    ensures { result ≡ lookup waiting_key nwk.0 (rows_of (in_columns keys.now samples.now count)) }
{
    let place = place_of(keys, samples, count, nwk);
    match place {
        Ok(i) => Some(entry_at(keys, samples, i)),
        Err(_) => None,
    }
}

// Whether there is room for a sender: a free place, or one that it has already.
pub fn has_room(keys: &[u16], samples: &[u64], count: usize, nwk: Nwk) -> bool
    requires { Formed64 (in_columns keys.now samples.now count) }
    ensures { result ≡ leb (count_with waiting_key nwk.0 (rows_of (in_columns keys.now samples.now count))) 64 }
{
    let place = place_of(keys, samples, count, nwk);
    columns::has_room(place, count, 64)
}

// Samples at the place of their sender: over those that are there, or put in. How many senders there are after it.
pub fn put_at(
    keys: &mut [u16],
    samples: &mut [u64],
    count: usize,
    place: Result<usize, usize>,
    e: WaitingEntry,
) -> usize
    requires { Formed64 (in_columns keys.old samples.old count) × (place ≡ place_of (take count keys.old) (waiting_key e)) × (count_with waiting_key (waiting_key e) (rows_of (in_columns keys.old samples.old count)) ≤ 64) }
    ensures { Keeps (in_columns keys.new samples.new result)
        (put waiting_key e (rows_of (in_columns keys.old samples.old count))) }
{
    let lqas = e.lqas;
    let w = lqas.word();
    match place {
        Ok(i) => {
            samples[i] = w;
            count
        }
        Err(i) => {
            columns::shift_in(keys, i, e.network_address.0);
            columns::shift_in(samples, i, w);
            count + 1
        }
    }
}

// What stands in a place taken out of both columns.
fn out_at(keys: &mut [u16], samples: &mut [u64], i: usize)
    requires { (i < length keys.old) × (i < length samples.old) }
    ensures { (keys.new ≡ shift_out i 0 keys.old) × (samples.new ≡ shift_out i 0 samples.old) }
{
    columns::shift_out(keys, i, 0);
    columns::shift_out(samples, i, 0);
}

// The samples in place i, those of a sender, taken out. How many senders there are after it.
pub fn remove_at(keys: &mut [u16], samples: &mut [u64], count: usize, i: usize, nwk: Nwk) -> usize
    requires { Formed64 (in_columns keys.old samples.old count) × (Ok i ≡ place_of (take count keys.old) nwk.0) }
    ensures { Keeps (in_columns keys.new samples.new result)
        (remove waiting_key nwk.0 (rows_of (in_columns keys.old samples.old count))) }
{
    out_at(keys, samples, i);
    count - 1
}

// The samples of a sender taken out, if there are any. How many senders there are after it.
pub fn remove(keys: &mut [u16], samples: &mut [u64], count: usize, nwk: Nwk) -> usize
    requires { Formed64 (in_columns keys.old samples.old count) }
    ensures { Keeps (in_columns keys.new samples.new result)
        (remove waiting_key nwk.0 (rows_of (in_columns keys.old samples.old count))) }
{
    let place = place_of(keys, samples, count, nwk);
    match place {
        Ok(i) => remove_at(keys, samples, count, i, nwk),
        Err(_) => count,
    }
}

// The samples of the lowest address taken out, if there are any. How many senders there are after it.
pub fn pop_first(keys: &mut [u16], samples: &mut [u64], count: usize) -> usize
    requires { Formed64 (in_columns keys.old samples.old count) }
    ensures { Keeps (in_columns keys.new samples.new result)
        (pop_first (rows_of (in_columns keys.old samples.old count))) }
{
    if count == 0 {
        return count;
    }
    out_at(keys, samples, 0);
    count - 1
}
