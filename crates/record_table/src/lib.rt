// The route record table in columns of numbers that are lent and changed in place. Each function is a step on the entries that the columns hold.
#![tactic(auto)]

ghost use Rattle.std.specs.Prelude.{◌≡◌, ◌+◌, ◌-◌, ◌≤◌, ◌<◌, length, get_or, true};
ghost use Rattle.flat_map.specs.Shift.{shift_in, shift_out};
ghost use Rattle.standard.specs.Ordered.{put, remove, count_with};
ghost use Rattle.standard.specs.Record.{record_key};
ghost use Rattle.record_table.specs.Codec.{record_in};
ghost use Rattle.record_table.specs.Table.{in_columns, well_formed};

use standard::RecordEntry;
use types::Nwk;

// The table, lent for change: columns that are well formed, and how many entries there are.
#[derive(Drop)]
pub struct Records<'a> {
    pub keys: &'a mut [u16],
    pub lengths: &'a mut [u8],
    pub count: usize,
    pub ghost formed: { well_formed (in_columns keys.now lengths.now count) ≡ true },
}

// The table, lent for questions.
#[derive(Clone, Copy)]
pub struct RecordsSeen<'a> {
    pub keys: &'a [u16],
    pub lengths: &'a [u8],
    pub count: usize,
    pub ghost formed: { well_formed (in_columns keys.now lengths.now count) ≡ true },
}

// Whether columns are a well-formed table.
pub fn well_formed(keys: &[u16], lengths: &[u8], count: usize) -> bool
    ensures { result ≡ well_formed (in_columns keys.now lengths.now count) }
{
    if keys.len() != 64 {
        return false;
    }
    if lengths.len() != 64 {
        return false;
    }
    if 64 < count {
        return false;
    }
    let up = columns::rising(keys, count);
    let no_keys = columns::zero_from(keys, count);
    let no_lengths = columns::zero_from(lengths, count);
    let few = columns::under(lengths, 33);
    up & no_keys & no_lengths & few
}

// The entry in a place of columns as they are, which need not be well formed: it is printed so.
pub fn entry_at(keys: &[u16], lengths: &[u8], i: usize) -> RecordEntry
    requires { (i < length keys.now) × (i < length lengths.now) }
    ensures { result ≡ record_in (get_or keys.now i 0) (get_or lengths.now i 0) }
{
    RecordEntry {
        destination: Nwk(keys[i]),
        relay_count: lengths[i],
    }
}

impl<'a> RecordsSeen<'a> {
    ghost use Rattle.record_table.specs.Lent.{seen_table, place_in, read_at};

    // Where the record of a destination stands, or would stand.
    pub fn place_of(&self, destination: Nwk) -> Result<usize, usize>
        ensures { result ≡ place_in (seen_table self.now) destination.0 }
    {
        columns::index_of(self.keys, self.count, destination.0)
    }

    // The entry in a place.
    pub fn entry_at(&self, i: usize) -> RecordEntry
        requires { i < 64 }
        ensures { result ≡ read_at (seen_table self.now) i }
    {
        entry_at(self.keys, self.lengths, i)
    }
}

// A place put in, in each column.
fn shift_in_all(
    keys: &mut [u16],
    lengths: &mut [u8],
    count: &mut usize,
    i: usize,
    key: u16,
    relay_count: u8,
)
    requires { (i < length keys.old) × (i < length lengths.old) × (count.old < 64) }
    ensures { in_columns keys.new lengths.new count.new ≡ in_columns (shift_in i key keys.old) (shift_in i relay_count lengths.old) (count.old + 1) }
{
    columns::shift_in(keys, i, key);
    columns::shift_in(lengths, i, relay_count);
    *count += 1;
}

// A place taken out, in each column.
fn shift_out_all(keys: &mut [u16], lengths: &mut [u8], count: &mut usize, i: usize)
    requires { (i < length keys.old) × (i < length lengths.old) × (i < count.old) }
    ensures { in_columns keys.new lengths.new count.new ≡ in_columns (shift_out i 0 keys.old) (shift_out i 0 lengths.old) (count.old - 1) }
{
    columns::shift_out(keys, i, 0);
    columns::shift_out(lengths, i, 0);
    *count -= 1;
}

impl<'a> Records<'a> {
    ghost use Rattle.record_table.specs.Lent.{table, entries_of, seen_table, place_in, Becomes};

    // The table, for questions.
    pub fn seen(&self) -> RecordsSeen<'_>
        ensures { seen_table result ≡ table self.now }
    {
        RecordsSeen {
            keys: &*self.keys,
            lengths: &*self.lengths,
            count: self.count,
        }
    }

    // An entry stored over the one of its destination, which stands in place i.
    fn set_at(&mut self, i: usize, e: RecordEntry)
        requires { (Ok i ≡ place_in (table self.old) (record_key e)) × (e.relay_count ≤ 32) }
        ensures { Becomes self.old self.new (put record_key e (entries_of self.old)) }
    {
        self.lengths[i] = e.relay_count;
    }

    // An entry put in at the place where its destination is missing.
    fn insert_at(&mut self, i: usize, e: RecordEntry)
        requires { (Err i ≡ place_in (table self.old) (record_key e)) × (self.old.count < 64) × (e.relay_count ≤ 32) }
        ensures { Becomes self.old self.new (put record_key e (entries_of self.old)) }
    {
        shift_in_all(
            self.keys,
            self.lengths,
            &mut self.count,
            i,
            e.destination.0,
            e.relay_count,
        );
    }

    // An entry at the place of its destination: over the one that is there, or put in.
    pub fn put_at(&mut self, place: Result<usize, usize>, e: RecordEntry)
        requires { (place ≡ place_in (table self.old) (record_key e)) × (count_with record_key (record_key e) (entries_of self.old) ≤ 64) × (e.relay_count ≤ 32) }
        ensures { Becomes self.old self.new (put record_key e (entries_of self.old)) }
    {
        match place {
            Ok(i) => self.set_at(i, e),
            Err(i) => self.insert_at(i, e),
        }
    }

    // The entry in place i, that of a destination, taken out.
    pub fn remove_at(&mut self, i: usize, destination: Nwk)
        requires { Ok i ≡ place_in (table self.old) destination.0 }
        ensures { Becomes self.old self.new (remove record_key destination.0 (entries_of self.old)) }
    {
        shift_out_all(self.keys, self.lengths, &mut self.count, i);
    }
}
