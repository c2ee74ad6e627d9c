// The route discovery table in columns of numbers that are lent and changed in place. Each function is a step on the discoveries that the columns hold.
#![tactic(auto)]

ghost use Rattle.std.specs.Prelude.{◌≡◌, ◌+◌, ◌-◌, ◌*◌, ◌≤◌, ◌<◌, length, get_or, set, true};
ghost use Rattle.flat_map.specs.Shift.{shift_in, shift_out};
ghost use Rattle.standard.specs.Discovery.{pair_key, discovery_key, live, is_over, names, awaits};
ghost use Rattle.standard.specs.Ordered.{lookup, put, count_with, keep};
ghost use Rattle.standard.specs.Query.{first, some_fits, entry_at};
ghost use Rattle.discovery_table.specs.Codec.{discovery_word, discovery_in};
ghost use Rattle.discovery_table.specs.Table.{in_columns, well_formed, deadline_of};

use standard::DiscoveryEntry;
use types::Nwk;

// The table, lent for change: columns that are well formed, and how many discoveries there are.
#[derive(Drop)]
pub struct Discoveries<'a> {
    pub keys: &'a mut [u32],
    pub words: &'a mut [u64],
    pub ends: &'a mut [u64],
    pub count: usize,
    pub ghost formed: { well_formed (in_columns keys.now words.now ends.now count) ≡ true },
}

// The table with its values alone lent for change: no discovery is made or removed.
#[derive(Drop)]
pub struct DiscoveryValues<'a> {
    pub keys: &'a [u32],
    pub words: &'a mut [u64],
    pub ends: &'a mut [u64],
    pub count: usize,
    pub ghost formed: { well_formed (in_columns keys.now words.now ends.now count) ≡ true },
}

// The table, lent for questions.
#[derive(Clone, Copy)]
pub struct DiscoveriesSeen<'a> {
    pub keys: &'a [u32],
    pub words: &'a [u64],
    pub ends: &'a [u64],
    pub count: usize,
    pub ghost formed: { well_formed (in_columns keys.now words.now ends.now count) ≡ true },
}

// A source and a request id as one number, in the order of the pair.
pub fn pair_key(source: Nwk, id: u8) -> u32
    ensures { result ≡ pair_key source id }
{
    source.0 as u32 * 256 + id as u32
}

// The discovery in a key, a word and an end.
fn entry(key: u32, word: u64, end: u64) -> DiscoveryEntry
    ensures { result ≡ discovery_in key word end }
{
    DiscoveryEntry {
        route_request_id: (key % 256) as u8,
        source_address: Nwk((key / 256 % 65536) as u16),
        sender_address: Nwk((word % 65536) as u16),
        forward_cost: (word / 4294967296 % 256) as u8,
        residual_cost: (word / 1099511627776 % 256) as u8,
        expiration_time: end,
        destination_address: Nwk((word / 65536 % 65536) as u16),
    }
}

// The fields of a word, put together.
fn packed(sender: u16, destination: u16, forward: u8, residual: u8) -> u64
    ensures { result ≡ sender + destination * 65536 + forward * 4294967296 + residual * 1099511627776 }
{
    sender as u64
        + destination as u64 * 65536
        + forward as u64 * 4294967296
        + residual as u64 * 1099511627776
}

// The word of a discovery.
fn word_of(e: DiscoveryEntry) -> u64
    ensures { result ≡ discovery_word e }
{
    packed(
        e.sender_address.0,
        e.destination_address.0,
        e.forward_cost,
        e.residual_cost,
    )
}

// Whether columns are a well-formed table.
pub fn well_formed(keys: &[u32], words: &[u64], ends: &[u64], count: usize) -> bool
    ensures { result ≡ well_formed (in_columns keys.now words.now ends.now count) }
{
    if keys.len() != 32 {
        return false;
    }
    if words.len() != 32 {
        return false;
    }
    if ends.len() != 32 {
        return false;
    }
    if 32 < count {
        return false;
    }
    let up = columns::rising(keys, count);
    let no_keys = columns::zero_from(keys, count);
    let no_words = columns::zero_from(words, count);
    let no_ends = columns::zero_from(ends, count);
    let pairs = columns::under(keys, 16777216);
    let small = columns::under(words, 281474976710656);
    up & no_keys & no_words & no_ends & pairs & small
}

impl<'a> DiscoveriesSeen<'a> {
    ghost use Rattle.discovery_table.specs.Lent.{seen_table, seen_discoveries, place_in, read_at};

    // Where the discovery of a pair stands, or would stand.
    pub fn place_of(&self, source: Nwk, id: u8) -> Result<usize, usize>
        ensures { result ≡ place_in (seen_table self.now) (pair_key source id) }
    {
        let key = pair_key(source, id);
        columns::index_of(self.keys, self.count, key)
    }

    // The discovery in a place.
    pub fn entry_at(&self, i: usize) -> DiscoveryEntry
        requires { i < 32 }
        ensures { result ≡ read_at (seen_table self.now) i }
    {
        entry(self.keys[i], self.words[i], self.ends[i])
    }

    // The discovery of a source under a request id.
    pub fn find(&self, source: Nwk, id: u8) -> Option<DiscoveryEntry>
        ensures { result ≡ lookup discovery_key (pair_key source id) (seen_discoveries self.now) }
    {
        match self.place_of(source, id) {
            Ok(i) => {
                let e = self.entry_at(i);
                Some(e)
            }
            Err(_) => None,
        }
    }

    // The discovery at a place in the order, and nothing from the count on.
    pub fn at(&self, i: usize) -> Option<DiscoveryEntry>
        ensures { result ≡ entry_at i (seen_discoveries self.now) }
    {
        if self.count <= i {
            return None;
        }
        let e = self.entry_at(i);
        Some(e)
    }

    // Whether the time of a discovery is over.
    pub fn some_over(&self, now_ms: u64) -> bool
        ensures { result ≡ some_fits (is_over now_ms) (seen_discoveries self.now) }
    {
        let mut over = false;
        for i in 0..self.count {
            over = over | (self.ends[i] <= now_ms);
        }
        over
    }

    // Whether a discovery names a destination.
    pub fn names(&self, destination: Nwk) -> bool
        ensures { result ≡ some_fits (names destination.0) (seen_discoveries self.now) }
    {
        let wanted = destination.0 as u64;
        let mut found = false;
        for i in 0..self.count {
            found = found | (self.words[i] / 65536 % 65536 == wanted);
        }
        found
    }

    // Whether a discovery that is live at `now_ms` names a destination.
    pub fn awaited(&self, destination: Nwk, now_ms: u64) -> bool
        ensures { result ≡ some_fits (awaits destination.0 now_ms) (seen_discoveries self.now) }
    {
        let wanted = destination.0 as u64;
        let mut found = false;
        for i in 0..self.count {
            found = found | ((now_ms < self.ends[i]) & (self.words[i] / 65536 % 65536 == wanted));
        }
        found
    }

    // The end of the first discovery that names a destination and is live at `now_ms`.
    pub fn discovery_deadline(&self, destination: Nwk, now_ms: u64) -> Option<u64>
        ensures { result ≡ deadline_of (first (awaits destination.0 now_ms) (seen_discoveries self.now)) }
    {
        for i in 0..self.count {
            let e = self.entry_at(i);
            if (now_ms < e.expiration_time) & (e.destination_address == destination) {
                return Some(e.expiration_time);
            }
        }
        None
    }
}

// A word and an end written over those in a place.
fn write_over(words: &mut [u64], ends: &mut [u64], i: usize, word: u64, end: u64)
    requires { (i < length words.old) × (i < length ends.old) }
    ensures words { words.new ≡ set words.old i word }
    ensures ends { ends.new ≡ set ends.old i end }
{
    words[i] = word;
    ends[i] = end;
}

// A place put in, in each column.
fn shift_in_all(
    keys: &mut [u32],
    words: &mut [u64],
    ends: &mut [u64],
    count: &mut usize,
    i: usize,
    key: u32,
    word: u64,
    end: u64,
)
    requires { (i < length keys.old) × (i < length words.old) × (i < length ends.old) × (count.old < 32) }
    ensures { in_columns keys.new words.new ends.new count.new
        ≡ in_columns (shift_in i key keys.old) (shift_in i word words.old) (shift_in i end ends.old) (count.old + 1) }
{
    columns::shift_in(keys, i, key);
    columns::shift_in(words, i, word);
    columns::shift_in(ends, i, end);
    *count += 1;
}

// A place taken out, in each column.
fn shift_out_all(keys: &mut [u32], words: &mut [u64], ends: &mut [u64], count: &mut usize, i: usize)
    requires { (i < length keys.old) × (i < length words.old) × (i < length ends.old) × (i < count.old) }
    ensures { in_columns keys.new words.new ends.new count.new
        ≡ in_columns (shift_out i 0 keys.old) (shift_out i 0 words.old) (shift_out i 0 ends.old) (count.old - 1) }
{
    columns::shift_out(keys, i, 0);
    columns::shift_out(words, i, 0);
    columns::shift_out(ends, i, 0);
    *count -= 1;
}

impl<'a> DiscoveryValues<'a> {
    ghost use Rattle.discovery_table.specs.Lent.{value_table, value_discoveries, seen_table, place_in, ValuesBecome};

    // The table, for questions.
    pub fn seen(&self) -> DiscoveriesSeen<'_>
        ensures { seen_table result ≡ value_table self.now }
    {
        DiscoveriesSeen {
            keys: self.keys,
            words: &*self.words,
            ends: &*self.ends,
            count: self.count,
        }
    }

    // A discovery stored over the one of its pair, which stands in place i.
    pub fn set_at(&mut self, i: usize, e: DiscoveryEntry)
        requires { Ok i ≡ place_in (value_table self.old) (discovery_key e) }
        ensures { ValuesBecome self.old self.new (put discovery_key e (value_discoveries self.old)) }
    {
        let w = word_of(e);
        write_over(self.words, self.ends, i, w, e.expiration_time);
    }
}

impl<'a> Discoveries<'a> {
    ghost use Rattle.discovery_table.specs.Lent.{table, discoveries_of, seen_table, place_in, Becomes, SameColumns};

    // The table, for questions.
    pub fn seen(&self) -> DiscoveriesSeen<'_>
        ensures { seen_table result ≡ table self.now }
    {
        DiscoveriesSeen {
            keys: &*self.keys,
            words: &*self.words,
            ends: &*self.ends,
            count: self.count,
        }
    }

    // A discovery stored over the one of its pair, which stands in place i.
    pub fn set_at(&mut self, i: usize, e: DiscoveryEntry)
        requires { Ok i ≡ place_in (table self.old) (discovery_key e) }
        ensures { Becomes self.old self.new (put discovery_key e (discoveries_of self.old)) }
    {
        let w = word_of(e);
        write_over(self.words, self.ends, i, w, e.expiration_time);
    }

    // A discovery put in at the place where its pair is missing.
    pub fn insert_at(&mut self, i: usize, e: DiscoveryEntry)
        requires { (Err i ≡ place_in (table self.old) (discovery_key e)) × (self.old.count < 32) }
        ensures { Becomes self.old self.new (put discovery_key e (discoveries_of self.old)) }
    {
        let w = word_of(e);
        let key = pair_key(e.source_address, e.route_request_id);
        shift_in_all(
            self.keys,
            self.words,
            self.ends,
            &mut self.count,
            i,
            key,
            w,
            e.expiration_time,
        );
    }

    // A discovery at the place of its pair: over the one that is there, or put in.
    pub fn put_at(&mut self, place: Result<usize, usize>, e: DiscoveryEntry)
        requires { (place ≡ place_in (table self.old) (discovery_key e)) × (count_with discovery_key (discovery_key e) (discoveries_of self.old) ≤ 32) }
        ensures { Becomes self.old self.new (put discovery_key e (discoveries_of self.old)) }
    {
        match place {
            Ok(i) => self.set_at(i, e),
            Err(i) => self.insert_at(i, e),
        }
    }

    // The discovery in a place taken out, all columns shifted left.
    pub fn remove_at(&mut self, i: usize)
        requires { i < self.old.count }
        ensures same { SameColumns self.old self.new }
        ensures out { table self.new ≡ in_columns (shift_out i 0 self.old.keys.now) (shift_out i 0 self.old.words.now) (shift_out i 0 self.old.ends.now) (self.old.count - 1) }
    {
        shift_out_all(self.keys, self.words, self.ends, &mut self.count, i);
    }

    // The discoveries whose end is after `now_ms`, in place.
    pub fn keep_live(&mut self, now_ms: u64)
        ensures { Becomes self.old self.new (keep (live now_ms) (discoveries_of self.old)) }
    {
        let mut i: usize = 0;
        // `while`: a row that goes makes the rest shorter.
        while i < self.count {
            if now_ms < self.ends[i] {
                i += 1;
            } else {
                self.remove_at(i);
            }
        }
    }
}

// The discovery in a place of columns as they are, which need not be well formed: it is printed so.
pub fn entry_at(keys: &[u32], words: &[u64], ends: &[u64], i: usize) -> DiscoveryEntry
    requires { (i < length keys.now) × (i < length words.now) × (i < length ends.now) }
    ensures { result ≡ discovery_in (get_or keys.now i 0) (get_or words.now i 0) (get_or ends.now i 0) }
{
    entry(keys[i], words[i], ends[i])
}
