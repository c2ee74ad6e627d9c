// The route table in columns of numbers that are lent and changed in place. Each function is a step on the routes that the columns hold.
#![tactic(auto)]

ghost use Rattle.std.specs.Prelude.{map, ◌≡◌, ◌+◌, ◌-◌, ◌*◌, ◌≤◌, ◌<◌, length, get_or, set, true};
ghost use mir.Val.{bool_byte};
ghost use Rattle.flat_map.specs.Shift.{shift_in, shift_out};
ghost use Rattle.standard.specs.Numbers.{status_number};
ghost use Rattle.standard.specs.Ordered.{lookup, put, remove, count_with};
ghost use Rattle.standard.specs.Query.{entry_at};
ghost use Rattle.standard.specs.Route.{route_key, decayed, unlinked};
ghost use Rattle.route_table.specs.Codec.{status_of, route_word, route_in};
ghost use Rattle.route_table.specs.Table.{in_columns, WellFormed, well_formed, rows_of, Holds};

use standard::{RouteEntry, Status};
use types::Nwk;

// The table, lent for change: columns that are well formed, and how many routes there are.
#[derive(Drop)]
pub struct Routes<'a> {
    pub keys: &'a mut [u16],
    pub words: &'a mut [u64],
    pub usage: &'a mut [u32],
    pub count: usize,
    pub ghost formed: { well_formed (in_columns keys.now words.now usage.now count) ≡ true },
}

// The table with its values alone lent for change: no route is made or removed.
#[derive(Drop)]
pub struct RouteValues<'a> {
    pub keys: &'a [u16],
    pub words: &'a mut [u64],
    pub usage: &'a mut [u32],
    pub count: usize,
    pub ghost formed: { well_formed (in_columns keys.now words.now usage.now count) ≡ true },
}

// The table, lent for questions.
#[derive(Clone, Copy)]
pub struct RoutesSeen<'a> {
    pub keys: &'a [u16],
    pub words: &'a [u64],
    pub usage: &'a [u32],
    pub count: usize,
    pub ghost formed: { well_formed (in_columns keys.now words.now usage.now count) ≡ true },
}

// Which status a number of two bits names.
fn status_of(n: u64) -> Status
    ensures { result ≡ status_of n }
{
    if n == 0 {
        return Status::Active;
    }
    if n == 1 {
        return Status::DiscoveryUnderway;
    }
    if n == 2 {
        return Status::DiscoveryFailed;
    }
    Status::Inactive
}

fn status_number(s: Status) -> u64
    ensures { (result ≡ status_number s) × (result < 4) }
{
    s as u64
}

// The route in a key, a word and a usage count.
fn entry(key: u16, word: u64, usage: u32) -> RouteEntry
    ensures { result ≡ route_in key word usage }
{
    let status = status_of(word / 4294967296 % 4);
    RouteEntry {
        destination: Nwk(key),
        status,
        no_route_cache: word / 17179869184 % 2 == 1,
        many_to_one: word / 34359738368 % 2 == 1,
        route_record_required: word / 68719476736 % 2 == 1,
        expired: word / 137438953472 % 2 == 1,
        next_hop_address: Nwk((word % 65536) as u16),
        path_cost: (word / 65536 % 256) as u8,
        total_usage_count: usage,
        recent_activity: (word / 16777216 % 256) as u8,
    }
}

// A flag as a number.
fn bit(b: bool) -> u64
    ensures { (result ≡ bool_byte b) × (result < 2) }
{
    u64::from(b)
}

// The fields of a word, put together.
fn packed(hop: u16, cost: u8, recent: u8, status: u64, a: u64, b: u64, c: u64, d: u64) -> u64
    requires { (status < 4) × (a < 2) × (b < 2) × (c < 2) × (d < 2) }
    ensures { result ≡ hop + cost * 65536 + recent * 16777216 + status * 4294967296 + a * 17179869184 + b * 34359738368 + c * 68719476736 + d * 137438953472 }
{
    hop as u64
        + cost as u64 * 65536
        + recent as u64 * 16777216
        + status * 4294967296
        + a * 17179869184
        + b * 34359738368
        + c * 68719476736
        + d * 137438953472
}

// The word of a route.
fn word_of(e: RouteEntry) -> u64
    ensures { result ≡ route_word e }
{
    let s = e.status;
    let n = status_number(s);
    let a = bit(e.no_route_cache);
    let b = bit(e.many_to_one);
    let c = bit(e.route_record_required);
    let d = bit(e.expired);
    packed(
        e.next_hop_address.0,
        e.path_cost,
        e.recent_activity,
        n,
        a,
        b,
        c,
        d,
    )
}

impl<'a> RoutesSeen<'a> {
    ghost use Rattle.route_table.specs.Lent.{seen_table, seen_routes, place_in, read_at};

    // Where the route to a destination stands, or would stand.
    pub fn place_of(&self, destination: Nwk) -> Result<usize, usize>
        ensures { result ≡ place_in (seen_table self.now) destination.0 }
    {
        columns::index_of(self.keys, self.count, destination.0)
    }

    // The route in a place.
    pub fn entry_at(&self, i: usize) -> RouteEntry
        requires { i < 64 }
        ensures { result ≡ read_at (seen_table self.now) i }
    {
        entry(self.keys[i], self.words[i], self.usage[i])
    }

    // The route to a destination.
    pub fn find(&self, destination: Nwk) -> Option<RouteEntry>
        ensures { result ≡ lookup route_key destination.0 (seen_routes self.now) }
    {
        match self.place_of(destination) {
            Ok(i) => {
                let e = self.entry_at(i);
                Some(e)
            }
            Err(_) => None,
        }
    }

    // The route at a place in the order, and nothing from the count on.
    pub fn at(&self, i: usize) -> Option<RouteEntry>
        ensures { result ≡ entry_at i (seen_routes self.now) }
    {
        if self.count <= i {
            return None;
        }
        let e = self.entry_at(i);
        Some(e)
    }
}

// A word and a usage count written over those in a place.
fn write_over(words: &mut [u64], usage: &mut [u32], i: usize, word: u64, count: u32)
    requires { (i < length words.old) × (i < length usage.old) }
    ensures words { words.new ≡ set words.old i word }
    ensures usage { usage.new ≡ set usage.old i count }
{
    words[i] = word;
    usage[i] = count;
}

// A place put in, in each column.
fn shift_in_all(
    keys: &mut [u16],
    words: &mut [u64],
    usage: &mut [u32],
    count: &mut usize,
    i: usize,
    key: u16,
    word: u64,
    used: u32,
)
    requires { (i < length keys.old) × (i < length words.old) × (i < length usage.old) × (count.old < 64) }
    ensures { in_columns keys.new words.new usage.new count.new
        ≡ in_columns (shift_in i key keys.old) (shift_in i word words.old) (shift_in i used usage.old) (count.old + 1) }
{
    columns::shift_in(keys, i, key);
    columns::shift_in(words, i, word);
    columns::shift_in(usage, i, used);
    *count += 1;
}

// A place taken out, in each column.
fn shift_out_all(
    keys: &mut [u16],
    words: &mut [u64],
    usage: &mut [u32],
    count: &mut usize,
    i: usize,
)
    requires { (i < length keys.old) × (i < length words.old) × (i < length usage.old) × (i < count.old) }
    ensures { in_columns keys.new words.new usage.new count.new
        ≡ in_columns (shift_out i 0 keys.old) (shift_out i 0 words.old) (shift_out i 0 usage.old) (count.old - 1) }
{
    columns::shift_out(keys, i, 0);
    columns::shift_out(words, i, 0);
    columns::shift_out(usage, i, 0);
    *count -= 1;
}

impl<'a> RouteValues<'a> {
    ghost use Rattle.route_table.specs.Lent.{value_table, value_routes, seen_table, place_in, ValuesBecome};

    // The table, for questions.
    pub fn seen(&self) -> RoutesSeen<'_>
        ensures { seen_table result ≡ value_table self.now }
    {
        RoutesSeen {
            keys: self.keys,
            words: &*self.words,
            usage: &*self.usage,
            count: self.count,
        }
    }

    // A route stored over the one of its destination, which stands in place i.
    pub fn set_at(&mut self, i: usize, e: RouteEntry)
        requires { Ok i ≡ place_in (value_table self.old) (route_key e) }
        ensures { ValuesBecome self.old self.new (put route_key e (value_routes self.old)) }
    {
        let w = word_of(e);
        write_over(self.words, self.usage, i, w, e.total_usage_count);
    }
}

impl<'a> Routes<'a> {
    ghost use Rattle.route_table.specs.Lent.{table, routes_of, seen_table, place_in, Becomes, SameColumns, SameKeys};

    // The table, for questions.
    pub fn seen(&self) -> RoutesSeen<'_>
        ensures { seen_table result ≡ table self.now }
    {
        RoutesSeen {
            keys: &*self.keys,
            words: &*self.words,
            usage: &*self.usage,
            count: self.count,
        }
    }

    // A route stored over the one of its destination, which stands in place i.
    pub fn set_at(&mut self, i: usize, e: RouteEntry)
        requires { Ok i ≡ place_in (table self.old) (route_key e) }
        ensures stored { Becomes self.old self.new (put route_key e (routes_of self.old)) }
        ensures kept { SameKeys self.old self.new }
    {
        let w = word_of(e);
        write_over(self.words, self.usage, i, w, e.total_usage_count);
    }

    // A route put in at the place where its destination is missing.
    pub fn insert_at(&mut self, i: usize, e: RouteEntry)
        requires { (Err i ≡ place_in (table self.old) (route_key e)) × (self.old.count < 64) }
        ensures { Becomes self.old self.new (put route_key e (routes_of self.old)) }
    {
        let w = word_of(e);
        shift_in_all(
            self.keys,
            self.words,
            self.usage,
            &mut self.count,
            i,
            e.destination.0,
            w,
            e.total_usage_count,
        );
    }

    // A route at the place of its destination: over the one that is there, or put in.
    pub fn put_at(&mut self, place: Result<usize, usize>, e: RouteEntry)
        requires { (place ≡ place_in (table self.old) (route_key e)) × (count_with route_key (route_key e) (routes_of self.old) ≤ 64) }
        ensures { Becomes self.old self.new (put route_key e (routes_of self.old)) }
    {
        match place {
            Ok(i) => self.set_at(i, e),
            Err(i) => self.insert_at(i, e),
        }
    }

    // The route in a place taken out, all columns shifted left.
    pub fn remove_at(&mut self, i: usize)
        requires { i < self.old.count }
        ensures same { SameColumns self.old self.new }
        ensures out { table self.new ≡ in_columns (shift_out i 0 self.old.keys.now) (shift_out i 0 self.old.words.now) (shift_out i 0 self.old.usage.now) (self.old.count - 1) }
    {
        shift_out_all(self.keys, self.words, self.usage, &mut self.count, i);
    }

    // The route to a destination taken out, if there is one.
    pub fn remove(&mut self, destination: Nwk)
        ensures { Becomes self.old self.new (remove route_key destination.0 (routes_of self.old)) }
    {
        let place = self.seen().place_of(destination);
        match place {
            Ok(i) => self.remove_at(i),
            Err(_) => {}
        }
    }
}

// Whether columns are a well-formed table.
pub fn well_formed(keys: &[u16], words: &[u64], usage: &[u32], count: usize) -> bool
    ensures { result ≡ well_formed (in_columns keys.now words.now usage.now count) }
{
    if keys.len() != 64 {
        return false;
    }
    if words.len() != 64 {
        return false;
    }
    if usage.len() != 64 {
        return false;
    }
    if 64 < count {
        return false;
    }
    let up = columns::rising(keys, count);
    let no_keys = columns::zero_from(keys, count);
    let no_words = columns::zero_from(words, count);
    let no_usage = columns::zero_from(usage, count);
    let small = columns::under(words, 274877906944);
    up & no_keys & no_words & no_usage & small
}

// The route in a place of columns as they are, which need not be well formed: it is printed so.
pub fn entry_at(keys: &[u16], words: &[u64], usage: &[u32], i: usize) -> RouteEntry
    requires { (i < length keys.now) × (i < length words.now) × (i < length usage.now) }
    ensures { result ≡ route_in (get_or keys.now i 0) (get_or words.now i 0) (get_or usage.now i 0) }
{
    entry(keys[i], words[i], usage[i])
}

// The recent activity of an Active route, one less.
fn decayed_entry(e: RouteEntry) -> RouteEntry
    ensures { result ≡ decayed e }
{
    let s = e.status;
    if !route_entry::is_active(s) {
        return e;
    }
    let mut f = e;
    f.recent_activity = e.recent_activity.saturating_sub(1);
    f
}

// An Active route by a hop that is lost is Inactive.
fn unlinked_entry(e: RouteEntry, hop: Nwk) -> RouteEntry
    ensures { result ≡ unlinked hop e }
{
    let s = e.status;
    if !route_entry::is_active(s) {
        return e;
    }
    if e.next_hop_address != hop {
        return e;
    }
    route_entry::with_status(e, Status::Inactive)
}

// The recent activity of every Active route goes down by one. In columns, as `invalidate_via` is: C lends the words alone of these two for change.
pub fn decay_activity(keys: &[u16], words: &mut [u64], usage: &[u32], count: usize)
    requires { WellFormed (in_columns keys.now words.old usage.now count) }
    ensures { Holds (in_columns keys.now words.new usage.now count)
        (map decayed (rows_of (in_columns keys.now words.old usage.now count))) }
{
    for i in 0..count {
        let e = entry_at(keys, words, usage, i);
        let f = decayed_entry(e);
        let w = word_of(f);
        words[i] = w;
    }
}

// Every Active route by a hop that is lost is Inactive.
pub fn invalidate_via(keys: &[u16], words: &mut [u64], usage: &[u32], count: usize, hop: Nwk)
    requires { WellFormed (in_columns keys.now words.old usage.now count) }
    ensures { Holds (in_columns keys.now words.new usage.now count)
        (map (unlinked hop) (rows_of (in_columns keys.now words.old usage.now count))) }
{
    for i in 0..count {
        let e = entry_at(keys, words, usage, i);
        let f = unlinked_entry(e, hop);
        let w = word_of(f);
        words[i] = w;
    }
}
