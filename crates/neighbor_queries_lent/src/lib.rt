// Questions to the neighbour table in columns that are lent: which rows fit, the first of them, how many, and what is read off them in
// order. A question reads network addresses and link words, and further columns only where its answer says more.
#![tactic(auto)]

ghost use Rattle.std.specs.Prelude.{not, ◌&&◌, [], ◌∷◌, map, ◌≡◌, ◌≤◌, ◌<◌, ℕ, drop, length};
ghost use Rattle.standard.specs.Ordered.{keep};
ghost use Rattle.standard.specs.Query.{first, some_fits, count_fits, entry_at};
ghost use Rattle.standard.specs.Rows.{lesser, least};
ghost use Rattle.neighbor_table.specs.Entry.{is_router, is_end_device, is_child_of, quality_of, cost_of};
ghost use Rattle.neighbor_columns.specs.Codec.{link_of};
ghost use Rattle.neighbor_columns.specs.Lent.{Asked, seen};
ghost use Rattle.neighbor_queries.specs.Filter.{fits};
ghost use Rattle.neighbor_queries.specs.Lists.{child_of, status_of, deadline_of, address_of, name_of, child_list, eui_list, nwk_list, status_list};
ghost use Rattle.neighbor_queries.specs.declared.Filter.TheVariants.{Address, TimedOut};
ghost use Rattle.neighbor_queries_lent.specs.Read.{InRow, InTime, Untimed, InUse, lent_nwks, lent_words, lent_deadlines, lent_times, lent_expiry, Gathered};

use neighbor_queries::{Child, ChildList, Eui64List, Filter, LinkStatus, LinkStatusList, NwkList};
use ring_buffer::RingBuffer;
use types::{Eui64, Nwk};

// Whether a link word is a child's, authenticated or not yet.
fn is_child(word: u64) -> bool
    ensures { result ≡ is_child_of (link_of word).relationship }
{
    let relation = word / 4503599627370496;
    (relation == 1) | (relation == 5)
}

fn is_end_device(word: u64) -> bool
    ensures { result ≡ is_end_device (link_of word).device_type }
{
    2 <= word / 1125899906842624 % 4
}

fn is_router(word: u64) -> bool
    ensures { result ≡ is_router (link_of word).device_type }
{
    word / 1125899906842624 % 4 == 1
}

fn is_end_device_child(word: u64) -> bool
    ensures { result ≡ is_child_of (link_of word).relationship && is_end_device (link_of word).device_type }
{
    is_child(word) & is_end_device(word)
}

fn is_sleepy_child(word: u64) -> bool
    ensures { result ≡ not (link_of word).rx_on_when_idle && is_child_of (link_of word).relationship }
{
    let listens = word / 281474976710656 % 2 == 1;
    !listens & is_child(word)
}

// The cost of the link as the neighbour measures it.
pub fn outgoing_cost(word: u64) -> u8
    ensures { result ≡ (link_of word).outgoing_cost }
{
    (word / 1099511627776 % 256) as u8
}

// How many samples a link word holds.
fn samples(word: u64) -> u8
    ensures { result ≡ (link_of word).lqas.len }
{
    (word / 16777216 % 256) as u8
}

// Whether a neighbour with a network address and a link word fits.
pub fn fits_word(filter: Filter, nwk: u16, word: u64) -> bool
    requires { Untimed filter }
    ensures { InRow nwk word (λ e. result ≡ fits filter e) }
{
    match filter {
        Filter::Address(at) => nwk == at.0,
        Filter::EndDeviceChild => is_end_device_child(word),
        Filter::EndDeviceChildAt(at) => (nwk == at.0) & is_end_device_child(word),
        Filter::SleepyChild => is_sleepy_child(word),
        Filter::SleepyChildAt(at) => (nwk == at.0) & is_sleepy_child(word),
        Filter::LiveRouter => (0 < outgoing_cost(word)) & is_router(word),
        Filter::LiveLinkAt(at) => (nwk == at.0) & (0 < outgoing_cost(word)),
        Filter::SampledRouter => (samples(word) == 3) & is_router(word),
        Filter::TimedOut(_) => false,
    }
}

// Where the rows that can fit begin: at the first with the address, where the filter names one.
fn start_of(nwks: &[u16], count: usize, filter: Filter) -> usize
    requires { InUse count (nwks.now ∷ []) }
    ensures { (result ≤ count) × Asked (lent_nwks nwks.now count) (λ xs. first (fits filter) (drop result xs) ≡ first (fits filter) xs) }
{
    match filter {
        Filter::Address(at) => columns::first16(nwks, count, at.0),
        Filter::EndDeviceChild => 0,
        Filter::EndDeviceChildAt(at) => columns::first16(nwks, count, at.0),
        Filter::SleepyChild => 0,
        Filter::SleepyChildAt(at) => columns::first16(nwks, count, at.0),
        Filter::LiveRouter => 0,
        Filter::LiveLinkAt(at) => columns::first16(nwks, count, at.0),
        Filter::SampledRouter => 0,
        Filter::TimedOut(_) => 0,
    }
}

// The place of the first neighbour that fits; the count where there is none.
pub fn first_fitting(nwks: &[u16], links: &[u64], count: usize, filter: Filter) -> usize
    requires { Untimed filter × InUse count (nwks.now ∷ links.now ∷ []) }
    ensures { (result ≤ count) × Asked (lent_words nwks.now links.now count) (λ xs. entry_at result xs ≡ first (fits filter) xs) }
{
    for i in start_of(nwks, count, filter)..count {
        if fits_word(filter, nwks[i], links[i]) {
            return i;
        }
    }
    count
}

// Whether a neighbour fits.
pub fn any_fitting(nwks: &[u16], links: &[u64], count: usize, filter: Filter) -> bool
    requires { Untimed filter × InUse count (nwks.now ∷ links.now ∷ []) }
    ensures { Asked (lent_words nwks.now links.now count) (λ xs. result ≡ some_fits (fits filter) xs) }
{
    first_fitting(nwks, links, count, filter) < count
}

// Whether a neighbour has a network address.
pub fn has_network_address(nwks: &[u16], count: usize, nwk: Nwk) -> bool
    requires { InUse count (nwks.now ∷ []) }
    ensures { Asked (lent_nwks nwks.now count) (λ xs. result ≡ some_fits (fits (Address nwk)) xs) }
{
    columns::first16(nwks, count, nwk.0) < count
}

// How many neighbours fit.
pub fn count_fitting(nwks: &[u16], links: &[u64], count: usize, filter: Filter) -> usize
    requires { Untimed filter × InUse count (nwks.now ∷ links.now ∷ []) }
    ensures { Asked (lent_words nwks.now links.now count) (λ xs. result ≡ count_fits (fits filter) xs) }
{
    let mut fitting: usize = 0;
    for i in 0..count {
        fitting += fits_word(filter, nwks[i], links[i]) as usize;
    }
    fitting
}

// Writes what `read` makes of each of the first `count` places that `fits` to the front of `out`, in their order. How many there are.
fn gather<T: Copy, F: Fn(usize) -> bool, G: Fn(usize) -> T>(
    count: usize,
    out: &mut [T],
    fits: F,
    read: G,
) -> usize
    requires room { count ≤ length out.old }
    requires tests { (i : ℕ) → i < count → F.pre fits i }
    requires reads { (i : ℕ) → i < count → G.pre read i }
    ensures { Gathered (F.post fits) (G.post read) count out.old out.new result }
{
    let mut n: usize = 0;
    for i in 0..count {
        if fits(i) {
            out[n] = read(i);
            n += 1;
        }
    }
    n
}

// The neighbours that fit, by both their addresses.
pub fn children_fitting(
    keys: &[u64],
    nwks: &[u16],
    links: &[u64],
    count: usize,
    filter: Filter,
) -> ChildList
    requires { Untimed filter × InUse count (keys.now ∷ nwks.now ∷ links.now ∷ []) }
    ensures { Asked (seen keys.now nwks.now links.now count) (λ xs. result ≡ child_list (map child_of (keep (fits filter) xs))) }
{
    let blank = Child {
        eui64: Eui64(0),
        network_address: Nwk(0),
    };
    let mut children = [blank; 64];
    let count = gather(
        count,
        &mut children,
        |i| fits_word(filter, nwks[i], links[i]),
        |i| Child {
            eui64: Eui64(keys[i]),
            network_address: Nwk(nwks[i]),
        },
    );
    ChildList { count, children }
}

// The extended addresses of the neighbours that fit.
pub fn names_fitting(
    keys: &[u64],
    nwks: &[u16],
    links: &[u64],
    count: usize,
    filter: Filter,
) -> Eui64List
    requires { Untimed filter × InUse count (keys.now ∷ nwks.now ∷ links.now ∷ []) }
    ensures { Asked (seen keys.now nwks.now links.now count) (λ xs. result ≡ eui_list (map name_of (keep (fits filter) xs))) }
{
    let blank = Eui64(0);
    let mut addresses = [blank; 64];
    let count = gather(
        count,
        &mut addresses,
        |i| fits_word(filter, nwks[i], links[i]),
        |i| Eui64(keys[i]),
    );
    Eui64List { count, addresses }
}

// The network addresses of the neighbours that fit.
pub fn addresses_fitting(nwks: &[u16], links: &[u64], count: usize, filter: Filter) -> NwkList
    requires { Untimed filter × InUse count (nwks.now ∷ links.now ∷ []) }
    ensures { Asked (lent_words nwks.now links.now count) (λ xs. result ≡ nwk_list (map address_of (keep (fits filter) xs))) }
{
    let blank = Nwk(0);
    let mut addresses = [blank; 64];
    let count = gather(
        count,
        &mut addresses,
        |i| fits_word(filter, nwks[i], links[i]),
        |i| Nwk(nwks[i]),
    );
    NwkList { count, addresses }
}

// The cost of the link as this device measures it, from the samples in a link word.
pub fn incoming_cost(word: u64) -> u8
    ensures { result ≡ cost_of (quality_of (link_of word).lqas) }
{
    let lqas = RingBuffer::of_word(word);
    if lqas.is_full() {
        link_cost::lqi_to_link_cost(ring_buffer::median(lqas.values()))
    } else {
        0
    }
}

// The link status of a neighbour with a network address and a link word.
fn status_of(nwk: u16, word: u64) -> LinkStatus
    ensures { InRow nwk word (λ e. result ≡ status_of e) }
{
    LinkStatus {
        address: Nwk(nwk),
        incoming_cost: incoming_cost(word),
        outgoing_cost: outgoing_cost(word),
    }
}

// The link statuses of the neighbours that fit.
pub fn statuses_fitting(nwks: &[u16], links: &[u64], count: usize, filter: Filter) -> LinkStatusList
    requires { Untimed filter × InUse count (nwks.now ∷ links.now ∷ []) }
    ensures { Asked (lent_words nwks.now links.now count) (λ xs. result ≡ status_list (map status_of (keep (fits filter) xs))) }
{
    let blank = LinkStatus {
        address: Nwk(0),
        incoming_cost: 0,
        outgoing_cost: 0,
    };
    let mut statuses = [blank; 64];
    let count = gather(
        count,
        &mut statuses,
        |i| fits_word(filter, nwks[i], links[i]),
        |i| status_of(nwks[i], links[i]),
    );
    LinkStatusList { count, statuses }
}

// The earlier of a moment that there may be and one that there is.
fn earlier(m: Option<u64>, at: u64) -> Option<u64>
    ensures { result ≡ lesser (m) (Some at) }
{
    match m {
        None => Some(at),
        Some(first) => { if first <= at { Some(first) } else { Some(at) } }
    }
}

// The earliest deadline of the neighbours that fit.
pub fn earliest_fitting(
    nwks: &[u16],
    links: &[u64],
    deadlines: &[u64],
    count: usize,
    filter: Filter,
) -> Option<u64>
    requires { Untimed filter × InUse count (nwks.now ∷ links.now ∷ deadlines.now ∷ []) }
    ensures { Asked (lent_deadlines nwks.now links.now deadlines.now count) (λ xs. result ≡ (least (map deadline_of (keep (fits filter) xs)))) }
{
    let mut first = None;
    for i in 0..count {
        if fits_word(filter, nwks[i], links[i]) {
            first = earlier(first, deadlines[i]);
        }
    }
    first
}

// Whether a neighbour with a link word and a deadline is an end device child whose deadline has come.
pub fn is_timed_out(word: u64, deadline: u64, at: u64) -> bool
    ensures { InTime word deadline (λ e. result ≡ fits (TimedOut at) e) }
{
    (deadline <= at) & is_end_device_child(word)
}

// The place of the first end device child whose deadline has come; the count where there is none.
pub fn first_timed_out(links: &[u64], deadlines: &[u64], count: usize, at: u64) -> usize
    requires { InUse count (links.now ∷ deadlines.now ∷ []) }
    ensures { (result ≤ count) × Asked (lent_times links.now deadlines.now count) (λ xs. entry_at result xs ≡ first (fits (TimedOut at)) xs) }
{
    for i in 0..count {
        if is_timed_out(links[i], deadlines[i], at) {
            return i;
        }
    }
    count
}

// The end device children whose deadline has come, by both their addresses.
pub fn timed_out_children(
    keys: &[u64],
    nwks: &[u16],
    links: &[u64],
    deadlines: &[u64],
    count: usize,
    at: u64,
) -> ChildList
    requires { InUse count (keys.now ∷ nwks.now ∷ links.now ∷ deadlines.now ∷ []) }
    ensures { Asked (lent_expiry keys.now nwks.now links.now deadlines.now count) (λ xs. result ≡ child_list (map child_of (keep (fits (TimedOut at)) xs))) }
{
    let blank = Child {
        eui64: Eui64(0),
        network_address: Nwk(0),
    };
    let mut children = [blank; 64];
    let count = gather(
        count,
        &mut children,
        |i| is_timed_out(links[i], deadlines[i], at),
        |i| Child {
            eui64: Eui64(keys[i]),
            network_address: Nwk(nwks[i]),
        },
    );
    ChildList { count, children }
}
