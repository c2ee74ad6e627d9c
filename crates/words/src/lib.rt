// The table of the language's words: which call a word names, and whether numbers have the shape of that call's.
#![tactic(auto)]

ghost use Rattle.std.specs.Prelude.{◌≡◌, true, false, List, [], ◌∷◌, ℕ, ◌+◌, ◌-◌, ◌<◌, drop};
ghost use Rattle.words.specs.Shape.{is_option, is_list, most, most_of_others, within, passes, passes_mode, items, item, is_end, fits_shape};
ghost use Rattle.words.specs.Words.{past, tried, counted, seek, called_in, called};
ghost use Rattle.words.specs.Fitting.{fit_from, ahead};

// A word and its shape on each line; a call's number is its line's, counted from 0.
// b bool; d up to 2; t up to 3; f frame type; m mode; r relationship; v version; y byte; a address; c counter; q any number;
// ?x an optional value; !xy two; n, e, l a list of addresses, of numbers, of triples; A an address in place of the next letter.
const TABLE: [u8; 1876] = *b"reset .
tables .
check .
put_counters yyy.
put_route atbbbbaycy.
put_discovery ayayyqa.
put_record an.
put_neighbour qadbaqqryyyyyyyqccbccqyyyyy.
put_waiting ayyyyy.
note_route_error y.
note_delivery_failure y.
reset_mtorr_triggers .
route_status a.
route_count .
route_at q.
next_hop a.
mark_discovery_failed a.
record_usage a.
decay_activity .
invalidate_via a.
remove_route a.
restore_route aay.
store_route_record an.
remove_route_record a.
note_source_routed_frame a.
note_relayed_discovery a.
discovery_deadline aq.
route_to ay.
route_to_default a.
begin_discovery aaqq.
begin_many_to_one_advertisement aqq.
accept_route_request ayaaytqq.
accept_route_reply aayaay.
lqi_to_link_cost y.
record_lqa ay.
link a.
neighbour_count .
neighbour_at q.
lqa q.
incoming_link_cost q.
is_child q.
has_network_address a.
end_device_child_eui64 a.
sleepy_child_eui64 a.
sleepy_children .
contains q.
device_capability q.
end_device_child_count .
refresh_child_timeout ?q?aq.
set_child_timeout aqaq.
update_network_address qa.
take_child q.
end_device_children .
is_unconfirmed_end_device_child q.
remove_claimed_children e.
process_parent_annce e.
evict_timed_out_children q.
next_child_timeout .
upsert_child qadbqrq.
remove q.
any_live_router_link .
expected_broadcast_relayers .
link_status_entries .
record_outbound_activity q.
record_inbound_activity a.
record_transmit_failure q.
reset_transmit_failures .
on_link_status aqaybbql.
clear_end_device_initiator_for_relay fvdbbbbbbtaayy?q?q?y!yn.
resolve bbymAnfvdbbbbbbtaayy?q?q?y!yn.
resolve_default mAnfvdbbbbbbtaayy?q?q?y!yn.
discovery_count .
discovery_at q.
record_count .
record_at q.
set_route_count q.
set_discovery_count q.
set_record_count q.
set_neighbour_count q.
set_waiting_count q.
set_route_key qq.
set_discovery_key qq.
set_record_key qq.
set_neighbour_key qq.
set_waiting_key qq.
set_store qa.
set_store_length q.
";

// How far numbers have been compared with a shape: the next letter's place, and what is left of a list.
#[derive(Drop)]
struct Want {
    good: bool,
    at: usize,
    kind: u8,
    pending: u64,
}

// The place after a word and a space that stand at `at`, or 0.
fn past(table: &[u8], at: usize, word: &[u8]) -> usize
    ensures { result ≡ past word.now at (drop at table.now) }
{
    let mut j = at;
    for b in word {
        if table.len() <= j {
            return 0;
        }
        if table[j] != *b {
            return 0;
        }
        j += 1;
    }
    ended(table, j)
}

// The place after a space at `j`, or 0.
fn ended(table: &[u8], j: usize) -> usize
    ensures { result ≡ past [] j (drop j table.now) }
{
    if table.len() <= j {
        return 0;
    }
    if table[j] == 32 {
        return j + 1;
    }
    0
}

// A word stands at the start of a line only.
fn tried(start: bool, table: &[u8], at: usize, word: &[u8]) -> usize
    ensures { result ≡ tried start word.now at (drop at table.now) }
{
    if start { past(table, at, word) } else { 0 }
}

// Lines passed: one more after a line feed.
fn counted(n: u64, over: bool) -> u64
    requires { n < 18446744073709551615 }
    ensures { result ≡ counted n over }
{
    if over { n + 1 } else { n }
}

// The line of a table that has a word.
fn seek(table: &[u8], word: &[u8]) -> Option<(u64, usize)>
    ensures { result ≡ seek word.now 0 true 0 table.now }
{
    let mut n: u64 = 0;
    let mut start = true;
    for (at, b) in table.iter().enumerate() {
        let place = tried(start, table, at, word);
        if 0 < place {
            return Some((n, place));
        }
        start = *b == 10;
        n = counted(n, start);
    }
    None
}

fn is_option(l: u8) -> bool
    ensures { result ≡ is_option l }
{
    (l == 63) | (l == 33)
}

fn is_list(l: u8) -> bool
    ensures { result ≡ is_list l }
{
    (l == 110) | ((l == 101) | (l == 108))
}

// The largest value of a letter.
fn most(l: u8) -> u64
    ensures { result ≡ most l }
{
    if (l == 98) | is_option(l) {
        return 1;
    }
    if l == 100 {
        return 2;
    }
    if (l == 116) | (l == 102) {
        return 3;
    }
    if l == 109 {
        return 5;
    }
    most_of_others(l)
}

// The largest value of a letter that is none of `b`, `?`, `!`, `d`, `t`, `f`, `m`.
fn most_of_others(l: u8) -> u64
    ensures { result ≡ most_of_others l }
{
    if l == 114 {
        return 9;
    }
    if l == 118 {
        return 15;
    }
    if is_list(l) {
        return 80;
    }
    if l == 121 {
        return 255;
    }
    if (l == 97) | (l == 65) {
        return 65535;
    }
    if l == 99 {
        4294967295
    } else {
        18446744073709551615
    }
}

// Whether a letter allows a value.
fn within(l: u8, x: u64) -> bool
    ensures { result ≡ within l x }
{
    (l != 46) & ((x <= most(l)) & !((l == 102) & (x == 2)))
}

// How many letters a mode passes.
fn passes_mode(x: u64) -> usize
    ensures { result ≡ passes_mode x }
{
    if x < 2 {
        return 3;
    }
    if x % 2 == 0 { 1 } else { 2 }
}

// How many letters a value passes.
fn passes(l: u8, x: u64) -> usize
    ensures { result ≡ passes l x }
{
    if l == 63 {
        return if x == 0 { 2 } else { 1 };
    }
    if l == 33 {
        return if x == 0 { 3 } else { 1 };
    }
    if l == 109 {
        return passes_mode(x);
    }
    if l == 65 { 2 } else { 1 }
}

// How many values the elements of a list have.
fn items(l: u8, x: u64) -> u64
    requires { within l x ≡ true }
    ensures { result ≡ items l x }
{
    if l == 108 {
        return 3 * x;
    }
    if (l == 110) | (l == 101) { x } else { 0 }
}

// The letter of the next value in a list.
fn item(kind: u8, p: u64) -> u8
    ensures { result ≡ item kind p }
{
    if kind == 108 {
        return if p % 3 == 0 { 97 } else { 121 };
    }
    if kind == 110 { 97 } else { 113 }
}

// A place that is further, at most at the end.
fn ahead(at: usize, by: usize, end: usize) -> usize
    requires { at < end }
    ensures { result ≡ ahead at by end }
{
    if end - at < by { end } else { at + by }
}

// One value more of a list.
fn take_item(w: Want, x: u64) -> Want
    requires { 0 < w.pending }
    ensures { (s xs : List ℕ) → fit_from s result xs ≡ fit_from s w (x ∷ xs) }
{
    Want {
        good: w.good & within(item(w.kind, w.pending), x),
        at: w.at,
        kind: w.kind,
        pending: w.pending - 1,
    }
}

// One value more, at the next letter.
fn take_letter(shape: &[u8], w: Want, x: u64) -> Want
    requires { w.pending ≡ 0 }
    ensures { (xs : List ℕ) → fit_from shape.now result xs ≡ fit_from shape.now w (x ∷ xs) }
{
    let at = w.at;
    if shape.len() <= at {
        return bad();
    }
    let l = shape[at];
    if !within(l, x) {
        return bad();
    }
    Want {
        good: w.good,
        at: ahead(at, passes(l, x), shape.len()),
        kind: l,
        pending: items(l, x),
    }
}

// Numbers that have no shape.
fn bad() -> Want
    ensures { result.good ≡ false }
{
    Want {
        good: false,
        at: 0,
        kind: 0,
        pending: 0,
    }
}

// One value more.
fn take(shape: &[u8], w: Want, x: u64) -> Want
    ensures { (xs : List ℕ) → fit_from shape.now result xs ≡ fit_from shape.now w (x ∷ xs) }
{
    if 0 < w.pending {
        return take_item(w, x);
    }
    take_letter(shape, w, x)
}

// Whether a shape ends at a place.
fn is_end(shape: &[u8], at: usize) -> bool
    ensures { result ≡ is_end (drop at shape.now) }
{
    if shape.len() <= at {
        return false;
    }
    shape[at] == 46
}

// Whether numbers have the shape that begins at a place.
fn fits(shape: &[u8], from: usize, args: &[u64]) -> bool
    ensures { result ≡ fits_shape (drop from shape.now) args.now }
{
    let mut w = Want {
        good: true,
        at: from,
        kind: 0,
        pending: 0,
    };
    for x in args {
        w = take(shape, w, *x);
    }
    w.good & ((w.pending == 0) & is_end(shape, w.at))
}

// The call that a word with numbers is.
fn called_in(table: &[u8], word: &[u8], args: &[u64]) -> Option<u64>
    ensures { result ≡ called_in table.now word.now args.now }
{
    let found = seek(table, word);
    match found {
        Some((n, at)) => { if fits(table, at, args) { Some(n) } else { None } }
        None => None,
    }
}

// The call that a word with numbers is, by the table.
pub fn called(word: &[u8], args: &[u64]) -> Option<u64>
    ensures { result ≡ called word.now args.now }
{
    called_in(&TABLE, word, args)
}
