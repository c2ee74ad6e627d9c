// The relays of the route records, in a lent store of 64 rows of 32 numbers: row i holds those of the i-th record by address.
// A row is written by one function alone, which is lent that row and no other.
#![tactic(auto)]

ghost use Rattle.std.specs.Prelude.{◌≡◌, [], map, ◌≤◌, ◌<◌, length, take, drop};
ghost use Rattle.flat_map.specs.Shift.{shift_in, shift_out};
ghost use Rattle.flat_map.specs.Table.{ZeroFrom};
ghost use Rattle.standard.specs.Route.{nwk};
ghost use Rattle.relay_store.specs.Store.{row_at, with_row, on_rows, row_of, row_put, PlaceWithin, blank_row, relays_of, relay_list, agrees_by, Marked, Masks};

use standard::RelayList;
use types::Nwk;

// The list that names no relay.
pub fn no_relays() -> RelayList
    ensures { result ≡ relay_list [] }
{
    let a = Nwk(0);
    RelayList {
        count: 0,
        addresses: [a; 32],
    }
}

// The first `count` numbers of a row, as a list of relays.
fn read_row(row: &[u16], count: usize) -> RelayList
    requires { (count ≤ 32) × (length row.now ≡ 32) }
    ensures { result ≡ relay_list (map nwk (take count row.now)) }
{
    let mut l = no_relays();
    for i in 0..count {
        let a = Nwk(row[i]);
        l.addresses[i] = a;
    }
    l.count = count;
    l
}

// A row filled with the relays of a list from a place on, and with zeros after them.
fn write_row(row: &mut [u16], l: RelayList, from: usize)
    requires { (l.count ≤ 32) × (from ≤ l.count) × (length row.old ≡ 32) }
    ensures { row.new ≡ row_of (drop from (relays_of l)) }
{
    let n = l.count - from;
    for i in 0..32 {
        if i < n {
            let a = l.addresses[from + i];
            row[i] = a.0;
        } else {
            row[i] = 0;
        }
    }
}

// The relays in the first `count` numbers of row i of the store.
pub fn relays_at(store: &[u16], i: usize, count: usize) -> RelayList
    requires { (count ≤ 32) × (i < 64) × (length store.now ≡ 2048) }
    ensures { result ≡ relay_list (map nwk (take count (row_at i store.now))) }
{
    let start = 32 * i;
    read_row(&store[start..start + 32], count)
}

// Row i of the store filled with a list's relays from a place on. The writer is lent that row, so that every other is as it was.
pub fn set_row_from(store: &mut [u16], i: usize, l: RelayList, from: usize)
    requires { (l.count ≤ 32) × (from ≤ l.count) × (i < 64) × (length store.old ≡ 2048) }
    ensures { store.new ≡ with_row i (row_of (drop from (relays_of l))) store.old }
{
    let start = 32 * i;
    write_row(&mut store[start..start + 32], l, from);
}

// Row i of the store filled with a list's relays.
pub fn set_row(store: &mut [u16], i: usize, l: RelayList)
    requires { (l.count ≤ 32) × (i < 64) × (length store.old ≡ 2048) }
    ensures { store.new ≡ with_row i (row_of (relays_of l)) store.old }
{
    set_row_from(store, i, l, 0);
}

// The rows from i on moved to the next place; row i stays, and the last row is gone.
fn shift_rows_up(store: &mut [u16], i: usize)
    requires { (i < 64) × (length store.old ≡ 2048) }
    ensures { store.new ≡ on_rows (shift_in i (row_at i store.old)) store.old }
{
    let start = 32 * i;
    store.copy_within(start..2016, start + 32);
}

// The rows after i moved to the place before; the last row is left zero.
pub fn shift_rows_down(store: &mut [u16], i: usize)
    requires { (i < 64) × (length store.old ≡ 2048) }
    ensures { store.new ≡ on_rows (shift_out i blank_row) store.old }
{
    let start = 32 * i;
    store.copy_within(start + 32..2048, start);
    set_row(store, 63, no_relays());
}

// A record's relays, those of a list from a place on, written to its row: over the one that is there, or with the rows after it shifted.
pub fn put_row(store: &mut [u16], place: Result<usize, usize>, l: RelayList, from: usize)
    requires { (l.count ≤ 32) × (from ≤ l.count) × PlaceWithin place × (length store.old ≡ 2048) }
    ensures { store.new ≡ on_rows (row_put place (row_of (drop from (relays_of l)))) store.old }
{
    match place {
        Ok(i) => set_row_from(store, i, l, from),
        Err(i) => {
            shift_rows_up(store, i);
            set_row_from(store, i, l, from);
        }
    }
}

// A row's numbers, as far as a mask lets their bits through, added bit by bit to what is gathered at each place. All of them are read:
// a loop with no way out is done many numbers at a time.
fn mark(over: &mut [u16], row: &[u16], mask: &[u16])
    requires { (length over.old ≡ 32) × (length row.now ≡ 32) × (length mask.now ≡ 32) }
    ensures { Marked over.old row.now mask.now over.new }
{
    for j in 0..32 {
        over[j] = over[j] | (row[j] & mask[j]);
    }
}

// The masks of rows, over zeros.
fn set_masks(masks: &mut [u16])
    requires { (length masks.old ≡ 64) × ZeroFrom masks.old 0 }
    ensures { Masks masks.new }
{
    masks[32..].fill(65535);
}

// Whether a store agrees with a table, of which it takes the numbers of relays: 64 rows, each zero after the relays of its record.
// A row of n relays is read through n masks that let nothing through and others that let all through. What comes through is gathered over
// all rows, place by place, and looked at once, at the end.
pub fn agrees(lengths: &[u8], store: &[u16]) -> bool
    requires { length lengths.now ≡ 64 }
    ensures { result ≡ agrees_by lengths.now store.now }
{
    if store.len() != 2048 {
        return false;
    }
    let mut masks: [u16; 64] = [0; 64];
    set_masks(&mut masks);
    let mut over: [u16; 32] = [0; 32];
    for i in 0..64 {
        let mut n = lengths[i] as usize;
        if 32 < n {
            n = 32;
        }
        let start = 32 * i;
        let from = 32 - n;
        mark(
            &mut over,
            &store[start..start + 32],
            &masks[from..from + 32],
        );
    }
    columns::zero_from(&over, 0)
}
