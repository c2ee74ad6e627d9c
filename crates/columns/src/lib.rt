// Columns of numbers that are lent and changed in place, at each width: the place of a key, the first place of a number, a number put in
// and taken out, and the tests of a column. The laws of tables in columns stand in proofs/.
#![tactic(auto)]

ghost use Rattle.std.specs.Prelude.{ℕ, ◌+◌, ◌≤◌, ◌<◌, eqb, ltb, List, length, take, get_or, cond, ◌≡◌, refl};
ghost use Rattle.std.specs.Ordering.{partial_lt};
ghost use Rattle.std.proofs.Common.{rules};
ghost use Rattle.std.proofs.lemmas.List.{get_or_default};
ghost use mir.Val.{bool_byte};
ghost use Rattle.flat_map.specs.Seek.{place_of};
ghost use Rattle.flat_map.specs.Shift.{shift_in, shift_out};
ghost use Rattle.flat_map.specs.Table.{Rising, ZeroFrom};
ghost use Rattle.standard.specs.Tells.{Tells};
ghost use Rattle.columns.specs.Columns.{Under, FirstAt};
ghost use Rattle.columns.specs.Room.{room_for};

// A number of a column. In clauses and proofs it stands for a natural number, and a column for the list of them: the same that it is.
pub trait Number: Copy + Default + Ord {
    ghost nat: { Self → ℕ };

    ghost nats: { List Self → List ℕ };

    ghost nats_length: { (xs : List Self) → length (nats xs) ≡ length xs };

    ghost nats_at: { (xs : List Self) (i : ℕ) (d : Self) → i < length xs → get_or (nats xs) i 0 ≡ nat (get_or xs i d) };

    ghost below: { (x y : Self) → partial_lt Self.partial_cmp x y ≡ ltb (nat x) (nat y) };

    ghost equal: { (x y : Self) → Self.eq x y ≡ eqb (nat x) (nat y) };

    ghost zero: { (x : Self) → Self.is_default x → nat x ≡ 0 };
}

impl Number for u8 {
    ghost nat = { λ x. x };

    ghost nats = { λ xs. xs };

    ghost nats_length = { λ xs. refl };

    ghost nats_at = { λ xs i d h. get_or_default xs i 0 d h };

    ghost below = { Prim.search rules };

    ghost equal = { Prim.search rules };

    ghost zero = { λ x h. h };
}

impl Number for u16 {
    ghost nat = { λ x. x };

    ghost nats = { λ xs. xs };

    ghost nats_length = { λ xs. refl };

    ghost nats_at = { λ xs i d h. get_or_default xs i 0 d h };

    ghost below = { Prim.search rules };

    ghost equal = { Prim.search rules };

    ghost zero = { λ x h. h };
}

impl Number for u32 {
    ghost nat = { λ x. x };

    ghost nats = { λ xs. xs };

    ghost nats_length = { λ xs. refl };

    ghost nats_at = { λ xs i d h. get_or_default xs i 0 d h };

    ghost below = { Prim.search rules };

    ghost equal = { Prim.search rules };

    ghost zero = { λ x h. h };
}

impl Number for u64 {
    ghost nat = { λ x. x };

    ghost nats = { λ xs. xs };

    ghost nats_length = { λ xs. refl };

    ghost nats_at = { λ xs i d h. get_or_default xs i 0 d h };

    ghost below = { Prim.search rules };

    ghost equal = { Prim.search rules };

    ghost zero = { λ x h. h };
}

// A key that is looked for: keys are counted in their own width, so that many are compared at a time.
pub trait Key: Number {
    ghost end: { ℕ };

    fn nought() -> Self
        ensures { Self.nat result ≡ 0 };

    // One more where a key is below.
    fn and(self, more: bool) -> Self
        requires { Self.nat self + 1 < end }
        ensures { Self.nat result ≡ Self.nat self + bool_byte more };

    fn place(self) -> usize
        ensures { result ≡ Self.nat self };
}

impl Key for u16 {
    ghost end = { 65536 };

    fn nought() -> u16 {
        0
    }

    fn and(self, more: bool) -> u16 {
        self + more as u16
    }

    fn place(self) -> usize {
        self as usize
    }
}

impl Key for u32 {
    ghost end = { 4294967296 };

    fn nought() -> u32 {
        0
    }

    fn and(self, more: bool) -> u32 {
        self + more as u32
    }

    fn place(self) -> usize {
        self as usize
    }
}

// The place of `key` among the first `count` of `keys`, which go up: how many are below it.
pub fn index_of<K: Key>(keys: &[K], count: usize, key: K) -> Result<usize, usize>
    requires { (count ≤ length keys.now) × (count < K.end) × Rising (K.nats keys.now) count }
    ensures { result ≡ place_of (take count (K.nats keys.now)) (K.nat key) }
{
    let mut r = K::nought();
    for i in 0..count {
        r = r.and(keys[i] < key);
    }
    let at = r.place();
    if at < count && keys[at] == key {
        return Ok(at);
    }
    Err(at)
}

// A place where it is the one looked for, and else the end.
fn place_or(here: bool, place: u16, end: u16) -> u16
    ensures { result ≡ cond here place end }
{
    if here { place } else { end }
}

// The first of `count` places where the number is `x`, in any order; `count` where there is none. No way out of the loop, so that
// many places are compared at a time.
pub fn first16(numbers: &[u16], count: usize, x: u16) -> usize
    requires { (count ≤ length numbers.now) × (count < 65536) }
    ensures { FirstAt numbers.now count x result }
{
    let end = count as u16;
    let mut r = end;
    for i in 0..count {
        let here = place_or(numbers[i] == x, i as u16, end);
        r = here.min(r);
    }
    r as usize
}

// A number put in at a place, those from there on moved one place right; the last goes.
pub fn shift_in<T: Copy>(a: &mut [T], i: usize, x: T)
    requires { i < length a.old }
    ensures { a.new ≡ shift_in i x a.old }
{
    let last = a.len() - 1;
    a.copy_within(i..last, i + 1);
    a[i] = x;
}

// The number at a place taken out, those after it moved one place left; the last is blank.
pub fn shift_out<T: Copy>(a: &mut [T], i: usize, blank: T)
    requires { i < length a.old }
    ensures { a.new ≡ shift_out i blank a.old }
{
    let last = a.len() - 1;
    // Turn by turn: to the left, `copy_within` moves one number at a time, and this loop many.
    for j in i..last {
        a[j] = a[j + 1];
    }
    a[last] = blank;
}

// Whether the first `count` of `keys` go up strictly.
pub fn rising<T: Number>(keys: &[T], count: usize) -> bool
    requires { count ≤ length keys.now }
    ensures { Tells (Rising (T.nats keys.now) count) result }
{
    let mut ok = true;
    for i in 1..count {
        ok &= keys[i - 1] < keys[i];
    }
    ok
}

// Whether every number from place n on is 0.
pub fn zero_from<T: Number>(a: &[T], n: usize) -> bool
    ensures { Tells (ZeroFrom (T.nats a.now) n) result }
{
    let zero = T::default();
    let mut ok = true;
    for i in n..a.len() {
        ok &= a[i] == zero;
    }
    ok
}

// Whether every number is below a bound.
pub fn under<T: Number>(a: &[T], m: T) -> bool
    requires { 0 < T.nat m }
    ensures { Tells (Under (T.nat m) (T.nats a.now)) result }
{
    let mut ok = true;
    for x in a {
        ok &= *x < m;
    }
    ok
}

// Whether a row at the place of its key has room among `count` of `cap` places.
pub fn has_room(place: Result<usize, usize>, count: usize, cap: usize) -> bool
    ensures { result ≡ room_for place count cap }
{
    match place {
        Ok(_) => true,
        Err(_) => count < cap,
    }
}
