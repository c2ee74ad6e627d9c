// Every answer about neighbours as numbers: a refusal's number, or what was answered and its values.
#![tactic(auto)]

ghost use Rattle.std.specs.Prelude.{◌≡◌, [], ◌∷◌};
ghost use Rattle.numbers.specs.Said.{ok, flag_number, empty, pushed_all, spoken};
ghost use Rattle.neighbor_table.specs.Entry.{device_type_number};
ghost use Rattle.neighbor_answers.specs.Answers.{nothing, given, truth_said, count_said, eui64_said, nwk_said, link_given, link_said, capability_said, moment_said, done_said, entry_said, quality_numbers, quality_said, cost_said, is_child_said, told_by, children_said, eui64s_said, nwks_said, statuses_said, removed_said, announced_said};

use neighbor_queries::{Capability, ChildList, Eui64List, LinkStatusList, NeighborLink, NwkList};
use neighbor_table::{NeighborEntry, NwkDeviceType};
use numbers::{Answer, Numbers};
use types::{Eui64, Nwk, Refusal};

// An answer of one value.
pub fn one(x: u64) -> Answer
    ensures { result ≡ spoken (ok (x ∷ [])) }
{
    let n = numbers::none();
    numbers::answered(numbers::push(n, x))
}

// There is none.
fn absent() -> Answer
    ensures { result ≡ spoken nothing }
{
    one(0)
}

// There is one, and its values follow.
fn present() -> Numbers
    ensures { result ≡ pushed_all empty (1 ∷ []) }
{
    let n = numbers::none();
    numbers::push(n, 1)
}

// There is one, of one value.
fn given_one(x: u64) -> Answer
    ensures { result ≡ spoken (given (x ∷ [])) }
{
    let n = present();
    numbers::answered(numbers::push(n, x))
}

pub fn truth_answer(a: Result<bool, Refusal>) -> Answer
    ensures { result ≡ spoken (truth_said a) }
{
    match a {
        Ok(b) => one(numbers::flag_number(b)),
        Err(why) => numbers::refused(why),
    }
}

pub fn count_answer(a: Result<usize, Refusal>) -> Answer
    ensures { result ≡ spoken (count_said a) }
{
    match a {
        Ok(n) => one(n as u64),
        Err(why) => numbers::refused(why),
    }
}

pub fn eui64_answer(a: Result<Option<Eui64>, Refusal>) -> Answer
    ensures { result ≡ spoken (eui64_said a) }
{
    match a {
        Ok(Some(eui64)) => given_one(eui64.0),
        Ok(None) => absent(),
        Err(why) => numbers::refused(why),
    }
}

pub fn nwk_answer(a: Result<Option<Nwk>, Refusal>) -> Answer
    ensures { result ≡ spoken (nwk_said a) }
{
    match a {
        Ok(Some(nwk)) => given_one(nwk.0 as u64),
        Ok(None) => absent(),
        Err(why) => numbers::refused(why),
    }
}

fn link_given(l: NeighborLink) -> Answer
    ensures { result ≡ spoken (link_given l) }
{
    let eui64 = l.eui64;
    let n = present();
    let m = neighbor_values::push_eui64(n, eui64);
    let k = neighbor_values::push_byte(m, l.outgoing_cost);
    numbers::answered(neighbor_values::push_byte(k, l.incoming_cost))
}

pub fn link_answer(a: Result<Option<NeighborLink>, Refusal>) -> Answer
    ensures { result ≡ spoken (link_said a) }
{
    match a {
        Ok(Some(l)) => link_given(l),
        Ok(None) => absent(),
        Err(why) => numbers::refused(why),
    }
}

fn capability_given(kind: NwkDeviceType, listens: bool) -> Answer
    ensures { result ≡ spoken (given (device_type_number kind ∷ flag_number listens ∷ [])) }
{
    let n = present();
    let m = neighbor_values::push_device_type(n, kind);
    numbers::answered(neighbor_values::push_flag(m, listens))
}

pub fn capability_answer(a: Result<Option<Capability>, Refusal>) -> Answer
    ensures { result ≡ spoken (capability_said a) }
{
    match a {
        Ok(Some(able)) => capability_given(able.device_type, able.rx_on_when_idle),
        Ok(None) => absent(),
        Err(why) => numbers::refused(why),
    }
}

pub fn moment_answer(a: Result<Option<u64>, Refusal>) -> Answer
    ensures { result ≡ spoken (moment_said a) }
{
    match a {
        Ok(Some(t)) => given_one(t),
        Ok(None) => absent(),
        Err(why) => numbers::refused(why),
    }
}

pub fn done_answer(a: Result<(), Refusal>) -> Answer
    ensures { result ≡ spoken (done_said a) }
{
    match a {
        Ok(()) => numbers::done(),
        Err(why) => numbers::refused(why),
    }
}

// A call's values, where it was done.
fn told(answer: Result<(), Refusal>, values: Numbers) -> Answer
    ensures { result ≡ told_by answer values }
{
    match answer {
        Ok(()) => numbers::answered(values),
        Err(why) => numbers::refused(why),
    }
}

pub fn entry_answer(a: Result<Option<NeighborEntry>, Refusal>) -> Answer
    ensures { result ≡ spoken (entry_said a) }
{
    match a {
        Ok(Some(e)) => {
            let n = present();
            numbers::answered(neighbor_values::push_neighbor(n, e))
        }
        Ok(None) => absent(),
        Err(why) => numbers::refused(why),
    }
}

fn push_quality(n: Numbers, quality: Option<u8>) -> Numbers
    ensures { result ≡ pushed_all n (quality_numbers quality) }
{
    match quality {
        None => numbers::push(n, 0),
        Some(q) => {
            let m = numbers::push(n, 1);
            neighbor_values::push_byte(m, q)
        }
    }
}

// The quality at which an entry is heard.
pub fn quality_answer(a: Result<Option<NeighborEntry>, Refusal>) -> Answer
    ensures { result ≡ spoken (quality_said a) }
{
    match a {
        Ok(Some(e)) => {
            let n = present();
            numbers::answered(push_quality(n, e.lqa()))
        }
        Ok(None) => absent(),
        Err(why) => numbers::refused(why),
    }
}

// The incoming cost of an entry's link.
pub fn cost_answer(a: Result<Option<NeighborEntry>, Refusal>) -> Answer
    ensures { result ≡ spoken (cost_said a) }
{
    match a {
        Ok(Some(e)) => {
            let n = present();
            numbers::answered(neighbor_values::push_byte(n, e.incoming_link_cost()))
        }
        Ok(None) => absent(),
        Err(why) => numbers::refused(why),
    }
}

// Whether an entry is a child.
pub fn is_child_answer(a: Result<Option<NeighborEntry>, Refusal>) -> Answer
    ensures { result ≡ spoken (is_child_said a) }
{
    match a {
        Ok(Some(e)) => {
            let n = present();
            numbers::answered(neighbor_values::push_flag(n, e.is_child()))
        }
        Ok(None) => absent(),
        Err(why) => numbers::refused(why),
    }
}

pub fn children_answer(a: Result<ChildList, Refusal>) -> Answer
    ensures { result ≡ spoken (children_said a) }
{
    match a {
        Ok(list) => {
            let n = numbers::none();
            numbers::answered(neighbor_values::push_children(n, list))
        }
        Err(why) => numbers::refused(why),
    }
}

pub fn eui64s_answer(a: Result<Eui64List, Refusal>) -> Answer
    ensures { result ≡ spoken (eui64s_said a) }
{
    match a {
        Ok(list) => {
            let n = numbers::none();
            numbers::answered(neighbor_values::push_eui64s(n, list))
        }
        Err(why) => numbers::refused(why),
    }
}

pub fn nwks_answer(a: Result<NwkList, Refusal>) -> Answer
    ensures { result ≡ spoken (nwks_said a) }
{
    match a {
        Ok(list) => {
            let n = numbers::none();
            numbers::answered(neighbor_values::push_nwks(n, list))
        }
        Err(why) => numbers::refused(why),
    }
}

pub fn statuses_answer(a: Result<LinkStatusList, Refusal>) -> Answer
    ensures { result ≡ spoken (statuses_said a) }
{
    match a {
        Ok(list) => {
            let n = numbers::none();
            numbers::answered(neighbor_values::push_statuses(n, list))
        }
        Err(why) => numbers::refused(why),
    }
}

// Children that were removed, where the call was done.
pub fn removed_answer(answer: Result<(), Refusal>, removed: ChildList) -> Answer
    ensures { result ≡ spoken (removed_said answer removed) }
{
    let n = numbers::none();
    told(answer, neighbor_values::push_children(n, removed))
}

// Children to claim back and children that were removed, where the call was done.
pub fn announced_answer(
    answer: Result<(), Refusal>,
    claimed: Eui64List,
    removed: ChildList,
) -> Answer
    ensures { result ≡ spoken (announced_said answer claimed removed) }
{
    let n = numbers::none();
    let m = neighbor_values::push_eui64s(n, claimed);
    told(answer, neighbor_values::push_children(m, removed))
}
