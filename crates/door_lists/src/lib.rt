// The lists of answers at the door for C, written to the places that are lent for them, and lists that are given as numbers.
#![tactic(auto)]

ghost use Rattle.std.specs.Prelude.{◌≡◌};
ghost use Rattle.door.specs.Lent.{Says};
ghost use Rattle.neighbor_queries.specs.Answers.{with_list};
ghost use Rattle.door_lists.specs.Answers.{children_numbers};
ghost use Rattle.door_lists.specs.Lists.{Places64, addresses_at, names_out, addresses_out, children_at, children_out, statuses_at, statuses_out, given, filled};

use neighbor_queries::{ChildList, Eui64List, LinkStatusList, NwkList};
use types::{Eui64, Refusal};

// Children written to their places, with 0 after them.
pub fn write_children(list: ChildList, total: &mut usize, eui64s: &mut [u64], addresses: &mut [u16])
    requires { Places64 eui64s.old × Places64 addresses.old }
    ensures { children_at total.new eui64s.new addresses.new ≡ children_out list }
{
    *total = list.count;
    for i in 0..64 {
        let child = list.children[i];
        eui64s[i] = child.eui64.0;
        addresses[i] = child.network_address.0;
    }
}

// Extended addresses written to their places, with 0 after them.
pub fn write_names(list: Eui64List, total: &mut usize, eui64s: &mut [u64])
    requires { Places64 eui64s.old }
    ensures { addresses_at total.new eui64s.new ≡ names_out list }
{
    *total = list.count;
    for i in 0..64 {
        let name = list.addresses[i];
        eui64s[i] = name.0;
    }
}

// Network addresses written to their places, with 0 after them.
pub fn write_addresses(list: NwkList, total: &mut usize, addresses: &mut [u16])
    requires { Places64 addresses.old }
    ensures { addresses_at total.new addresses.new ≡ addresses_out list }
{
    *total = list.count;
    for i in 0..64 {
        let address = list.addresses[i];
        addresses[i] = address.0;
    }
}

// Link statuses written to their places, with 0 after them.
pub fn write_statuses(
    list: LinkStatusList,
    total: &mut usize,
    addresses: &mut [u16],
    incoming_costs: &mut [u8],
    outgoing_costs: &mut [u8],
)
    requires { Places64 addresses.old × Places64 incoming_costs.old × Places64 outgoing_costs.old }
    ensures { statuses_at total.new addresses.new incoming_costs.new outgoing_costs.new ≡ statuses_out list }
{
    *total = list.count;
    for i in 0..64 {
        let status = list.statuses[i];
        addresses[i] = status.address.0;
        incoming_costs[i] = status.incoming_cost;
        outgoing_costs[i] = status.outgoing_cost;
    }
}

// The numbers of an answer with children beside it.
pub fn say_children(
    answer: Result<(), Refusal>,
    list: ChildList,
    total: &mut usize,
    eui64s: &mut [u64],
    addresses: &mut [u16],
) -> u8
    requires { Places64 eui64s.old × Places64 addresses.old }
    ensures { Says children_numbers (with_list answer list)
        (children_at total.old eui64s.old addresses.old)
        (children_at total.new eui64s.new addresses.new)
        result }
{
    match answer {
        Ok(()) => {
            write_children(list, total, eui64s, addresses);
            0
        }
        Err(why) => why.number(),
    }
}

// How many of the 64 places of a list n numbers fill.
fn places_filled(n: usize) -> usize
    ensures { result ≡ filled n }
{
    if 64 < n { 64 } else { n }
}

// Numbers that are given, as a list of extended addresses: all are counted, the first 64 have a place.
pub fn names_given(numbers: &[u64]) -> Eui64List
    ensures { result ≡ given numbers.now }
{
    let mut l = Eui64List::new();
    let n = places_filled(numbers.len());
    for i in 0..n {
        let name = Eui64(numbers[i]);
        l.addresses[i] = name;
    }
    l.count = numbers.len();
    l
}
