// The questions that are asked of the neighbours, to columns that are lent: the answers of `neighbors` where no refusal is to be given.
#![tactic(auto)]

ghost use Rattle.std.specs.Prelude.{[], ◌∷◌, map, ◌≡◌};
ghost use Rattle.standard.specs.Ordered.{lookup, keep};
ghost use Rattle.standard.specs.Query.{first, some_fits, count_fits, is_there};
ghost use Rattle.standard.specs.Rows.{least};
ghost use Rattle.columns.specs.Columns.{Ordered};
ghost use Rattle.neighbor_table.specs.Entry.{neighbor_key};
ghost use Rattle.neighbor_columns.specs.Lent.{Asked, lent_keys, lent_links, seen};
ghost use Rattle.neighbor_queries.specs.Filter.{fits};
ghost use Rattle.neighbor_queries.specs.Lists.{child_of, status_of, deadline_of, address_of, name_of, child_list, eui_list, nwk_list, status_list};
ghost use Rattle.neighbor_queries.specs.declared.Filter.TheVariants.{Address, EndDeviceChild, EndDeviceChildAt, SleepyChild, SleepyChildAt, LiveRouter, SampledRouter};
ghost use Rattle.neighbor_queries_lent.specs.Read.{Untimed, InUse, lent_words, lent_deadlines};
ghost use Rattle.neighbor_queries.specs.Answers.{link_in, name_in, capability_in, is_unconfirmed};

use neighbor_queries::{
    Capability, ChildList, Eui64List, Filter, LinkStatusList, NeighborLink, NwkList,
};
use types::{Eui64, Nwk, Refusal};

// The radio link to the neighbour with a network address.
pub fn link(
    keys: &[u64],
    nwks: &[u16],
    links: &[u64],
    count: usize,
    nwk: Nwk,
) -> Result<Option<NeighborLink>, Refusal>
    requires { InUse count (keys.now ∷ nwks.now ∷ links.now ∷ []) }
    ensures { Asked (seen keys.now nwks.now links.now count) (λ xs. result ≡ link_in (first (fits (Address nwk)) xs)) }
{
    let i = columns::first16(nwks, count, nwk.0);
    if count <= i {
        return Ok(None);
    }
    let word = links[i];
    Ok(Some(NeighborLink {
        eui64: Eui64(keys[i]),
        outgoing_cost: neighbor_queries_lent::outgoing_cost(word),
        incoming_cost: neighbor_queries_lent::incoming_cost(word),
    }))
}

// The extended address of the first neighbour that fits.
pub fn name_fitting(
    keys: &[u64],
    nwks: &[u16],
    links: &[u64],
    count: usize,
    filter: Filter,
) -> Result<Option<Eui64>, Refusal>
    requires { Untimed filter × InUse count (keys.now ∷ nwks.now ∷ links.now ∷ []) }
    ensures { Asked (seen keys.now nwks.now links.now count) (λ xs. result ≡ name_in (first (fits filter) xs)) }
{
    let i = neighbor_queries_lent::first_fitting(nwks, links, count, filter);
    if count <= i {
        return Ok(None);
    }
    Ok(Some(Eui64(keys[i])))
}

// The extended address of the end device child with a network address.
pub fn end_device_child_eui64(
    keys: &[u64],
    nwks: &[u16],
    links: &[u64],
    count: usize,
    nwk: Nwk,
) -> Result<Option<Eui64>, Refusal>
    requires { InUse count (keys.now ∷ nwks.now ∷ links.now ∷ []) }
    ensures { Asked (seen keys.now nwks.now links.now count) (λ xs. result ≡ name_in (first (fits (EndDeviceChildAt nwk)) xs)) }
{
    name_fitting(keys, nwks, links, count, Filter::EndDeviceChildAt(nwk))
}

// The extended address of the child with a network address that sleeps when idle.
pub fn sleepy_child_eui64(
    keys: &[u64],
    nwks: &[u16],
    links: &[u64],
    count: usize,
    nwk: Nwk,
) -> Result<Option<Eui64>, Refusal>
    requires { InUse count (keys.now ∷ nwks.now ∷ links.now ∷ []) }
    ensures { Asked (seen keys.now nwks.now links.now count) (λ xs. result ≡ name_in (first (fits (SleepyChildAt nwk)) xs)) }
{
    name_fitting(keys, nwks, links, count, Filter::SleepyChildAt(nwk))
}

// Whether an end device child has a network address.
pub fn is_end_device_child(nwks: &[u16], links: &[u64], count: usize, nwk: Nwk) -> bool
    requires { InUse count (nwks.now ∷ links.now ∷ []) }
    ensures { Asked (lent_words nwks.now links.now count) (λ xs. result ≡ some_fits (fits (EndDeviceChildAt nwk)) xs) }
{
    neighbor_queries_lent::any_fitting(nwks, links, count, Filter::EndDeviceChildAt(nwk))
}

// Whether an extended address is a neighbour's.
pub fn contains(keys: &[u64], count: usize, eui64: Eui64) -> bool
    requires { Ordered 64 keys.now [] count }
    ensures { Asked (lent_keys keys.now count) (λ xs. result ≡ is_there (lookup neighbor_key eui64.0 xs)) }
{
    let place = neighbor_columns::place_of(keys, count, eui64);
    match place {
        Ok(_) => true,
        Err(_) => false,
    }
}

// The device type of a neighbour, and whether it listens when idle.
pub fn device_capability(
    keys: &[u64],
    links: &[u64],
    count: usize,
    eui64: Eui64,
) -> Result<Option<Capability>, Refusal>
    requires { Ordered 64 keys.now (links.now ∷ []) count }
    ensures { Asked (lent_links keys.now links.now count) (λ xs. result ≡ capability_in (lookup neighbor_key eui64.0 xs)) }
{
    let place = neighbor_columns::place_of(keys, count, eui64);
    match place {
        Ok(i) => {
            let part = neighbor_columns::link_of(links[i]);
            let device_type = part.device_type;
            Ok(Some(Capability {
                device_type,
                rx_on_when_idle: part.rx_on_when_idle,
            }))
        }
        Err(_) => Ok(None),
    }
}

// Whether a device is an end device child that has sent no keepalive yet.
pub fn is_unconfirmed_end_device_child(
    keys: &[u64],
    links: &[u64],
    count: usize,
    eui64: Eui64,
) -> bool
    requires { Ordered 64 keys.now (links.now ∷ []) count }
    ensures { Asked (lent_links keys.now links.now count) (λ xs. result ≡ is_unconfirmed (lookup neighbor_key eui64.0 xs)) }
{
    let place = neighbor_columns::place_of(keys, count, eui64);
    match place {
        Ok(i) => {
            let part = neighbor_columns::link_of(links[i]);
            let child = neighbor_queries_lent::fits_word(Filter::EndDeviceChild, 0, links[i]);
            !part.keepalive_received & child
        }
        Err(_) => false,
    }
}

// How many end device children there are.
pub fn end_device_child_count(nwks: &[u16], links: &[u64], count: usize) -> usize
    requires { InUse count (nwks.now ∷ links.now ∷ []) }
    ensures { Asked (lent_words nwks.now links.now count) (λ xs. result ≡ count_fits (fits EndDeviceChild) xs) }
{
    neighbor_queries_lent::count_fitting(nwks, links, count, Filter::EndDeviceChild)
}

// Whether a router has listed this device with a cost.
pub fn any_live_router_link(nwks: &[u16], links: &[u64], count: usize) -> bool
    requires { InUse count (nwks.now ∷ links.now ∷ []) }
    ensures { Asked (lent_words nwks.now links.now count) (λ xs. result ≡ some_fits (fits LiveRouter) xs) }
{
    neighbor_queries_lent::any_fitting(nwks, links, count, Filter::LiveRouter)
}

// Every child that sleeps when idle: a broadcast goes to each by a unicast (05-3474, 3.6.6).
pub fn sleepy_children(keys: &[u64], nwks: &[u16], links: &[u64], count: usize) -> ChildList
    requires { InUse count (keys.now ∷ nwks.now ∷ links.now ∷ []) }
    ensures { Asked (seen keys.now nwks.now links.now count) (λ xs. result ≡ child_list (map child_of (keep (fits SleepyChild) xs))) }
{
    neighbor_queries_lent::children_fitting(keys, nwks, links, count, Filter::SleepyChild)
}

// Every end device child, for the announcement after a start (05-3474, 2.4.3.1.12.1).
pub fn end_device_children(keys: &[u64], nwks: &[u16], links: &[u64], count: usize) -> Eui64List
    requires { InUse count (keys.now ∷ nwks.now ∷ links.now ∷ []) }
    ensures { Asked (seen keys.now nwks.now links.now count) (λ xs. result ≡ eui_list (map name_of (keep (fits EndDeviceChild) xs))) }
{
    neighbor_queries_lent::names_fitting(keys, nwks, links, count, Filter::EndDeviceChild)
}

// The routers that are expected to relay a broadcast (05-3474, 3.6.6).
pub fn expected_broadcast_relayers(nwks: &[u16], links: &[u64], count: usize) -> NwkList
    requires { InUse count (nwks.now ∷ links.now ∷ []) }
    ensures { Asked (lent_words nwks.now links.now count) (λ xs. result ≡ nwk_list (map address_of (keep (fits LiveRouter) xs))) }
{
    neighbor_queries_lent::addresses_fitting(nwks, links, count, Filter::LiveRouter)
}

// The link statuses that are advertised: one for each router of which enough samples are held.
pub fn link_status_entries(nwks: &[u16], links: &[u64], count: usize) -> LinkStatusList
    requires { InUse count (nwks.now ∷ links.now ∷ []) }
    ensures { Asked (lent_words nwks.now links.now count) (λ xs. result ≡ status_list (map status_of (keep (fits SampledRouter) xs))) }
{
    neighbor_queries_lent::statuses_fitting(nwks, links, count, Filter::SampledRouter)
}

// The earliest deadline of an end device child.
pub fn next_child_timeout(
    nwks: &[u16],
    links: &[u64],
    deadlines: &[u64],
    count: usize,
) -> Option<u64>
    requires { InUse count (nwks.now ∷ links.now ∷ deadlines.now ∷ []) }
    ensures { Asked (lent_deadlines nwks.now links.now deadlines.now count) (λ xs. result ≡ (least (map deadline_of (keep (fits EndDeviceChild) xs)))) }
{
    neighbor_queries_lent::earliest_fitting(nwks, links, deadlines, count, Filter::EndDeviceChild)
}
