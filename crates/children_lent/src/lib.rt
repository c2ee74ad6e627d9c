// The children among the neighbours, in columns that are lent: the deadlines by which they have to be heard.
// Each call is lent the columns that it touches and decides its refusals before it writes.
#![tactic(auto)]

ghost use Rattle.std.specs.Prelude.{[], ◌∷◌, ◌≡◌, ◌≤◌, ◌<◌, length};
ghost use Rattle.types.specs.Clock.{time_sum};
ghost use Rattle.standard.specs.Query.{first};
ghost use Rattle.flat_map.specs.Table.{Rising};
ghost use Rattle.columns.specs.Columns.{Ordered, Long};
ghost use Rattle.neighbor_queries.specs.declared.Filter.TheVariants.{EndDeviceChildAt};
ghost use Rattle.neighbor_queries.specs.Filter.{fits};
ghost use Rattle.neighbor_columns.specs.Codec.{link_of, counts_of, CleanLink};
ghost use Rattle.neighbor_columns.specs.Lent.{lent_keys, with_nwks, with_links, with_counts, with_deadlines, with_periods, with_count, Asked, Changed};
ghost use Rattle.children.specs.Known.{by_name_of, by_address, known};
ghost use Rattle.children_lent.specs.Places.{StandsAt};
ghost use Rattle.children_lent.specs.Parts.{kept_link, configured, child_here};
ghost use Rattle.children_lent.specs.Rules.{refresh_answer, refresh_child_timeout, set_answer, set_child_timeout};

use types::{Eui64, Nwk, Refusal};

// Where the neighbour of an extended address that may be given stands; the count where there is none.
fn place_named(keys: &[u64], count: usize, eui64: Option<Eui64>) -> usize
    requires { (count ≤ length keys.now) × Rising keys.now count }
    ensures { StandsAt (lent_keys keys.now count) (by_name_of eui64) count result }
{
    match eui64 {
        Some(name) => {
            let place = neighbor_columns::place_of(keys, count, name);
            match place {
                Ok(i) => i,
                Err(_) => count,
            }
        }
        None => count,
    }
}

// Where the first neighbour with a network address that may be given stands; the count where there is none.
fn place_addressed(nwks: &[u16], count: usize, nwk: Option<Nwk>) -> usize
    requires { (count ≤ length nwks.now) × (count ≤ 64) }
    ensures { StandsAt (λ t. with_nwks nwks.now (with_count count t)) (by_address nwk) count result }
{
    match nwk {
        Some(address) => columns::first16(nwks, count, address.0),
        None => count,
    }
}

// Where the neighbour of the extended address stands, or else the first with the network address.
fn place_known(
    keys: &[u64],
    nwks: &[u16],
    count: usize,
    eui64: Option<Eui64>,
    nwk: Option<Nwk>,
) -> usize
    requires { Ordered 64 keys.now (nwks.now ∷ []) count }
    ensures { StandsAt (λ t. with_nwks nwks.now (lent_keys keys.now count t)) (known eui64 nwk) count result }
{
    let named = place_named(keys, count, eui64);
    if named < count {
        return named;
    }
    place_addressed(nwks, count, nwk)
}

// A link word with a keepalive received.
fn kept_link(word: u64) -> u64
    ensures { (link_of result ≡ kept_link (link_of word)) × CleanLink result }
{
    let mut part = neighbor_columns::link_of(word);
    part.keepalive_received = true;
    neighbor_columns::link_word(part)
}

// A data poll of a known device moves its deadline (05-3474, 3.6.10.4). Answers whether the device is known.
pub fn refresh_child_timeout(
    keys: &[u64],
    nwks: &[u16],
    links: &mut [u64],
    deadlines: &mut [u64],
    periods: &[u64],
    count: usize,
    eui64: Option<Eui64>,
    nwk: Option<Nwk>,
    now_ms: u64,
) -> Result<bool, Refusal>
    requires { Ordered 64 keys.now (nwks.now ∷ links.old ∷ deadlines.old ∷ periods.now ∷ []) count }
    ensures { Asked (λ t. with_nwks nwks.now (with_periods periods.now (lent_keys keys.now count t))) (λ xs. result ≡ refresh_answer now_ms (known eui64 nwk xs))
        × Changed (λ t. with_links links.old (with_deadlines deadlines.old (with_nwks nwks.now (with_periods periods.now (lent_keys keys.now count t))))) (λ t. with_links links.new (with_deadlines deadlines.new (with_nwks nwks.now (with_periods periods.now (lent_keys keys.now count t))))) (refresh_child_timeout eui64 nwk now_ms) }
{
    let i = place_known(keys, nwks, count, eui64, nwk);
    if count <= i {
        return Ok(false);
    }
    let sum = types::time_sum(now_ms, periods[i]);
    match sum {
        Some(at) => {
            links[i] = kept_link(links[i]);
            deadlines[i] = at;
            Ok(true)
        }
        None => Err(Refusal::TimePastEnd),
    }
}

// Whether an address and a link word are those of the end device child with a network address.
fn child_here(nwk: Nwk, address: u16, word: u64) -> bool
    ensures { result ≡ child_here nwk address word }
{
    let part = neighbor_columns::link_of(word);
    let relationship = part.relationship;
    let device_type = part.device_type;
    let child = relationship.is_child();
    let end_device = device_type.is_end_device();
    (address == nwk.0) & (child & end_device)
}

// Where the first end device child with a network address stands; the count where there is none.
fn place_of_child(nwks: &[u16], links: &[u64], count: usize, nwk: Nwk) -> usize
    requires { (count ≤ length nwks.now) × (count ≤ length links.now) }
    ensures { StandsAt (λ t. with_nwks nwks.now (with_links links.now (with_count count t))) (first (fits (EndDeviceChildAt nwk))) count result }
{
    for i in 0..count {
        if child_here(nwk, nwks[i], links[i]) {
            return i;
        }
    }
    count
}

// A counts word with another configuration.
fn configured_word(word: u64, configuration: u16) -> u64
    ensures { counts_of result ≡ configured configuration (counts_of word) }
{
    let mut part = neighbor_columns::counts_of(word);
    part.end_device_configuration = configuration;
    neighbor_columns::counts_word(part)
}

// An end device child asks for another period (05-3474, 3.6.10.2). Answers whether there is such a child.
pub fn set_child_timeout(
    nwks: &[u16],
    links: &mut [u64],
    counts: &mut [u64],
    deadlines: &mut [u64],
    periods: &mut [u64],
    count: usize,
    nwk: Nwk,
    timeout: u64,
    configuration: u16,
    now_ms: u64,
) -> Result<bool, Refusal>
    requires { Long 64 (nwks.now ∷ links.old ∷ counts.old ∷ deadlines.old ∷ periods.old ∷ []) × (count ≤ 64) }
    ensures { Asked (λ t. with_nwks nwks.now (with_links links.old (with_count count t))) (λ xs. result ≡ set_answer (time_sum now_ms timeout) (first (fits (EndDeviceChildAt nwk)) xs))
        × Changed (λ t. with_nwks nwks.now (with_links links.old (with_counts counts.old (with_deadlines deadlines.old (with_periods periods.old (with_count count t)))))) (λ t. with_nwks nwks.now (with_links links.new (with_counts counts.new (with_deadlines deadlines.new (with_periods periods.new (with_count count t)))))) (set_child_timeout nwk timeout configuration now_ms) }
{
    let i = place_of_child(nwks, links, count, nwk);
    if count <= i {
        return Ok(false);
    }
    let sum = types::time_sum(now_ms, timeout);
    match sum {
        Some(at) => {
            links[i] = kept_link(links[i]);
            counts[i] = configured_word(counts[i], configuration);
            deadlines[i] = at;
            periods[i] = timeout;
            Ok(true)
        }
        None => Err(Refusal::TimePastEnd),
    }
}
