// The neighbour table in columns of numbers that are lent and changed in place. Each function is a step on the rows that the columns hold.
#![tactic(auto)]

ghost use Rattle.std.specs.Prelude.{[], ◌∷◌, ◌≡◌, ◌+◌, ◌*◌, ◌≤◌, ◌<◌, min, leb, length, take};
ghost use mir.Val.{bool_byte};
ghost use Rattle.standard.specs.Ordered.{lookup, count_with};
ghost use Rattle.standard.specs.Query.{entry_at};
ghost use Rattle.standard.specs.Tells.{Tells};
ghost use Rattle.flat_map.specs.Seek.{place_of};
ghost use Rattle.flat_map.specs.Table.{Rising, ZeroFrom};
ghost use Rattle.columns.specs.Columns.{Ordered};
ghost use Rattle.neighbor_columns.specs.Kinds.{device_type_of, relationship_of};
ghost use Rattle.neighbor_table.specs.Entry.{neighbor_key};
ghost use Rattle.neighbor_columns.specs.Codec.{LinkRange, CountsRange, InRange, link_of, link_word, counts_of, counts_word, low_half, high_half, pair_word, link_part, counts_part, neighbor_numbers, numbers_in, neighbor_in};
ghost use Rattle.neighbor_columns.specs.Table.{in_columns, row_at, rows_of, InPlaces, clean_link, CleanLinks, SoundLink, SoundLinks, Formed64, formed64, well_formed};
ghost use Rattle.neighbor_columns.specs.Lent.{lent_keys, Asked};

use columns::Number;
use neighbor_table::{NeighborEntry, NwkDeviceType, Relationship};
use ring_buffer::RingBuffer;
use types::{Eui64, Nwk};

// What stands in the link word of a neighbour.
#[derive(Clone, Copy)]
pub struct LinkPart {
    pub lqas: RingBuffer,
    pub outgoing_cost: u8,
    pub device_type: NwkDeviceType,
    pub relationship: Relationship,
    pub rx_on_when_idle: bool,
    pub keepalive_received: bool,
}

// What stands in the counts word of a neighbour.
#[derive(Clone, Copy)]
pub struct CountsPart {
    pub transmit_failure: u8,
    pub router_connectivity: u8,
    pub router_neighbor_set_diversity: u8,
    pub router_outbound_activity: u8,
    pub router_inbound_activity: u8,
    pub security_timer: u8,
    pub end_device_configuration: u16,
}

// The numbers of a neighbour, one for each column.
#[derive(Drop)]
pub struct Words {
    pub key: u64,
    pub nwk: u16,
    pub link: u64,
    pub counts: u64,
    pub deadline: u64,
    pub period: u64,
    pub heard: u64,
    pub added: u64,
    pub beacon: u64,
    pub bytes: u64,
}

// A place, or the last one where it is past the end.
fn at_most(n: u64, last: usize) -> usize
    ensures { result ≡ min n last }
{
    if n < last as u64 { n as usize } else { last }
}

// The device type of a number; a number past the last gives the last.
pub fn device_type_of(number: u64) -> NwkDeviceType
    ensures { result ≡ device_type_of number }
{
    let all = [
        NwkDeviceType::Coordinator,
        NwkDeviceType::Router,
        NwkDeviceType::EndDevice,
    ];
    let i = at_most(number, 2);
    all[i]
}

// The relationship of a number; a number past the last gives the last.
pub fn relationship_of(number: u64) -> Relationship
    ensures { result ≡ relationship_of number }
{
    let all = [
        Relationship::Parent,
        Relationship::Child,
        Relationship::Sibling,
        Relationship::NoneOfTheAbove,
        Relationship::PreviousChild,
        Relationship::UnauthenticatedChild,
        Relationship::UnauthorizedChildWithRelayAllowed,
        Relationship::LostChild,
        Relationship::AddressConflictChild,
        Relationship::BackboneMeshSibling,
    ];
    let i = at_most(number, 9);
    all[i]
}

// What a link word says.
pub fn link_of(word: u64) -> LinkPart
    ensures { result ≡ link_of word }
{
    let lqas = RingBuffer::of_word(word);
    let device_type = device_type_of(word / 1125899906842624 % 4);
    let relationship = relationship_of(word / 4503599627370496);
    LinkPart {
        lqas,
        outgoing_cost: (word / 1099511627776 % 256) as u8,
        device_type,
        relationship,
        rx_on_when_idle: word / 281474976710656 % 2 == 1,
        keepalive_received: word / 562949953421312 % 2 == 1,
    }
}

// A flag as a number.
fn bit(b: bool) -> u64
    ensures { (result ≡ bool_byte b) × (result < 2) }
{
    u64::from(b)
}

// The fields of a link word, put together.
fn packed_link(ring: u64, cost: u8, rx: u64, keepalive: u64, device: u8, relation: u8) -> u64
    requires { (ring < 1099511627776) × (rx < 2) × (keepalive < 2) × (device < 3) × (relation < 10) }
    ensures { (result ≡ ring + cost * 1099511627776 + rx * 281474976710656 + keepalive * 562949953421312 + device * 1125899906842624 + relation * 4503599627370496)
        × (cost < 256) }
{
    ring + cost as u64 * 1099511627776
        + rx * 281474976710656
        + keepalive * 562949953421312
        + device as u64 * 1125899906842624
        + relation as u64 * 4503599627370496
}

// The link word that says it. Every part of a program is within the word's fields.
pub fn link_word(part: LinkPart) -> u64
    ensures { (result ≡ link_word part) × LinkRange part }
{
    let lqas = part.lqas;
    let device_type = part.device_type;
    let relationship = part.relationship;
    let ring = lqas.word();
    let rx = bit(part.rx_on_when_idle);
    let keepalive = bit(part.keepalive_received);
    let device = device_type.number();
    let relation = relationship.number();
    packed_link(ring, part.outgoing_cost, rx, keepalive, device, relation)
}

// What a counts word says.
pub fn counts_of(word: u64) -> CountsPart
    ensures { result ≡ counts_of word }
{
    CountsPart {
        transmit_failure: (word % 256) as u8,
        router_connectivity: (word / 256 % 256) as u8,
        router_neighbor_set_diversity: (word / 65536 % 256) as u8,
        router_outbound_activity: (word / 16777216 % 256) as u8,
        router_inbound_activity: (word / 4294967296 % 256) as u8,
        security_timer: (word / 1099511627776 % 256) as u8,
        end_device_configuration: (word / 281474976710656) as u16,
    }
}

// The fields of a counts word, put together.
fn packed_counts(f: u8, c: u8, d: u8, o: u8, i: u8, s: u8, n: u16) -> u64
    ensures { (result ≡ f + c * 256 + d * 65536 + o * 16777216 + i * 4294967296 + s * 1099511627776 + n * 281474976710656)
        × (f < 256) × (c < 256) × (d < 256) × (o < 256) × (i < 256) × (s < 256) }
{
    f as u64
        + c as u64 * 256
        + d as u64 * 65536
        + o as u64 * 16777216
        + i as u64 * 4294967296
        + s as u64 * 1099511627776
        + n as u64 * 281474976710656
}

// The counts word that says it. Every part of a program is within the word's fields.
pub fn counts_word(part: CountsPart) -> u64
    ensures { (result ≡ counts_word part) × CountsRange part }
{
    packed_counts(
        part.transmit_failure,
        part.router_connectivity,
        part.router_neighbor_set_diversity,
        part.router_outbound_activity,
        part.router_inbound_activity,
        part.security_timer,
        part.end_device_configuration,
    )
}

// Two numbers of 32 bits in a word.
pub fn pair_word(low: u32, high: u32) -> u64
    ensures { (result ≡ pair_word low high) × (low < 4294967296) }
{
    low as u64 + high as u64 * 4294967296
}

// The lower number of a word.
pub fn low_half(word: u64) -> u32
    ensures { result ≡ low_half word }
{
    (word % 4294967296) as u32
}

// The upper number of a word.
pub fn high_half(word: u64) -> u32
    ensures { result ≡ high_half word }
{
    (word / 4294967296) as u32
}

// What stands in a neighbour's link word.
pub fn link_part(e: NeighborEntry) -> LinkPart
    ensures { result ≡ link_part e }
{
    let lqas = e.lqas;
    let device_type = e.device_type;
    let relationship = e.relationship;
    LinkPart {
        lqas,
        outgoing_cost: e.outgoing_cost,
        device_type,
        relationship,
        rx_on_when_idle: e.rx_on_when_idle,
        keepalive_received: e.keepalive_received,
    }
}

// What stands in a neighbour's counts word.
pub fn counts_part(e: NeighborEntry) -> CountsPart
    ensures { result ≡ counts_part e }
{
    CountsPart {
        transmit_failure: e.transmit_failure,
        router_connectivity: e.router_connectivity,
        router_neighbor_set_diversity: e.router_neighbor_set_diversity,
        router_outbound_activity: e.router_outbound_activity,
        router_inbound_activity: e.router_inbound_activity,
        security_timer: e.security_timer,
        end_device_configuration: e.end_device_configuration,
    }
}

// The neighbour in ten numbers.
fn entry(
    key: u64,
    nwk: u16,
    link: u64,
    counts: u64,
    deadline: u64,
    period: u64,
    heard: u64,
    added: u64,
    beacon: u64,
    bytes: u64,
) -> NeighborEntry
    ensures { result ≡ neighbor_in key nwk link counts deadline period heard added beacon bytes }
{
    let l = link_of(link);
    let c = counts_of(counts);
    let device_type = l.device_type;
    let relationship = l.relationship;
    let lqas = l.lqas;
    NeighborEntry {
        extended_address: Eui64(key),
        network_address: Nwk(nwk),
        device_type,
        rx_on_when_idle: l.rx_on_when_idle,
        end_device_configuration: c.end_device_configuration,
        timeout_at: deadline,
        device_timeout: period,
        relationship,
        transmit_failure: c.transmit_failure,
        lqas,
        outgoing_cost: l.outgoing_cost,
        last_link_status_timestamp: heard,
        incoming_beacon_timestamp: low_half(beacon),
        beacon_transmission_time_offset: high_half(beacon),
        keepalive_received: l.keepalive_received,
        mac_unicast_bytes_transmitted: low_half(bytes),
        mac_unicast_bytes_received: high_half(bytes),
        router_added_timestamp: added,
        router_connectivity: c.router_connectivity,
        router_neighbor_set_diversity: c.router_neighbor_set_diversity,
        router_outbound_activity: c.router_outbound_activity,
        router_inbound_activity: c.router_inbound_activity,
        security_timer: c.security_timer,
    }
}

// The numbers of a neighbour. Every neighbour of a program is within their fields.
pub fn words_of(e: NeighborEntry) -> Words
    ensures { (numbers_in result ≡ neighbor_numbers e) × InRange e }
{
    let link = link_word(link_part(e));
    let counts = counts_word(counts_part(e));
    let beacon = pair_word(
        e.incoming_beacon_timestamp,
        e.beacon_transmission_time_offset,
    );
    let bytes = pair_word(
        e.mac_unicast_bytes_transmitted,
        e.mac_unicast_bytes_received,
    );
    Words {
        key: e.extended_address.0,
        nwk: e.network_address.0,
        link,
        counts,
        deadline: e.timeout_at,
        period: e.device_timeout,
        heard: e.last_link_status_timestamp,
        added: e.router_added_timestamp,
        beacon,
        bytes,
    }
}

// Whether a column has 64 places and is 0 from the count on.
fn ends<T: Number>(a: &[T], count: usize) -> bool
    ensures { Tells ((length a.now ≡ 64) × ZeroFrom (T.nats a.now) count) result }
{
    let blank = columns::zero_from(a, count);
    (a.len() == 64) & blank
}

// Whether columns are in order: each has 64 places and is 0 from the count on, and the keys in use go up.
fn in_order(
    keys: &[u64],
    nwks: &[u16],
    links: &[u64],
    counts: &[u64],
    deadlines: &[u64],
    periods: &[u64],
    heard: &[u64],
    added: &[u64],
    beacons: &[u64],
    bytes: &[u64],
    count: usize,
) -> bool
    ensures { Tells (Ordered 64 keys.now (nwks.now ∷ links.now ∷ counts.now ∷ deadlines.now ∷ periods.now ∷ heard.now ∷ added.now ∷ beacons.now ∷ bytes.now ∷ []) count) result }
{
    let keys_end = ends(keys, count);
    let nwks_end = ends(nwks, count);
    let links_end = ends(links, count);
    let counts_end = ends(counts, count);
    let deadlines_end = ends(deadlines, count);
    let periods_end = ends(periods, count);
    let heard_end = ends(heard, count);
    let added_end = ends(added, count);
    let beacons_end = ends(beacons, count);
    let bytes_end = ends(bytes, count);
    let all = keys_end
        & nwks_end
        & links_end
        & counts_end
        & deadlines_end
        & periods_end
        & heard_end
        & added_end
        & beacons_end
        & bytes_end;
    if !all {
        return false;
    }
    if 64 < count {
        return false;
    }
    columns::rising(keys, count)
}

// Whether a link word names a device type and a relationship.
fn clean_link(w: u64) -> bool
    ensures { result ≡ clean_link w }
{
    (w / 1125899906842624 % 4 < 3) & (w / 4503599627370496 < 10)
}

// Whether every link word does.
fn clean_links(links: &[u64]) -> bool
    ensures { Tells (CleanLinks links.now) result }
{
    let mut ok = true;
    for w in links {
        ok = ok & clean_link(*w);
    }
    ok
}

// Whether a link word is clean, its samples are well formed, and its cost is one that a link can have.
fn sound_link(w: u64) -> bool
    ensures { Tells (SoundLink w) result }
{
    let samples = ring_buffer::word_sound(w);
    let clean = clean_link(w);
    (w / 1099511627776 % 256 <= 7) & samples & clean
}

// Whether every link word in use is.
fn sound_links(links: &[u64], count: usize) -> bool
    requires { count ≤ length links.now }
    ensures { Tells (SoundLinks links.now count) result }
{
    let mut ok = true;
    for w in &links[..count] {
        ok = ok & sound_link(*w);
    }
    ok
}

// Whether columns are a table, whatever its entries say.
pub fn formed(
    keys: &[u64],
    nwks: &[u16],
    links: &[u64],
    counts: &[u64],
    deadlines: &[u64],
    periods: &[u64],
    heard: &[u64],
    added: &[u64],
    beacons: &[u64],
    bytes: &[u64],
    count: usize,
) -> bool
    ensures { result ≡ formed64 (in_columns keys.now nwks.now links.now counts.now deadlines.now periods.now heard.now added.now beacons.now bytes.now count) }
{
    let ordered = in_order(
        keys, nwks, links, counts, deadlines, periods, heard, added, beacons, bytes, count,
    );
    if !ordered {
        return false;
    }
    clean_links(links)
}

// Whether columns are a well-formed table.
pub fn well_formed(
    keys: &[u64],
    nwks: &[u16],
    links: &[u64],
    counts: &[u64],
    deadlines: &[u64],
    periods: &[u64],
    heard: &[u64],
    added: &[u64],
    beacons: &[u64],
    bytes: &[u64],
    count: usize,
) -> bool
    ensures { result ≡ well_formed (in_columns keys.now nwks.now links.now counts.now deadlines.now periods.now heard.now added.now beacons.now bytes.now count) }
{
    let ordered = in_order(
        keys, nwks, links, counts, deadlines, periods, heard, added, beacons, bytes, count,
    );
    if !ordered {
        return false;
    }
    sound_links(links, count)
}

// Where the neighbour of an address stands, or would stand.
pub fn place_of(keys: &[u64], count: usize, eui64: Eui64) -> Result<usize, usize>
    requires { (count ≤ length keys.now) × Rising keys.now count }
    ensures { result ≡ place_of (take count keys.now) eui64.0 }
{
    flat_map::index_of(keys, count, eui64.0)
}

// Whether there is room for a neighbour: a free place, or one that it has already.
pub fn has_room(keys: &[u64], count: usize, eui64: Eui64) -> bool
    requires { (count ≤ length keys.now) × Rising keys.now count }
    ensures { Asked (lent_keys keys.now count) (λ xs. result ≡ leb (count_with neighbor_key eui64.0 xs) 64) }
{
    let place = place_of(keys, count, eui64);
    columns::has_room(place, count, 64)
}

// The neighbour in a place.
pub fn entry_at(
    keys: &[u64],
    nwks: &[u16],
    links: &[u64],
    counts: &[u64],
    deadlines: &[u64],
    periods: &[u64],
    heard: &[u64],
    added: &[u64],
    beacons: &[u64],
    bytes: &[u64],
    i: usize,
) -> NeighborEntry
    requires { InPlaces i (in_columns keys.now nwks.now links.now counts.now deadlines.now periods.now heard.now added.now beacons.now bytes.now 0) }
    ensures { result ≡ row_at (in_columns keys.now nwks.now links.now counts.now deadlines.now periods.now heard.now added.now beacons.now bytes.now 0) i }
{
    entry(
        keys[i],
        nwks[i],
        links[i],
        counts[i],
        deadlines[i],
        periods[i],
        heard[i],
        added[i],
        beacons[i],
        bytes[i],
    )
}

// The neighbour with an extended address.
pub fn find(
    keys: &[u64],
    nwks: &[u16],
    links: &[u64],
    counts: &[u64],
    deadlines: &[u64],
    periods: &[u64],
    heard: &[u64],
    added: &[u64],
    beacons: &[u64],
    bytes: &[u64],
    count: usize,
    eui64: Eui64,
) -> Option<NeighborEntry>
    requires { Formed64 (in_columns keys.now nwks.now links.now counts.now deadlines.now periods.now heard.now added.now beacons.now bytes.now count) }
    ensures { result ≡ lookup neighbor_key eui64.0 (rows_of (in_columns keys.now nwks.now links.now counts.now deadlines.now periods.now heard.now added.now beacons.now bytes.now count)) }
{
    let place = place_of(keys, count, eui64);
    match place {
        Ok(i) => Some(entry_at(
            keys, nwks, links, counts, deadlines, periods, heard, added, beacons, bytes, i,
        )),
        Err(_) => None,
    }
}

// The neighbour at a place, in order of address; nothing from the count on.
pub fn at(
    keys: &[u64],
    nwks: &[u16],
    links: &[u64],
    counts: &[u64],
    deadlines: &[u64],
    periods: &[u64],
    heard: &[u64],
    added: &[u64],
    beacons: &[u64],
    bytes: &[u64],
    count: usize,
    i: usize,
) -> Option<NeighborEntry>
    requires { Formed64 (in_columns keys.now nwks.now links.now counts.now deadlines.now periods.now heard.now added.now beacons.now bytes.now count) }
    ensures { result ≡ entry_at i (rows_of (in_columns keys.now nwks.now links.now counts.now deadlines.now periods.now heard.now added.now beacons.now bytes.now count)) }
{
    if count <= i {
        return None;
    }
    Some(entry_at(
        keys, nwks, links, counts, deadlines, periods, heard, added, beacons, bytes, i,
    ))
}
