// The calls at the door for C that change routes which are there.
#![tactic(auto)]

ghost use Rattle.standard.specs.Route.{nwk};
ghost use Rattle.routing.specs.declared.Routing.{Routing};
ghost use Rattle.routing.specs.Routes.{mark_discovery_failed, record_usage, note_source_routed_frame, decay_activity, invalidate_via};
ghost use Rattle.door.specs.Lent.{lent};
ghost use Rattle.door.specs.Places.{DoneMade};

use route_table::RouteValues;
use types::Nwk;

// No discovery of the way to a destination has brought one.
#[unsafe(no_mangle)]
pub extern "C" fn warpteasel_raw_mark_discovery_failed(
    route_keys: &[u16],
    route_words: &mut [u64],
    route_usage: &mut [u32],
    routes: usize,
    discovery_keys: &[u32],
    discovery_words: &[u64],
    discovery_ends: &[u64],
    discoveries: usize,
    record_keys: &[u16],
    record_lengths: &[u8],
    records: usize,
    destination: u16,
) -> u8
    ensures { DoneMade (λ (s : Routing). mark_discovery_failed s (nwk destination))
        (lent route_keys.now route_words.old route_usage.old routes discovery_keys.now discovery_words.now discovery_ends.now discoveries record_keys.now record_lengths.now records)
        (lent route_keys.now route_words.new route_usage.new routes discovery_keys.now discovery_words.now discovery_ends.now discoveries record_keys.now record_lengths.now records)
        result }
{
    if !door::columns_formed(
        route_keys,
        route_words,
        route_usage,
        routes,
        discovery_keys,
        discovery_words,
        discovery_ends,
        discoveries,
        record_keys,
        record_lengths,
        records,
    ) {
        return 10;
    }
    let mut held = RouteValues {
        keys: route_keys,
        words: route_words,
        usage: route_usage,
        count: routes,
    };
    route_calls::mark_discovery_failed(&mut held, Nwk(destination));
    0
}

// A frame was forwarded along the route to a destination.
#[unsafe(no_mangle)]
pub extern "C" fn warpteasel_raw_record_usage(
    route_keys: &[u16],
    route_words: &mut [u64],
    route_usage: &mut [u32],
    routes: usize,
    discovery_keys: &[u32],
    discovery_words: &[u64],
    discovery_ends: &[u64],
    discoveries: usize,
    record_keys: &[u16],
    record_lengths: &[u8],
    records: usize,
    destination: u16,
) -> u8
    ensures { DoneMade (λ (s : Routing). record_usage s (nwk destination))
        (lent route_keys.now route_words.old route_usage.old routes discovery_keys.now discovery_words.now discovery_ends.now discoveries record_keys.now record_lengths.now records)
        (lent route_keys.now route_words.new route_usage.new routes discovery_keys.now discovery_words.now discovery_ends.now discoveries record_keys.now record_lengths.now records)
        result }
{
    if !door::columns_formed(
        route_keys,
        route_words,
        route_usage,
        routes,
        discovery_keys,
        discovery_words,
        discovery_ends,
        discoveries,
        record_keys,
        record_lengths,
        records,
    ) {
        return 10;
    }
    let mut held = RouteValues {
        keys: route_keys,
        words: route_words,
        usage: route_usage,
        count: routes,
    };
    route_calls::record_usage(&mut held, Nwk(destination));
    0
}

// A source-routed frame of a concentrator shows that it holds our record.
#[unsafe(no_mangle)]
pub extern "C" fn warpteasel_raw_note_source_routed_frame(
    route_keys: &[u16],
    route_words: &mut [u64],
    route_usage: &mut [u32],
    routes: usize,
    discovery_keys: &[u32],
    discovery_words: &[u64],
    discovery_ends: &[u64],
    discoveries: usize,
    record_keys: &[u16],
    record_lengths: &[u8],
    records: usize,
    concentrator: u16,
) -> u8
    ensures { DoneMade (λ (s : Routing). note_source_routed_frame s (nwk concentrator))
        (lent route_keys.now route_words.old route_usage.old routes discovery_keys.now discovery_words.now discovery_ends.now discoveries record_keys.now record_lengths.now records)
        (lent route_keys.now route_words.new route_usage.new routes discovery_keys.now discovery_words.now discovery_ends.now discoveries record_keys.now record_lengths.now records)
        result }
{
    if !door::columns_formed(
        route_keys,
        route_words,
        route_usage,
        routes,
        discovery_keys,
        discovery_words,
        discovery_ends,
        discoveries,
        record_keys,
        record_lengths,
        records,
    ) {
        return 10;
    }
    let mut held = RouteValues {
        keys: route_keys,
        words: route_words,
        usage: route_usage,
        count: routes,
    };
    route_calls::note_source_routed_frame(&mut held, Nwk(concentrator));
    0
}

// Once a link status period: the recent activity of every Active route goes down.
#[unsafe(no_mangle)]
pub extern "C" fn warpteasel_raw_decay_activity(
    route_keys: &[u16],
    route_words: &mut [u64],
    route_usage: &[u32],
    routes: usize,
    discovery_keys: &[u32],
    discovery_words: &[u64],
    discovery_ends: &[u64],
    discoveries: usize,
    record_keys: &[u16],
    record_lengths: &[u8],
    records: usize,
) -> u8
    ensures { DoneMade (λ (s : Routing). decay_activity s)
        (lent route_keys.now route_words.old route_usage.now routes discovery_keys.now discovery_words.now discovery_ends.now discoveries record_keys.now record_lengths.now records)
        (lent route_keys.now route_words.new route_usage.now routes discovery_keys.now discovery_words.now discovery_ends.now discoveries record_keys.now record_lengths.now records)
        result }
{
    if !door::columns_formed(
        route_keys,
        route_words,
        route_usage,
        routes,
        discovery_keys,
        discovery_words,
        discovery_ends,
        discoveries,
        record_keys,
        record_lengths,
        records,
    ) {
        return 10;
    }
    route_table::decay_activity(route_keys, route_words, route_usage, routes);
    0
}

// A next hop is lost: every Active route by it is Inactive.
#[unsafe(no_mangle)]
pub extern "C" fn warpteasel_raw_invalidate_via(
    route_keys: &[u16],
    route_words: &mut [u64],
    route_usage: &[u32],
    routes: usize,
    discovery_keys: &[u32],
    discovery_words: &[u64],
    discovery_ends: &[u64],
    discoveries: usize,
    record_keys: &[u16],
    record_lengths: &[u8],
    records: usize,
    next_hop: u16,
) -> u8
    ensures { DoneMade (λ (s : Routing). invalidate_via s (nwk next_hop))
        (lent route_keys.now route_words.old route_usage.now routes discovery_keys.now discovery_words.now discovery_ends.now discoveries record_keys.now record_lengths.now records)
        (lent route_keys.now route_words.new route_usage.now routes discovery_keys.now discovery_words.now discovery_ends.now discoveries record_keys.now record_lengths.now records)
        result }
{
    if !door::columns_formed(
        route_keys,
        route_words,
        route_usage,
        routes,
        discovery_keys,
        discovery_words,
        discovery_ends,
        discoveries,
        record_keys,
        record_lengths,
        records,
    ) {
        return 10;
    }
    route_table::invalidate_via(route_keys, route_words, route_usage, routes, Nwk(next_hop));
    0
}
