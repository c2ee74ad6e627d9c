// The calls at the door for C that make or remove a route.
#![tactic(auto)]

ghost use Rattle.standard.specs.Route.{nwk};
ghost use Rattle.routing.specs.declared.Routing.{Routing};
ghost use Rattle.routing.specs.Routes.{restore_route, note_relayed_discovery, remove_route};
ghost use Rattle.door.specs.Lent.{lent};
ghost use Rattle.door.specs.Places.{DoneMade, ToldMade};

use route_table::Routes;
use types::Nwk;

// A client hands back a route on startup; the whole entry is written anew.
#[unsafe(no_mangle)]
pub extern "C" fn warpteasel_raw_restore_route(
    route_keys: &mut [u16],
    route_words: &mut [u64],
    route_usage: &mut [u32],
    routes: &mut usize,
    discovery_keys: &[u32],
    discovery_words: &[u64],
    discovery_ends: &[u64],
    discoveries: usize,
    record_keys: &[u16],
    record_lengths: &[u8],
    records: usize,
    destination: u16,
    next_hop: u16,
    path_cost: u8,
) -> u8
    ensures { DoneMade (λ (s : Routing). restore_route s (nwk destination) (nwk next_hop) path_cost)
        (lent route_keys.old route_words.old route_usage.old routes.old discovery_keys.now discovery_words.now discovery_ends.now discoveries record_keys.now record_lengths.now records)
        (lent route_keys.new route_words.new route_usage.new routes.new discovery_keys.now discovery_words.now discovery_ends.now discoveries record_keys.now record_lengths.now records)
        result }
{
    let n = *routes;
    if !door::columns_formed(
        route_keys,
        route_words,
        route_usage,
        n,
        discovery_keys,
        discovery_words,
        discovery_ends,
        discoveries,
        record_keys,
        record_lengths,
        records,
    ) {
        return 10;
    }
    let mut held = Routes {
        keys: route_keys,
        words: route_words,
        usage: route_usage,
        count: n,
    };
    let answer = route_calls::restore_route(&mut held, Nwk(destination), Nwk(next_hop), path_cost);
    *routes = held.count;
    door::done_status(answer)
}

// A search of another's was relayed: the route to its destination is underway, unless it is Active.
#[unsafe(no_mangle)]
pub extern "C" fn warpteasel_raw_note_relayed_discovery(
    route_keys: &mut [u16],
    route_words: &mut [u64],
    route_usage: &mut [u32],
    routes: &mut usize,
    discovery_keys: &[u32],
    discovery_words: &[u64],
    discovery_ends: &[u64],
    discoveries: usize,
    record_keys: &[u16],
    record_lengths: &[u8],
    records: usize,
    destination: u16,
) -> u8
    ensures { DoneMade (λ (s : Routing). note_relayed_discovery s (nwk destination))
        (lent route_keys.old route_words.old route_usage.old routes.old discovery_keys.now discovery_words.now discovery_ends.now discoveries record_keys.now record_lengths.now records)
        (lent route_keys.new route_words.new route_usage.new routes.new discovery_keys.now discovery_words.now discovery_ends.now discoveries record_keys.now record_lengths.now records)
        result }
{
    let n = *routes;
    if !door::columns_formed(
        route_keys,
        route_words,
        route_usage,
        n,
        discovery_keys,
        discovery_words,
        discovery_ends,
        discoveries,
        record_keys,
        record_lengths,
        records,
    ) {
        return 10;
    }
    let mut held = Routes {
        keys: route_keys,
        words: route_words,
        usage: route_usage,
        count: n,
    };
    let answer = route_calls::note_relayed_discovery(&mut held, Nwk(destination));
    *routes = held.count;
    door::done_status(answer)
}

// The route to a destination is removed; whether there was one.
#[unsafe(no_mangle)]
pub extern "C" fn warpteasel_raw_remove_route(
    route_keys: &mut [u16],
    route_words: &mut [u64],
    route_usage: &mut [u32],
    routes: &mut usize,
    discovery_keys: &[u32],
    discovery_words: &[u64],
    discovery_ends: &[u64],
    discoveries: usize,
    record_keys: &[u16],
    record_lengths: &[u8],
    records: usize,
    destination: u16,
    removed: &mut u8,
) -> u8
    ensures { ToldMade (λ (s : Routing). remove_route s (nwk destination))
        (lent route_keys.old route_words.old route_usage.old routes.old discovery_keys.now discovery_words.now discovery_ends.now discoveries record_keys.now record_lengths.now records)
        (lent route_keys.new route_words.new route_usage.new routes.new discovery_keys.now discovery_words.now discovery_ends.now discoveries record_keys.now record_lengths.now records)
        removed.old removed.new result }
{
    let n = *routes;
    if !door::columns_formed(
        route_keys,
        route_words,
        route_usage,
        n,
        discovery_keys,
        discovery_words,
        discovery_ends,
        discoveries,
        record_keys,
        record_lengths,
        records,
    ) {
        return 10;
    }
    let mut held = Routes {
        keys: route_keys,
        words: route_words,
        usage: route_usage,
        count: n,
    };
    let was = route_calls::remove_route(&mut held, Nwk(destination));
    *routes = held.count;
    *removed = door::flag(was);
    0
}
