// The trigger counters at the door for C: those that a call counts are lent beside the columns.
#![tactic(auto)]

ghost use Rattle.routing.specs.declared.Routing.{Routing};
ghost use Rattle.routing.specs.Queries.{note_route_error, note_delivery_failure, reset_mtorr_triggers};
ghost use Rattle.door.specs.Lent.{lent_with, the_errors, the_failures, the_triggers};
ghost use Rattle.door.specs.Places.{DoneMade, ToldMade};

// A route failure was heard: whether the signals reach the threshold.
#[unsafe(no_mangle)]
pub extern "C" fn warpteasel_raw_note_route_error(
    route_keys: &[u16],
    route_words: &[u64],
    route_usage: &[u32],
    routes: usize,
    discovery_keys: &[u32],
    discovery_words: &[u64],
    discovery_ends: &[u64],
    discoveries: usize,
    record_keys: &[u16],
    record_lengths: &[u8],
    records: usize,
    mtorr_route_errors: &mut u8,
    threshold: u8,
    reached: &mut u8,
) -> u8
    ensures { ToldMade (λ (s : Routing). note_route_error s threshold)
        (lent_with (the_errors mtorr_route_errors.old) route_keys.now route_words.now route_usage.now routes discovery_keys.now discovery_words.now discovery_ends.now discoveries record_keys.now record_lengths.now records)
        (lent_with (the_errors mtorr_route_errors.new) route_keys.now route_words.now route_usage.now routes discovery_keys.now discovery_words.now discovery_ends.now discoveries record_keys.now record_lengths.now records)
        reached.old reached.new result }
{
    if !door::columns_formed(
        route_keys,
        route_words,
        route_usage,
        routes,
        discovery_keys,
        discovery_words,
        discovery_ends,
        discoveries,
        record_keys,
        record_lengths,
        records,
    ) {
        return 10;
    }
    let count = (*mtorr_route_errors).saturating_add(1);
    *mtorr_route_errors = count;
    *reached = door::flag(threshold <= count);
    0
}

// A delivery of our own failed: whether the signals reach the threshold.
#[unsafe(no_mangle)]
pub extern "C" fn warpteasel_raw_note_delivery_failure(
    route_keys: &[u16],
    route_words: &[u64],
    route_usage: &[u32],
    routes: usize,
    discovery_keys: &[u32],
    discovery_words: &[u64],
    discovery_ends: &[u64],
    discoveries: usize,
    record_keys: &[u16],
    record_lengths: &[u8],
    records: usize,
    mtorr_delivery_failures: &mut u8,
    threshold: u8,
    reached: &mut u8,
) -> u8
    ensures { ToldMade (λ (s : Routing). note_delivery_failure s threshold)
        (lent_with (the_failures mtorr_delivery_failures.old) route_keys.now route_words.now route_usage.now routes discovery_keys.now discovery_words.now discovery_ends.now discoveries record_keys.now record_lengths.now records)
        (lent_with (the_failures mtorr_delivery_failures.new) route_keys.now route_words.now route_usage.now routes discovery_keys.now discovery_words.now discovery_ends.now discoveries record_keys.now record_lengths.now records)
        reached.old reached.new result }
{
    if !door::columns_formed(
        route_keys,
        route_words,
        route_usage,
        routes,
        discovery_keys,
        discovery_words,
        discovery_ends,
        discoveries,
        record_keys,
        record_lengths,
        records,
    ) {
        return 10;
    }
    let count = (*mtorr_delivery_failures).saturating_add(1);
    *mtorr_delivery_failures = count;
    *reached = door::flag(threshold <= count);
    0
}

// A many-to-one request went out: the signals are spent.
#[unsafe(no_mangle)]
pub extern "C" fn warpteasel_raw_reset_mtorr_triggers(
    route_keys: &[u16],
    route_words: &[u64],
    route_usage: &[u32],
    routes: usize,
    discovery_keys: &[u32],
    discovery_words: &[u64],
    discovery_ends: &[u64],
    discoveries: usize,
    record_keys: &[u16],
    record_lengths: &[u8],
    records: usize,
    mtorr_route_errors: &mut u8,
    mtorr_delivery_failures: &mut u8,
) -> u8
    ensures { DoneMade (λ (s : Routing). reset_mtorr_triggers s)
        (lent_with (the_triggers mtorr_route_errors.old mtorr_delivery_failures.old) route_keys.now route_words.now route_usage.now routes discovery_keys.now discovery_words.now discovery_ends.now discoveries record_keys.now record_lengths.now records)
        (lent_with (the_triggers mtorr_route_errors.new mtorr_delivery_failures.new) route_keys.now route_words.now route_usage.now routes discovery_keys.now discovery_words.now discovery_ends.now discoveries record_keys.now record_lengths.now records)
        result }
{
    if !door::columns_formed(
        route_keys,
        route_words,
        route_usage,
        routes,
        discovery_keys,
        discovery_words,
        discovery_ends,
        discoveries,
        record_keys,
        record_lengths,
        records,
    ) {
        return 10;
    }
    *mtorr_route_errors = 0;
    *mtorr_delivery_failures = 0;
    0
}
