// The two trigger counters of the routing state as a small record, by value and lent for change.
// A function that is lent the record reads it, lets the function by value do the work, and writes back what that leaves.
#![tactic(auto)]

ghost use Rattle.std.specs.Prelude.{◌≡◌};
ghost use Rattle.routing.specs.Queries.{next_count, fires_at};
ghost use Rattle.triggers.specs.Triggers.{counters_of, noted, noted_error, noted_failure, zeroed, counted_by};

// The signals counted toward an early many-to-one route request.
#[derive(Clone, Copy)]
pub struct Triggers {
    pub mtorr_route_errors: u8,
    pub mtorr_delivery_failures: u8,
}

// Whether the signals reach the threshold, and the counters they leave.
#[derive(Drop)]
pub struct Noted {
    pub told: bool,
    pub counters: Triggers,
}

// One signal more, and never past 255.
fn next_count(count: u8) -> u8
    ensures { result ≡ next_count count }
{
    count.saturating_add(1)
}

// A trigger fires at its threshold and above it.
fn fires_at(count: u8, threshold: u8) -> bool
    ensures { result ≡ fires_at count threshold }
{
    threshold <= count
}

// One route failure more, by value.
pub fn noted_error(t: Triggers, threshold: u8) -> Noted
    ensures { result ≡ noted_error t threshold }
{
    let count = next_count(t.mtorr_route_errors);
    let mut counters = t;
    counters.mtorr_route_errors = count;
    Noted {
        told: fires_at(count, threshold),
        counters,
    }
}

// One failed delivery more, by value.
pub fn noted_failure(t: Triggers, threshold: u8) -> Noted
    ensures { result ≡ noted_failure t threshold }
{
    let count = next_count(t.mtorr_delivery_failures);
    let mut counters = t;
    counters.mtorr_delivery_failures = count;
    Noted {
        told: fires_at(count, threshold),
        counters,
    }
}

// The counters once their signals are spent.
pub fn spent() -> Triggers
    ensures { result ≡ zeroed }
{
    Triggers {
        mtorr_route_errors: 0,
        mtorr_delivery_failures: 0,
    }
}

// A route failure was heard: whether the signals reach the threshold.
pub fn note_route_error(t: &mut Triggers, threshold: u8) -> bool
    ensures { noted result t.new ≡ noted_error t.old threshold }
{
    let n = noted_error(*t, threshold);
    *t = n.counters;
    n.told
}

// A delivery of our own failed: whether the signals reach the threshold.
pub fn note_delivery_failure(t: &mut Triggers, threshold: u8) -> bool
    ensures { noted result t.new ≡ noted_failure t.old threshold }
{
    let n = noted_failure(*t, threshold);
    *t = n.counters;
    n.told
}

// A many-to-one request went out: the signals are spent.
pub fn reset_mtorr_triggers(t: &mut Triggers)
    ensures { t.new ≡ zeroed }
{
    *t = spent();
}

// The same over plain values, for callers with no record to lend: 0 notes a route failure, 1 a failed delivery, and any other number spends the signals, which tells nothing.
pub fn counted(errors: u8, failures: u8, signal: u8, threshold: u8) -> Noted
    ensures { result ≡ counted_by signal (counters_of errors failures) threshold }
{
    let mut t = Triggers {
        mtorr_route_errors: errors,
        mtorr_delivery_failures: failures,
    };
    let told = match signal {
        0 => note_route_error(&mut t, threshold),
        1 => note_delivery_failure(&mut t, threshold),
        _ => {
            reset_mtorr_triggers(&mut t);
            false
        }
    };
    Noted { told, counters: t }
}
