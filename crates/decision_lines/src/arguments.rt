// The mode and the policy of a decision read from numbers, and its answers as numbers.
ghost use Rattle.std.specs.Prelude.{◌≡◌, ◌∷◌, ◌<◌, ◌≤◌};
ghost use Rattle.numbers.specs.Said.{ok, spoken};
ghost use Rattle.frame.specs.Numbers.{header_numbers};
ghost use Rattle.decision_lines.specs.Arguments.{kind_of, length_of, mode_at, past_mode, policy_of};
ghost use Rattle.next_hop.specs.Numbers.{resolve_said, clear_said};

use frame::NwkHeader;
use hop_choice::{HostRoute, Policy, RouteDirective, SendKind};
use next_hop::{NextHop, ResolveOutcome, SendMode};
use numbers::Answer;
use relay_header::ClearOutcome;
use types::Nwk;

// The kind of a mode's number, with the hop that it may name.
pub fn kind(number: u64, hop: Nwk) -> SendKind
    ensures { result ≡ kind_of number hop }
{
    let all = [
        SendKind::Direct,
        SendKind::Route(RouteDirective::StackDecides),
        SendKind::Route(RouteDirective::Hint(HostRoute::NextHop(hop))),
        SendKind::Route(RouteDirective::Hint(HostRoute::SourceRoute)),
        SendKind::Route(RouteDirective::Force(HostRoute::NextHop(hop))),
        SendKind::Route(RouteDirective::Force(HostRoute::SourceRoute)),
    ];
    let i = (number as usize).min(5);
    all[i]
}

// How many numbers a mode takes, where a list has `count`.
fn mode_length(number: u64, count: usize) -> usize
    requires { count ≤ 80 }
    ensures { result ≡ length_of number count }
{
    let all: [usize; 6] = [1, 1, 2, 2 + count, 2, 2 + count];
    let i = (number as usize).min(5);
    all[i]
}

// The mode at a place.
pub fn mode(args: &[u64], i: usize) -> SendMode
    requires { i < 8 }
    ensures { result ≡ mode_at args.now i }
{
    let kind = kind(numbers::at(args, i), numbers::nwk(args, i + 1));
    let relays = route_args::relays(args, i + 1);
    SendMode { kind, relays }
}

// The place after the mode at a place.
pub fn after_mode(args: &[u64], i: usize) -> usize
    requires { i < 8 }
    ensures { result ≡ past_mode args.now i }
{
    let count = (numbers::at(args, i + 1) as usize).min(80);
    let length = mode_length(numbers::at(args, i), count);
    i + length
}

// The settings that a decision reads.
pub fn policy(args: &[u64]) -> Policy
    ensures { result ≡ policy_of args.now }
{
    let is_concentrator = numbers::flag(args, 0);
    let force_route_discovery = numbers::flag(args, 1);
    let max_source_route = numbers::byte(args, 2);
    Policy {
        is_concentrator,
        force_route_discovery,
        max_source_route,
    }
}

// A first number, then the header.
fn with_header(first: u64, header: NwkHeader) -> Answer
    ensures { result ≡ spoken (ok (first ∷ header_numbers header)) }
{
    let n = numbers::none();
    let m = numbers::push(n, first);
    numbers::answered(crate::header::push_header(m, header))
}

// The hop, then the header.
fn with_hop(hop: Nwk, header: NwkHeader) -> Answer
    ensures { result ≡ spoken (ok (0 ∷ hop.0 ∷ header_numbers header)) }
{
    let n = numbers::none();
    let m = numbers::push(n, 0);
    let k = neighbor_values::push_nwk(m, hop);
    numbers::answered(crate::header::push_header(k, header))
}

pub fn resolve_answer(o: ResolveOutcome) -> Answer
    ensures { result ≡ spoken (resolve_said o) }
{
    let answer = o.answer;
    let header = o.header;
    match answer {
        Err(why) => numbers::refused(why),
        Ok(NextHop::Resolved(hop)) => with_hop(hop, header),
        Ok(NextHop::NeedDiscovery) => with_header(1, header),
        Ok(NextHop::Discard) => with_header(2, header),
    }
}

pub fn clear_answer(o: ClearOutcome) -> Answer
    ensures { result ≡ spoken (clear_said o) }
{
    let answer = o.answer;
    let header = o.header;
    match answer {
        Ok(b) => with_header(numbers::flag_number(b), header),
        Err(why) => numbers::refused(why),
    }
}
