// A link status command at the door for C.
#![tactic(auto)]

ghost use Rattle.std.specs.Prelude.{[], ◌≡◌};
ghost use Rattle.standard.specs.Tells.{Tells};
ghost use Rattle.door_neighbors.specs.Answers.{address_at};
ghost use Rattle.door_neighbors.specs.Lent.{lent};
ghost use Rattle.door_link_status.specs.LinkStatus.{command_with, given, IsCommand, LinkStatusMade};

use link_status::LinkStatusCommand;
use neighbor_queries::LinkStatus;
use types::{Eui64, Nwk};

// Whether two flags and three lists are those of a command.
fn is_command(first: u8, last: u8, addresses: &[u16], incoming: &[u8], outgoing: &[u8]) -> bool
    ensures { Tells (IsCommand first last addresses.now incoming.now outgoing.now) result }
{
    let n = addresses.len();
    let flags = (first <= 1) & (last <= 1);
    let lengths = (incoming.len() == n) & (outgoing.len() == n);
    flags & lengths
}

// A command that has no status in its places yet.
fn blank_command(first: u8, last: u8, count: usize) -> LinkStatusCommand
    ensures { result ≡ command_with first last count [] }
{
    let none = LinkStatus {
        address: Nwk(0),
        incoming_cost: 0,
        outgoing_cost: 0,
    };
    LinkStatusCommand {
        is_first_frame: first == 1,
        is_last_frame: last == 1,
        count,
        statuses: [none; 31],
    }
}

// The command of what is given: the lists may be of any length, and 31 statuses have a place.
fn command_given(
    first: u8,
    last: u8,
    addresses: &[u16],
    incoming: &[u8],
    outgoing: &[u8],
) -> LinkStatusCommand
    requires { IsCommand first last addresses.now incoming.now outgoing.now }
    ensures { result ≡ given first last addresses.now incoming.now outgoing.now }
{
    let mut command = blank_command(first, last, addresses.len());
    let end = addresses.len().min(31);
    for i in 0..end {
        let status = LinkStatus {
            address: Nwk(addresses[i]),
            incoming_cost: incoming[i],
            outgoing_cost: outgoing[i],
        };
        command.statuses[i] = status;
    }
    command
}

// A link status command (05-3474, 3.6.4.4.2): the sender's stored address where its link is lost. A flag that is neither 0 nor 1, and lists that are
// not equally long, are no call.
#[unsafe(no_mangle)]
pub extern "C" fn warpteasel_raw_on_link_status(
    keys: &mut [u64],
    nwks: &mut [u16],
    links: &mut [u64],
    counts: &mut [u64],
    deadlines: &mut [u64],
    periods: &mut [u64],
    heard: &mut [u64],
    added: &mut [u64],
    beacons: &mut [u64],
    bytes: &mut [u64],
    count: &mut usize,
    senders: &mut [u16],
    samples: &mut [u64],
    waiting: &mut usize,
    own: u16,
    eui64: u64,
    nwk: u16,
    lqi: u8,
    is_first_frame: u8,
    is_last_frame: u8,
    addresses: &[u16],
    incoming_costs: &[u8],
    outgoing_costs: &[u8],
    now_ms: u64,
    found: &mut u8,
    lost: &mut u16,
) -> u8
    ensures { LinkStatusMade
        (lent keys.old nwks.old links.old counts.old deadlines.old periods.old heard.old added.old beacons.old bytes.old count.old senders.old samples.old waiting.old)
        (lent keys.new nwks.new links.new counts.new deadlines.new periods.new heard.new added.new beacons.new bytes.new count.new senders.new samples.new waiting.new)
        (record { 0 = own }) (record { 0 = eui64 }) (record { 0 = nwk }) lqi is_first_frame is_last_frame
        addresses.now incoming_costs.now outgoing_costs.now now_ms
        (address_at found.old lost.old) (address_at found.new lost.new) result }
{
    if !is_command(
        is_first_frame,
        is_last_frame,
        addresses,
        incoming_costs,
        outgoing_costs,
    ) {
        return door::NO_CALL;
    }
    let n = *count;
    let w = *waiting;
    if !door_neighbors::columns_formed(
        keys, nwks, links, counts, deadlines, periods, heard, added, beacons, bytes, n, senders,
        samples, w,
    ) {
        return 10;
    }
    let command = command_given(
        is_first_frame,
        is_last_frame,
        addresses,
        incoming_costs,
        outgoing_costs,
    );
    let x = link_status_lent::on_link_status(
        keys,
        nwks,
        links,
        counts,
        deadlines,
        periods,
        heard,
        added,
        beacons,
        bytes,
        n,
        senders,
        samples,
        w,
        Nwk(own),
        Eui64(eui64),
        Nwk(nwk),
        lqi,
        command,
        now_ms,
    );
    *count = x.neighbors;
    *waiting = x.waiting;
    let answer = x.answer;
    door_neighbors::say_address(answer, found, lost)
}
