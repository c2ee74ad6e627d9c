// What a call about children or a link status is given, read from numbers.
#![tactic(auto)]

ghost use Rattle.std.specs.Prelude.{◌≡◌, ◌<◌};
ghost use Rattle.child_arguments.specs.Arguments.{maybe_eui64_at, maybe_nwk_at, past, poll_of, child_of, status_at, names_of, command_to, command_of};

use children::ChildDescriptor;
use link_status::LinkStatusCommand;
use neighbor_queries::{Eui64List, LinkStatus};
use types::{Eui64, Nwk};

// A data poll: who may have sent it, and when.
#[derive(Drop)]
pub struct Poll {
    pub eui64: Option<Eui64>,
    pub nwk: Option<Nwk>,
    pub now: u64,
}

// An extended address that may be given, at a place.
fn maybe_eui64(args: &[u64], i: usize) -> Option<Eui64>
    requires { i < 8 }
    ensures { result ≡ maybe_eui64_at args.now i }
{
    if numbers::flag(args, i) {
        Some(numbers::eui64(args, i + 1))
    } else {
        None
    }
}

// A network address that may be given, at a place.
fn maybe_nwk(args: &[u64], i: usize) -> Option<Nwk>
    requires { i < 8 }
    ensures { result ≡ maybe_nwk_at args.now i }
{
    if numbers::flag(args, i) {
        Some(numbers::nwk(args, i + 1))
    } else {
        None
    }
}

// The place after a value that may be given.
pub fn after(args: &[u64], i: usize) -> usize
    requires { i < 256 }
    ensures { result ≡ past args.now i }
{
    if numbers::flag(args, i) { i + 2 } else { i + 1 }
}

// Two addresses that may be given, and the moment.
pub fn data_poll(args: &[u64]) -> Poll
    ensures { result ≡ poll_of args.now }
{
    let second = after(args, 0);
    let third = after(args, second);
    let eui64 = maybe_eui64(args, 0);
    let nwk = maybe_nwk(args, second);
    let now = numbers::at(args, third);
    Poll { eui64, nwk, now }
}

// A child as it joins or rejoins.
pub fn child(args: &[u64]) -> ChildDescriptor
    ensures { result ≡ child_of args.now }
{
    let eui64 = numbers::eui64(args, 0);
    let network_address = numbers::nwk(args, 1);
    let device_type = neighbor_values::device_type(numbers::at(args, 2));
    let rx_on_when_idle = numbers::flag(args, 3);
    let device_timeout = numbers::at(args, 4);
    let relationship = neighbor_values::relationship(numbers::at(args, 5));
    ChildDescriptor {
        eui64,
        network_address,
        device_type,
        rx_on_when_idle,
        device_timeout,
        relationship,
    }
}

// A list of extended addresses.
pub fn names(args: &[u64]) -> Eui64List
    ensures { result ≡ names_of args.now }
{
    let count = numbers::at(args, 0) as usize;
    let end = count.min(64);
    let blank = Eui64(0);
    let mut list = Eui64List {
        count,
        addresses: [blank; 64],
    };
    for i in 0..end {
        let name = numbers::eui64(args, i + 1);
        list.addresses[i] = name;
    }
    list
}

// The link status at a place of a command's list.
fn status(args: &[u64], i: usize) -> LinkStatus
    requires { i < 31 }
    ensures { result ≡ status_at args.now i }
{
    let address = numbers::nwk(args, 3 * i + 8);
    let incoming_cost = numbers::byte(args, 3 * i + 9);
    let outgoing_cost = numbers::byte(args, 3 * i + 10);
    LinkStatus {
        address,
        incoming_cost,
        outgoing_cost,
    }
}

// A command with no status yet.
fn bare_command(args: &[u64]) -> LinkStatusCommand
    ensures { result ≡ command_to args.now 0 }
{
    let is_first_frame = numbers::flag(args, 4);
    let is_last_frame = numbers::flag(args, 5);
    let count = numbers::at(args, 7) as usize;
    let blank = LinkStatus {
        address: Nwk(0),
        incoming_cost: 0,
        outgoing_cost: 0,
    };
    LinkStatusCommand {
        is_first_frame,
        is_last_frame,
        count,
        statuses: [blank; 31],
    }
}

// A link status command.
pub fn command(args: &[u64]) -> LinkStatusCommand
    ensures { result ≡ command_of args.now }
{
    let mut command = bare_command(args);
    let end = command.count.min(31);
    for i in 0..end {
        let status = status(args, i);
        command.statuses[i] = status;
    }
    command
}
