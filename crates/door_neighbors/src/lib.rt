// What the neighbours' calls of the door for C share: the test of the columns that are lent, and the numbers of answers that many calls give.
#![tactic(auto)]

ghost use Rattle.std.specs.Prelude.{◌≡◌};
ghost use Rattle.neighbor_columns.specs.Table as neighbours;
ghost use Rattle.waiting_columns.specs.Table as waits;
ghost use Rattle.neighbors.specs.State.{formed_in};
ghost use Rattle.door.specs.Lent.{Says};
ghost use Rattle.door_neighbors.specs.Answers.{done_status, truth_numbers, name_at, name_numbers, address_at, address_numbers};

use types::{Eui64, Nwk, Refusal};

// The places of an extended address that there may be: whether there is one, and the address.
// A flag or a number beside the values, and no Option or enum, since C reads these places.
#[derive(Drop)]
pub struct NamePlaces {
    pub found: u8,
    pub eui64: u64,
}

// The places of a network address that there may be: whether there is one, and the address.
// A flag or a number beside the values, and no Option or enum, since C reads these places.
#[derive(Drop)]
pub struct AddressPlaces {
    pub found: u8,
    pub nwk: u16,
}

// Whether the columns of both tables are well formed: `neighbors::columns_formed`, with a lifetime for each column, since a call is lent some for
// change and some for reading.
pub fn columns_formed(
    keys: &[u64],
    nwks: &[u16],
    links: &[u64],
    counts: &[u64],
    deadlines: &[u64],
    periods: &[u64],
    heard: &[u64],
    added: &[u64],
    beacons: &[u64],
    bytes: &[u64],
    count: usize,
    senders: &[u16],
    samples: &[u64],
    waiting: usize,
) -> bool
    ensures { result ≡ formed_in (neighbours.in_columns keys.now nwks.now links.now counts.now deadlines.now periods.now heard.now added.now beacons.now bytes.now count) (waits.in_columns senders.now samples.now waiting) }
{
    let known = neighbor_columns::well_formed(
        keys, nwks, links, counts, deadlines, periods, heard, added, beacons, bytes, count,
    );
    let heard_of = waiting_columns::well_formed(senders, samples, waiting);
    known & heard_of
}

// The status of a call that is done or refused.
pub fn done_status(answer: Result<(), Refusal>) -> u8
    ensures { result ≡ done_status answer }
{
    match answer {
        Ok(()) => 0,
        Err(why) => why.number(),
    }
}

// The numbers of a yes or a no.
pub fn say_truth(answer: Result<bool, Refusal>, told: &mut u8) -> u8
    ensures { Says truth_numbers answer told.old told.new result }
{
    match answer {
        Ok(b) => {
            *told = door::flag(b);
            0
        }
        Err(why) => why.number(),
    }
}

// The numbers of an extended address that there may be.
pub fn say_name(answer: Result<Option<Eui64>, Refusal>, found: &mut u8, eui64: &mut u64) -> u8
    ensures { Says name_numbers answer (name_at found.old eui64.old) (name_at found.new eui64.new) result }
{
    match answer {
        Ok(Some(x)) => {
            *found = 1;
            *eui64 = x.0;
            0
        }
        Ok(None) => {
            *found = 0;
            *eui64 = 0;
            0
        }
        Err(why) => why.number(),
    }
}

// The numbers of a network address that there may be.
pub fn say_address(answer: Result<Option<Nwk>, Refusal>, found: &mut u8, nwk: &mut u16) -> u8
    ensures { Says address_numbers answer (address_at found.old nwk.old) (address_at found.new nwk.new) result }
{
    match answer {
        Ok(Some(x)) => {
            *found = 1;
            *nwk = x.0;
            0
        }
        Ok(None) => {
            *found = 0;
            *nwk = 0;
            0
        }
        Err(why) => why.number(),
    }
}
