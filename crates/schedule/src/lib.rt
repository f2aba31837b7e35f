// schedule: field 1 of an image, the bus that it says: equal slots (document 01, tag 1), or the analysed core and pairs of core and slot length
// (document 02, W5, tag 9).
//
// Promises: `bus_ok` and `schedule_ok` are the rules of both rows; of a field that keeps them, `period_at` is the period and `most_at` the longest
// access of the bus that it says, and `bus_at` is that bus as the offsets that the core owns.
// Definitions: specs/Said.antt, over crates/runs/specs/Slots.antt and Schedules.antt.
#![tactic(auto)]

ghost use Rattle.std.specs.Prelude.{◌≡◌, cond, ◌+◌, ◌<◌, ◌≤◌};
ghost use Rattle.runs.specs.Bus.{SameBus};
ghost use Rattle.runs.specs.Schedules.{total};
ghost use Rattle.offsets.specs.Sets.{value};
ghost use Rattle.bus.specs.Owning.{bus_meant, Fit};
ghost use Rattle.schedule.specs.Said.{within, bus_ok, turns_at, schedule_of, schedule_at, schedule_ok, said, Scheduled, Ranged};
ghost use Rattle.schedule.specs.Inner.{Divides};

use bus::{Bus, Slots};
use image_bytes::{byte, word};
use offsets::Set;

// The offsets that the analysed core owns, those that it does not, and the period.
#[derive(Clone, Copy)]
pub struct Divided {
    pub own: Set,
    pub rest: Set,
    pub period: usize,
}

// Is n from low to high?
pub fn between(low: usize, high: usize, n: usize) -> bool
    ensures { result ≡ within low high n }
{
    (low..=high).contains(&n)
}

// Are these numbers of a bus in the ranges of tag 1? Any numbers may be asked about: a reset of the arbiter passes on what it is given.
#[tactic(auto, unfolding(crate::specs::Said::bus_ok))]
pub fn bus_ok(cores: usize, slot: usize, core: usize) -> bool
    ensures { result ≡ bus_ok cores slot core }
{
    between(2, 16, cores) && between(1, 128, slot) && core < cores && cores * slot <= 256
}

// Does a schedule in a body of `len` bytes keep the rules of tag 9?
pub fn schedule_ok(image: &[u8], body: usize, len: usize) -> bool
    requires { body + len < 18446744073709551615 }
    ensures { result ≡ schedule_ok (schedule_of image.now body len) }
{
    let core = byte(image, body);
    let mut found = false;
    let mut sum = 0;
    for i in 0..len / 2 {
        let place = body + 1 + 2 * i;
        let owner = byte(image, place);
        let slot = byte(image, place + 1);
        if 15 < owner {
            return false;
        }
        if !between(1, 128, slot) {
            return false;
        }
        sum += slot;
        if 256 < sum {
            return false;
        }
        if owner == core {
            found = true;
        }
    }
    found
}

// The sum of the slot lengths of `pairs` pairs from a place on.
fn sum_of(image: &[u8], place: usize, pairs: usize) -> usize
    requires { (place ≤ 65536) × (pairs ≤ 65536) }
    ensures { result ≡ total (turns_at image.now place pairs) }
{
    let mut sum = 0;
    for i in 0..pairs {
        sum += byte(image, place + 2 * i + 1);
    }
    sum
}

// The period of the bus.
pub fn period_at(image: &[u8]) -> usize
    requires { Ranged image.now }
    ensures { (result ≡ (said image.now).period) × (result ≤ 256) }
{
    if byte(image, 0) == 9 {
        return sum_of(image, 4, word(image, 1) / 2);
    }
    byte(image, 3) * byte(image, 4)
}

// A set, or none.
fn only_if(test: bool, s: Set) -> Set
    ensures { value result ≡ cond test (value s) 0 }
{
    if test {
        return s;
    }
    offsets::empty()
}

// The period of a schedule, divided: each slot goes to one of the two sets.
fn divide(image: &[u8]) -> Divided
    requires { Scheduled (schedule_at image.now) }
    ensures { Divides image.now result }
{
    let core = byte(image, 3);
    let pairs = word(image, 1) / 2;
    let mut own = offsets::empty();
    let mut rest = offsets::empty();
    let mut at = 0;
    for i in 0..pairs {
        let owner = byte(image, 4 + 2 * i);
        let slot = byte(image, 4 + 2 * i + 1);
        let cycles = offsets::up(offsets::below(slot as u64), at as u64);
        let mine = owner == core;
        own = offsets::join(own, only_if(mine, cycles));
        rest = offsets::join(rest, only_if(!mine, cycles));
        at += slot;
    }
    Divided {
        own,
        rest,
        period: at,
    }
}

// The bus, as the offsets that the core owns.
pub fn bus_at(image: &[u8]) -> Bus
    requires { Ranged image.now }
    ensures { Fit result × SameBus (bus_meant result) (said image.now) }
{
    if byte(image, 0) == 9 {
        let x = divide(image);
        return bus::of_offsets(x.own, x.rest, x.period);
    }
    bus::equal_slots(Slots {
        cores: byte(image, 3),
        slot: byte(image, 4),
        core: byte(image, 5),
    })
}

// The longest access of the bus, in cycles.
pub fn most_at(image: &[u8]) -> usize
    requires { Ranged image.now }
    ensures { result ≡ (said image.now).most }
{
    if byte(image, 0) == 9 {
        let b = bus_at(image);
        return b.most;
    }
    byte(image, 4)
}
