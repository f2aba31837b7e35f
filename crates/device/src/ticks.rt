// A tick: each core's registers step, then the offset moves on.
ghost use Rattle.std.specs.Prelude.{◌≡◌, true, ◌≤◌, ◌<◌};
ghost use Rattle.bus.specs.Waits.{slots_of};
ghost use Rattle.device.specs.Device.{formed, starts_now, turned, count_down, stepped, ticked};

use crate::{Arbiter, DONE, RUNNING, Registers, WAITING};
use bus::Slots;

// A cycle of the bus, as one core sees it: numbers whose products and sums fit.
#[derive(Clone, Copy)]
struct Cycle {
    slots: Slots,
    offset: usize,
    ghost slot_most: { slots.slot ≤ 128 },
    ghost core_lt: { slots.core < 16 },
    ghost offset_lt: { offset < 256 },
}

impl Cycle {
    // Does the access start now: is the core waiting, and does its slot still hold the whole length?
    #[tactic(auto, unfolding(crate::specs::Device::starts_now, runs::specs::Slots::in_slot))]
    fn starts(self, r: Registers) -> bool
        ensures { result ≡ starts_now (slots_of self.slots) self.offset r }
    {
        if r.flags != WAITING {
            return false;
        }
        let b = self.slots;
        let length = r.length as usize;
        let first = b.core * b.slot;
        first <= self.offset && self.offset + length <= first + b.slot
    }

    // An access that starts turns from waiting to running.
    #[tactic(auto, unfolding(crate::specs::Device::turned))]
    fn turn(self, r: Registers) -> Registers
        ensures { result ≡ turned (slots_of self.slots) self.offset r }
    {
        if !self.starts(r) {
            return r;
        }
        Registers {
            flags: RUNNING,
            ..r
        }
    }

    // The core's registers after the cycle.
    #[tactic(auto, unfolding(crate::specs::Device::fallen))]
    fn step(self, r: Registers) -> Registers
        ensures { result ≡ stepped (slots_of self.slots) self.offset r }
    {
        let t = self.turn(r);
        if t.flags == RUNNING {
            return count_down(t);
        }
        t
    }
}

// A running length falls by one, and at zero running gives way to done.
#[tactic(auto, unfolding(crate::specs::Device::count_down))]
fn count_down(r: Registers) -> Registers
    ensures { result ≡ count_down r }
{
    if r.length <= 1 {
        return Registers {
            length: 0,
            flags: DONE,
            ..r
        };
    }
    Registers {
        length: r.length - 1,
        flags: RUNNING,
        ..r
    }
}

// The state after a tick.
pub fn ticked_state(s: Arbiter) -> Arbiter
    requires { formed s ≡ true }
    ensures { result ≡ ticked s }
{
    let cores = s.cores as usize;
    let slot = s.slot as usize;
    let offset = s.offset as usize;
    let mut registers = s.registers;
    for (core, r) in registers.iter_mut().enumerate() {
        let slots = Slots { cores, slot, core };
        let cycle = Cycle { slots, offset };
        *r = cycle.step(*r);
    }
    let next = (offset + 1) % (cores * slot);
    Arbiter {
        offset: next as u8,
        registers,
        ..s
    }
}
