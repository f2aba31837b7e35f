// What a state may hold (15), and the registers of one core.
ghost use Rattle.std.specs.Prelude.{◌≡◌, ◌<◌};
ghost use Rattle.device.specs.Device.{fits, all_fit, formed, usable, registers_of, with_registers};

use crate::{Arbiter, DONE, Registers};

// Are one core's registers in range?
#[tactic(auto, unfolding(crate::specs::Device::fits, crate::specs::Device::flags_fit))]
fn registers_ok(slot: u8, r: Registers) -> bool
    ensures { result ≡ fits slot r }
{
    r.length <= slot && r.mask <= 1 && (matches!(r.flags, 0 | DONE) || r.is_busy() && 1 <= r.length)
}

// Are those of all 16 cores, used or not?
fn all_ok(s: Arbiter) -> bool
    ensures { result ≡ all_fit s.slot s.registers }
{
    s.registers.iter().all(|r| registers_ok(s.slot, *r))
}

// Is the state in range?
#[tactic(auto, unfolding(crate::specs::Device::formed))]
pub fn state_ok(s: Arbiter) -> bool
    ensures { result ≡ formed s }
{
    let cores = s.cores as usize;
    let slot = s.slot as usize;
    schedule::bus_ok(cores, slot, 0) && (s.offset as usize) < cores * slot && all_ok(s)
}

// Is the state in range, and has the bus a core with this number?
#[tactic(auto, unfolding(crate::specs::Device::usable))]
pub fn core_ok(s: Arbiter, core: usize) -> bool
    ensures { result ≡ usable s core }
{
    state_ok(s) && core < s.cores as usize
}

pub fn registers_at(s: Arbiter, core: usize) -> Registers
    requires { core < 16 }
    ensures { result ≡ registers_of s core }
{
    s.registers[core]
}

pub fn with_registers(s: Arbiter, core: usize, r: Registers) -> Arbiter
    requires { core < 16 }
    ensures { result ≡ with_registers s core r }
{
    let mut registers = s.registers;
    registers[core] = r;
    Arbiter { registers, ..s }
}
