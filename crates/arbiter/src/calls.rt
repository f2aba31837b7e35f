// Each kind of call, with the state by value: the outcome is the state after it and the answer.
ghost use Rattle.std.specs.Prelude.{◌≡◌, ◌<◌};
ghost use Rattle.device.specs.Device.{register_at, line_of, writable};
ghost use Rattle.arbiter.specs.declared.Call.TheVariants.{Read, Line, Write, Tick, Reset};
ghost use Rattle.arbiter.specs.Calls.{outcome, written, tell, leave};

use crate::{Call, Outcome};
use device::states::{core_ok, registers_at, state_ok, with_registers};
use device::ticks::ticked_state;
use device::{Arbiter, DONE, Registers, WAITING};
use refusals::{Refusal, Refused};

pub fn refuse(r: Refusal, s: Arbiter) -> Outcome
    ensures { result ≡ Rattle.arbiter.specs.Calls.refuse r s }
{
    Outcome {
        state: s,
        reply: Err(Refused {
            refusal: r,
            place: 0,
        }),
    }
}

fn accept(s: Arbiter) -> Outcome
    ensures { result ≡ leave s }
{
    Outcome {
        state: s,
        reply: Ok(None),
    }
}

fn tell_value(value: u8, s: Arbiter) -> Outcome
    ensures { result ≡ tell value s }
{
    Outcome {
        state: s,
        reply: Ok(Some(value)),
    }
}

#[tactic(auto, unfolding(device::specs::Device::register_at))]
fn register_value(register: usize, r: Registers) -> u8
    ensures { result ≡ register_at register r }
{
    match register {
        0 => r.length,
        1 => r.flags,
        _ => r.mask,
    }
}

#[tactic(auto, unfolding(device::specs::Device::line_of))]
fn line_value(r: Registers) -> u8
    ensures { result ≡ line_of r }
{
    u8::from(r.flags == DONE && r.mask == 1)
}

// May the value be written to the register?
#[tactic(auto, unfolding(device::specs::Device::writable))]
fn value_ok(slot: usize, register: usize, value: usize) -> bool
    ensures { result ≡ writable slot register value }
{
    match register {
        0 => (1..=slot).contains(&value),
        2 => value <= 1,
        _ => false,
    }
}

// A write that 15 does not refuse.
#[tactic(auto, unfolding(crate::specs::Calls::written))]
fn store(s: Arbiter, core: usize, register: usize, value: u8) -> Outcome
    requires { core < 16 }
    ensures { result ≡ written core register value s }
{
    let r = registers_at(s, core);
    if register == 0 {
        let waiting = Registers {
            length: value,
            flags: WAITING,
            ..r
        };
        let next = with_registers(s, core, waiting);
        if r.is_busy() {
            return refuse(Refusal::Busy, s);
        }
        return accept(next);
    }
    accept(with_registers(s, core, Registers { mask: value, ..r }))
}

#[tactic(auto, using(device::proofs::Formed::usable_lt), unfolding(crate::specs::Calls::outcome))]
fn on_read(s: Arbiter, core: usize, register: usize) -> Outcome
    ensures { result ≡ outcome (Read core register) s }
{
    if !core_ok(s, core) || 3 <= register {
        return refuse(Refusal::Register, s);
    }
    tell_value(register_value(register, registers_at(s, core)), s)
}

#[tactic(auto, using(device::proofs::Formed::usable_lt), unfolding(crate::specs::Calls::outcome))]
fn on_line(s: Arbiter, core: usize) -> Outcome
    ensures { result ≡ outcome (Line core) s }
{
    if !core_ok(s, core) {
        return refuse(Refusal::Register, s);
    }
    tell_value(line_value(registers_at(s, core)), s)
}

#[tactic(auto, using(device::proofs::Formed::usable_lt), unfolding(crate::specs::Calls::outcome))]
fn on_write(s: Arbiter, core: usize, register: usize, value: usize) -> Outcome
    ensures { result ≡ outcome (Write core register value) s }
{
    if !core_ok(s, core) || !value_ok(s.slot as usize, register, value) {
        return refuse(Refusal::Register, s);
    }
    store(s, core, register, value as u8)
}

#[tactic(auto, unfolding(crate::specs::Calls::outcome))]
fn on_tick(s: Arbiter) -> Outcome
    ensures { result ≡ outcome Tick s }
{
    if !state_ok(s) {
        return refuse(Refusal::Register, s);
    }
    accept(ticked_state(s))
}

#[tactic(auto, unfolding(crate::specs::Calls::outcome, device::specs::Device::cleared))]
fn on_reset(s: Arbiter, cores: usize, slot: usize) -> Outcome
    ensures { result ≡ outcome (Reset cores slot) s }
{
    if !schedule::bus_ok(cores, slot, 0) {
        return refuse(Refusal::Register, s);
    }
    accept(Arbiter {
        cores: cores as u8,
        slot: slot as u8,
        offset: 0,
        registers: [Registers::default(); 16],
    })
}

// Any call. (A match and no closures: C names the call, and each takes other numbers.)
pub fn on(s: Arbiter, c: Call) -> Outcome
    ensures { result ≡ outcome c s }
{
    match c {
        Call::Read(core, register) => on_read(s, core, register),
        Call::Line(core) => on_line(s, core),
        Call::Write(core, register, value) => on_write(s, core, register, value),
        Call::Tick => on_tick(s),
        Call::Reset(cores, slot) => on_reset(s, cores, slot),
    }
}
