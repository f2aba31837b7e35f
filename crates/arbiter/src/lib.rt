// arbiter: the bus arbiter as a device with registers (document 02, "The arbiter as a device"), its calls with the state by value. Crate `callers`
// has the entries, which are lent the state and name who calls.
//
// `calls::on` makes any call and has no `requires`: for every state and every number the answer and the state after it are those that `outcome`
// (specs/Calls.antt, over specs/Device.antt of crate device) names, refused calls too. A call is refused, with 15 or 16 and place 0, if and only if `RefusedFor`
// (specs/Conditions.antt) holds, and then the state is as it was (`refused_because`, `refused_whenever` in proofs/Reasons.antt).
// Wrong answers that this rules out: an access that starts where its slot does not hold it whole, a first cycle that is not counted, done that
// is kept when a length is written, 16 for a call that 15 refuses, an unused core's registers that are not looked at.
//
// Of calls one after the other (specs/Sequences.antt), in states reached from a reset: a length is done after Equation 7's wait and its own
// cycles and no sooner, which are the cycles of an access of a run (`on_time`, `as_the_clock` in proofs/Timing.antt); no two cores are running
// (`one_running` in proofs/Reach.antt); cores and slot are the reset's, and the offset is the number of ticks since it modulo P
// (`since_reset` in proofs/Timing.antt). From any state: other cores never alter a core's registers or line (`undisturbed` in proofs/Apart.antt).
//
// src/: calls (each kind of call, and any). The state, what it may hold and a tick are crate device.
#![tactic(auto)]

use device::Arbiter;
use refusals::Refused;

pub mod calls;

// A call to the arbiter. Cores and registers go by number: C gives any, and one that names none is refused.
#[derive(Clone, Copy)]
pub enum Call {
    // a core's register; a core's interrupt line
    Read(usize, usize),
    Line(usize),
    // to a core's register, a value
    Write(usize, usize, usize),
    Tick,
    // the cores and the slot length of the bus
    Reset(usize, usize),
}

// The answer to a call: the value read, `None` where nothing is, or the refusal.
pub type Reply = Result<Option<u8>, Refused>;

// The state after a call, and the answer to it.
#[derive(Clone, Copy)]
pub struct Outcome {
    pub state: Arbiter,
    pub reply: Reply,
}
