// callers: who may touch the arbiter (document 02, "Who may touch the arbiter"). Each call names its caller, a core number or 16 for the workshop.
//
// The entries `read`, `line`, `write`, `tick` and `reset` are lent the state by `&mut` and have no `requires`. Each promises `Answers` of
// specs/Promise.antt for every state, caller and number: the answer and the state at exit are those that `outcome_by` (specs/Callers.antt, over
// `outcome` of crate `arbiter`) names, refused calls too; and the call is refused, with 17, 15 or 16 and place 0, if and only if the condition for
// it holds (`RefusedBy` of specs/Conditions.antt), and then the state is as it was.
// Wrong answers that this rules out: a write by the workshop, a tick by a core, a neighbour's line that is told, 15 for a call that 17 refuses, a
// right that goes by the register, a caller 17 that is taken for the workshop.
//
// Of calls one after the other: they lead where those among them lead that their callers have the right to, so the laws of `arbiter` hold of them
// (`permitted_lead`, `reached_by` in proofs/Rights.antt); and from one reset on, what a core is answered goes by its own calls and the workshop's
// ticks and resets alone (`same_answers` in proofs/Unseen.antt).
#![tactic(auto)]

ghost use Rattle.std.specs.Prelude.{◌≡◌};
ghost use Rattle.arbiter.specs.declared.Call.TheVariants.{Read, Line, Write, Tick, Reset};
ghost use Rattle.callers.specs.Callers.{is_own, may_read, has_right, outcome_by};
ghost use Rattle.callers.specs.Promise.{Answers};

use arbiter::calls::{on, refuse};
use arbiter::{Call, Outcome, Reply};
use device::Arbiter;
use refusals::Refusal;

// The caller that is no core. Callers are numbers: C gives any, and one that is neither is refused.
const WORKSHOP: usize = 16;

// Is the caller a core, and this its number?
#[tactic(auto, unfolding(crate::specs::Callers::is_own))]
fn owns(caller: usize, core: usize) -> bool
    ensures { result ≡ is_own caller core }
{
    caller < WORKSHOP && caller == core
}

// May the caller read this core's registers and line?
fn may_read(caller: usize, core: usize) -> bool
    ensures { result ≡ may_read caller core }
{
    caller == WORKSHOP || owns(caller, core)
}

// Has the caller the right to this call? It goes by caller, core and call, not by register or value.
#[tactic(auto, unfolding(crate::specs::Callers::has_right, crate::specs::Callers::is_own))]
fn has_right(caller: usize, c: Call) -> bool
    ensures { result ≡ has_right caller c }
{
    match c {
        Call::Read(core, _) | Call::Line(core) => may_read(caller, core),
        Call::Write(core, _, _) => owns(caller, core),
        Call::Tick | Call::Reset(_, _) => caller == WORKSHOP,
    }
}

// A caller's call, with the state by value.
#[tactic(auto, unfolding(crate::specs::Callers::outcome_by))]
pub fn asked(s: Arbiter, caller: usize, c: Call) -> Outcome
    ensures { result ≡ outcome_by caller c s }
{
    if !has_right(caller, c) {
        return refuse(Refusal::Forbidden, s);
    }
    on(s, c)
}

// A caller's call on the lent state: it is copied out, and the state that the call leaves is stored.
#[tactic(auto, using(crate::proofs::Rights::promised))]
fn make(a: &mut Arbiter, caller: usize, c: Call) -> Reply
    ensures { Answers caller c a.old a.new result }
{
    let o = asked(*a, caller, c);
    *a = o.state;
    o.reply
}

// A core's register.
pub fn read(a: &mut Arbiter, caller: usize, core: usize, register: usize) -> Reply
    ensures { Answers caller (Read core register) a.old a.new result }
{
    make(a, caller, Call::Read(core, register))
}

// A core's interrupt line.
pub fn line(a: &mut Arbiter, caller: usize, core: usize) -> Reply
    ensures { Answers caller (Line core) a.old a.new result }
{
    make(a, caller, Call::Line(core))
}

// A value to a core's register.
pub fn write(a: &mut Arbiter, caller: usize, core: usize, register: usize, value: usize) -> Reply
    ensures { Answers caller (Write core register value) a.old a.new result }
{
    make(a, caller, Call::Write(core, register, value))
}

// One cycle of the bus.
pub fn tick(a: &mut Arbiter, caller: usize) -> Reply
    ensures { Answers caller Tick a.old a.new result }
{
    make(a, caller, Call::Tick)
}

// A bus of this many cores and this slot length, with all registers and the offset clear.
pub fn reset(a: &mut Arbiter, caller: usize, cores: usize, slot: usize) -> Reply
    ensures { Answers caller (Reset cores slot) a.old a.new result }
{
    make(a, caller, Call::Reset(cores, slot))
}
