// lent: what the library's functions do with what C and Rust programs lend: the first places of an answer are set, and a call to the arbiter is
// made on the bytes of its state.
//
// `put`, `done` and `refuse` set an answer's first two places, the latter two with the status (specs/Answers.antt). `call` has no `requires`: the
// status, the bytes and the answer at exit equal `arbiter_call` (specs/OnBytes.antt), which is `outcome_by` of crate `callers` over the bytes, for
// every caller and call, refused ones too, and every length of both slices; and `WholeCall` says what the program finds when it is refused and
// when done. Wrong answers that it rules out: a state of 50 bytes that is taken, a place that is told before its number, an answer of one place
// that is written to.
// Calls one after the other lead where `after_all_by` of `callers` leads, behind a reset to reached states, and tell a core the same whatever other
// cores call, so the laws of both crates hold of the bytes (`bytes_lead`, `bytes_reached`, `bytes_same_answers` in proofs/Bytewise.antt).
#![tactic(auto)]

ghost use Rattle.std.specs.Prelude.{◌≡◌, ◌∷◌, ◌≤◌, length, drop};
ghost use Rattle.refusals.specs.Refusals.{number_of};
ghost use Rattle.arbiter.specs.Calls.{told};
ghost use Rattle.lent.specs.Answers.{done_into, refused_into};
ghost use Rattle.lent.specs.OnBytes.{room, told_into, arbiter_into, arbiter_call, WholeCall};

use crate::state_bytes::{BYTES, put_state, state_of};
use arbiter::{Call, Outcome, Reply};
use refusals::Refused;

mod state_bytes;

// Statuses are numbers, which C reads. This one: accepted, the edit or the call to the arbiter is done, or the figures or finishes are given.
pub const DONE: u64 = 0;

// Status: refused.
pub const REFUSED: u64 = 1;

// Status: the answer or the finishes have too few places, or the arbiter's state has not 51 bytes.
pub const SHORT: u64 = 2;

// The first two places of an answer; later ones keep their contents.
// Each function asks for the two places by itself: the answer is a slice of any length that C lends.
pub fn put(answer: &mut [u64], first: u64, second: u64)
    requires { 2 ≤ length answer.old }
    ensures { answer.new ≡ first ∷ second ∷ drop 2 answer.old }
{
    answer[0] = first;
    answer[1] = second;
}

// Done, and there is nothing to tell: the answer takes 0 and 0.
pub fn done(answer: &mut [u64]) -> u64
    requires { 2 ≤ length answer.old }
    ensures { done_into answer.old ≡ (result, answer.new) }
{
    put(answer, 0, 0);
    DONE
}

// Refused: the answer takes the number and the place.
pub fn refuse(answer: &mut [u64], r: Refused) -> u64
    requires { 2 ≤ length answer.old }
    ensures { refused_into (number_of r.refusal) r.place answer.old ≡ (result, answer.new) }
{
    put(answer, u64::from(r.refusal), r.place as u64);
    REFUSED
}

// Has the answer two places, and is the state as long as a state of the arbiter is?
#[tactic(auto, unfolding(crate::specs::OnBytes::room))]
fn has_room(state: &[u8], answer: &[u64]) -> bool
    ensures { result ≡ room state.now answer.now }
{
    2 <= answer.len() && state.len() == BYTES
}

// What a call to the arbiter answers: 0 and the value read, 0 where none is, or the number and the place.
fn reply(answer: &mut [u64], r: Reply) -> u64
    requires { 2 ≤ length answer.old }
    ensures { told_into (told r) answer.old ≡ (result, answer.new) }
{
    match r {
        Ok(None) => done(answer),
        Ok(Some(v)) => {
            put(answer, 0, v as u64);
            DONE
        }
        Err(e) => refuse(answer, e),
    }
}

// The state after a call to the arbiter, and what it answers.
fn conclude(state: &mut [u8], answer: &mut [u64], o: Outcome) -> u64
    requires { (length state.old ≡ 51) × (2 ≤ length answer.old) }
    ensures { arbiter_into o answer.old ≡ (result, state.new, answer.new) }
{
    put_state(state, o.state);
    reply(answer, o.reply)
}

// A caller's call to the arbiter whose state is in the bytes: the state after it is put back, and the answer takes what it answers.
#[tactic(auto, using(crate::proofs::Bytewise::whole_call, crate::proofs::Bytewise::has_room), unfolding(crate::specs::OnBytes::arbiter_call))]
pub fn call(state: &mut [u8], answer: &mut [u64], caller: usize, c: Call) -> u64
    ensures equality { arbiter_call caller c state.old answer.old ≡ (result, state.new, answer.new) }
    ensures whole { WholeCall caller c state.old answer.old result state.new answer.new }
{
    if !has_room(state, answer) {
        return SHORT;
    }
    let o = callers::asked(state_of(state), caller, c);
    conclude(state, answer, o)
}
