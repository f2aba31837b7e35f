// linked: the ten functions that C and Rust programs link (include/slotfigures.h, wrapper/), over plain numbers and lent slices.
//
// They have no `requires`, and promise that the status and each lent slice at exit equal definitions over the image's bytes, the task
// table's numbers or the arbiter's bytes, and the slices at entry, for what is accepted and what is refused alike (specs/Linked.antt; of the
// arbiter crates/lent/specs/OnBytes.antt):
//   slotfigures_judge     `judge_call`; wrong answers that it rules out: the place before the number, status 0 for a refused image
//   slotfigures_figures   `figures_call`; ruled out: the published figure in the tight one's place, a short answer that is written to
//   slotfigures_edit      `edit_call`; ruled out: the highest duration as the lowest, an image edited though the answer is too short
//   slotfigures_preview   `preview_call`; ruled out: the figures of the image as it is, a table written to by a refused preview
//   slotfigures_finishes  `finishes_call`; ruled out: another number than 21, finishes of fewer than 64 places that are written to
//   slotfigures_arbiter_reset, _tick, _write, _read, _line
//                         `arbiter_call` of that caller and call; ruled out: a state of 50 bytes that is taken, the core named in the caller's place
// The numbers are those of `image::judge`, `figures::figures`, `edits::edit`, `previews::preview`, `graph::finishes` and the calls of `callers`,
// whose promises hold of them. Of the places that a program reads, `WholeFigures` and `WholePreview` say that figures are given and repeat demand
// 3, `WholeEdit` what an edit leaves, and `WholeFinishes` what finishes say of all starts, ends and whole runs. Calls to the arbiter one after
// the other lead where `after_all_by` of `callers` leads, so its laws and those of `arbiter` hold of the bytes (`bytes_lead`, `bytes_same_answers`
// in crates/lent/proofs/Bytewise.antt).
#![tactic(auto)]

ghost use Rattle.std.specs.Prelude.{◌≡◌, ◌≤◌, length};
ghost use Rattle.answers.specs.Answers.{result_of};
ghost use Rattle.linked.specs.Linked.{judge_call, figures_into, figures_call, WholeFigures, edit_call, WholeEdit, preview_call, WholePreview, finishes_call, WholeFinishes};
ghost use Rattle.arbiter.specs.declared.Call.TheVariants.{Read, Line, Write, Tick, Reset};
ghost use Rattle.lent.specs.OnBytes.{arbiter_call, WholeCall};

use answers::Totals;
use arbiter::Call;
use lent::{DONE, REFUSED, SHORT, done, put, refuse};
use refusals::Refused;

// The number of a refused task table, as C reads it; no image gets it, so it is no case of `Refusal`.
const TASK: u64 = 21;

// The places of an answer that takes figures.
const FIGURES: usize = 3;

// Judges an image. The answer takes 0 and the period, the number of places that a table for it needs, or a refusal's number and place.
#[unsafe(no_mangle)]
pub extern "C" fn slotfigures_judge(image: &[u8], answer: &mut [u64]) -> u64
    ensures { judge_call image.now answer.old ≡ (result, answer.new) }
{
    if answer.len() < 2 {
        return SHORT;
    }
    let judged = image::judge(image);
    let verdict = judged.verdict;
    match verdict {
        Ok(k) => {
            put(answer, 0, k.period as u64);
            DONE
        }
        Err(e) => refuse(answer, e),
    }
}

// The answer takes both figures and the exit count, or a refusal's number and place.
fn tell(answer: &mut [u64], found: Result<Totals, Refused>) -> u64
    requires { 3 ≤ length answer.old }
    ensures { figures_into (result_of found) answer.old ≡ (result, answer.new) }
{
    match found {
        Ok(f) => {
            put(answer, f.tight, f.published);
            answer[2] = f.exits;
            DONE
        }
        Err(e) => refuse(answer, e),
    }
}

// Both figures, the exit count and the table of an image. The answer takes them, or a refusal's number and place.
#[unsafe(no_mangle)]
pub extern "C" fn slotfigures_figures(image: &[u8], table: &mut [u64], answer: &mut [u64]) -> u64
    ensures equality { figures_call image.now table.old answer.old ≡ (result, table.new, answer.new) }
    ensures demand3 { WholeFigures image.now table.old answer.old result table.new answer.new }
{
    if answer.len() < FIGURES {
        return SHORT;
    }
    let found = figures::figures(image, table);
    tell(answer, found)
}

// Sets one plain block's durations in the image. The answer takes 0 and 0, or a refusal's number and place, and then the image keeps its bytes.
#[unsafe(no_mangle)]
pub extern "C" fn slotfigures_edit(
    image: &mut [u8],
    node: u64,
    lowest: u64,
    highest: u64,
    answer: &mut [u64],
) -> u64
    ensures equality { edit_call image.old node lowest highest answer.old ≡ (result, image.new, answer.new) }
    ensures done { WholeEdit image.old node lowest highest answer.old result image.new }
{
    if answer.len() < 2 {
        return SHORT;
    }
    let edited = edits::edit(image, node as usize, lowest as usize, highest as usize);
    match edited {
        Ok(()) => done(answer),
        Err(e) => refuse(answer, e),
    }
}

// What slotfigures_edit on a copy and then slotfigures_figures would give; the image stays as it is.
#[unsafe(no_mangle)]
pub extern "C" fn slotfigures_preview(
    image: &[u8],
    node: u64,
    lowest: u64,
    highest: u64,
    table: &mut [u64],
    answer: &mut [u64],
) -> u64
    ensures equality { preview_call image.now node lowest highest table.old answer.old ≡ (result, table.new, answer.new) }
    ensures demand3 { WholePreview image.now node lowest highest table.old answer.old result table.new answer.new }
{
    if answer.len() < FIGURES {
        return SHORT;
    }
    let found = previews::preview(
        image,
        node as usize,
        lowest as usize,
        highest as usize,
        table,
    );
    tell(answer, found)
}

// The finishes of a table of tasks that wait for tasks, eleven numbers to a task. The first 64 places of `finishes` take them, all 0 if the
// table is refused; the answer takes 0 and 0, or the refusal's number and place.
#[unsafe(no_mangle)]
pub extern "C" fn slotfigures_finishes(
    table: &[u64],
    finishes: &mut [u64],
    answer: &mut [u64],
) -> u64
    ensures equality { finishes_call table.now finishes.old answer.old ≡ (result, finishes.new, answer.new) }
    ensures waiting { WholeFinishes table.now finishes.old answer.old result finishes.new }
{
    if answer.len() < 2 {
        return SHORT;
    }
    if finishes.len() < 64 {
        return SHORT;
    }
    let found = graph::finishes(table);
    let verdict = found.verdict;
    let ends = found.finishes;
    finishes[..64].copy_from_slice(&ends);
    match verdict {
        Ok(()) => done(answer),
        Err(place) => {
            put(answer, TASK, place as u64);
            REFUSED
        }
    }
}

// A bus of so many cores and such a slot length, with all registers and the offset clear.
#[unsafe(no_mangle)]
pub extern "C" fn slotfigures_arbiter_reset(
    state: &mut [u8],
    caller: u64,
    cores: u64,
    slot: u64,
    answer: &mut [u64],
) -> u64
    ensures equality { arbiter_call caller (Reset cores slot) state.old answer.old ≡ (result, state.new, answer.new) }
    ensures whole { WholeCall caller (Reset cores slot) state.old answer.old result state.new answer.new }
{
    lent::call(
        state,
        answer,
        caller as usize,
        Call::Reset(cores as usize, slot as usize),
    )
}

// One cycle of the bus.
#[unsafe(no_mangle)]
pub extern "C" fn slotfigures_arbiter_tick(state: &mut [u8], caller: u64, answer: &mut [u64]) -> u64
    ensures equality { arbiter_call caller Tick state.old answer.old ≡ (result, state.new, answer.new) }
    ensures whole { WholeCall caller Tick state.old answer.old result state.new answer.new }
{
    lent::call(state, answer, caller as usize, Call::Tick)
}

// A value to a core's register: 0 length, 1 flags, 2 interrupt mask.
#[unsafe(no_mangle)]
pub extern "C" fn slotfigures_arbiter_write(
    state: &mut [u8],
    caller: u64,
    core: u64,
    register: u64,
    value: u64,
    answer: &mut [u64],
) -> u64
    ensures equality { arbiter_call caller (Write core register value) state.old answer.old ≡ (result, state.new, answer.new) }
    ensures whole { WholeCall caller (Write core register value) state.old answer.old result state.new answer.new }
{
    lent::call(
        state,
        answer,
        caller as usize,
        Call::Write(core as usize, register as usize, value as usize),
    )
}

// A core's register.
#[unsafe(no_mangle)]
pub extern "C" fn slotfigures_arbiter_read(
    state: &mut [u8],
    caller: u64,
    core: u64,
    register: u64,
    answer: &mut [u64],
) -> u64
    ensures equality { arbiter_call caller (Read core register) state.old answer.old ≡ (result, state.new, answer.new) }
    ensures whole { WholeCall caller (Read core register) state.old answer.old result state.new answer.new }
{
    lent::call(
        state,
        answer,
        caller as usize,
        Call::Read(core as usize, register as usize),
    )
}

// A core's interrupt line.
#[unsafe(no_mangle)]
pub extern "C" fn slotfigures_arbiter_line(
    state: &mut [u8],
    caller: u64,
    core: u64,
    answer: &mut [u64],
) -> u64
    ensures equality { arbiter_call caller (Line core) state.old answer.old ≡ (result, state.new, answer.new) }
    ensures whole { WholeCall caller (Line core) state.old answer.old result state.new answer.new }
{
    lent::call(state, answer, caller as usize, Call::Line(core as usize))
}
