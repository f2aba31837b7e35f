// figures: THE entry. An image and a lent table in, an answer out; demands 1, 2 and 3 are its contract.
//
// `figures` has no `requires` and promises, for every image and every table:
//   equality  the answer and the table at exit equal definitions over the image's bytes and the table at entry (`answer`, `table_after`):
//             a refusal's number and place, the table unchanged; or both figures, the exit count and the filled table;
//   demand3   an accepted image with a place for each offset is given figures, and one statement about all its whole runs holds of them (`WholeRuns`);
//   demand2   the published figure is that of Algorithms 1 to 3, and each access takes the wait of Equation 7 and its own cycles (`ByAlgorithms`).
// These definitions are crate answers'; what a run, a wait and both methods are is in crates/runs/specs. specs/Steps.antt is between functions of this crate.
#![tactic(auto)]

ghost use Rattle.std.specs.Prelude.{◌≡◌, ◌+◌, ◌≤◌, length};
ghost use Rattle.runs.specs.Figures.{published};
ghost use Rattle.image.specs.Tasks.{starts_of, task_of};
ghost use Rattle.rows.specs.Fields.{length_at, body_at};
ghost use Rattle.image.specs.Walks.{Walkable};
ghost use Rattle.answers.specs.Promise.{Equal, Demand3, Demand2};
ghost use Rattle.figures.specs.Steps.{Answerable, Answered, Started, StartedSet, Ended, Holding, holding};

use answers::Totals;
use image::{Outline, Task, Walk};
use offsets::Set;
use refusals::{Refusal, Refused};

// The start offsets, which field 2 lists: it is behind field 1, wherever that ends.
fn listed_starts(image: &[u8], n: usize) -> &[u8]
    requires { (n ≡ length_at image.now 1) × (body_at image.now 1 + n ≤ length image.now) }
    ensures { result.now ≡ starts_of image.now }
{
    let place = 6 + image_bytes::word(image, 1);
    &image[place..place + n]
}

// The time 0 at each of the starts, and none elsewhere.
fn start_times(starts: &[u8]) -> [u64; 256]
    ensures { (length result ≡ 256) × Started starts.now 256 result }
{
    let mut out = [times::NO_TIME; 256];
    for o in starts {
        out[*o as usize] = 0;
    }
    out
}

// The set of the starts.
fn start_set(starts: &[u8]) -> Set
    ensures { StartedSet starts.now result }
{
    let mut out = offsets::empty();
    for o in starts {
        out = offsets::join(out, offsets::single(u64::from(*o)));
    }
    out
}

// The longest time at each exit offset.
fn exit_times(task: &Task) -> [u64; 256]
    requires { Walkable task.now.image.now task.now.walk task.now.places.now }
    ensures { Ended task.now.image.now task.now.walk.outline result }
{
    let k = task.walk.outline;
    let mut t = start_times(listed_starts(task.image, k.starts));
    if 1 < k.sets {
        return over_lines(task, &t);
    }
    tight::walk(task, k.entry, &mut t);
    t
}

// The same where the image has lines: the starts have no line fetched, and at the end each offset has its longest time, whichever lines are.
// The two begin and end the walk in other ways, not in the table's size alone, so one function over both sizes would be no plainer.
fn over_lines(task: &Task, start: &[u64; 256]) -> [u64; 256]
    requires { (Walkable task.now.image.now task.now.walk task.now.places.now) × Started (starts_of task.now.image.now) task.now.walk.bus.period start.now }
    ensures { Ended task.now.image.now task.now.walk.outline result }
{
    let w = task.walk;
    let mut t = [times::NO_TIME; 1024];
    times::put(&mut t, 0, start, w.bus.period);
    tight::walk(task, w.outline.entry, &mut t);
    lined::at_offsets(w.bus, w.outline.sets, &t)
}

// The published figure.
fn published_cost(task: &Task) -> u64
    requires { Walkable task.now.image.now task.now.walk task.now.places.now }
    ensures { result ≡ published (task_of task.now.image.now task.now.walk.outline) }
{
    let k = task.walk.outline;
    let start = start_set(listed_starts(task.image, k.starts));
    let all = published::walk(task, k.entry, start);
    all.cost
}

// The offsets below n whose place holds a time.
fn exit_set(t: &[u64; 256], n: usize) -> Set
    requires { n ≤ 256 }
    ensures { Holding t.now n result }
{
    let mut out = offsets::empty();
    for o in 0..n {
        if t[o] != times::NO_TIME {
            out = offsets::join(out, offsets::single(o as u64));
        }
    }
    out
}

// How many places below n hold a time: ones counted over the set's words, as a rule of the project has it.
fn exit_count(t: &[u64; 256], n: usize) -> u64
    requires { n ≤ 256 }
    ensures { result ≡ holding t.now n }
{
    offsets::count(exit_set(t, n)) as u64
}

// The answer for an accepted image: 10, or the figures, worked out on the bus that the image says.
fn given(
    image: &[u8],
    places: &[usize; 256],
    k: Outline,
    table: &mut [u64],
) -> Result<Totals, Refused>
    requires { Answerable image.now k places.now }
    ensures { Answered image.now k table.old result table.new }
{
    let period = k.period;
    if table.len() < period {
        return Err(Refused {
            refusal: Refusal::Table,
            place: image.len(),
        });
    }
    let walk = Walk {
        bus: schedule::bus_at(image),
        outline: k,
    };
    let task = Task {
        image,
        places,
        walk,
    };
    let times = exit_times(&task);
    table[..period].copy_from_slice(&times[..period]);
    Ok(Totals {
        tight: times::longest(times, period),
        published: published_cost(&task),
        exits: exit_count(&times, period),
    })
}

// Both figures, the exit count and the table of exit offsets of a task image; or the number under which it is refused.
pub fn figures(image: &[u8], table: &mut [u64]) -> Result<Totals, Refused>
    ensures equality { Equal image.now table.old result table.new }
    ensures demand3 { Demand3 image.now table.old result table.new }
    ensures demand2 { Demand2 image.now table.old result }
{
    let j = image::judge(image);
    let places = j.places;
    let k = j.verdict?;
    given(image, &places, k, table)
}
