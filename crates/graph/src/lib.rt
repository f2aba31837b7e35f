// graph: tasks that wait for tasks (request W12 of document 02; section 2.2 of 000). A lent table of tasks in, 64 finishes out.
//
// `finishes` has no `requires` and promises, for every slice of numbers (specs/Promise.antt):
//   equality   its answer is the definition's, `answer` (specs/Table.antt, specs/Graph.antt), for refused tables too
//   reason     it is a refusal at a place if and only if the condition for it holds (specs/Conditions.antt)
//   waiting    an accepted table is answered. No task that takes at most its time ends after its finish, and those that take exactly their
//              times end at it (specs/Graph.antt); no whole run on the bus clock ends after it, where the times are no less than the tight
//              figures of images that list every offset as a start (specs/Images.antt)
// Wrong answers that it rules out: the previous task on the core forgotten, the last finish in place of the largest, a task that waits for
// itself, a 65th task, numbers past the table.
#![tactic(auto)]

ghost use Rattle.std.specs.Prelude.{◌≡◌, length, get_or, ◌+◌, ◌<◌, ◌↔◌, max, IsTrue, EachIndex};
ghost use Rattle.runs.specs.Figures.{largest};
ghost use Rattle.graph.specs.Table.{graph_of, permitted, finishes_of};
ghost use Rattle.graph.specs.Conditions.{AcceptedTable};
ghost use Rattle.graph.specs.Promise.{Equal, Because, Waiting};
ghost use Rattle.graph.specs.Steps.{Rows, Sized, First, Judged};

// Accepted, or the place at which the table is refused under 21; and 64 finishes: 0 past the table, and all 0 if it is refused.
#[derive(Clone, Copy)]
pub struct Answer {
    pub verdict: Result<(), usize>,
    pub finishes: [u64; 64],
}

// The number of tasks in the table, where it is 1 to 64.
fn size(table: &[u64]) -> Option<usize>
    ensures { Sized table.now result }
{
    let n = table.len() / 11;
    if n == 0 || n > 64 || 11 * n != table.len() {
        return None;
    }
    Some(n)
}

// Are all of the task numbers below i? (Tried as `all` of the slice: a table whose tasks wait for none then takes 1.2 to 1.6 times the time. The
// loop by number is unrolled, the other is not.)
fn all_earlier(waits: &[u64], i: usize) -> bool
    ensures { IsTrue result ↔ EachIndex waits.now (λ k. get_or waits.now k 0 < i) }
{
    for k in 0..waits.len() {
        if i as u64 <= waits[k] {
            return false;
        }
    }
    true
}

// Are the numbers of entry i in range, and the tasks it waits for earlier?
fn entry_ok(table: &[u64], i: usize) -> bool
    requires { Rows table.now (i + 1) }
    ensures { result ≡ permitted i (graph_of table.now i) }
{
    let at = 11 * i;
    if 15 < table[at] {
        return false;
    }
    if 6553500000 < table[at + 1] {
        return false;
    }
    let count = table[at + 2];
    if 8 < count {
        return false;
    }
    all_earlier(&table[at + 3..at + 3 + count as usize], i)
}

// The first of n entries that is not permitted.
fn first_refused(table: &[u64], n: usize) -> Option<usize>
    requires { Rows table.now n }
    ensures { First table.now n result }
{
    for i in 0..n {
        if !entry_ok(table, i) {
            return Some(i);
        }
    }
    None
}

// The number of tasks in the table, or the place at which it is refused.
fn tasks(table: &[u64]) -> Result<usize, usize>
    ensures { Judged table.now result }
{
    let Some(n) = size(table) else {
        return Err(0);
    };
    match first_refused(table, n) {
        Some(place) => Err(place),
        None => Ok(n),
    }
}

// The latest of the ends of the tasks with these numbers, and of `previous`.
fn latest(waits: &[u64], ends: &[u64; 64], previous: u64) -> u64
    requires { EachIndex waits.now (λ k. get_or waits.now k 0 < 64) }
    ensures { result ≡ max (largest (length waits.now) (λ k. get_or ends.now (get_or waits.now k 0) 0)) previous }
{
    let mut best = previous;
    for w in waits {
        best = best.max(ends[*w as usize]);
    }
    best
}

// The finishes of n tasks; later places hold 0. `last` has at place c the finish of the last task so far on the core c, or 0.
fn ends_of(table: &[u64], n: usize) -> [u64; 64]
    requires { AcceptedTable table.now n }
    ensures { result ≡ finishes_of table.now }
{
    let mut ends = [0u64; 64];
    let mut last = [0u64; 16];
    for i in 0..n {
        let at = 11 * i;
        let core = table[at] as usize;
        let waits = &table[at + 3..at + 3 + table[at + 2] as usize];
        let end = table[at + 1] + latest(waits, &ends, last[core]);
        ends[i] = end;
        last[core] = end;
    }
    ends
}

// The finish of each task of the table, or the place at which it is refused.
pub fn finishes(table: &[u64]) -> Answer
    ensures equality { Equal table.now result }
    ensures reason { Because table.now result }
    ensures waiting { Waiting table.now result }
{
    match tasks(table) {
        Ok(n) => Answer {
            verdict: Ok(()),
            finishes: ends_of(table, n),
        },
        Err(place) => Answer {
            verdict: Err(place),
            finishes: [0; 64],
        },
    }
}
