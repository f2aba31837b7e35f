// iterations: what a loop of the tight figure does between its iterations (document 01, "In a loop, iteration i + 1 starts from the whole
// exit set of iteration i"), over lent tables of n places each.
//
// Promises: the exits before the first iteration (`BegunBy`) and after one more (`TurnedBy`) are those of the definition; what is seen of a loop
// is true of it (`KeptBy`, `WatchedBy`), and skipping whole cycles is walking them (`SkippedBy`).
// Definitions: specs/Iterations.antt, over crates/runs/specs/Parts.antt, crates/cycles/specs and crates/times/specs/Arrays.antt.
#![tactic(auto)]

ghost use Rattle.std.specs.Prelude.{◌≡◌, length, ◌+◌, ◌≤◌};
ghost use Rattle.times.specs.Arrays.{Fits};
ghost use Rattle.cycles.specs.Cycles.{Small};
ghost use Rattle.iterations.specs.Iterations.{Empty, BegunBy, TurnedBy, WatchedBy, SkippedBy, KeptBy};

use cycles::{Search, Watch};

// The exits before the first iteration: what stands then, behind the first test, where 0 is a permitted count, and else none.
pub fn before_first(n: usize, least: usize, t: &[u64], out: &mut [u64])
    requires { (n ≤ length t.now) × Empty n out.old }
    ensures { (length out.new ≡ length out.old) × BegunBy n least t.now out.new }
{
    if least == 0 {
        times::copy(out, t, n);
    }
}

// What is kept before the first iteration, and whether anything is: what stands then, but where at most one iteration is to come nothing is kept.
pub fn kept(n: usize, greatest: usize, t: &[u64], old: &mut [u64]) -> bool
    requires { (n ≤ length t.now) × (n ≤ length old.old) }
    ensures { KeptBy n t.now old.old old.new result }
{
    if greatest <= 1 {
        return false;
    }
    times::copy(old, t, n);
    true
}

// The exits after one more iteration, which left the times `next`.
pub fn joined(n: usize, least: usize, done: usize, next: &[u64], out: &mut [u64])
    requires { (done ≤ 10000) × (n ≤ length next.now) × (n ≤ length out.old) }
    ensures { (length out.new ≡ length out.old) × TurnedBy n least done out.old next.now out.new }
{
    if least <= done + 1 {
        times::join(out, next, n);
    }
}

// What is seen after one more iteration, which left the times `cur`: a cycle where these are the kept ones, all later by one gain.
pub fn watched(n: usize, cur: &[u64], old: &mut [u64], w: Watch) -> Watch
    requires { (n ≤ length cur.now) × (n ≤ length old.old) × (w.done ≤ 9999) × Small w }
    ensures { WatchedBy n cur.now old.old w old.new result }
{
    match w.search {
        Search::On(_) => {
            let gain = times::rise(old, cur, n);
            let same = times::is_later(old, cur, n, gain);
            let r = cycles::seen(w, same, gain);
            if r.is_due() {
                times::copy(old, cur, n);
            }
            r
        }
        _ => cycles::seen(w, false, 0),
    }
}

// Of the `left` iterations to come whole cycles are skipped; what is left then is only walked.
pub fn skipped(n: usize, left: usize, w: Watch, cur: &mut [u64]) -> Watch
    requires { (n ≤ length cur.old) × (w.done + left ≤ 10000) × Small w × Fits n cur.old }
    ensures { SkippedBy n left w cur.old cur.new result }
{
    match w.search {
        Search::Found(c) => {
            let jumps = cycles::jumps(c.length, left);
            times::all_later(cur, n, jumps * c.gain);
            Watch {
                done: w.done + jumps * c.length,
                search: Search::Off,
            }
        }
        _ => Watch {
            done: w.done,
            search: Search::Off,
        },
    }
}
