// waiting: the entries of a table that wait for an access (document 01, "The bus and a run"), on any bus. Each waits for a stretch of offsets that the
// core owns, and starts where that begins. Going once round the period from stretch to stretch, an access that a stretch has room for starts there, or
// within it, and one that it has no room for waits on. What waits with a duration is the longest time kept for it and for the shorter ones, each as it
// would be at the end of the round: so what waits on past a stretch is written at one duration only. A time is kept as one more, and none as 0: the
// longest of such numbers is the largest. (An Option is no plainer: the longest of two would be four cases.)
//
// Promise: `arrive_all` joins to a table the entries that wait, or stand where a stretch begins, for each duration that the stretch has room for
// (`LeftAll`).
// Definitions: specs/Waiting.antt, over crates/runs/specs/Stretches.antt.
#![tactic(auto)]

ghost use Rattle.std.specs.Prelude.{◌≡◌, length, ◌+◌, ◌<◌, ◌≤◌, max};
ghost use Rattle.runs.specs.Figures.{later as laterBy};
ghost use Rattle.bus.specs.Owning.{owns, Fit};
ghost use Rattle.times.specs.Arrays.{no_time, time_of, Fits, Row};
ghost use Rattle.waiting.specs.Waiting.{Reach, Come, ComeLater, Shorter, WaitsOn, kept_time, among, Small, Ended, LeftBy, LeftAll};

use bus::Bus;

// The longest time of the entries from `from` to below `to`, each `base - o` cycles later.
fn reach(t: &[u64], period: usize, from: usize, to: usize, base: usize) -> u64
    requires { Row period t.now × (from ≤ to) × (to ≤ period) × (to ≤ base + 1) × (base ≤ 512) }
    ensures { Reach period t.now from to base result }
{
    let mut best = times::NO_TIME;
    for o in from..to {
        best = times::longer_of(best, times::later_by(t[o], base - o));
    }
    best
}

// The longest time with which an entry comes to the offset y: the one there, or one of the n before it, each as many cycles later.
fn come(t: &[u64], period: usize, y: usize, n: usize) -> u64
    requires { (y < period) × (n ≤ period) × Row period t.now }
    ensures { Come period t.now y n result }
{
    if n <= y {
        return reach(t, period, y - n, y + 1, y);
    }
    let x = reach(t, period, 0, y + 1, y);
    let z = reach(t, period, period + y - n, period, period + y);
    times::longer_of(x, z)
}

// The time t, d cycles later, as it is kept.
fn kept(t: u64, d: usize) -> u64
    requires { (d ≤ 512) × (¬ (t ≡ no_time) → t ≤ 1152921504606846976 + 512) }
    ensures { kept_time result ≡ laterBy d (time_of t) }
{
    if t == times::NO_TIME {
        0
    } else {
        t + d as u64 + 1
    }
}

// What waits for y with each duration from lo to top, which the stretch before it has room for: `gap` offsets before y are not owned, and then all but
// one of as many as the duration has. The answer is the longest time with top of them, also where top is below lo. Each time is `rest` cycles later.
fn within(
    t: &[u64],
    pending: &mut [u64; 256],
    period: usize,
    y: usize,
    gap: usize,
    lo: usize,
    top: usize,
    rest: usize,
) -> u64
    requires { (y < period) × (1 ≤ lo) × (top ≤ 255) × (gap + top ≤ period) × Row period t.now × (rest ≤ 256) × (length pending.old ≡ 256) }
    ensures { ComeLater period t.now y (gap + top) rest result × (length pending.new ≡ 256) × Shorter period t.now y gap rest lo (max lo (top + 1)) pending.old pending.new }
{
    let n = gap + (lo - 1).min(top);
    let mut best = kept(come(t, period, y, n), rest);
    let mut at = bus::turn_back_by(y, n, period);
    for e in lo..top + 1 {
        pending[e] = best;
        at = bus::turn_back(at, period);
        best = best.max(kept(t[at], gap + rest + e));
    }
    best
}

// What waits on past a stretch with `over` cycles or more, for which that has no room: beside what is pending there, what was pending for shorter
// durations (`run`) and what has come since (`best`).
fn wait_on(pending: &mut [u64; 256], over: usize, hi: usize, run: u64, best: u64)
    requires { (hi ≤ 255) × (length pending.old ≡ 256) }
    ensures { (length pending.new ≡ 256) × WaitsOn over hi run best pending.old pending.new }
{
    if over <= hi {
        pending[over] = pending[over].max(run.max(best));
    }
}

// When an access of e cycles ends that starts `rest` cycles before the time that is kept as v, or none.
fn ended(v: u64, rest: usize, e: usize) -> u64
    requires { (e ≤ 255) × (0 < v → (rest < v) × (v ≤ 1152921504606846976 + 1024)) }
    ensures { Ended v rest e result }
{
    if v == 0 {
        times::NO_TIME
    } else {
        v - 1 - rest as u64 + e as u64
    }
}

// `out` with what is pending at a for each duration from lo to top, so many cycles later: the longest time kept for it and the shorter ones, without
// the `rest` cycles. The answer is the longest time kept for them all.
fn leave(
    pending: &[u64; 256],
    out: &mut [u64; 256],
    period: usize,
    a: usize,
    lo: usize,
    top: usize,
    rest: usize,
) -> u64
    requires { (a < period) × (period ≤ 256) × (lo ≤ 255) × (top ≤ 255) × (length out.old ≡ 256) × Small pending.now rest lo top }
    ensures { (kept_time result ≡ among pending.now lo (max lo (top + 1))) × (length out.new ≡ 256) × LeftBy period pending.now a rest lo (max lo (top + 1)) out.old out.new }
{
    let mut run: u64 = 0;
    let mut q = (a + lo) % period;
    for e in lo..top + 1 {
        run = run.max(pending[e]);
        out[q] = times::longer_of(out[q], ended(run, rest, e));
        q = bus::turn(q, period);
    }
    run
}

// `out` with the entries of t that wait, or stand where a stretch begins, for an access of lo to hi cycles: stretch by stretch, once round the
// period from the bus's `first`, where a longest stretch begins, so that none waits past it.
pub fn arrive_all(t: &[u64], out: &mut [u64; 256], b: Bus, lo: usize, hi: usize)
    requires { Fit b × (b.most < b.period) × (1 ≤ lo) × (lo ≤ hi) × (hi ≤ b.most) × Fits b.period t.now × (length out.old ≡ 256) × (b.period ≤ length t.now) }
    ensures { (length out.new ≡ 256) × LeftAll b.period (owns b) t.now lo hi out.old out.new }
{
    let mut pending = [0u64; 256];
    let mut run = 0;
    let mut x = bus::first_stretch(b);
    let mut gone = 0;
    while gone < b.period {
        let n = bus::next_stretch(b, x);
        gone += x.len + n.gap;
        let rest = b.period - gone;
        let top = hi.min(x.len);
        let best = within(
            t,
            &mut pending,
            b.period,
            n.stretch.at,
            n.gap,
            lo,
            top,
            rest,
        );
        // the first duration that the stretch has no room for
        wait_on(&mut pending, lo.max(x.len + 1), hi, run, best);
        x = n.stretch;
        run = leave(&pending, out, b.period, x.at, lo, hi.min(x.len), rest);
    }
}
