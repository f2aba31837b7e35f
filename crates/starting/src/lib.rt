// starting: the entries of a table whose access starts at once (document 01, "The bus and a run"), on any bus: within a stretch of offsets that the core
// owns they end as a plain block's do, so far as the stretch goes.
//
// Promise: `now_all` joins to a table the entries that start at once, in any stretch (`StartedAll`).
// Definitions: specs/Starting.antt, over crates/runs/specs/Stretches.antt.
#![tactic(auto)]

ghost use Rattle.std.specs.Prelude.{◌≡◌, length, get_or, ◌-◌, ◌<◌, ◌≤◌};
ghost use Rattle.bus.specs.Owning.{owns, Fit};
ghost use Rattle.times.specs.Arrays.{Fits, Row};
ghost use Rattle.windows.specs.Windows.{Same};
ghost use Rattle.starting.specs.Starting.{KeyedIn, NowIn, StartedAll};

use bus::Bus;

// The keys of the len entries from a on, round the period, in the first places of k and of w.
fn keys_in(t: &[u64], k: &mut [u64; 256], w: &mut [u64; 256], period: usize, a: usize, len: usize)
    requires { (a < period) × Row period t.now × (len ≤ 256) × (length k.old ≡ 256) × (length w.old ≡ 256) }
    ensures { (length k.new ≡ 256) × (length w.new ≡ 256) × KeyedIn period t.now a len k.new × Same len k.new w.new }
{
    let mut o = a;
    for i in 0..len {
        let x = windows::key(t[o], i);
        k[i] = x;
        w[i] = x;
        o = bus::turn(o, period);
    }
}

// The largest key of the window that ends at y, or of as much of it as lies in the stretch.
fn window(run: u64, w: &[u64; 256], y: usize, hi: usize) -> u64
    requires { (1 ≤ hi) × (y ≤ 256) }
    ensures { (y < hi → result ≡ run) × (hi ≤ y → result ≡ get_or w.now (y - hi) 0) }
{
    if y < hi {
        return run;
    }
    w[y - hi]
}

// `out` with the entries of t that start at once within the len owned cycles from a on, for an access of lo to hi cycles; k and w are room
// for the keys and their windows.
fn now_in(
    t: &[u64],
    k: &mut [u64; 256],
    w: &mut [u64; 256],
    out: &mut [u64; 256],
    period: usize,
    a: usize,
    len: usize,
    lo: usize,
    hi: usize,
)
    requires { (a < period) × Row period t.now × (len ≤ 256) × (1 ≤ lo) × (lo ≤ hi) × (hi ≤ 256) × (length k.old ≡ 256) × (length w.old ≡ 256) × (length out.old ≡ 256) }
    ensures { (length k.new ≡ 256) × (length w.new ≡ 256) × (length out.new ≡ 256) × NowIn period t.now a len lo hi out.old out.new }
{
    // no access fits
    if len < lo {
        return;
    }
    keys_in(t, k, w, period, a, len);
    windows::two_pass(k, w, len, hi - lo + 1);
    let mut run: u64 = 0;
    let mut q = (a + lo) % period;
    for y in lo..len + 1 {
        run = run.max(k[y - lo]);
        let x = window(run, w, y, hi);
        out[q] = times::longer_of(out[q], windows::unkey(x, y));
        q = bus::turn(q, period);
    }
}

// `out` with the entries of t that start at once, for an access of lo to hi cycles: from stretch to stretch, once round the period from the
// one that begins at the bus's `first`.
pub fn now_all(t: &[u64], out: &mut [u64; 256], b: Bus, lo: usize, hi: usize)
    requires { Fit b × (b.most < b.period) × (1 ≤ lo) × (lo ≤ hi) × (hi ≤ 256) × Fits b.period t.now × (length out.old ≡ 256) × (b.period ≤ length t.now) }
    ensures { (length out.new ≡ 256) × StartedAll b.period (owns b) t.now lo hi out.old out.new }
{
    let mut k = [0u64; 256];
    let mut w = [0u64; 256];
    let mut x = bus::first_stretch(b);
    let mut gone = 0;
    while gone < b.period {
        now_in(t, &mut k, &mut w, out, b.period, x.at, x.len, lo, hi);
        let n = bus::next_stretch(b, x);
        gone += x.len + n.gap;
        x = n.stretch;
    }
}
