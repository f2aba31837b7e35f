// windows: the table after a block that passes, whatever its durations (document 01, "Both figures": tight). About one step of work for each offset: a
// block's durations are a window over the entries, and the largest of each window is found in two passes.
//
// Promises: `plain` and `plain_wide` give the table of the definition (`Passed`), for durations up to 127 and up to 255 apart; `two_pass` the largest
// of every n places in a row (`Windowed`), `key` and `unkey` the keys that it is used on.
// Definitions: specs/Windows.antt.
#![tactic(auto)]

ghost use Rattle.std.specs.Prelude.{◌≡◌, length, ◌+◌, ◌<◌, ◌≤◌};
ghost use Rattle.times.specs.Arrays.{no_time, Row};
ghost use Rattle.windows.specs.Windows.{Same, Windowed, Suffixes, Prefixes, key_of, Keyed, time_at, Unkeyed, Turns, Room, Passed};

// The table after a plain block of lo to hi cycles, by two passes.
pub fn plain(t: &[u64], period: usize, lo: usize, hi: usize) -> [u64; 256]
    requires { (1 ≤ period) × Row period t.now × (lo ≤ hi) × (hi ≤ lo + 127) × (hi ≤ 65535) }
    ensures { Passed t.now period lo hi result }
{
    if lo == hi {
        return plain_one(t, period, hi);
    }
    let k = keys(t, period, period + (hi - lo));
    let mut w = k;
    two_pass(&k, &mut w, period + (hi - lo), hi - lo + 1);
    unkeyed(&w, period, hi)
}

// The table after a plain block of d cycles.
fn plain_one(t: &[u64], period: usize, d: usize) -> [u64; 256]
    requires { (1 ≤ period) × Row period t.now × (d ≤ 65535) }
    ensures { Passed t.now period d d result }
{
    let mut out = [times::NO_TIME; 256];
    let mut j = (period - d % period) % period;
    for q in 0..period {
        out[q] = times::later_by(t[j], d);
        j = bus::turn(j, period);
    }
    out
}

// The key of an entry at place m.
pub fn key(t: u64, m: usize) -> u64
    requires { (m ≤ 384) × (¬ (t ≡ no_time) → t ≤ 0x1000_0000_0000_0000) }
    ensures { result ≡ key_of t m }
{
    if t == times::NO_TIME {
        0
    } else {
        t + (384 - m) as u64
    }
}

// The keys of t's entries, round the period as often as len asks; 384 places hold a period of 256 and 127 durations more.
fn keys(t: &[u64], period: usize, len: usize) -> [u64; 384]
    requires { (1 ≤ period) × Row period t.now × (len ≤ 384) }
    ensures { Keyed t.now period len result }
{
    let mut k = [0u64; 384];
    let mut o = 0;
    for m in 0..len {
        k[m] = key(t[o], m);
        o = bus::turn(o, period);
    }
    k
}

// Each of the first len places of w, which are the same as k's, takes the largest of n places from there on, n places at a time: the
// largest from a place to the last of its n (`suffixes`), and of the next n so far (`prefixes`).
pub fn two_pass(k: &[u64], w: &mut [u64], len: usize, n: usize)
    requires { (1 ≤ n) × (n ≤ 256) × (len ≤ 384) × (len ≤ length k.now) × (len ≤ length w.old) × Same len k.now w.old }
    ensures { (length w.new ≡ length w.old) × Windowed k.now len n w.new }
{
    if n == 1 {
        return;
    }
    let mut s = 0;
    while s + n <= len {
        suffixes(w, s, n);
        let stop = n.min(len + 1 - (s + n));
        prefixes(k, w, s, s + n, stop);
        s += n;
    }
}

// Each of the n places from s on takes the largest from there to the last of them.
fn suffixes(w: &mut [u64], s: usize, n: usize)
    requires { (1 ≤ n) × (s + n ≤ length w.old) }
    ensures { Suffixes w.old s n w.new }
{
    for j in (s..s + n - 1).rev() {
        w[j] = w[j].max(w[j + 1]);
    }
}

// Each place s + i, for i from 1 to below stop, takes the largest of k's first i places from e on, where that is larger.
fn prefixes(k: &[u64], w: &mut [u64], s: usize, e: usize, stop: usize)
    requires { (1 ≤ stop) × (s + stop ≤ length w.old) × (e + stop ≤ length k.now + 1) }
    ensures { Prefixes k.now w.old s e stop w.new }
{
    let mut run = 0u64;
    for i in 1..stop {
        run = run.max(k[e + i - 1]);
        w[s + i] = w[s + i].max(run);
    }
}

// The time of a key at the end e of its window.
pub fn unkey(x: u64, e: usize) -> u64
    requires { Turns x e × (e < 0x1_0000_0000) }
    ensures { result ≡ time_at x e }
{
    if x == 0 {
        times::NO_TIME
    } else {
        x + e as u64 - 384
    }
}

// Each place takes the time of the window that ends there.
fn unkeyed(w: &[u64; 384], period: usize, hi: usize) -> [u64; 256]
    requires { (1 ≤ period) × (period ≤ 256) × (hi ≤ 65535) × Room w.now period hi }
    ensures { Unkeyed w.now period hi result }
{
    let mut out = [times::NO_TIME; 256];
    let mut j = (period - hi % period) % period;
    for q in 0..period {
        out[q] = unkey(w[j], j + hi);
        j = bus::turn(j, period);
    }
    out
}

// The table after a plain block of lo to hi cycles, up to 255 apart: windows of at most 128 durations at a time.
pub fn plain_wide(t: &[u64], period: usize, lo: usize, hi: usize) -> [u64; 256]
    requires { (1 ≤ period) × Row period t.now × (lo ≤ hi) × (hi ≤ lo + 255) × (hi ≤ 65535) }
    ensures { (length result ≡ 256) × Passed t.now period lo hi result }
{
    let mut a = plain(t, period, lo, hi.min(lo + 127));
    if 127 < hi - lo {
        let b = plain(t, period, lo + 128, hi);
        times::join(&mut a, &b, period);
    }
    a
}
