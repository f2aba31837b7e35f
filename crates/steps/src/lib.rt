// steps: one step of the tight figure (document 01, "Both figures"), for one block and a table over offsets.
//
// Promises: after `plain_step`, `may_step` and `always_step` the table of the result is the definition's `times` of that block (`Stepped`).
// Definitions: `times` in crates/runs/specs/Figures.antt; `Stepped` and what a step asks (`PlainReady`, `BusReady`) in specs/Steps.antt.
//
// What passes is a window over the entries (crate windows), what starts at once too, stretch by stretch (starting), and what waits starts where a
// stretch begins (waiting). Equal slots are a bus with one stretch.
#![tactic(auto)]

ghost use Rattle.runs.specs.Nodes.{may, always, Tree};
ghost use Rattle.steps.specs.Steps.{Stepped, PlainReady, BusReady};

use bus::Bus;

// The table after a plain block of lo to hi cycles.
pub fn plain_step(b: Bus, lo: usize, hi: usize, t: &[u64]) -> [u64; 256]
    requires { PlainReady b lo hi t.now }
    ensures { Stepped b (Tree.plain lo hi) t.now result }
{
    windows::plain(t, b.period, lo, hi)
}

// The table after a may-access block of lo to hi cycles: what passes, with what waits. Where the core owns every offset, no access waits.
pub fn may_step(b: Bus, lo: usize, hi: usize, t: &[u64]) -> [u64; 256]
    requires { BusReady b lo hi t.now }
    ensures { Stepped b (Tree.bus may lo hi) t.now result }
{
    let mut out = windows::plain_wide(t, b.period, lo, hi);
    if b.most < b.period {
        waiting::arrive_all(t, &mut out, b, lo, hi);
    }
    out
}

// The table after an always-access block of lo to hi cycles: what starts at once, with what waits.
pub fn always_step(b: Bus, lo: usize, hi: usize, t: &[u64]) -> [u64; 256]
    requires { BusReady b lo hi t.now }
    ensures { Stepped b (Tree.bus always lo hi) t.now result }
{
    if b.most == b.period {
        return windows::plain_wide(t, b.period, lo, hi);
    }
    let mut out = [times::NO_TIME; 256];
    starting::now_all(t, &mut out, b, lo, hi);
    waiting::arrive_all(t, &mut out, b, lo, hi);
    out
}
