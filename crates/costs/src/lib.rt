// costs: what the published method charges for one bus block, on a set of entry offsets (document 01, "Both figures"), on any bus of owned offsets.
//
// Promises: `access_cost` is Algorithm 1 of document 000, lines 6 to 8 (`access_cost` in crates/runs/specs/Figures.antt). A plain block costs its highest
// duration, line 10. specs/Costs.antt is between functions of this crate.
//
// The offset that costs most is found once round the period, from stretch to stretch of owned offsets. It begins at a longest stretch:
// every access may start there, so that none waits past it.
#![tactic(auto)]

ghost use Rattle.std.specs.Prelude.{◌≡◌, true, ◌+◌, ◌≤◌, ◌<◌};
ghost use Rattle.runs.specs.Figures.{access_cost};
ghost use Rattle.bus.specs.Owning.{owns, bus_meant, Fit};
ghost use Rattle.offsets.specs.Sets.{value, has};
ghost use Rattle.exits.specs.Exits.{bits_of, BusReady};
ghost use Rattle.costs.specs.Costs.{LongestWaitNext, Slowest};

use bus::{Bus, Stretch};
use offsets::Set;

// The longest wait of an offset of s, with an access of e cycles, for the stretch that begins after the stretch x and `gap` offsets that are not
// owned; only one longer than `floor` counts, and without one the answer is no more. `before` is the longest wait for the stretch x.
fn longest_wait(
    b: Bus,
    e: usize,
    x: Stretch,
    gap: usize,
    before: usize,
    floor: usize,
    s: Set,
) -> usize
    requires { Fit b × (1 ≤ e) × (e ≤ b.most) × (x.at < b.period) × (before + (x.len + gap) ≤ b.period) }
    ensures { LongestWaitNext b.period (owns b) (value s) e x.at x.len gap before floor result }
{
    // the stretch has no room, and who waited for it waits on
    if x.len < e {
        if 0 < before {
            return before + (x.len + gap);
        }
    }
    // it has room: who waits stands in the gap, or in its last e - 1 cycles
    if e <= x.len {
        let wait = gap + e - 1;
        if wait <= floor {
            return 0;
        }
    }
    // so many offsets of the stretch are passed over, since an access from them starts at once; the first offset of s after them waits longest
    let past = (x.len + 1).saturating_sub(e);
    let free = past + bus::ahead(s, bus::turn_by(x.at, past, b.period), b.period);
    (x.len + gap).saturating_sub(free)
}

// An offset of s from which an access of e cycles waits longest, found stretch by stretch; o is any offset of s. Where the core owns every offset none
// waits.
fn farthest(b: Bus, e: usize, s: Set, o: usize) -> usize
    requires { Fit b × (1 ≤ e) × (e ≤ b.most) × (o < b.period) × (has (value s) o ≡ true) }
    ensures { Slowest b e s result }
{
    if b.period <= b.most {
        return o;
    }
    let mut at = o;
    let mut best = 0;
    let mut far = 0;
    let mut x = bus::first_stretch(b);
    let mut gone = 0;
    while gone < b.period {
        let n = bus::next_stretch(b, x);
        // where the next stretch has room, only a longer wait than is known counts; where it has none, each does
        let floor = if e <= n.stretch.len { best } else { 0 };
        far = longest_wait(b, e, x, n.gap, far, floor, s);
        gone += x.len + n.gap;
        x = n.stretch;
        // the stretch has room: those that wait for it start there
        if e <= x.len {
            if best < far {
                best = far;
                at = bus::turn_back_by(x.at, far, b.period);
            }
        }
    }
    at
}

// The cost of a bus block: the largest wait + duration over the offsets of s. A longer access waits no less at any offset, so that its highest duration
// alone counts, from the offset where it waits longest. No offset costs nothing.
pub fn access_cost(b: Bus, lo: usize, hi: usize, s: Set) -> u64
    requires { BusReady b lo hi s }
    ensures { result ≡ access_cost (bus_meant b) lo hi (bits_of b.period s) }
{
    let o = offsets::lowest(s, 0) as usize;
    if b.period <= o {
        return 0;
    }
    let at = farthest(b, hi, s, o);
    (bus::wait(b, hi, at) + hi) as u64
}
