// published: the walk of Algorithms 1 to 3 of document 000, with loops fully unrolled (document 01, "Both figures": published).
//
// Promise: `walk` gives the exits and the cost that `exits` and `cost` of crates/runs/specs/Figures.antt name for the node.
// Definitions: specs/Steps.antt, over crates/runs/specs and crates/exits/specs/Exits.antt.
// The node number falls at each descent. A loop is its test, and then iterations of body and test (document 02, W3); where it is unrolled, the
// pair of the larger of their numbers and the iterations left falls: the iterations are taken in two halves, so the stack grows with the
// logarithm of the count.
// A loop whose exit sets have become periodic (after some iterations the set is the same again, and they cost one gain) is not walked to its
// end: the unroller stops there, whole cycles are skipped, and the rest is walked.
#![tactic(auto)]

ghost use Rattle.std.specs.Prelude.{◌≡◌, ◌+◌, ◌≤◌};
ghost use Rattle.runs.specs.Nodes.{Tree, visits};
ghost use Rattle.bus.specs.declared.Bus.{Bus};
ghost use Rattle.nodes.specs.Nodes.{tree_at, child_trees, turn_trees, kind_meant};
ghost use Rattle.exits.specs.Exits.{PlainReady, BusReady};
ghost use Rattle.cycles.specs.Cycles.{Small};
ghost use Rattle.published.specs.Steps.{Ready, ReadyAll, ReadyTurn, ReadyRepeat, ReadyLoop, Published, PublishedAll, PublishedAny, Repeated, BegunAt, TurnedAt, WatchedBy, SkippedBy, Unrolls};

use bus::Bus;
use cycles::{Search, Watch};
use image::Task;
use nodes::{BusBlock, Children, Kind, Loop, Node, Once, Plain};
use offsets::Set;

// A result of the algorithms: the cost in cycles, and the exit offsets.
#[derive(Clone, Copy)]
pub struct Outcome {
    pub cost: u64,
    pub exits: Set,
}

// The offsets after the iterations done, those after a permitted count of them, joined, and the cost so far.
#[derive(Clone, Copy)]
pub struct Pass {
    pub cur: Set,
    pub out: Set,
    pub cost: u64,
}

// What is kept of an earlier iteration: the offsets after it, and the cost until then.
#[derive(Clone, Copy)]
pub struct Kept {
    pub set: Set,
    pub spent: u64,
}

// A loop on the way: where it stands, what is kept, and what is seen of its iterations.
#[derive(Clone, Copy)]
pub struct Turns {
    pub pass: Pass,
    pub kept: Kept,
    pub watch: Watch,
}

// Algorithm 1 for a plain block.
fn plain_outcome(b: Bus, p: Plain, s: Set) -> Outcome
    requires { PlainReady b p.lowest p.highest s }
    ensures { Published b (Tree.plain p.lowest p.highest) s result }
{
    Outcome {
        cost: p.highest as u64,
        exits: exits::plain_exits(b, p.lowest, p.highest, s),
    }
}

// Algorithm 1 for a bus block.
fn block_outcome(b: Bus, x: BusBlock, s: Set) -> Outcome
    requires { BusReady b x.lowest x.highest s }
    ensures { Published b (Tree.bus (kind_meant x.kind) x.lowest x.highest) s result }
{
    let cost = costs::access_cost(b, x.lowest, x.highest, s);
    let kind = x.kind;
    match kind {
        Kind::May => Outcome {
            cost,
            exits: exits::may_exits(b, x.lowest, x.highest, s),
        },
        Kind::Always => Outcome {
            cost,
            exits: exits::access_exits(b, x.lowest, x.highest, s),
        },
    }
}

// Algorithm 1 for a block fetched once: the method knows no lines, so the exits of both are joined each time, and the larger cost counts.
fn once_outcome(b: Bus, x: Once, s: Set) -> Outcome
    requires { (BusReady b x.lowest x.highest s) × (x.hit ≤ 65535) }
    ensures { Published b (Tree.once x.line x.lowest x.highest x.hit) s result }
{
    let cost = costs::access_cost(b, x.lowest, x.highest, s);
    let missed = exits::access_exits(b, x.lowest, x.highest, s);
    let hit = exits::plain_exits(b, x.hit, x.hit, s);
    Outcome {
        cost: cost.max(x.hit as u64),
        exits: offsets::join(missed, hit),
    }
}

// Before the first iteration: the exits are what stands then, behind the first test, where 0 is a permitted count, and else none.
fn before_first(least: usize, s: Set) -> Pass
    ensures { (b : Bus) → BegunAt b least s result }
{
    if least == 0 {
        return Pass {
            cur: s,
            out: s,
            cost: 0,
        };
    }
    Pass {
        cur: s,
        out: offsets::empty(),
        cost: 0,
    }
}

// After one more iteration, whose outcome is n.
fn joined(least: usize, done: usize, p: Pass, n: Outcome) -> Pass
    requires { (done ≤ 10000) × (p.cost + n.cost ≤ 6553500000) }
    ensures { (b : Bus) → TurnedAt b least done p n result }
{
    let cost = p.cost + n.cost;
    let next = n.exits;
    let out = p.out;
    if least <= done + 1 {
        return Pass {
            cur: next,
            out: offsets::join(out, next),
            cost,
        };
    }
    Pass {
        cur: next,
        out,
        cost,
    }
}

// What is seen after one more iteration, which led to p: a cycle where its offsets are the kept ones.
fn watched(p: Pass, kept: Kept, w: Watch) -> Turns
    requires { (w.done ≤ 9999) × Small w × (kept.spent ≤ p.cost) × (p.cost ≤ 6553500000) }
    ensures { WatchedBy p kept w result }
{
    let same = p.cur == kept.set;
    let watch = cycles::seen(w, same, (p.cost - kept.spent) as usize);
    if watch.is_due() {
        return Turns {
            pass: p,
            kept: Kept {
                set: p.cur,
                spent: p.cost,
            },
            watch,
        };
    }
    Turns {
        pass: p,
        kept,
        watch,
    }
}

// Of the `left` iterations to come whole cycles are skipped; what is left then is only walked.
fn skipped(left: usize, t: Turns) -> Turns
    requires { (t.watch.done + left ≤ 10000) × Small t.watch × (t.pass.cost ≤ 6553500000) }
    ensures { SkippedBy left t result }
{
    let w = t.watch;
    match w.search {
        Search::Found(c) => {
            let n = cycles::jumps(c.length, left);
            let cost = t.pass.cost + (n * c.gain) as u64;
            Turns {
                pass: Pass { cost, ..t.pass },
                watch: Watch {
                    done: w.done + n * c.length,
                    search: Search::Off,
                },
                ..t
            }
        }
        _ => Turns {
            watch: Watch {
                search: Search::Off,
                ..w
            },
            ..t
        },
    }
}

// The outcome of a node entered with the offsets of s.
#[cycle(walk)]
pub fn walk(task: &Task, node: usize, s: Set) -> Outcome
    requires { Ready task.now.image.now task.now.walk task.now.places.now node s }
    ensures { Published task.now.walk.bus (tree_at task.now.image.now node) s result }
{
    let at = task.places[node];
    let n = nodes::node_at(task.image, at);
    let b = task.walk.bus;
    match n {
        Node::Plain(p) => plain_outcome(b, p, s),
        Node::Bus(x) => block_outcome(b, x, s),
        Node::Once(x) => once_outcome(b, x, s),
        Node::Sequence(c) => sequence(task, node, c, s),
        Node::Branch(c) => branch(task, node, c, s),
        Node::Loop(l) => repeat(task, node, l, s),
    }
}

// The children in order: costs add, and each starts from the exits of the one before.
#[cycle(walk)]
fn sequence(task: &Task, node: usize, c: Children, s: Set) -> Outcome
    requires { ReadyAll task.now.image.now task.now.walk task.now.places.now node c.place c.count s }
    ensures { PublishedAll task.now.walk.bus (child_trees task.now.image.now c.place c.count) s result }
{
    let place = c.place;
    let count = c.count;
    let mut cost = 0;
    let mut cur = s;
    for i in 0..count {
        let child = image_bytes::word(task.image, place + 2 * i);
        let next = walk(task, child, cur);
        cost += next.cost;
        cur = next.exits;
    }
    Outcome { cost, exits: cur }
}

// Any one of the children: the largest cost, and the exits joined.
#[cycle(walk)]
fn branch(task: &Task, node: usize, c: Children, s: Set) -> Outcome
    requires { ReadyAll task.now.image.now task.now.walk task.now.places.now node c.place c.count s }
    ensures { PublishedAny task.now.walk.bus (child_trees task.now.image.now c.place c.count) s result }
{
    let place = c.place;
    let count = c.count;
    let mut cost: u64 = 0;
    let mut out = offsets::empty();
    for i in 0..count {
        let child = image_bytes::word(task.image, place + 2 * i);
        let arm = walk(task, child, s);
        cost = cost.max(arm.cost);
        out = offsets::join(out, arm.exits);
    }
    Outcome { cost, exits: out }
}

// A loop: the test comes first, and then the iterations, a test after each.
#[cycle(walk)]
fn repeat(task: &Task, node: usize, l: Loop, s: Set) -> Outcome
    requires { ReadyRepeat task.now.image.now task.now.walk task.now.places.now node l (visits (tree_at task.now.image.now l.test)) s }
    ensures { Published task.now.walk.bus (Tree.loop l.least l.greatest (tree_at task.now.image.now l.body) (tree_at task.now.image.now l.test)) s result }
{
    let first = walk(task, l.test, s);
    let cur = first.exits;
    let rest = iterations(task, node, l, cur);
    let exits = rest.exits;
    Outcome {
        cost: first.cost + rest.cost,
        exits,
    }
}

// The iterations: unrolled until a cycle is found or all is done, whole cycles skipped, and the rest unrolled.
#[cycle(walk)]
fn iterations(task: &Task, node: usize, l: Loop, s: Set) -> Outcome
    requires { ReadyRepeat task.now.image.now task.now.walk task.now.places.now node l 0 s }
    ensures { Repeated task.now.walk.bus (turn_trees task.now.image.now l.body l.test) l.least l.greatest s result }
{
    let begun = Turns {
        pass: before_first(l.least, s),
        kept: Kept { set: s, spent: 0 },
        watch: Watch::begun(true),
    };
    let seen = unroll(task, l.body, l.test, l.least, l.greatest, begun);
    let w = seen.watch;
    let rest = skipped(l.greatest - w.done, seen);
    let v = rest.watch;
    let all = unroll(task, l.body, l.test, l.least, l.greatest - v.done, rest);
    let pass = all.pass;
    let exits = pass.out;
    Outcome {
        cost: pass.cost,
        exits,
    }
}

// One iteration: the body, and the test that follows it.
#[cycle(walk)]
fn iteration(task: &Task, body: usize, test: usize, s: Set) -> Outcome
    requires { ReadyTurn task.now.image.now task.now.walk task.now.places.now body test s }
    ensures { PublishedAll task.now.walk.bus (turn_trees task.now.image.now body test) s result }
{
    let first = walk(task, body, s);
    let cur = first.exits;
    let then = walk(task, test, cur);
    let exits = then.exits;
    Outcome {
        cost: first.cost + then.cost,
        exits,
    }
}

// `left` iterations more, as two halves; none once a cycle is found.
#[cycle(walk)]
fn unroll(task: &Task, body: usize, test: usize, least: usize, left: usize, t: Turns) -> Turns
    requires { ReadyLoop task.now.image.now task.now.walk task.now.places.now body test left t }
    ensures { Unrolls task.now.walk.bus (turn_trees task.now.image.now body test) least left t result }
{
    let w = t.watch;
    if left == 0 {
        return t;
    }
    if w.has_cycle() {
        return t;
    }
    if left == 1 {
        let p = t.pass;
        let kept = t.kept;
        let cur = p.cur;
        let next = iteration(task, body, test, cur);
        return watched(joined(least, w.done, p, next), kept, w);
    }
    let half = left / 2;
    let a = unroll(task, body, test, least, half, t);
    unroll(task, body, test, least, left - half, a)
}
