// tight: the walk that carries each place's longest time from node to node (document 01, "Both figures": tight; document 02, W9: a place is an
// offset with the set of lines that are fetched).
//
// Promise: after `walk` the lent array holds the table of longest times that `times` of crates/runs/specs/Figures.antt gives for the node.
// Definitions: specs/Steps.antt, over crates/runs/specs, crates/times/specs/Arrays.antt and crates/lined/specs/Lined.antt.
// The node number falls at each descent. A loop is its test, and then iterations of body and test (document 02, W3); where it is unrolled, the
// pair of the larger of their numbers and the iterations left falls: the iterations are taken in two halves, so the stack grows with the
// logarithm of the count. Arrays are lent down the walk, not copied; those that a join or
// a loop keeps have 256 places, and 1,024 only where the image has lines.
// A loop whose times have become periodic (after some iterations every time is one gain later) is not walked to its end: the
// unroller stops there, whole cycles are skipped by one addition, and the rest is walked.
#![tactic(auto)]

ghost use Rattle.std.specs.Prelude.{◌≡◌, length, ◌≤◌};
ghost use Rattle.nodes.specs.Nodes.{tree_at, child_trees, turn_trees, kind_meant};
ghost use Rattle.runs.specs.Nodes.{Tree, visits};
ghost use Rattle.iterations.specs.Iterations.{Empty};
ghost use Rattle.tight.specs.Steps.{size_of, table, after_all, Walked, Sized, PlainReady, BusReady, OnceReady, Ready, ReadyAll, ReadyRepeat, ReadyTurn, ReadyLoop, WalkedAll, Unrolls, Branched, Repeated};

use cycles::Watch;
use image::{Task, Walk};
use lined::Step;
use nodes::{BusBlock, Children, Kind, Loop, Node, Once, Plain};

// How many places a table has.
fn size(k: Walk) -> usize
    requires { Sized k }
    ensures { result ≡ size_of k }
{
    k.outline.sets * bus::period(k.bus)
}

// The step of a plain block. Where no cycle passes, as in a test that takes no time, every time stays where it is.
fn plain_block(k: Walk, p: Plain, t: &mut [u64])
    requires { PlainReady k p.lowest p.highest t.old }
    ensures { Walked k (Tree.plain p.lowest p.highest) t.old t.new }
{
    if p.highest == 0 {
        return;
    }
    lined::each_row(k.bus, Step::Plain, p.lowest, p.highest, k.outline.sets, t);
}

// The step of a bus block, by its kind.
fn bus_block(k: Walk, x: BusBlock, t: &mut [u64])
    requires { BusReady k x.lowest x.highest t.old }
    ensures { Walked k (Tree.bus (kind_meant x.kind) x.lowest x.highest) t.old t.new }
{
    let kind = x.kind;
    match kind {
        Kind::May => lined::each_row(k.bus, Step::May, x.lowest, x.highest, k.outline.sets, t),
        Kind::Always => lined::each_row(
            k.bus,
            Step::Always,
            x.lowest,
            x.highest,
            k.outline.sets,
            t,
        ),
    }
}

// The step of a block fetched once.
fn once_block(k: Walk, x: Once, t: &mut [u64])
    requires { OnceReady k x.line x.lowest x.highest x.hit t.old }
    ensures { Walked k (Tree.once x.line x.lowest x.highest x.hit) t.old t.new }
{
    let weight = nodes::fetched::power(x.line);
    lined::once(k.bus, x.lowest, x.highest, x.hit, weight, k.outline.sets, t);
}

// The times after a node.
#[cycle(walk)]
pub fn walk(task: &Task, node: usize, t: &mut [u64])
    requires { Ready task.now.image.now task.now.walk task.now.places.now node t.old }
    ensures { Walked task.now.walk (tree_at task.now.image.now node) t.old t.new }
{
    let at = task.places[node];
    let n = nodes::node_at(task.image, at);
    match n {
        Node::Plain(p) => plain_block(task.walk, p, t),
        Node::Bus(x) => bus_block(task.walk, x, t),
        Node::Once(x) => once_block(task.walk, x, t),
        Node::Sequence(c) => sequence(task, node, c, t),
        Node::Branch(c) => branch(task, node, c, t),
        Node::Loop(l) => repeat(task, node, l, t),
    }
}

// The times after the children in order.
#[cycle(walk)]
fn sequence(task: &Task, node: usize, c: Children, t: &mut [u64])
    requires { ReadyAll task.now.image.now task.now.walk task.now.places.now node c.place c.count t.old }
    ensures { (length t.new ≡ length t.old) × (table task.now.walk t.new ≡ after_all task.now.walk (child_trees task.now.image.now c.place c.count) (table task.now.walk t.old)) }
{
    let place = c.place;
    let count = c.count;
    for i in 0..count {
        let child = image_bytes::word(task.image, place + 2 * i);
        walk(task, child, t);
    }
}

// The times after any one of the children, joined.
#[cycle(walk)]
fn branch(task: &Task, node: usize, c: Children, t: &mut [u64])
    requires { ReadyAll task.now.image.now task.now.walk task.now.places.now node c.place c.count t.old }
    ensures { (length t.new ≡ length t.old) × Branched task.now.walk (child_trees task.now.image.now c.place c.count) t.old t.new }
{
    if 1 < task.walk.outline.sets {
        wide_branch(task, node, c, t);
        return;
    }
    let mut out = [times::NO_TIME; 256];
    let mut arm = [times::NO_TIME; 256];
    arms(task, node, c, t, &mut out, &mut arm);
}

// The same where the image has lines. Not one function with a const parameter: no theorem is stated of a cycle of calls in which one function
// has such a parameter, and where all have it, the checker's own part of the proof does not close.
#[cycle(walk)]
fn wide_branch(task: &Task, node: usize, c: Children, t: &mut [u64])
    requires { ReadyAll task.now.image.now task.now.walk task.now.places.now node c.place c.count t.old }
    ensures { (length t.new ≡ length t.old) × Branched task.now.walk (child_trees task.now.image.now c.place c.count) t.old t.new }
{
    let mut out = [times::NO_TIME; 1024];
    let mut arm = [times::NO_TIME; 1024];
    arms(task, node, c, t, &mut out, &mut arm);
}

// The arms one by one: each from the entry `t`, into `arm`, and joined to `out`, which is the exit then.
#[cycle(walk)]
fn arms(task: &Task, node: usize, c: Children, t: &mut [u64], out: &mut [u64], arm: &mut [u64])
    requires { (ReadyAll task.now.image.now task.now.walk task.now.places.now node c.place c.count t.old) × Empty (size_of task.now.walk) out.old × (size_of task.now.walk ≤ length arm.old) }
    ensures { (length t.new ≡ length t.old) × Branched task.now.walk (child_trees task.now.image.now c.place c.count) t.old t.new }
{
    let n = size(task.walk);
    let place = c.place;
    let count = c.count;
    for i in 0..count {
        let child = image_bytes::word(task.image, place + 2 * i);
        times::copy(arm, t, n);
        walk(task, child, arm);
        times::join(out, arm, n);
    }
    times::copy(t, out, n);
}

// The times after a loop: the test comes first, and then the iterations, a test after each.
#[cycle(walk)]
fn repeat(task: &Task, node: usize, l: Loop, t: &mut [u64])
    requires { ReadyRepeat task.now.image.now task.now.walk task.now.places.now node l (visits (tree_at task.now.image.now l.test)) t.old }
    ensures { Walked task.now.walk (Tree.loop l.least l.greatest (tree_at task.now.image.now l.body) (tree_at task.now.image.now l.test)) t.old t.new }
{
    walk(task, l.test, t);
    if 1 < task.walk.outline.sets {
        wide_turns(task, node, l, t);
        return;
    }
    let mut exits = [times::NO_TIME; 256];
    let mut old = [times::NO_TIME; 256];
    turns(task, node, l, t, &mut exits, &mut old);
}

// The iterations where the image has lines: a function of its own for the reason beside `wide_branch`.
#[cycle(walk)]
fn wide_turns(task: &Task, node: usize, l: Loop, t: &mut [u64])
    requires { ReadyRepeat task.now.image.now task.now.walk task.now.places.now node l 0 t.old }
    ensures { Repeated task.now.walk (turn_trees task.now.image.now l.body l.test) l.least l.greatest t.old t.new }
{
    let mut exits = [times::NO_TIME; 1024];
    let mut old = [times::NO_TIME; 1024];
    turns(task, node, l, t, &mut exits, &mut old);
}

// The iterations unrolled until a cycle is found or all is done, whole cycles skipped, and the rest unrolled. The exits are joined to `out`; `old` is what is kept for the watch.
#[cycle(walk)]
fn turns(task: &Task, node: usize, l: Loop, t: &mut [u64], out: &mut [u64], old: &mut [u64])
    requires { (ReadyRepeat task.now.image.now task.now.walk task.now.places.now node l 0 t.old) × Empty (size_of task.now.walk) out.old × (size_of task.now.walk ≤ length old.old) }
    ensures { Repeated task.now.walk (turn_trees task.now.image.now l.body l.test) l.least l.greatest t.old t.new }
{
    let n = size(task.walk);
    iterations::before_first(n, l.least, t, out);
    let keeps = iterations::kept(n, l.greatest, t, old);
    let watch = Watch::begun(keeps);
    let seen = unroll(
        task, l.body, l.test, l.least, l.greatest, watch, t, out, old,
    );
    let left = l.greatest - seen.done;
    let rest = iterations::skipped(n, left, seen, t);
    unroll(
        task,
        l.body,
        l.test,
        l.least,
        l.greatest - rest.done,
        rest,
        t,
        out,
        old,
    );
    times::copy(t, out, n);
}

// One iteration: the body, and the test that follows it.
#[cycle(walk)]
fn iteration(task: &Task, body: usize, test: usize, cur: &mut [u64])
    requires { ReadyTurn task.now.image.now task.now.walk task.now.places.now body test cur.old }
    ensures { WalkedAll task.now.walk (turn_trees task.now.image.now body test) cur.old cur.new }
{
    walk(task, body, cur);
    walk(task, test, cur);
}

// `left` iterations more, as two halves; none once a cycle is found.
#[cycle(walk)]
fn unroll(
    task: &Task,
    body: usize,
    test: usize,
    least: usize,
    left: usize,
    w: Watch,
    cur: &mut [u64],
    out: &mut [u64],
    old: &mut [u64],
) -> Watch
    requires { ReadyLoop task.now.image.now task.now.walk task.now.places.now body test left w cur.old out.old old.old }
    ensures { Unrolls task.now.walk (turn_trees task.now.image.now body test) least left w cur.old out.old old.old result cur.new out.new old.new }
{
    if left == 0 {
        return w;
    }
    if w.has_cycle() {
        return w;
    }
    if left == 1 {
        iteration(task, body, test, cur);
        iterations::joined(size(task.walk), least, w.done, cur, out);
        return iterations::watched(size(task.walk), cur, old, w);
    }
    let half = left / 2;
    let a = unroll(task, body, test, least, half, w, cur, out, old);
    unroll(task, body, test, least, left - half, a, cur, out, old)
}
