// Depth and visits, node by node from the front: a child's number is smaller, so its own are known. Numbers above the limits are
// held as the limit and one more, which decides the same and never overflows.
ghost use Rattle.std.specs.Prelude.{◌≡◌, ◌+◌, ◌-◌, ◌*◌, ◌≤◌, ◌<◌, min};
ghost use Rattle.rows.specs.Unclosed.{Unclosed};
ghost use Rattle.rows.specs.Rules.{NamesBelow};
ghost use Rattle.nodes.specs.Fine.{Standing, Placed};
ghost use Rattle.nodes.specs.Weights.{Weighed, Together, OverTurns, Weighs};

use crate::{Children, Loop, Node, node_at};
use image_bytes::word;

// How many levels and how many visits a node has.
#[derive(Clone, Copy, Default)]
pub struct Weight {
    pub depth: usize,
    pub visits: usize,
}

// The children of node n: their greatest depth, up to 25, and their visits together, exact up to 100,000. The table has the weights of
// the nodes before n.
fn over_children(image: &[u8], c: Children, n: usize, known: &[Weight; 256]) -> Weight
    requires { (c.place + 2 * c.count < 18446744073709551615) × (c.count ≤ 16) × (n ≤ 256) × (NamesBelow image.now c.place c.count n) × (Weighed image.now n known.now) }
    ensures { Together image.now c.place c.count result }
{
    let mut best: usize = 0;
    let mut sum = 0;
    for i in 0..c.count {
        let child = known[word(image, c.place + 2 * i)];
        best = best.max(child.depth);
        sum += child.visits;
    }
    Weight {
        depth: best,
        visits: sum,
    }
}

// The iterations and all tests of a loop, node n: the greater depth of body and test, up to 25, and their visits, exact up to 100,000.
fn over_turns(image: &[u8], l: Loop, n: usize, known: &[Weight; 256]) -> Weight
    requires { (l.greatest ≤ 10000) × (l.body < n) × (l.test < n) × (n ≤ 256) × (Weighed image.now n known.now) }
    ensures { OverTurns image.now l result }
{
    let body = known[l.body];
    let test = known[l.test];
    let turns = l.greatest * (body.visits + test.visits);
    Weight {
        depth: body.depth.max(test.depth),
        visits: turns + test.visits,
    }
}

// A node over children that weigh w together: one level deeper, and one visit more.
fn above(w: Weight) -> Weight
    requires { (w.depth ≤ 25) × (w.visits ≤ 2000120001) }
    ensures { (result.depth ≡ min 25 (1 + w.depth)) × (result.visits ≡ min 100001 (1 + w.visits)) }
{
    Weight {
        depth: (1 + w.depth).min(25),
        visits: (1 + w.visits).min(100001),
    }
}

// Depth and visits of node n, whose field stands at a place; the table has the weights of the nodes before it.
fn weight_of(image: &[u8], at: usize, n: usize, known: &[Weight; 256]) -> Weight
    requires { (Standing image.now n at) × (Weighed image.now n known.now) }
    ensures { Weighs image.now n result }
{
    match node_at(image, at) {
        Node::Plain(_) | Node::Bus(_) | Node::Once(_) => above(Weight::default()),
        Node::Sequence(c) | Node::Branch(c) => above(over_children(image, c, n, known)),
        Node::Loop(l) => above(over_turns(image, l, n, known)),
    }
}

// The entry's depth, or 25, and its visits, or 100,001.
pub fn weights(image: &[u8], places: &[usize; 256], entry: usize) -> Weight
    requires { (Unclosed image.now (entry + 3)) × (Placed image.now (entry + 1) places.now) }
    ensures { Weighs image.now entry result }
{
    let mut known = [Weight::default(); 256];
    for n in 0..=entry {
        known[n] = weight_of(image, places[n], n, &known);
    }
    known[entry]
}
