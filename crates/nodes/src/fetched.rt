// Lines of code that are fetched once (document 02, W9): how many an image has, and how many sets of them there are.
ghost use Rattle.std.specs.Prelude.{◌≡◌, ℕ, ◌+◌, ◌≤◌};
ghost use Rattle.runs.specs.Lines.{power as powerOf};
ghost use Rattle.runs.specs.Nodes.{node_lines};
ghost use Rattle.nodes.specs.Nodes.{meant, node_of, lines_of};
ghost use Rattle.rows.specs.Unclosed.{Unclosed};
ghost use Rattle.nodes.specs.Fine.{Standing, Placed};

use crate::{Node, node_at};

// One more than the line number of the node whose field stands at a place, or 0 where it has none.
fn line_at(image: &[u8], at: usize) -> usize
    requires { (n : ℕ) × Standing image.now n at }
    ensures { result ≡ node_lines (meant image.now (node_of image.now at)) }
{
    match node_at(image, at) {
        Node::Once(x) => x.line + 1,
        _ => 0,
    }
}

// One more than the highest line number of the nodes, reached or not, or 0.
pub fn lines(image: &[u8], places: &[usize; 256], nodes: usize) -> usize
    requires { (Unclosed image.now (nodes + 2)) × (Placed image.now nodes places.now) }
    ensures { result ≡ lines_of image.now nodes }
{
    let mut most: usize = 0;
    for n in 0..nodes {
        most = most.max(line_at(image, places[n]));
    }
    most
}

// 2 to the n: the number of sets of n lines, and what line n counts in one.
pub fn power(n: usize) -> usize
    requires { n ≤ 4 }
    ensures { result ≡ powerOf n }
{
    1 << n
}
