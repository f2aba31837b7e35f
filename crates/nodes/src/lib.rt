// nodes: what a good node field says (document 01, 'The task image'): its node, one of six kinds, each with its own numbers; child numbers stay in the image.
//
// `node_at` decodes the field at a place: its answer equals `node_of` of specs/Nodes.antt, which also says what that means to crate `runs` (`meant`). weigh
// has depth and visits of nodes, up to the limits and one more; fetched the number of lines. specs/Fine.antt: what holds of the node of a good field.
#![tactic(auto)]

ghost use Rattle.std.specs.Prelude.{◌≡◌, ◌≤◌, length};
ghost use Rattle.nodes.specs.Nodes.{kind_of, node_of};

use image_bytes::{byte, word};

pub mod fetched;
pub mod weigh;

// A bus block's kind: 1 may access, 2 always accesses.
#[derive(Clone, Copy)]
pub enum Kind {
    May,
    Always,
}

#[derive(Clone, Copy)]
pub struct Plain {
    pub lowest: usize,
    pub highest: usize,
}

#[derive(Clone, Copy)]
pub struct BusBlock {
    pub kind: Kind,
    pub lowest: usize,
    pub highest: usize,
}

// Code fetched once: an access the first time that its line is met, and the hit time later.
#[derive(Clone, Copy)]
pub struct Once {
    pub line: usize,
    pub lowest: usize,
    pub highest: usize,
    pub hit: usize,
}

// Where child numbers stand in the image, two bytes each, and how many they are. They stay there, as a rule of the project has it: there is no heap.
#[derive(Clone, Copy)]
pub struct Children {
    pub place: usize,
    pub count: usize,
}

// A loop tested at the head: the test comes before each iteration of the body, and once after the last.
#[derive(Clone, Copy)]
pub struct Loop {
    pub least: usize,
    pub greatest: usize,
    pub body: usize,
    pub test: usize,
}

#[derive(Clone, Copy)]
pub enum Node {
    Plain(Plain),
    Bus(BusBlock),
    Once(Once),
    Sequence(Children),
    Branch(Children),
    Loop(Loop),
}

// A private function and not a `From`, which would be no plainer: it would be public, and make a kind of any number.
fn kind_of(kind: usize) -> Kind
    ensures { result ≡ kind_of kind }
{
    if kind == 1 { Kind::May } else { Kind::Always }
}

// The node whose field's tag stands at a place.
#[tactic(auto, unfolding(crate::specs::Nodes::node_from))]
pub fn node_at(image: &[u8], at: usize) -> Node
    requires { at ≤ length image.now }
    ensures { result ≡ node_of image.now at }
{
    let tag = byte(image, at);
    let len = word(image, at + 1);
    let body = at + 3;
    // The tag stays a number, as a rule of the project has it: a task image is judged by a match on it, with a range for the tags of parents.
    match tag {
        3 => Node::Plain(Plain {
            lowest: word(image, body),
            highest: word(image, body + 2),
        }),
        4 => Node::Bus(BusBlock {
            kind: kind_of(byte(image, body)),
            lowest: byte(image, body + 1),
            highest: byte(image, body + 2),
        }),
        5..=6 => {
            let children = Children {
                place: body,
                count: len / 2,
            };
            if tag == 5 {
                Node::Sequence(children)
            } else {
                Node::Branch(children)
            }
        },
        7 => Node::Loop(Loop {
            least: word(image, body),
            greatest: word(image, body + 2),
            body: word(image, body + 4),
            test: word(image, body + 6),
        }),
        10 => Node::Once(Once {
            line: byte(image, body),
            lowest: byte(image, body + 1),
            highest: byte(image, body + 2),
            hit: word(image, body + 3),
        }),
        _ => Node::Sequence(Children {
            place: body,
            count: 0,
        }),
    }
}
