// image: judging a task image (document 01, 'The task image' and 'When no figure is given').
//
// `judge` takes any bytes, has no `requires` and promises `Judging` of specs/Promise.antt: the verdict is the one that the
// definition `judged` names; an image is refused for a reason at a place if and only if the condition of that row of the table holds
// there; and of an accepted image every field keeps the rules of its row, the outline is what they say, and beside the verdict stand the
// places of its nodes. For a refused image the places are left free. The list of refusals is crate refusals.
//
// specs/ has the definitions, in the document's order: Tasks (the task that an image's bytes say), Judged (a field, the scan and 7, 8, 9 and 18, and the
// verdict), Conditions (the table, row by row), Promise; Moved and Closed are for laws about two images, Walks is for the layers above, and Inner between
// functions of this crate. The rows' rules are in crate rows, what a node field means
// to crate `runs` in crate nodes, field 1's rules in crate schedule.
// src/: fields (one field, and the scan), task (what the walks of an accepted image go by), and the outline and the verdict here.
#![tactic(auto)]

ghost use Rattle.std.specs.Prelude.{◌≡◌};
ghost use Rattle.image.specs.Judged.{judged};
ghost use Rattle.image.specs.Inner.{Scanned};
ghost use Rattle.image.specs.Promise.{Judging};

use crate::fields::{Scan, fields};
use bus::Bus;
use image_bytes::word;
use nodes::fetched::{lines, power};
use nodes::weigh::weights;
use refusals::{Refusal, Refused};
use schedule::period_at;

mod fields;
mod task;

pub use crate::task::Task;

// The outline of an accepted image: the period of the bus, the number of start offsets in field 2, the number of lines and of sets of
// lines, the number of nodes, and the entry.
#[derive(Clone, Copy)]
pub struct Outline {
    pub period: usize,
    pub starts: usize,
    pub lines: usize,
    pub sets: usize,
    pub nodes: usize,
    pub entry: usize,
}

// What both walks go by: the bus, and the accepted image's numbers.
#[derive(Clone, Copy)]
pub struct Walk {
    pub bus: Bus,
    pub outline: Outline,
}

// The verdict, and of an accepted image the place of each node's field.
#[derive(Clone, Copy)]
pub struct Judged {
    pub verdict: Result<Outline, Refused>,
    // room for the most nodes, and beside it how many there are: there is no heap
    pub places: [usize; 256],
}

// The verdict on an image whose fields are scanned: where they are good and fill it, 8, 9, 18, or accepted.
#[tactic(auto, unfolding(crate::specs::Judged::judged, crate::specs::Judged::whole_of))]
fn whole(image: &[u8], scan: &Scan) -> Result<Outline, Refused>
    requires { Scanned image.now scan.now.end scan.now.places }
    ensures { result ≡ judged image.now }
{
    let n = scan.end?;
    let w = weights(image, &scan.places, n.entry);
    if 24 < w.depth {
        return Err(Refused {
            refusal: Refusal::Deep,
            place: image.len(),
        });
    }
    if 100000 < w.visits {
        return Err(Refused {
            refusal: Refusal::Long,
            place: image.len(),
        });
    }
    let period = period_at(image);
    let lines = lines(image, &scan.places, n.count);
    let sets = power(lines);
    if 1024 < period * sets {
        return Err(Refused {
            refusal: Refusal::Lines,
            place: image.len(),
        });
    }
    Ok(Outline {
        period,
        starts: word(image, 4 + word(image, 1)),
        lines,
        sets,
        nodes: n.count,
        entry: n.entry,
    })
}

// The verdict on any bytes.
pub fn judge(image: &[u8]) -> Judged
    ensures { Judging image.now result.verdict result.places }
{
    let scan = fields(image);
    Judged {
        verdict: whole(image, &scan),
        places: scan.places,
    }
}
