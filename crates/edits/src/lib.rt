// edits: one plain block's durations changed (document 02, "Trying a change before making it"). What a change would give is in crate previews.
//
// `edit` has no `requires`, and promises of every image and numbers (specs/Promise.antt):
//   equality  `Editing`: the answer and the image at exit equal definitions (specs/Edits.antt), for refused edits too; refused if and only if
//             the condition for it holds
//   done      `EditDone`: a possible edit is done and leaves an accepted image, in which that block has the given durations and all else is as
//             it was; the old durations restore it
// Wrong answers that these rule out: a fifth byte, the neighbour's bytes, 5 for a node that is not plain, a refused edit that writes.
// `find` and `set_durations` are what the preview has in common with the edit (specs/Steps.antt).
#![tactic(auto)]

ghost use Rattle.std.specs.Prelude.{◌≡◌, ◌+◌, length};
ghost use Rattle.edits.specs.Edits.{with_durations};
ghost use Rattle.edits.specs.Promise.{Editing, EditDone};
ghost use Rattle.edits.specs.Steps.{Room, Finding};

use refusals::{Refusal, Refused};

// The place of the field of the block that an edit alters: refused are an image by its own numbers, then a node that is no plain block, then the
// durations.
pub fn find(image: &[u8], node: usize, lowest: usize, highest: usize) -> Result<usize, Refused>
    ensures { Finding image.now node lowest highest result }
{
    let j = image::judge(image);
    let places = j.places;
    let k = j.verdict?;
    let none = Refused {
        refusal: Refusal::Block,
        place: image.len(),
    };
    if k.nodes <= node {
        return Err(none);
    }
    let at = places[node];
    if image_bytes::byte(image, at) != 3 {
        return Err(none);
    }
    if !rows::plain_ok(lowest, highest) {
        let refusal = Refusal::Value;
        return Err(Refused { refusal, place: at });
    }
    Ok(at)
}

// Sets the four bytes of the durations of the plain block whose field stands at a place: two numbers of two bytes.
pub fn set_durations(image: &mut [u8], at: usize, lowest: usize, highest: usize)
    requires { Room (length image.old) at lowest highest }
    ensures { image.new ≡ with_durations image.old (at + 3) lowest highest }
{
    let body = at + 3;
    image[body..body + 2].copy_from_slice(&(lowest as u16).to_be_bytes());
    image[body + 2..body + 4].copy_from_slice(&(highest as u16).to_be_bytes());
}

// Sets one plain block's durations; a refused edit changes no byte.
pub fn edit(image: &mut [u8], node: usize, lowest: usize, highest: usize) -> Result<(), Refused>
    ensures equality { Editing image.old node lowest highest result image.new }
    ensures done { EditDone image.old node lowest highest result image.new }
{
    let at = find(image, node, lowest, highest)?;
    set_durations(image, at, lowest, highest);
    Ok(())
}
