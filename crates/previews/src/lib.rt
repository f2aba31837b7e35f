// previews: what a change of one plain block's durations would give, before it is made (document 02, "Trying a change before making it").
//
// `preview` has no `requires`, and promises of every image, numbers and table (specs/Promise.antt):
//   equality  `Previewing`: the answer and the table equal those of a fresh calculation on the edited copy, or the edit's own refusal
//             (specs/Previews.antt); refused if and only if the condition for it holds
//   figures   `PreviewGiven`: for a possible edit and a table with a place for each offset figures are given, and demands 3 and 2 hold of them
//             and the edited image
// Wrong answers that these rule out: the figures of the image as it is, 10 before 5.
// The edit, and when it is possible, is in crate edits; the answer for an image and a table, and both demands, in crate answers.
#![tactic(auto)]

ghost use Rattle.std.specs.Prelude.{◌+◌, ◌≤◌, length};
ghost use Rattle.image.specs.Conditions.{longest_image};
ghost use Rattle.answers.specs.Promise.{Equal, Demand3, Demand2};
ghost use Rattle.edits.specs.Edits.{with_durations};
ghost use Rattle.previews.specs.Promise.{Previewing, PreviewGiven};
ghost use Rattle.edits.specs.Steps.{Room};

use answers::Totals;
use refusals::Refused;

// No accepted image has more bytes (`longest_image`).
const LONGEST: usize = 9265;

// The figures of a copy of the image on which the durations of the block at a place are set.
fn on_copy(
    image: &[u8],
    at: usize,
    lowest: usize,
    highest: usize,
    table: &mut [u64],
) -> Result<Totals, Refused>
    requires { Room (length image.now) at lowest highest × (length image.now ≤ longest_image) }
    ensures equality { Equal (with_durations image.now (at + 3) lowest highest) table.old result table.new }
    ensures demand3 { Demand3 (with_durations image.now (at + 3) lowest highest) table.old result table.new }
    ensures demand2 { Demand2 (with_durations image.now (at + 3) lowest highest) table.old result }
{
    let n = image.len();
    let mut copy = [0u8; LONGEST];
    copy[..n].copy_from_slice(image);
    edits::set_durations(&mut copy, at, lowest, highest);
    figures::figures(&copy[..n], table)
}

// What the edit on a copy and a fresh calculation would give; the image stays as it is, and after a refusal the table too.
pub fn preview(
    image: &[u8],
    node: usize,
    lowest: usize,
    highest: usize,
    table: &mut [u64],
) -> Result<Totals, Refused>
    ensures equality { Previewing image.now node lowest highest table.old result table.new }
    ensures figures { PreviewGiven image.now node lowest highest table.old result table.new }
{
    let at = edits::find(image, node, lowest, highest)?;
    on_copy(image, at, lowest, highest, table)
}
