// rows: the rows of the table in 'The task image' of document 01, and of those that document 02 adds or alters (7, W3): which tag may stand where (number 2), how many
// node fields (3), the body's length (4), the rules of its numbers (5), its child numbers (6) and the entry that it names (11).
//
// Each function promises that its answer equals a test of specs/Tests.antt; that the test is true if and only if the row's rule holds, in plain terms
// (specs/Rules.antt), is proved in proofs/Rules.antt: `tag_rule`, `room_rule`, `length_rule`, `value_rule`, `child_rule`, `entry_rule`. `plain_ok` asks nothing of its caller.
// specs/Fields.antt says where a field stands and when it is good; the scan over all fields is in crate image, field 1's own rules in crate schedule.
#![tactic(auto)]

ghost use Rattle.std.specs.Prelude.{◌≡◌, ◌+◌, ◌*◌, ◌<◌};
ghost use Rattle.schedule.specs.Said.{Ranged};
ghost use Rattle.rows.specs.Tests.{parity_within, tag_ok, room_ok, node_length_ok, length_ok, starts_ok, plain_ok, access_ok, block_ok, once_ok, loop_ok, node_value_ok, value_ok, below, children_ok, entry_ok};

use image_bytes::{byte, word};
use schedule::{bus_ok, most_at, period_at, schedule_ok};

// Is n from low to high, and even, or odd where `odd` is 1?
fn parity_between(odd: usize, low: usize, high: usize, n: usize) -> bool
    ensures { result ≡ parity_within odd low high n }
{
    (low..=high).contains(&n) && n % 2 == odd
}

// May a field of this tag stand there, `index` fields standing before it, the last of which has closed the image or not?
#[tactic(auto, unfolding(crate::specs::Tests::tag_ok))]
pub fn tag_ok(index: usize, closed: bool, tag: usize) -> bool
    ensures { result ≡ tag_ok index closed tag }
{
    if index == 0 {
        return tag == 1 || tag == 9;
    }
    if index == 1 {
        return tag == 2;
    }
    if closed {
        return false;
    }
    // Here and below the tag stays a number: as a rule of the project has it, a task image is judged by a match on it, with ranges for node tags.
    match tag {
        8 => 3 <= index,
        3..=7 | 10 => true,
        _ => false,
    }
}

// Is there room for a field of this tag, `index` fields standing before it? A 257th node has none.
#[tactic(auto, unfolding(crate::specs::Tests::room_ok))]
pub fn room_ok(index: usize, tag: usize) -> bool
    ensures { result ≡ room_ok index tag }
{
    index < 258 || tag == 8
}

// Is a node body's length in the tag's row?
#[tactic(auto, unfolding(crate::specs::Tests::node_length_ok))]
fn node_length_ok(tag: usize, len: usize) -> bool
    ensures { result ≡ node_length_ok tag len }
{
    match tag {
        3 => len == 4,
        4 => len == 3,
        5 => parity_between(0, 2, 32, len),
        6 => parity_between(0, 4, 16, len),
        7 => len == 8,
        _ => false,
    }
}

// Is the body's length in the tag's row?
#[tactic(auto, unfolding(crate::specs::Tests::length_ok))]
pub fn length_ok(tag: usize, len: usize) -> bool
    ensures { result ≡ length_ok tag len }
{
    match tag {
        1 => len == 3,
        2 => (1..=256).contains(&len),
        3..=7 => node_length_ok(tag, len),
        8 => len == 2,
        9 => parity_between(1, 3, 65, len),
        10 => len == 5,
        _ => false,
    }
}

// Are the `count` bytes from a place on each below the period, and each above the one before it?
fn starts_ok(image: &[u8], place: usize, count: usize, period: usize) -> bool
    requires { place + count < 18446744073709551615 }
    ensures { result ≡ starts_ok image.now place count 0 period }
{
    let mut least = 0;
    for i in 0..count {
        let start = byte(image, place + i);
        if start < least || period <= start {
            return false;
        }
        least = start + 1;
    }
    true
}

// May a plain block have these durations? Any numbers may be asked about: an edit's are as they are given, and need not fit two bytes.
#[tactic(auto, unfolding(crate::specs::Tests::plain_ok))]
pub fn plain_ok(lowest: usize, highest: usize) -> bool
    ensures { result ≡ plain_ok lowest highest }
{
    highest <= 65535 && lowest <= highest && highest - lowest <= 63
}

// May an access have these durations?
#[tactic(auto, unfolding(crate::specs::Tests::access_ok))]
fn access_ok(lowest: usize, highest: usize, most: usize) -> bool
    ensures { result ≡ access_ok lowest highest most }
{
    1 <= lowest && lowest <= highest && highest <= 255 && highest <= most
}

#[tactic(auto, unfolding(crate::specs::Tests::block_ok))]
fn block_ok(kind: usize, lowest: usize, highest: usize, most: usize) -> bool
    ensures { result ≡ block_ok kind lowest highest most }
{
    (1..=2).contains(&kind) && access_ok(lowest, highest, most)
}

#[tactic(auto, unfolding(crate::specs::Tests::once_ok))]
fn once_ok(line: usize, lowest: usize, highest: usize, hit: usize, most: usize) -> bool
    ensures { result ≡ once_ok line lowest highest hit most }
{
    line <= 3 && hit <= 65535 && access_ok(lowest, highest, most)
}

#[tactic(auto, unfolding(crate::specs::Tests::loop_ok))]
fn loop_ok(least: usize, greatest: usize) -> bool
    ensures { result ≡ loop_ok least greatest }
{
    least <= greatest && greatest <= 10000
}

// Do a node body's numbers keep the rules of the tag's row? Child numbers are left to `children_ok`.
#[tactic(auto, unfolding(crate::specs::Tests::node_value_ok))]
fn node_value_ok(image: &[u8], tag: usize, body: usize) -> bool
    requires { (body + 6 < 18446744073709551615) × Ranged image.now }
    ensures { result ≡ node_value_ok image.now tag body }
{
    match tag {
        3 => plain_ok(word(image, body), word(image, body + 2)),
        4 => block_ok(
            byte(image, body),
            byte(image, body + 1),
            byte(image, body + 2),
            most_at(image),
        ),
        5..=6 => true,
        7 => loop_ok(word(image, body), word(image, body + 2)),
        _ => false,
    }
}

// Do the body's numbers keep the rules of the tag's row? The body of `len` bytes stands at `body`. Tag, place and length stay three numbers: a struct of
// them would be no plainer, since hardly two of these tests take the same ones.
#[tactic(auto, unfolding(crate::specs::Tests::value_ok))]
pub fn value_ok(image: &[u8], tag: usize, body: usize, len: usize) -> bool
    requires { (body + len < 18446744073709551615) × (body + 6 < 18446744073709551615) × (¬ (tag ≡ 1) → ¬ (tag ≡ 9) → Ranged image.now) }
    ensures { result ≡ value_ok image.now tag body len }
{
    match tag {
        1 => bus_ok(
            byte(image, body),
            byte(image, body + 1),
            byte(image, body + 2),
        ),
        2 => starts_ok(image, body, len, period_at(image)),
        3..=7 => node_value_ok(image, tag, body),
        8 => true,
        9 => schedule_ok(image, body, len),
        10 => once_ok(
            byte(image, body),
            byte(image, body + 1),
            byte(image, body + 2),
            word(image, body + 3),
            most_at(image),
        ),
        _ => false,
    }
}

// Is each of the `count` child numbers from a place on below the number of the node that is field `index`?
fn all_below(image: &[u8], place: usize, count: usize, index: usize) -> bool
    requires { place + 2 * count < 18446744073709551615 }
    ensures { result ≡ below image.now place count index }
{
    // A `for` and not `all` over the range: tried, and the proof did not close.
    for i in 0..count {
        if index <= word(image, place + 2 * i) + 2 {
            return false;
        }
    }
    true
}

// Are the body's child numbers below that of the node, which is field `index`?
#[tactic(auto, unfolding(crate::specs::Tests::children_ok))]
pub fn children_ok(image: &[u8], tag: usize, body: usize, len: usize, index: usize) -> bool
    requires { (body + len < 18446744073709551615) × (body + 8 < 18446744073709551615) }
    ensures { result ≡ children_ok image.now tag body len index }
{
    match tag {
        5..=6 => all_below(image, body, len / 2, index),
        7 => all_below(image, body + 4, 2, index),
        _ => true,
    }
}

// Is the entry, where the body names it, a node that stands before this field, which is field `index`?
#[tactic(auto, unfolding(crate::specs::Tests::entry_ok))]
pub fn entry_ok(image: &[u8], tag: usize, body: usize, index: usize) -> bool
    requires { body + 6 < 18446744073709551615 }
    ensures { result ≡ entry_ok image.now tag body index }
{
    match tag {
        8 => word(image, body) + 2 < index,
        _ => true,
    }
}
