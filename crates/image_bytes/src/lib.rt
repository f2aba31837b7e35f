// bytes: the numbers of an image, which is a list of bytes (document 01, "The task image"). A byte past the end reads as 0, so that no read asks for a bound.
//
// Promises: `byte` and `word` are the number at a place, of one byte and of two.
// Definitions: `byte_at` and `word_at` in specs/Bytes.antt.
#![tactic(auto)]

ghost use Rattle.std.specs.Prelude.{◌≡◌, ◌<◌};
ghost use Rattle.image_bytes.specs.Bytes.{byte_at, word_at};

// The byte at a place; past the end, 0.
pub fn byte(image: &[u8], at: usize) -> usize
    ensures { (result ≡ byte_at image.now at) × (result < 256) }
{
    image.get(at).map_or(0, |b| usize::from(*b))
}

// The number of two bytes at a place, the high byte first. (`from_be_bytes` would be no plainer: either byte may be past the end.)
#[tactic(auto, unfolding(crate::specs::Bytes::word_at))]
pub fn word(image: &[u8], at: usize) -> usize
    requires { at < 18446744073709551615 }
    ensures { (result ≡ word_at image.now at) × (result < 65536) }
{
    byte(image, at) * 256 + byte(image, at + 1)
}
