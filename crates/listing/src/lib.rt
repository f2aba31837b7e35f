// listing: from an image to the bytes that the program `figure` writes (document 01, "The program `figure` reads").
//
// `listing` has no `requires` and promises that the answer and the buffer at exit equal a definition over the image's bytes
// and the buffer at entry: the listing of specs/Listings.antt at the buffer's start and the rest unchanged, or, where the buffer has
// fewer than 8,192 bytes, `Err(Short)` and no change. The program above it only reads and writes.
#![tactic(auto)]

ghost use Rattle.std.specs.Prelude.{◌≡◌};
ghost use Rattle.text.specs.Buffer.{into_buffer};
ghost use Rattle.listing.specs.Listings.{listing_of};

use text::Unlisted;

pub fn listing(image: &[u8], out: &mut [u8]) -> Result<usize, Unlisted>
    ensures { into_buffer (listing_of image.now) out.old ≡ (result, out.new) }
{
    let mut table = [u64::MAX; 256];
    match figures::figures(image, &mut table) {
        Ok(f) => text::list_figures(f.tight, f.published, f.exits, 256, &table, out),
        Err(e) => text::list_refused(u64::from(e.refusal), e.place as u64, out),
    }
}
