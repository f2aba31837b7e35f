// figure: reads at most 16,384 bytes of a task image from standard input and writes its listing (document 01, "The program `figure`").
//
// A read that fails is not the end of the input (crate input): after a failure nothing goes to standard output, and a line to standard error; a listing
// that could not be written whole is told there too. `put_listing` promises that what is written is `listing_of` of crate listing, where the writer
// knows what it was given. What standard input gives, and what standard output does with what it is given, is trusted.
#![tactic(auto)]

ghost use Rattle.std.specs.Prelude.{OnOk};
ghost use Rattle.std.specs.Io.KnownBytes.{Appends};
ghost use Rattle.listing.specs.Listings.{listing_of};

use input::read_input;
use std::io;
use std::io::Write;

// Writes the listing of an image. The buffer has the 8,192 bytes that `listing` asks for, so that there always is one.
fn put_listing<W: Write>(image: &[u8], output: &mut W) -> io::Result<()>
    ensures { OnOk result (Appends (W.contents output.old) (W.contents output.new) (listing_of image.now)) }
{
    let mut out = [0u8; 8192];
    let listed = listing::listing(image, &mut out);
    match listed {
        Ok(k) => output.write_all(&out[..k]),
        Err(_) => Ok(()),
    }
}

// Only an input that was read whole is listed.
fn main(rt: HostRuntime) {
    let mut buffer = [0u8; 16384];
    let Ok(n) = read_input(&mut rt.stdin(), &mut buffer) else {
        let _ = rt
            .stderr()
            .write_all(b"figure: reading standard input failed: no figures\n");
        return;
    };
    if put_listing(&buffer[..n], &mut rt.stdout()).is_err() {
        let _ = rt.stderr().write_all(
            b"figure: writing standard output failed: the listing is not whole\n",
        );
    }
}
