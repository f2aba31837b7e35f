// judging: judges the images on standard input, one after another, and writes one line for each: its number from 1 on, and `accepted`, or
// `refused` with the number and the place of document 01 ("When no figure is given"). Each image follows its length, two bytes, high byte first.
// tests/make-judging makes the input and the expected lines, and names each case.
#![tactic(auto)]

ghost use Rattle.std.specs.Prelude.{◌≤◌, length};

use image::judge;
use image_bytes::word;
use std::io::{Read, Write};

// Writes the line of one image, part by part. A write that fails is not told, and the parts behind it are written all the same: the lines are
// compared with those that are expected.
fn tell<W: Write>(case: u64, image: &[u8], output: &mut W) {
    let _ = write!(output, "{case}");
    match judge(image).verdict {
        Ok(_) => put(b" accepted\n", output),
        Err(e) => {
            put(b" refused ", output);
            let _ = write!(output, "{}", u64::from(e.refusal));
            put(b" ", output);
            let _ = write!(output, "{}", e.place);
            put(b"\n", output);
        }
    }
}

fn put<W: Write>(bytes: &[u8], output: &mut W) {
    let _ = output.write_all(bytes);
}

// Reads until the buffer is full, the input ends or a read fails, and answers how many bytes of it were read: `read_exact` does not tell that, and
// `read_to_end` needs a heap.
fn read_full<R: Read>(reader: &mut R, buffer: &mut [u8]) -> usize
    ensures { result ≤ length buffer.new }
{
    let mut done = 0;
    while done < buffer.len() {
        let n = reader.read(&mut buffer[done..]).unwrap_or(0);
        if n == 0 {
            break;
        }
        done += n;
    }
    done
}

// Fills the slice with an image and writes its line; answers false where the input ends first.
fn next<R: Read, W: Write>(case: u64, image: &mut [u8], reader: &mut R, output: &mut W) -> bool {
    let n = read_full(reader, image);
    tell(case, &image[..n], output);
    n == image.len()
}

// Reads a length and the image that follows; answers false where the input ends first.
fn part<R: Read, W: Write>(case: u64, reader: &mut R, output: &mut W) -> bool {
    let mut head = [0u8; 2];
    let got = read_full(reader, &mut head);
    if got < 2 {
        return false;
    }
    let length = word(&head, 0);
    let mut space = [0u8; 65536];
    next(case, &mut space[..length], reader, output)
}

// A proved loop has to end, and nothing says that the input does: it stops at 9,999 images.
fn main(rt: HostRuntime) {
    let mut reader = rt.stdin();
    let mut output = rt.stdout();
    for case in 1..10000 {
        if !part(case, &mut reader, &mut output) {
            break;
        }
    }
}
