// input: reading standard input until it ends, a read fails or the buffer is full (document 01, "The program `figure`").
//
// A read that fails is not the end of the input: `after_read` promises that the input after each answer of a read equals `after_read`
// (specs/Reading.antt), `read_input` that no more is read than the buffer has, and that those are the reader's first bytes, where it knows
// them. What standard input gives is trusted.
#![tactic(auto)]

ghost use Rattle.std.specs.Prelude.{◌≡◌, ◌≤◌, ◌-◌, IfOk, length};
ghost use Rattle.input.specs.Reading.{after_read, Held, Filled};

use std::io;
use std::io::Read;
use std::ops::ControlFlow;

// What a read that answered `got` makes of the input, behind the `done` bytes that were there, into a buffer of `size`: so many bytes are
// there, and more may come (`Continue`) or that is all of it, or all that the buffer holds (`Break`); or the read failed.
fn after_read(
    done: usize,
    got: io::Result<usize>,
    size: usize,
) -> io::Result<ControlFlow<usize, usize>>
    requires { (done ≤ size) × IfOk got (λ n. n ≤ size - done) }
    ensures { result ≡ after_read done got size }
{
    let n = got?;
    if n == 0 {
        return Ok(ControlFlow::Break(done));
    }
    let there = done + n;
    if there < size {
        return Ok(ControlFlow::Continue(there));
    }
    Ok(ControlFlow::Break(there))
}

// Reads until the input has ended or the buffer is full, and answers how many bytes that is, or that a read failed.
pub fn read_input<R: Read>(reader: &mut R, buffer: &mut [u8]) -> io::Result<usize>
    ensures within { Held result buffer.new }
    ensures bytes { Filled (R.remaining reader.old) (R.remaining reader.new) result buffer.new }
{
    let mut done = 0;
    loop {
        let got = reader.read(&mut buffer[done..]);
        match after_read(done, got, buffer.len())? {
            ControlFlow::Continue(n) => done = n,
            ControlFlow::Break(n) => return Ok(n),
        }
    }
}
