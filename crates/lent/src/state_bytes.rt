// The state as 51 bytes, for programs that lend bytes: cores, slot, offset, then length, flags and mask of cores 0 to 15.
ghost use Rattle.std.specs.Prelude.{◌≡◌, length, set, ◌+◌, ◌≤◌};
ghost use Rattle.lent.specs.Bytes.{bytes_of, state_of};

use device::{Arbiter, Registers};

// How many bytes a state has.
pub const BYTES: usize = 51;

// The state in the bytes. It and `put_state` are no `From`: the bytes are a slice of any length that C lends, and the state is another crate's.
pub fn state_of(bytes: &[u8]) -> Arbiter
    requires { length bytes.now ≡ 51 }
    ensures { result ≡ state_of bytes.now }
{
    let mut registers = [Registers::default(); 16];
    for (i, r) in registers.iter_mut().enumerate() {
        let at = 3 + 3 * i;
        *r = Registers {
            length: bytes[at],
            flags: bytes[at + 1],
            mask: bytes[at + 2],
        };
    }
    Arbiter {
        cores: bytes[0],
        slot: bytes[1],
        offset: bytes[2],
        registers,
    }
}

// Sets three bytes from a place on.
fn put_three(bytes: &mut [u8], at: usize, first: u8, second: u8, third: u8)
    requires { at + 3 ≤ length bytes.old }
    ensures { bytes.new ≡ set (set (set bytes.old at first) (at + 1) second) (at + 2) third }
{
    bytes[at] = first;
    bytes[at + 1] = second;
    bytes[at + 2] = third;
}

// Sets the bytes to those of the state.
pub fn put_state(bytes: &mut [u8], s: Arbiter)
    requires { length bytes.old ≡ 51 }
    ensures { bytes.new ≡ bytes_of s }
{
    put_three(bytes, 0, s.cores, s.slot, s.offset);
    for (i, r) in s.registers.iter().enumerate() {
        put_three(bytes, 3 + 3 * i, r.length, r.flags, r.mask);
    }
}
