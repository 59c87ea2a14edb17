// A reader, as standard input, to a lent buffer, and the part of an output that is to be printed: what the two programs share.
#![tactic(auto)]

ghost use Rattle.std.specs.Prelude.{◌≡◌, ◌+◌, ◌-◌, ◌≤◌, ◌<◌, pos, length, take, drop, replicate};
ghost use Rattle.std.specs.Io.KnownBytes.{Consumes, IsAtEnd};
ghost use Rattle.io.specs.Counts.{clamp_len};
ghost use Rattle.definitions.specs.Places.{input_places, table_places};
ghost use Rattle.streams.specs.Streams.{is_over, is_failed, Fills, printed_part};

use definitions::{INPUT_PLACES, Refusal, TABLE_PLACES};
use std::io::Read;

// Where the bytes in the buffer end, and what the last read answered: a count of bytes, 0 at the end of the input, -1 where it failed. Where the
// buffer is full and no read was made it is 1.
#[derive(Clone, Copy)]
pub struct Filled {
    pub to: usize,
    pub got: isize,
}

// One read to the bytes from `at` on.
fn read_to<R: Read>(input: &mut R, buf: &mut [u8], at: usize) -> Filled
    requires { at ≤ length buf.old }
    ensures counts { (result.to ≡ at + clamp_len result.got (length buf.old - at)) × (take at buf.new ≡ take at buf.old) }
    ensures reads { Consumes (R.remaining input.old) (R.remaining input.new) (drop at (take result.to buf.new)) }
    ensures ends { at < length buf.old → result.got ≡ pos 0 → IsAtEnd (R.remaining input.new) }
{
    let part = &mut buf[at..];
    match input.read(part) {
        Ok(count) => Filled {
            to: at + count,
            got: count as isize,
        },
        Err(_) => Filled { to: at, got: -1 },
    }
}

// The last read brought nothing: the input has ended, or the read failed.
pub fn is_over(filled: Filled) -> bool
    ensures { result ≡ is_over filled }
{
    filled.got <= 0
}

pub fn is_failed(filled: Filled) -> bool
    ensures { result ≡ is_failed filled }
{
    filled.got < 0
}

// Reads to the bytes from `from` on until the buffer is full, the input ends or a read fails. Where the reader's bytes are known, those that were
// read stand there, and a last read of 0 bytes says that none are left.
pub fn fill<R: Read>(input: &mut R, buf: &mut [u8], from: usize) -> Filled
    ensures fills { Fills from buf.old result buf.new }
    ensures reads { Consumes (R.remaining input.old) (R.remaining input.new) (drop from (take result.to buf.new)) }
    ensures ends { result.got ≡ pos 0 → IsAtEnd (R.remaining input.new) }
{
    let mut filled = Filled { to: from, got: 1 };
    // Not a for: how far a turn goes is what the read brought.
    while filled.to < buf.len() {
        let at = filled.to;
        filled = read_to(input, buf, at);
        if is_over(filled) {
            return filled;
        }
    }
    filled
}

// What is to be printed of an output: so many of its first bytes; nothing where it was refused.
pub fn printed_part(written: Result<usize, Refusal>, out: &[u8]) -> &[u8]
    ensures { result.now ≡ printed_part written out.now }
{
    match written {
        Err(_) => &out[..0],
        Ok(n) => { if n < out.len() { &out[..n] } else { out } }
    }
}

pub type Buffer = [u8; INPUT_PLACES];

pub type Weights = [i64; TABLE_PLACES];

// Room for more than the longest case.
pub fn buffer() -> Buffer
    ensures { (result ≡ replicate input_places 0) × (input_places ≡ length result) }
{
    [0; INPUT_PLACES]
}

// Room for the longest table.
pub fn weights() -> Weights
    ensures { result ≡ replicate table_places (pos 0) }
{
    [0; TABLE_PLACES]
}
