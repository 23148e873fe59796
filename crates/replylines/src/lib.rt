// The buffer before a case, the digest of a buffer, and the line of a reply. What lines say is not promised here: they
// are compared with stored ones.
#![tactic(auto)]

ghost use Rattle.std.specs.Prelude.{◌≡◌, slice_index, EachIndex};

use std::fmt::InlineText;
use std::{fmt, io};

// Every byte of a buffer as before a case.
pub fn clear(out: &mut [u8])
    ensures { EachIndex out.new (λ k. slice_index out.new k ≡ 165) }
{
    out.fill(0xA5);
}

// The 64-bit FNV-1a digest.
pub fn digest(bytes: &[u8]) -> u64 {
    bytes.iter().fold(0xCBF2_9CE4_8422_2325, |h: u64, b| {
        (h ^ u64::from(*b)).wrapping_mul(0x0100_0000_01B3)
    })
}

// What a case replies; the operation stands for the byte that it is modulo 256.
#[derive(Clone, Copy)]
pub struct Line {
    pub operation: u64,
    pub number: u64,
    pub text: u64,
    pub place: u64,
    pub first: u64,
    pub second: u64,
    pub digest: u64,
}

// The numbers behind the operation, whose byte need not be text.
impl fmt::Display for Line {
    fn fmt<W: fmt::Write>(&self, f: &mut fmt::Formatter<W>) -> fmt::Result {
        write!(
            f,
            " {} {} {} {:016X} {:016X} {:016X}",
            self.number, self.text, self.place, self.first, self.second, self.digest
        )
    }
}

// The most bytes of the numbers of a line, with room to spare.
const NUMBERS: usize = 126;

// The most bytes of a line: the operation stands before the numbers, the end of the line behind them.
const LINE: usize = NUMBERS + 2;

// Writes the line of a reply, at once.
pub fn print_line<R: Print>(rt: &R, line: Line) -> io::Result<()> {
    let numbers = InlineText::<NUMBERS>::of(line);
    let numbers = numbers.as_str().as_bytes();
    let end = numbers.len() + 1;
    let mut bytes = [b'\n'; LINE];
    bytes[0] = (line.operation % 256) as u8;
    bytes[1..end].copy_from_slice(numbers);
    rt.write_all(&bytes[..=end])
}
