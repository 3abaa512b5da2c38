// A line of the script: a word, of which the first byte counts, and numbers after single spaces.
ghost use Rattle.std.specs.Prelude.{◌≤◌};

use std::io;

#[derive(Clone, Copy)]
pub struct Line<'a> {
    pub text: &'a [u8],
    pub command: u8,
    // The numbers stand in places 1 to 5.
    pub numbers: [u64; 6],
}

impl<'a> Line<'a> {
    // A line without a byte has a line feed for its command.
    pub fn new(text: &'a [u8]) -> Line<'a> {
        let mut numbers = [0u64; 6];
        for (number, piece) in numbers.iter_mut().zip(text.split(|b| *b == b' ')) {
            *number = number_in(piece);
        }
        let command = text.first().copied().unwrap_or(b'\n');
        Line {
            text,
            command,
            numbers,
        }
    }

    // A line that is a comment, as it is.
    pub fn echo(&self, rt: &impl Print) -> io::Result<()> {
        if self.command == b'#' {
            rt.write_all(self.text)?;
        }
        Ok(())
    }
}

// The digits of a piece as a number, those that follow after it is long left out.
fn number_in(piece: &[u8]) -> u64 {
    let mut x = 0;
    for b in piece {
        if b.is_ascii_digit() && x <= 1_000_000_000_000 {
            x = x * 10 + u64::from(*b - b'0');
        }
    }
    x
}

// x, or most where it is more.
pub fn within(x: u64, most: usize) -> usize
    ensures { result ≤ most }
{
    (x as usize).min(most)
}

// x, or 65535 where it is more.
pub fn small(x: u64) -> u16 {
    u16::try_from(x).unwrap_or(u16::MAX)
}

// x, or 255 where it is more.
pub fn small_byte(x: u64) -> u8 {
    u8::try_from(x).unwrap_or(u8::MAX)
}
