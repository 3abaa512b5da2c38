// Prints the program's output for standard input.
#![tactic(auto)]

ghost use Rattle.std.specs.Prelude.{IfSome, OnOk};
ghost use Rattle.std.specs.Io.KnownBytes.{Appends};
ghost use Rattle.model.specs.Program.{program};

use std::io::{self, Read, Write};

// Writes the program's output for all that is read.
pub fn run<R: Read, W: Write>(reader: &mut R, writer: &mut W) -> io::Result<()>
    ensures { OnOk result (IfSome (R.remaining reader.old) (λ bytes. Appends (W.contents writer.old) (W.contents writer.new) (program bytes))) }
{
    let mut input = program::input_buffer();
    let n = stream::read_full(reader, &mut input)?;
    let mut out = [0u8; program::OUTPUT_BYTES];
    let k = program::run(&input[..n], &mut out);
    writer.write_all(&out[..k])
}

fn main(rt: HostRuntime) -> io::Result<()> {
    run(&mut rt.reader(), &mut io::writer(&rt))
}
