// A load, from the reader that has its input to the writer that takes its output.
#![tactic(auto)]

ghost use Rattle.std.specs.Prelude.{◌≡◌, ℕ, List, IfOk, IfSome, OnOk, take};
ghost use Rattle.std.specs.Io.KnownBytes.{Appends};
ghost use Rattle.scheme.specs.Meaning.{prefix};
ghost use Rattle.report.specs.Laws.{Shows};
ghost use Rattle.report.specs.Loads.{loaded};
ghost use Rattle.report.specs.Reports.{output};

use faults::LONGEST_INPUT;
use runner::answer_load;
use std::alloc::Global;
use std::io::{self, Read, Write};

/// The input, up to a byte more than a load may have: no more need be read to tell that it is none.
pub fn read_load<R: Read + Drop>(reader: R, alloc: Global) -> io::Result<Vec<u8>>
    ensures { IfOk result (λ v. IfSome (R.remaining reader) (λ xs. v.items ≡ take 65537 xs)) }
{
    // Room that, doubled six times, holds the longest and the read that meets its end: from a
    // power of two it would be doubled once more for that read alone.
    let mut input = Vec::with_capacity(alloc, LONGEST_INPUT / 64 + 1)?;
    reader
        .take(LONGEST_INPUT as u64 + 1)
        .read_to_end(&mut input)?;
    Ok(input)
}

/// Reads a load, runs it over an empty heap of 64 words, and writes the whole output. It shows one
/// report for each call line, or one of fault 40 or 41 alone, and neither a line with a fault nor a
/// collect line changes what is told of another.
pub fn answer<R: Read + Drop, W: Write>(reader: R, writer: &mut W, alloc: Global) -> io::Result<()>
    ensures laws { OnOk result (IfSome (R.remaining reader) (λ xs. (text : List ℕ)
        × Shows prefix 64 xs text × Appends (W.contents writer.old) (W.contents writer.new) text)) }
    ensures text { OnOk result (IfSome (R.remaining reader) (λ xs.
        Appends (W.contents writer.old) (W.contents writer.new) (output (loaded prefix 64 xs)))) }
{
    let input = read_load(reader, alloc)?;
    let output = answer_load(input.as_slice(), alloc)?;
    writer.write_all(output.as_bytes())
}
