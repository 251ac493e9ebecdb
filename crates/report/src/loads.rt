// The parts of a load that do not ask the heap: how its input is opened.
ghost use Rattle.std.specs.Prelude.{◌≡◌, ℕ, ◌<◌, length, IfOk};
ghost use Rattle.lexer.specs.Pieces.{lines};
ghost use Rattle.load.specs.Names.{columns_in};
ghost use Rattle.report.specs.Faults.{of_text};
ghost use Rattle.report.specs.Loads.{within, heading, columns_of, behind, Worked};

use crate::line_faults::{CallFault, LineFault, OnLine};
use faults::{LONGEST_INPUT, TextFault};
use lexer::lines::next_line;
use load::names::{Columns, columns_of};

/// A load whose name line was read: the columns, and the text behind that line. Its first line is line 2.
#[derive(Clone, Copy)]
pub struct Opened<'a> {
    pub columns: Columns,
    pub rest: &'a [u8],
}

fn check_length(input: &[u8]) -> Result<(), CallFault>
    ensures { result ≡ within input.now }
{
    if input.len() > LONGEST_INPUT {
        return Err(CallFault::Text(TextFault::TooLong));
    }
    Ok(())
}

/// Reads the name line. An input that is too long has a fault on line 0; one without the five names, the empty input too, on line 1. No later line is read then.
pub fn open_load<'a>(input: &'a [u8]) -> Result<Opened<'a>, LineFault>
    ensures value { columns_of result ≡ heading input.now }
    ensures rest { IfOk result (λ o. (lines o.rest.now ≡ behind (lines input.now)) × (length o.rest.now < 65536)) }
{
    check_length(input).on(0)?;
    let (first, rest) = next_line(input)
        .ok_or(CallFault::Text(TextFault::NoNames))
        .on(1)?;
    let columns = columns_of(first).map_err(CallFault::from).on(1)?;
    Ok(Opened { columns, rest })
}

/// The worked load, from its input to its output, computed from the definitions.
pub fn worked_load_stands() -> u8
    ensures { Worked }
{
    0
}
