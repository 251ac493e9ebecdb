// The lines of the output.
ghost use Rattle.std.specs.Prelude.{◌≡◌, List, ◌++◌, IfOk, Some, string_bytes, codes};
ghost use Rattle.report.specs.Reports.{stop_of, reported, shown_report, output};
ghost use Rattle.report.specs.Reading.{ReadBack, OutputReadBack};

use crate::line_faults::{CallFault, LineFault};
use std::alloc::{AllocError, Global};
use std::fmt;

/// What is told of a fault: its number, and which value is to blame, 0 for none.
#[derive(Clone, Copy, PartialEq, Eq, Debug)]
pub struct Stop {
    pub number: i64,
    pub at: u8,
}

impl From<CallFault> for Stop {
    ghost from_gives = { λ e r. r ≡ stop_of e };

    fn from(e: CallFault) -> Stop {
        Stop {
            number: i64::from(e.number()),
            at: e.position(),
        }
    }
}

/// A line of the output: the number of the input's line, the answer of its call or the number of
/// what stopped it, and which value is to blame, 0 for none.
#[derive(Clone, Copy, PartialEq, Eq, Debug)]
pub struct Report {
    pub line: u32,
    // In front of the outcome, so that a report, kept for each line of a load, takes 24 bytes.
    pub at: u8,
    // Numbers as printed, with any position: whatever a line can show is held, and read back.
    pub outcome: Result<i64, i64>,
}

const _: () = prove!(size_of::<Report>() == 24);

/// What the line of that number gave.
pub fn report_of(line: u32, res: Result<i64, LineFault>) -> Report
    ensures { result ≡ reported line res }
{
    match res {
        Ok(answer) => Report {
            line,
            at: 0,
            outcome: Ok(answer),
        },
        Err(LineFault { line, fault }) => {
            let Stop { number, at } = Stop::from(fault);
            Report {
                line,
                at,
                outcome: Err(number),
            }
        }
    }
}

impl fmt::Display for Report {
    ghost output = { λ x. Some (shown_report x) };

    fn fmt<W: fmt::Write>(&self, f: &mut fmt::Formatter<W>) -> fmt::Result {
        let line = self.line;
        let (state, number) = match self.outcome {
            Ok(answer) => ("ok", answer),
            Err(number) => ("no", number),
        };
        let at = self.at;
        write!(f, "{line} {state} {number} {at}")
    }
}

/// The whole output: the names of its columns, then the reports, each closed by a newline.
pub fn output_of(heap: Global, reports: &[Report]) -> Result<String, AllocError>
    ensures { IfOk result (λ s. string_bytes s ≡ output reports.now) }
{
    let mut text = String::from_str(heap, "line state number at\n")?;
    for report in reports {
        writeln!(text, "{report}")?;
    }
    Ok(text)
}

/// What a printed line shows is read back as the same report, and the output as the same reports.
#[tactic(auto, using(crate::proofs::Back::read_back, crate::proofs::Back::output_back))]
pub fn reports_are_read_back() -> u8
    ensures line { ReadBack }
    ensures whole { OutputReadBack }
{
    0
}
