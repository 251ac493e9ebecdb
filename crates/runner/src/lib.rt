// A load over a heap: its lines are run as calls, and what each gives is reported.
#![tactic(auto)]

ghost use Rattle.std.specs.Prelude.{◌≡◌, ℕ, ◌<◌, ◌≤◌, List, ◌++◌, length, IfOk, string_bytes, OnOk};
ghost use Rattle.scheme.specs.Meaning.{prefix};
ghost use Rattle.lexer.specs.Pieces.{lines};
ghost use Rattle.report.specs.Faults.{on_line};
ghost use Rattle.report.specs.Laws.{KeepsLaws, Shows};
ghost use Rattle.report.specs.Loads.{loaded};
ghost use Rattle.report.specs.Reports.{output};
ghost use Rattle.heap.specs.Views.{view};
ghost use Rattle.runner.specs.Runs.{heap_words, Answers, AnswersLine, Reports};

use heap::Heap;
use lexer::lines::Lines;
use load::calls::parse_line;
use load::names::Columns;
use memory::Memory;
use report::line_faults::{CallFault, LineFault, OnLine};
use report::loads::open_load;
use report::reports::{Report, output_of, report_of};
use scheme::{Prefix, Scheme};
use std::alloc::{AllocError, Global};

/// The call of a line, given to the heap.
fn give_line<M: Memory, S: Scheme>(
    heap: &mut Heap<M, S>,
    columns: &Columns,
    line: &[u8],
) -> Result<i64, CallFault>
    ensures answers { Answers (S.Scheme.meaning heap.old.scheme) columns.now line.now (view M.Memory.words heap.old) (view M.Memory.words heap.new) result }
    ensures scheme { heap.new.scheme ≡ heap.old.scheme }
{
    let call = parse_line(columns, line)?;
    let answer = heap.give(call)?;
    Ok(answer)
}

/// The call of the line of that number, given to the heap.
fn run_line<M: Memory, S: Scheme>(
    heap: &mut Heap<M, S>,
    columns: &Columns,
    number: u32,
    line: &[u8],
) -> Result<i64, LineFault>
    ensures answers { AnswersLine (S.Scheme.meaning heap.old.scheme) columns.now number line.now (view M.Memory.words heap.old) (view M.Memory.words heap.new) result }
    ensures scheme { heap.new.scheme ≡ heap.old.scheme }
{
    let answer = give_line(heap, columns, line).on(number)?;
    Ok(answer)
}

/// Adds the reports of the lines, of which the first is line 2.
fn run_lines<M: Memory, S: Scheme>(
    reports: &mut Vec<Report>,
    heap: &mut Heap<M, S>,
    columns: &Columns,
    text: &[u8],
) -> Result<(), AllocError>
    requires { length text.now ≤ 65536 }
    ensures { OnOk result (Reports (S.Scheme.meaning heap.old.scheme) columns.now (lines text.now) (view M.Memory.words heap.old) reports.old.items reports.new.items) }
{
    for (number, line) in (2..).zip(Lines::over(text)) {
        let result = run_line(heap, columns, number, line);
        reports.push(report_of(number, result))?;
    }
    Ok(())
}

/// The reports of a load over a new heap in the memory: what the text says and the still graph answers. One for each call line,
/// in order; and neither a line with a fault nor a collect line changes what is told of any other.
pub fn run_load<M: Memory + Drop, S: Scheme + Drop>(
    memory: M,
    scheme: S,
    input: &[u8],
    alloc: Global,
) -> Result<Vec<Report>, AllocError>
    ensures laws { IfOk result (λ v. KeepsLaws (S.Scheme.meaning scheme) (heap_words (M.Memory.words memory)) input.now v.items) }
    ensures reports { IfOk result (λ v. v.items ≡ loaded (S.Scheme.meaning scheme) (heap_words (M.Memory.words memory)) input.now) }
{
    let mut reports = Vec::new(alloc);
    match open_load(input) {
        Ok(opened) => {
            let mut heap = Heap::new(memory, scheme);
            let ran = run_lines(&mut reports, &mut heap, &opened.columns, opened.rest);
            let (_, _) = heap.into_parts();
            ran?;
        }
        Err(fault) => reports.push(report_of(fault.line, Err(fault)))?,
    }
    Ok(reports)
}

/// The whole output for an input, from an empty heap of 64 words on, by the scheme PREFIX.
pub fn answer_load(input: &[u8], alloc: Global) -> Result<String, AllocError>
    ensures laws { IfOk result (λ s. Shows prefix 64 input.now (string_bytes s)) }
    ensures text { IfOk result (λ s. string_bytes s ≡ output (loaded prefix 64 input.now)) }
{
    let mut words = [0u32; 64];
    let reports = run_load(&mut words[..], Prefix, input, alloc)?;
    output_of(alloc, reports.as_slice())
}
