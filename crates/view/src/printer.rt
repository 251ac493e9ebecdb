// Prints a load while its calls are given, each line with the heap behind it.
ghost use Rattle.std.specs.Prelude.{◌≡◌};
ghost use Rattle.heap.specs.Views.{view};
ghost use Rattle.service.specs.Still.{Shown};

use crate::picture::Picture;
use graph::{Call, Outcome};
use heap::Heap;
use lexer::lines::Lines;
use load::calls::parse_line;
use load::names::Columns;
use memory::Memory;
use report::line_faults::{CallFault, OnLine};
use report::reports::report_of;
use scheme::Scheme;
use service::Onlooker;
use std::io;
use std::iter::Zip;
use std::ops::RangeFrom;

/// An onlooker that prints the lines of a load, up to the call after which it is shown the heap.
#[derive(Drop)]
pub struct Printer<'a> {
    rt: &'a HostRuntime,
    columns: Columns,
    /// The lines that are not printed yet, with their numbers.
    // Not what they give: a line is parsed again when it is printed, so that nothing is kept of it.
    lines: Zip<RangeFrom<u32>, Lines<'a>>,
    /// The heap as it was shown last.
    picture: Picture,
    /// The first error, after which nothing is printed.
    printed: io::Result<()>,
}

/// Prints what a line gave, with the heap behind it.
fn print_line(
    rt: &HostRuntime,
    picture: &Picture,
    number: u32,
    outcome: Result<i64, CallFault>,
) -> io::Result<()> {
    let report = report_of(number, outcome.on(number));
    println!(rt; "{picture} {report}")
}

impl<'a> Printer<'a> {
    pub fn new(rt: &'a HostRuntime, columns: Columns, text: &'a [u8]) -> Printer<'a> {
        Printer {
            rt,
            columns,
            lines: (2..).zip(Lines::over(text)),
            picture: Picture::blank(),
            printed: Ok(()),
        }
    }

    /// Prints the lines behind the last call.
    pub fn finish(mut self) -> io::Result<()> {
        if self.printed.is_ok() {
            self.print_faults()?;
        }
        self.printed
    }

    /// Prints the lines up to the next that gives a call, and answers its number.
    fn print_faults(&mut self) -> io::Result<Option<u32>> {
        for (number, line) in self.lines.by_ref() {
            match parse_line(&self.columns, line) {
                Ok(_) => return Ok(Some(number)),
                Err(fault) => print_line(
                    self.rt,
                    &self.picture,
                    number,
                    Err(CallFault::Text(fault)),
                )?,
            }
        }
        Ok(None)
    }

    /// Prints the lines up to the next that gives a call, and that line with its answer.
    fn print_call(&mut self, answer: Outcome, picture: Picture) -> io::Result<()> {
        let Some(number) = self.print_faults()? else {
            return Ok(());
        };
        self.picture = picture;
        print_line(
            self.rt,
            &self.picture,
            number,
            answer.map_err(CallFault::Heap),
        )
    }
}

impl<M: Memory, S: Scheme> Onlooker<M, S> for Printer<'_> {
    fn look(&mut self, heap: Heap<M, S>, calls: &[Call], answers: &[Outcome]) -> Heap<M, S>
        requires shown { Shown (S.Scheme.meaning heap.scheme) calls.now answers.now
            (view M.Memory.words heap) }
        ensures kept { view M.Memory.words result ≡ view M.Memory.words heap }
        ensures scheme { result.scheme ≡ heap.scheme }
    {
        let begun = heap.begin();
        if let (Ok(()), Some(answer)) = (&self.printed, answers.last()) {
            self.printed = self.print_call(*answer, Picture::of(&begun));
        }
        begun.give_up()
    }
}
