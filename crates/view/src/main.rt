// Runs a load from standard input and draws the heap after each call, one character for each of its 64 words, so that people see it pack.
#![tactic(auto)]

mod picture;
mod printer;

use graph::Call;
use input::read_load;
use lexer::lines::Lines;
use load::calls::parse_line;
use load::names::Columns;
use printer::Printer;
use report::loads::open_load;
use report::reports::report_of;
use scheme::Prefix;
use service::{Served, serve_watched};
use std::alloc::{AllocError, Global};
use std::io;

/// The calls of the lines that give one.
fn calls_of(columns: &Columns, text: &[u8], alloc: Global) -> Result<Vec<Call>, AllocError> {
    let mut calls = Vec::new(alloc);
    for line in Lines::over(text) {
        if let Ok(call) = parse_line(columns, line) {
            calls.push(call)?;
        }
    }
    Ok(calls)
}

/// Runs the lines, and prints for each what it gave and the heap behind it.
fn draw_lines(rt: &HostRuntime, columns: Columns, text: &[u8]) -> io::Result<()> {
    let calls = calls_of(&columns, text, rt.alloc())?;
    let mut words = [0u32; 64];
    let mut printer = Printer::new(rt, columns, text);
    let Served { answers: _, heap } = serve_watched(
        &mut words[..],
        Prefix,
        calls.as_slice(),
        &mut printer,
        rt.alloc(),
    )?;
    let (_, _) = heap.into_parts();
    printer.finish()
}

fn main(rt: HostRuntime) -> io::Result<()> {
    println!(rt; "R a live record, L a layout, M a map, x garbage, . a free word")?;
    let input = read_load(rt.stdin(), rt.alloc())?;
    match open_load(input.as_slice()) {
        Ok(opened) => draw_lines(&rt, opened.columns, opened.rest),
        Err(fault) => {
            let report = report_of(fault.line, Err(fault));
            println!(rt; "{report}")
        }
    }
}
