// A dispatch from beginning to end: a car, a landing and a call as records in one heap, linked, dropped and packed, over both memories and
// both schemes.
#![tactic(auto)]

mod day;
mod twice;

use day::calls_of_day;
use graph::Refusal;
use heap::Heap;
use memory::Memory;
use scheme::{Mask, Prefix, Scheme};
use std::io;
use twice::{Twice, serve_halted, serve_twice};

// The handles of this program: numbers, as the calls of the heap take them.
const MAP: u32 = 0;

const CAR_LAYOUT: u32 = 1;

const LANDING_LAYOUT: u32 = 2;

const CALL_LAYOUT: u32 = 3;

const CAR: u32 = 4;

const LANDING: u32 = 5;

const CALL: u32 = 6;

const NOTE: u32 = 7;

const EMPTY: u32 = 31;

// The fields of a car: its sensor's word, which is raw, its floor and the call that it answers.
const SENSOR: u32 = 0;

const FLOOR: u32 = 1;

const ANSWERS: u32 = 2;

// Those of a landing: its lamp's word, which is raw, and the call that was made there.
const LAMP: u32 = 0;

const MADE: u32 = 1;

// Those of a call: its time, which is raw, its floor and its landing.
const TIME: u32 = 0;

const WHENCE: u32 = 2;

/// Under rule 1 field 0 alone is raw, with PREFIX and with MASK.
const FIRST_RAW: u32 = 1;

/// The layouts of cars, landings and calls, under one map.
fn make_layouts<M: Memory, S: Scheme>(heap: &mut Heap<M, S>) -> Result<(), Refusal> {
    heap.map(MAP, FIRST_RAW, EMPTY, EMPTY)?;
    heap.layout(CAR_LAYOUT, 3, MAP)?;
    heap.layout(LANDING_LAYOUT, 2, MAP)?;
    heap.layout(CALL_LAYOUT, 3, MAP)?;
    Ok(())
}

/// A car at floor −2, and a landing with its lamp lit.
fn make_building<M: Memory, S: Scheme>(heap: &mut Heap<M, S>) -> Result<(), Refusal> {
    heap.record(CAR, CAR_LAYOUT)?;
    heap.num(NOTE, -2)?;
    heap.save(CAR, FLOOR, NOTE)?;
    // The bits of a reference, but raw: nothing follows them.
    heap.rawsave(CAR, SENSOR, 2)?;
    heap.record(LANDING, LANDING_LAYOUT)?;
    heap.rawsave(LANDING, LAMP, 1)?;
    Ok(())
}

/// A call from floor 7 at the landing, which the car answers.
fn make_call<M: Memory, S: Scheme>(heap: &mut Heap<M, S>) -> Result<(), Refusal> {
    heap.record(CALL, CALL_LAYOUT)?;
    heap.rawsave(CALL, TIME, 0x8000_0001)?;
    heap.num(NOTE, 7)?;
    heap.save(CALL, FLOOR, NOTE)?;
    heap.save(CALL, WHENCE, LANDING)?;
    heap.save(LANDING, MADE, CALL)?;
    heap.save(CAR, ANSWERS, CALL)?;
    Ok(())
}

/// What is read back of the call through the car: its floor, its time, and whether it leads back to the landing.
#[derive(Clone, Copy)]
struct Answered {
    floor: i32,
    time: u32,
    home: bool,
}

fn follow_call<M: Memory, S: Scheme>(heap: &mut Heap<M, S>) -> Result<Answered, Refusal> {
    heap.load(NOTE, CAR, ANSWERS)?;
    let time = heap.rawload(NOTE, TIME)?;
    heap.load(CALL, NOTE, WHENCE)?;
    let home = heap.same(CALL, LANDING)?;
    heap.load(NOTE, NOTE, FLOOR)?;
    let floor = heap.value(NOTE)?;
    Ok(Answered { floor, time, home })
}

/// The building with its first call, before anything was packed.
fn set_up<M: Memory, S: Scheme>(heap: &mut Heap<M, S>) -> Result<Answered, Refusal> {
    make_layouts(heap)?;
    make_building(heap)?;
    make_call(heap)?;
    follow_call(heap)
}

/// The call is answered: neither the car nor the landing names it any more.
fn drop_call<M: Memory, S: Scheme>(heap: &mut Heap<M, S>) -> Result<(), Refusal> {
    heap.save(CAR, ANSWERS, EMPTY)?;
    heap.save(LANDING, MADE, EMPTY)?;
    heap.rawsave(LANDING, LAMP, 0)?;
    heap.clear(CALL)?;
    heap.clear(NOTE)
}

/// Makes calls, each naming the one before, until one is refused; tells how many were made, and the refusal.
fn call_until_full<M: Memory, S: Scheme>(heap: &mut Heap<M, S>) -> (u32, Option<Refusal>) {
    for made in 0..100u32 {
        if let Err(refusal) = heap.record(NOTE, CALL_LAYOUT) {
            return (made, Some(refusal));
        }
        let _ = heap.save(NOTE, WHENCE, CALL);
        let _ = heap.copy(CALL, NOTE);
    }
    (100, None)
}

fn show_refusal(rt: &HostRuntime, what: &str, refusal: Refusal) -> io::Result<()> {
    println!(rt;
        "  {what}: refused with {} at {}",
        refusal.number(),
        refusal.position()
    )
}

/// Shows the refusal, if there is one.
fn show_if_refused<T: Drop>(
    rt: &HostRuntime,
    what: &str,
    outcome: Result<T, Refusal>,
) -> io::Result<()> {
    match outcome {
        Ok(_) => Ok(()),
        Err(refusal) => show_refusal(rt, what, refusal),
    }
}

fn show_answered(rt: &HostRuntime, answered: Result<Answered, Refusal>) -> io::Result<()> {
    match answered {
        Ok(Answered { floor, time, home }) => {
            println!(rt; "  the car answers a call from floor {floor} of time {time}")?;
            println!(rt; "  the call leads back to its landing: {home}")
        }
        Err(refusal) => show_refusal(rt, "the call", refusal),
    }
}

/// The building is set up and its call answered.
fn begin_day<M: Memory, S: Scheme>(rt: &HostRuntime, heap: &mut Heap<M, S>) -> io::Result<()> {
    show_answered(rt, set_up(heap))?;
    let fill = heap.fill();
    println!(rt; "  the heap is {fill} % full")?;
    show_if_refused(rt, "dropping the call", drop_call(heap))?;
    let fill = heap.fill();
    println!(rt; "  the call is dropped: {fill} %, as no one has packed yet")
}

/// After the first packing: another call, and then as many as there is room for.
fn end_day<M: Memory, S: Scheme>(
    rt: &HostRuntime,
    heap: &mut Heap<M, S>,
    begun: u32,
    packed: u32,
) -> io::Result<()> {
    println!(rt; "  a collection given up knew of {begun} live words")?;
    println!(rt; "  one by steps packed {packed}")?;
    show_if_refused(rt, "a second call", make_call(heap))?;
    show_answered(rt, follow_call(heap))?;
    let (made, full) = call_until_full(heap);
    println!(rt; "  {made} more calls, each naming the one before")?;
    if let Some(refusal) = full {
        show_refusal(rt, "one call more", refusal)?;
    }
    show_if_refused(rt, "dropping the calls", drop_call(heap))?;
    let live = heap.collect();
    println!(rt; "  all calls dropped and collected: {live} live words")?;
    show_lamp(rt, heap)
}

/// The landing's lamp, and what is refused of a call that is gone.
fn show_lamp<M: Memory, S: Scheme>(rt: &HostRuntime, heap: &mut Heap<M, S>) -> io::Result<()> {
    match heap.rawload(LANDING, LAMP) {
        Ok(lamp) => println!(rt; "  the landing's lamp: {lamp}")?,
        Err(refusal) => show_refusal(rt, "the lamp", refusal)?,
    }
    show_if_refused(rt, "the floor of no call", heap.load(NOTE, CALL, FLOOR))?;
    show_if_refused(
        rt,
        "the car's floor as a raw word",
        heap.rawload(CAR, FLOOR),
    )
}

/// A day over one memory and scheme.
fn run<M: Memory + Drop, S: Scheme + Drop>(
    rt: &HostRuntime,
    name: &str,
    memory: M,
    scheme: S,
) -> io::Result<()> {
    println!(rt; "{name}")?;
    let mut heap = Heap::new(memory, scheme);
    let morning = begin_day(rt, &mut heap);
    let begun = heap.begin();
    let live = begun.live_words();
    let (mut heap, packed) = begun.give_up().begin().draw().close();
    let evening = end_day(rt, &mut heap, live, packed);
    let (_, _) = heap.into_parts();
    morning?;
    evening
}

/// The day as a list of calls, over words without a collection, and over bytes with collections of each kind in between.
fn show_twice(rt: &HostRuntime) -> io::Result<()> {
    let day = calls_of_day(rt.alloc())?;
    let Twice {
        over_words,
        over_bytes,
    } = serve_twice(day.as_slice(), rt.alloc())?;
    println!(rt;
        "the day as a list of {} calls, over words as it is, over bytes with a collection behind each",
        day.len()
    )?;
    let refused = over_words.iter().filter(|answer| answer.is_err()).count();
    println!(rt; "  {refused} of the calls are refused")?;
    let agree = over_words == over_bytes;
    println!(rt; "  all answers but the collections' agree: {agree}")?;
    let agree = serve_halted(day.as_slice(), rt.alloc())? == over_words;
    println!(rt; "  halted half-way and gone on with, the same answers: {agree}")
}

fn main(rt: HostRuntime) -> io::Result<()> {
    let mut words = [9u32; 48];
    let mut bytes = [9u8; 195];
    run(&rt, "words under PREFIX", &mut words[..], Prefix)?;
    run(&rt, "words under MASK", &mut words[..], Mask)?;
    run(&rt, "bytes under PREFIX", &mut bytes[..], Prefix)?;
    run(&rt, "bytes under MASK", &mut bytes[..], Mask)?;
    println!(rt;
        "leftover bytes: {} {} {}",
        bytes[192], bytes[193], bytes[194]
    )?;
    show_twice(&rt)
}
