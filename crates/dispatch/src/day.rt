// The day as a list of calls.
use crate::{
    ANSWERS, CALL, CALL_LAYOUT, CAR, CAR_LAYOUT, EMPTY, FIRST_RAW, FLOOR, LAMP, LANDING,
    LANDING_LAYOUT, MADE, MAP, NOTE, SENSOR, TIME, WHENCE,
};
use graph::Call;
use std::alloc::{AllocError, Global};

fn num(number: i32) -> Call {
    Call::Num {
        handle: NOTE,
        number,
    }
}

fn layout(target: u32, fields: u32) -> Call {
    Call::Layout {
        target,
        fields,
        map: MAP,
    }
}

fn record(target: u32, layout: u32) -> Call {
    Call::Record { target, layout }
}

fn load(target: u32, record: u32, field: u32) -> Call {
    Call::Load {
        target,
        record,
        field,
    }
}

fn save(record: u32, field: u32, source: u32) -> Call {
    Call::Save {
        record,
        field,
        source,
    }
}

fn rawload(record: u32, field: u32) -> Call {
    Call::RawLoad { record, field }
}

fn rawsave(record: u32, field: u32, word: u32) -> Call {
    Call::RawSave {
        record,
        field,
        word,
    }
}

/// The layouts, a car at floor −2, and a landing with its lamp lit.
fn building() -> [Call; 10] {
    [
        Call::Map {
            target: MAP,
            rule: FIRST_RAW,
            name: EMPTY,
            parent: EMPTY,
        },
        layout(CAR_LAYOUT, 3),
        layout(LANDING_LAYOUT, 2),
        layout(CALL_LAYOUT, 3),
        record(CAR, CAR_LAYOUT),
        num(-2),
        save(CAR, FLOOR, NOTE),
        rawsave(CAR, SENSOR, 2),
        record(LANDING, LANDING_LAYOUT),
        rawsave(LANDING, LAMP, 1),
    ]
}

/// A call from floor 7, which the car answers, and what is read of it through the car.
fn answered_call() -> [Call; 14] {
    [
        record(CALL, CALL_LAYOUT),
        rawsave(CALL, TIME, 0x8000_0001),
        num(7),
        save(CALL, FLOOR, NOTE),
        save(CALL, WHENCE, LANDING),
        save(LANDING, MADE, CALL),
        save(CAR, ANSWERS, CALL),
        load(NOTE, CAR, ANSWERS),
        rawload(NOTE, TIME),
        load(CALL, NOTE, WHENCE),
        Call::Same {
            first: CALL,
            second: LANDING,
        },
        load(NOTE, NOTE, FLOOR),
        Call::Value { handle: NOTE },
        Call::Fill,
    ]
}

/// Neither the car nor the landing names the call any more.
fn dropped_call() -> [Call; 6] {
    [
        save(CAR, ANSWERS, EMPTY),
        save(LANDING, MADE, EMPTY),
        rawsave(LANDING, LAMP, 0),
        Call::Clear { handle: CALL },
        Call::Clear { handle: NOTE },
        Call::Fill,
    ]
}

/// One more call, which names the one before.
fn further_call() -> [Call; 3] {
    [
        record(NOTE, CALL_LAYOUT),
        save(NOTE, WHENCE, CALL),
        Call::Copy {
            target: CALL,
            source: NOTE,
        },
    ]
}

/// The lamp, the floor of a call that is gone, and the car's floor as a raw word.
fn last_questions() -> [Call; 3] {
    [
        rawload(LANDING, LAMP),
        load(NOTE, CALL, FLOOR),
        rawload(CAR, FLOOR),
    ]
}

/// The whole day: two calls that are answered, more of them than there is room for, and what is left in the evening.
pub fn calls_of_day(alloc: Global) -> Result<Vec<Call>, AllocError> {
    let mut day = Vec::new(alloc);
    day.extend_from_slice(&building())?;
    day.extend_from_slice(&answered_call())?;
    day.extend_from_slice(&dropped_call())?;
    day.extend_from_slice(&answered_call())?;
    for _ in 0..4 {
        day.extend_from_slice(&further_call())?;
    }
    day.extend_from_slice(&dropped_call())?;
    day.extend_from_slice(&last_questions())?;
    Ok(day)
}
