// Calls and answers in a fixed form, as a caller from outside writes and reads them.
ghost use Rattle.std.specs.Prelude.{◌≡◌};
ghost use Rattle.clib.specs.Forms.{Reads, answer_of, no_call};

use graph::{Call, Outcome};

/// A call: its number, and its arguments from the left; those that it does not use are not looked at. C has no enum that carries arguments.
#[repr(C)]
#[derive(Clone, Copy)]
pub struct CallWords {
    pub number: u32,
    pub a: u32,
    pub b: u32,
    pub c: u32,
    pub d: u32,
}

/// An answer: 1 if the call was granted, else 0; the position of the argument that was refused, or 0; the call's answer, or the refusal's number. C has no `Result`.
#[repr(C)]
#[derive(Clone, Copy)]
pub struct Answer {
    pub granted: u32,
    pub position: u32,
    pub number: i64,
}

/// Five words that stand for no call.
#[derive(Clone, Copy, Debug, PartialEq, Eq)]
pub struct NoCall;

impl TryFrom<CallWords> for Call {
    type Error = NoCall;

    ghost try_from_gives = { Reads };

    fn try_from(words: CallWords) -> Result<Self, NoCall> {
        let CallWords { number, a, b, c, d } = words;
        match number {
            0 => Ok(Call::Num {
                handle: a,
                number: b.cast_signed(),
            }),
            1 => Ok(Call::Clear { handle: a }),
            2 => Ok(Call::Copy {
                target: a,
                source: b,
            }),
            3 => Ok(Call::Map {
                target: a,
                rule: b,
                name: c,
                parent: d,
            }),
            4 => Ok(Call::Layout {
                target: a,
                fields: b,
                map: c,
            }),
            5 => Ok(Call::Record {
                target: a,
                layout: b,
            }),
            6 => Ok(Call::Load {
                target: a,
                record: b,
                field: c,
            }),
            7 => Ok(Call::Save {
                record: a,
                field: b,
                source: c,
            }),
            8 => Ok(Call::RawLoad {
                record: a,
                field: b,
            }),
            9 => Ok(Call::RawSave {
                record: a,
                field: b,
                word: c,
            }),
            10 => Ok(Call::Kind { handle: a }),
            11 => Ok(Call::Value { handle: a }),
            12 => Ok(Call::Same {
                first: a,
                second: b,
            }),
            13 => Ok(Call::Part {
                target: a,
                object: b,
                part: c,
            }),
            14 => Ok(Call::Figure { handle: a }),
            15 => Ok(Call::Raws { handle: a }),
            16 => Ok(Call::Collect),
            17 => Ok(Call::Fill),
            18 => Ok(Call::Stepped),
            19 => Ok(Call::GivenUp),
            _ => Err(NoCall),
        }
    }
}

impl From<Outcome> for Answer {
    ghost from_gives = { λ outcome answer. answer ≡ answer_of outcome };

    fn from(outcome: Outcome) -> Answer {
        match outcome {
            Ok(number) => Answer {
                granted: 1,
                position: 0,
                number,
            },
            Err(refusal) => Answer {
                granted: 0,
                position: u32::from(refusal.position()),
                number: i64::from(refusal.number()),
            },
        }
    }
}

impl From<NoCall> for Answer {
    ghost from_gives = { λ _ answer. answer ≡ no_call };

    fn from(_none: NoCall) -> Answer {
        Answer {
            granted: 0,
            position: 0,
            number: 43,
        }
    }
}
