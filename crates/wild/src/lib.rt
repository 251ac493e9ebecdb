// Wild calls for trials: the same seed gives the same calls on every machine.
//
// Most calls are near to being granted: maps, layouts, records and loaded values are mostly kept in handles of their own. The rest
// of the arguments stand at the ends of what is allowed, one beyond them, or anywhere among the words.
#![tactic(auto)]

ghost use Rattle.std.specs.Prelude.{◌<◌, ◌≤◌};

use graph::Call;
use std::ops::Range;

// The handles in which things are mostly kept.
const MAPS: Range<u32> = 0..3;

pub const LAYOUTS: Range<u32> = 3..7;

pub const RECORDS: Range<u32> = 7..19;

/// Handles for loaded values.
const LOOSE: Range<u32> = 19..31;

/// The last handle, which mostly stays empty.
const LAST: Range<u32> = 31..32;

const ALL: Range<u32> = 0..32;

/// A generator of calls: xorshift on 64 bits.
#[derive(Clone, Copy)]
pub struct Wild {
    state: u64,
}

// The generator.
impl Wild {
    /// Calls from this seed. A state of 0 would stay 0, so seed 0 is given another one.
    pub fn new(seed: u64) -> Wild {
        Wild {
            state: if seed == 0 {
                0x9e37_79b9_7f4a_7c15
            } else {
                seed
            },
        }
    }

    /// Any word.
    pub fn word(&mut self) -> u32 {
        let mut x = self.state;
        x ^= x << 13;
        x ^= x >> 7;
        x ^= x << 17;
        self.state = x;
        // The upper half is mixed better than the lower. Without the mask, tried, the proof that the cast fits did not close.
        (x >> 32 & 0xffff_ffff) as u32
    }

    /// A number below the bound.
    pub fn below(&mut self, bound: u32) -> u32
        requires { 0 < bound }
        ensures { result < bound }
    {
        self.word() % bound
    }
}

// Arguments: their tables differ in how often each arm comes and in its bounds; one function for all would take these as numbers, and be no plainer.
impl Wild {
    /// Mostly one of these handles; else any, among them 32 and 33, which are none.
    fn handle(&mut self, mostly: Range<u32>) -> u32
        requires { (mostly.start < mostly.end) × (mostly.end ≤ 32) }
    {
        match self.below(32) {
            0 => self.word(),
            1 | 2 => self.below(34),
            _ => mostly.start + self.below(mostly.end - mostly.start),
        }
    }

    /// The handle of a map or, as often, the last one.
    fn parent(&mut self) -> u32 {
        match self.below(2) {
            0 => self.handle(MAPS),
            _ => self.handle(LAST),
        }
    }

    /// A number: small, about the range's ends, or any.
    fn number(&mut self) -> i32 {
        match self.below(8) {
            0 => self.word().cast_signed(),
            1 => 536_870_904 + self.below(16) as i32,
            2 => -536_870_920 + self.below(16) as i32,
            _ => self.below(16) as i32 - 8,
        }
    }

    /// A field count: mostly 2 to 6, else up to 34, or any.
    fn fields(&mut self) -> u32 {
        match self.below(16) {
            0 => self.word(),
            1 | 2 => self.below(35),
            _ => 2 + self.below(5),
        }
    }

    /// A field number: mostly up to 3, else up to 34, or any.
    fn field(&mut self) -> u32 {
        match self.below(16) {
            0 => self.word(),
            1 => self.below(35),
            _ => self.below(4),
        }
    }

    /// A rule: mostly up to 2, else up to 33, one bit, or any.
    fn rule(&mut self) -> u32 {
        match self.below(8) {
            0 => self.word(),
            1 => 1 << self.below(32),
            2 => self.below(34),
            _ => self.below(3),
        }
    }

    /// A raw word: any, or one that looks like a value, a reference, a header or a link.
    fn raw(&mut self) -> u32 {
        match self.below(3) {
            0 => self.word(),
            _ => self.below(512),
        }
    }
}

// Calls: each a match on a drawn number, since each arm draws arguments of its own, and a table would need a closure for each.
impl Wild {
    /// The next call.
    pub fn next_call(&mut self) -> Call {
        match self.below(32) {
            0..=11 => self.making(),
            12..=17 => self.moving(),
            18..=26 => self.reaching(),
            27..=29 => self.asking(),
            _ => self.collecting(),
        }
    }

    /// A call that makes an object: records most of all.
    fn making(&mut self) -> Call {
        match self.below(8) {
            0 => Call::Map {
                target: self.handle(MAPS),
                rule: self.rule(),
                name: self.handle(ALL),
                parent: self.parent(),
            },
            1 => Call::Layout {
                target: self.handle(LAYOUTS),
                fields: self.fields(),
                map: self.handle(MAPS),
            },
            _ => Call::Record {
                target: self.handle(RECORDS),
                layout: self.handle(LAYOUTS),
            },
        }
    }

    /// A call that sets a handle.
    fn moving(&mut self) -> Call {
        match self.below(8) {
            0 => Call::Num {
                handle: self.handle(LOOSE),
                number: self.number(),
            },
            1 => Call::Clear {
                handle: self.handle(ALL),
            },
            2 => Call::Clear {
                handle: self.handle(RECORDS),
            },
            3 | 4 => Call::Copy {
                target: self.handle(RECORDS),
                source: self.handle(RECORDS),
            },
            5 => Call::Copy {
                target: self.handle(ALL),
                source: self.handle(ALL),
            },
            _ => self.taking(),
        }
    }

    /// A call that takes a part of an object: mostly one that the object has.
    fn taking(&mut self) -> Call {
        match self.below(8) {
            0 => Call::Part {
                target: self.handle(ALL),
                object: self.handle(ALL),
                part: self.below(5),
            },
            1 => Call::Part {
                target: self.handle(ALL),
                object: self.handle(ALL),
                part: self.word(),
            },
            2 => Call::Part {
                target: self.handle(LAYOUTS),
                object: self.handle(RECORDS),
                part: 0,
            },
            3 => Call::Part {
                target: self.handle(MAPS),
                object: self.handle(LAYOUTS),
                part: 1,
            },
            4 | 5 => Call::Part {
                target: self.handle(LOOSE),
                object: self.handle(MAPS),
                part: 2,
            },
            _ => Call::Part {
                target: self.handle(LOOSE),
                object: self.handle(MAPS),
                part: 3,
            },
        }
    }

    /// A call that goes to a field.
    fn reaching(&mut self) -> Call {
        match self.below(8) {
            0 => Call::Load {
                target: self.handle(RECORDS),
                record: self.handle(RECORDS),
                field: self.field(),
            },
            1 => Call::Load {
                target: self.handle(LOOSE),
                record: self.handle(RECORDS),
                field: self.field(),
            },
            2..=4 => Call::Save {
                record: self.handle(RECORDS),
                field: self.field(),
                source: self.handle(RECORDS),
            },
            5 => Call::Save {
                record: self.handle(RECORDS),
                field: self.field(),
                source: self.handle(ALL),
            },
            6 => Call::RawLoad {
                record: self.handle(RECORDS),
                field: self.field(),
            },
            _ => Call::RawSave {
                record: self.handle(RECORDS),
                field: self.field(),
                word: self.raw(),
            },
        }
    }

    /// A call that only asks.
    fn asking(&mut self) -> Call {
        match self.below(6) {
            0 => Call::Kind {
                handle: self.handle(ALL),
            },
            1 => Call::Value {
                handle: self.handle(LOOSE),
            },
            2 => Call::Same {
                first: self.handle(ALL),
                second: self.handle(ALL),
            },
            3 => Call::Same {
                first: self.handle(RECORDS),
                second: self.handle(RECORDS),
            },
            4 => Call::Figure {
                handle: self.handle(ALL),
            },
            _ => Call::Raws {
                handle: self.handle(LAYOUTS),
            },
        }
    }

    /// A collection, at once, by steps or given up, or a look at the fill.
    fn collecting(&mut self) -> Call {
        match self.below(4) {
            0 => Call::Collect,
            1 => Call::Stepped,
            2 => Call::GivenUp,
            _ => Call::Fill,
        }
    }
}
