// Random loads: which call comes next. Choices are matches on drawn numbers, as those of wild calls are.
ghost use Rattle.std.specs.Prelude.{◌+◌, ◌<◌};

use graph::Call;
use std::ops::Range;
use wild::{LAYOUTS, RECORDS, Wild};

/// In which manner calls are chosen.
#[derive(Clone, Copy)]
pub enum Manner {
    /// Wild calls as they come.
    Wild,
    /// Wild calls with hardly a collection among them, so that calls that make objects have to collect.
    Scarce,
    /// A long and tangled list of records under changing classes, until the heap is full.
    Thicket,
}

/// A load: its manner, the source of its choices, and how many calls it has given.
#[derive(Clone, Copy)]
pub struct Load {
    manner: Manner,
    wild: Wild,
    turn: u32,
}

/// The handles of a thicket: two maps, a layout, the list, its newest record, a walker over it, and one that stays empty.
const MAP: u32 = 0;

const OTHER_MAP: u32 = 1;

const LAYOUT: u32 = 3;

const LIST: u32 = 7;

const NEWEST: u32 = 8;

const WALKER: u32 = 9;

const NOTHING: u32 = 31;

/// The records of a thicket have six fields; the last one goes to the next record, and is a value under its rules 0 to 4.
const FIELDS: u32 = 6;

const NEXT: u32 = 5;

impl Load {
    pub fn new(manner: Manner, seed: u64) -> Load {
        Load {
            manner,
            wild: Wild::new(seed),
            turn: 0,
        }
    }

    /// The next call.
    pub fn next_call(&mut self) -> Call {
        self.turn = self.turn.wrapping_add(1);
        // a match on three manners that stand in a table of loads: values of a trait would need boxes to stand there
        match self.manner {
            Manner::Wild => self.wild.next_call(),
            Manner::Scarce => self.scarce(),
            Manner::Thicket => self.thicket(),
        }
    }

    /// One of the handles.
    fn one_of(&mut self, handles: Range<u32>) -> u32
        requires { handles.start < handles.end }
    {
        handles.start + self.wild.below(handles.end - handles.start)
    }

    /// A wild call; of thirty-two collections, one is kept.
    fn scarce(&mut self) -> Call {
        let call = self.wild.next_call();
        match call {
            Call::Collect | Call::Stepped | Call::GivenUp if self.wild.below(32) > 0 => {
                Call::Record {
                    target: self.one_of(RECORDS),
                    layout: self.one_of(LAYOUTS),
                }
            }
            _ => call,
        }
    }

    /// Three calls of four put a record before the list; the fourth is any.
    fn thicket(&mut self) -> Call {
        match self.turn % 4 {
            0 => Call::Record {
                target: NEWEST,
                layout: LAYOUT,
            },
            1 => Call::Save {
                record: NEWEST,
                field: NEXT,
                source: LIST,
            },
            2 => Call::Copy {
                target: LIST,
                source: NEWEST,
            },
            _ => self.tangle(),
        }
    }

    /// A step of the walker, a tie, a change of classes, or a collection.
    fn tangle(&mut self) -> Call {
        match self.wild.below(32) {
            0..=10 => Call::Load {
                target: WALKER,
                record: WALKER,
                field: NEXT,
            },
            11..=12 => Call::Copy {
                target: WALKER,
                source: LIST,
            },
            13..=22 => self.tie(),
            23..=28 => self.change_classes(),
            29 => Call::Collect,
            30 => Call::Stepped,
            _ => Call::GivenUp,
        }
    }

    /// Writes a field of the walker's record or of the newest.
    fn tie(&mut self) -> Call {
        let field = self.wild.below(FIELDS);
        match self.wild.below(4) {
            0 => Call::Save {
                record: NEWEST,
                field,
                source: WALKER,
            },
            1 => Call::Save {
                record: WALKER,
                field: self.wild.below(NEXT),
                source: NEWEST,
            },
            2 => Call::Save {
                record: NEWEST,
                field: self.wild.below(NEXT),
                source: MAP,
            },
            _ => Call::RawSave {
                record: NEWEST,
                field,
                word: self.wild.below(512),
            },
        }
    }

    /// Makes the map or the layout of the records to come, or changes the two maps about.
    fn change_classes(&mut self) -> Call {
        match self.wild.below(4) {
            0 => Call::Map {
                target: MAP,
                rule: self.wild.below(5),
                name: WALKER,
                parent: OTHER_MAP,
            },
            1 => Call::Map {
                target: OTHER_MAP,
                rule: self.wild.below(5),
                name: NEWEST,
                parent: NOTHING,
            },
            2 => Call::Copy {
                target: OTHER_MAP,
                source: MAP,
            },
            _ => Call::Layout {
                target: LAYOUT,
                fields: FIELDS,
                map: MAP,
            },
        }
    }
}
