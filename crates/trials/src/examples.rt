// The examples of docs/HEAP.md: the answers, and some of the words, that stand there.
use crate::answered::Answered;
use crate::beside::Beside;
use crate::schemes::Modelled;
use graph::{Call, Outcome, Refusal};
use heap::Heap;
use memory::Memory;
use model::Rules;
use scheme::{Mask, Prefix};
use std::alloc::{AllocError, Global};

/// A heap of so many words, calls with their answers, and words that stand there after the last of them.
#[derive(Clone, Copy)]
pub struct Example {
    pub name: &'static str,
    rules: Rules,
    length: u32,
    steps: &'static [(Call, Outcome)],
    words: &'static [(u32, u32)],
    handles: &'static [(u32, u32)],
}

// A constant can call no function, so that each call is written out.

// The calls of the worked example.
const MAP: Call = Call::Map {
    target: 0,
    rule: 1,
    name: 31,
    parent: 31,
};

const LAYOUT: Call = Call::Layout {
    target: 1,
    fields: 3,
    map: 0,
};

const RECORD: Call = Call::Record {
    target: 2,
    layout: 1,
};

const SEVEN: Call = Call::Num {
    handle: 3,
    number: -7,
};

const SAVE: Call = Call::Save {
    record: 2,
    field: 1,
    source: 3,
};

const SAVE_ITSELF: Call = Call::Save {
    record: 2,
    field: 1,
    source: 2,
};

const SAVE_RAW: Call = Call::Save {
    record: 2,
    field: 0,
    source: 3,
};

const LOAD: Call = Call::Load {
    target: 4,
    record: 2,
    field: 1,
};

const FIVE_FIELDS: Call = Call::Layout {
    target: 1,
    fields: 5,
    map: 0,
};

const SIX_FIELDS: Call = Call::Layout {
    target: 1,
    fields: 6,
    map: 0,
};

const ANOTHER: Call = Call::Record {
    target: 4,
    layout: 1,
};

const LOOKS_LIKE: Call = Call::RawSave {
    record: 4,
    field: 0,
    word: 2,
};

const RAWLOAD: Call = Call::RawLoad {
    record: 4,
    field: 0,
};

const NAMED: Call = Call::Map {
    target: 5,
    rule: 0,
    name: 2,
    parent: 31,
};

const CLEAR_MAP: Call = Call::Clear { handle: 0 };

const CLEAR_LAYOUT: Call = Call::Clear { handle: 1 };

const CLEAR_RECORD: Call = Call::Clear { handle: 2 };

// Rules and field counts.
const RULE_32: Call = Call::Map {
    target: 0,
    rule: 32,
    name: 31,
    parent: 31,
};

const RULE_33: Call = Call::Map {
    target: 0,
    rule: 33,
    name: 31,
    parent: 31,
};

const RULE_LAST_BIT: Call = Call::Map {
    target: 0,
    rule: 2_147_483_648,
    name: 31,
    parent: 31,
};

const WIDEST: Call = Call::Layout {
    target: 1,
    fields: 32,
    map: 0,
};

const TOO_WIDE: Call = Call::Layout {
    target: 1,
    fields: 33,
    map: 0,
};

const RAWSAVE_LAST: Call = Call::RawSave {
    record: 2,
    field: 31,
    word: 4_294_967_295,
};

const RAWLOAD_LAST: Call = Call::RawLoad {
    record: 2,
    field: 31,
};

const RAWLOAD_30: Call = Call::RawLoad {
    record: 2,
    field: 30,
};

const RAWLOAD_32: Call = Call::RawLoad {
    record: 2,
    field: 32,
};

// Numbers.
const GREATEST: Call = Call::Num {
    handle: 4,
    number: 536_870_911,
};

const LEAST: Call = Call::Num {
    handle: 5,
    number: -536_870_912,
};

const TOO_GREAT: Call = Call::Num {
    handle: 6,
    number: 536_870_912,
};

const TOO_LITTLE: Call = Call::Num {
    handle: 6,
    number: -536_870_913,
};

// Calls with more than one thing wrong: the argument that is looked at first is to blame.
const ALL_WRONG: Call = Call::Map {
    target: 32,
    rule: 33,
    name: 32,
    parent: 32,
};

const RULE_AND_NAME: Call = Call::Map {
    target: 0,
    rule: 33,
    name: 32,
    parent: 32,
};

const NAME_AND_PARENT: Call = Call::Map {
    target: 0,
    rule: 0,
    name: 32,
    parent: 1,
};

const NO_MAP_AS_PARENT: Call = Call::Map {
    target: 0,
    rule: 0,
    name: 31,
    parent: 1,
};

const SAVE_FROM_NONE: Call = Call::Save {
    record: 31,
    field: 99,
    source: 32,
};

const NO_PART: Call = Call::Part {
    target: 3,
    object: 31,
    part: 4,
};

const OTHER_PART: Call = Call::Part {
    target: 3,
    object: 0,
    part: 1,
};

/// The examples.
pub const EXAMPLES: [Example; 16] = [
    Example {
        name: "a map, a layout and a record",
        rules: Rules::Prefix,
        length: 64,
        steps: &[(MAP, Ok(0)), (LAYOUT, Ok(0)), (RECORD, Ok(0))],
        words: &[
            (0, 81),
            (1, 223),
            (2, 0),
            (3, 0),
            (4, 0),
            (5, 0),
            (54, 0),
            (55, 69),
            (56, 3),
            (57, 239),
            (58, 4),
            (59, 89),
            (60, 1),
            (61, 0),
            (62, 0),
            (63, 5),
        ],
        handles: &[(0, 239), (1, 223), (2, 2), (3, 0), (31, 0)],
    },
    Example {
        name: "the worked load up to its collection: garbage stands",
        rules: Rules::Prefix,
        length: 64,
        steps: &[
            (MAP, Ok(0)),
            (LAYOUT, Ok(0)),
            (RECORD, Ok(0)),
            (SEVEN, Ok(0)),
            (SAVE, Ok(0)),
            (CLEAR_RECORD, Ok(0)),
            (Call::GivenUp, Ok(0)),
        ],
        words: &[
            (0, 81),
            (1, 223),
            (2, 0),
            (3, 4_294_967_269),
            (4, 0),
            (55, 69),
            (59, 89),
        ],
        handles: &[(0, 239), (1, 223), (2, 0), (3, 4_294_967_269)],
    },
    Example {
        name: "the worked load",
        rules: Rules::Prefix,
        length: 64,
        steps: &[
            (MAP, Ok(0)),
            (LAYOUT, Ok(0)),
            (RECORD, Ok(0)),
            (SEVEN, Ok(0)),
            (SAVE, Ok(0)),
            (SAVE_RAW, Err(Refusal::OtherField(2))),
            (LOAD, Ok(0)),
            (Call::Value { handle: 4 }, Ok(-7)),
            (CLEAR_RECORD, Ok(0)),
            (Call::Collect, Ok(9)),
            (Call::Fill, Ok(14)),
        ],
        words: &[
            (0, 0),
            (1, 0),
            (2, 0),
            (3, 0),
            (4, 0),
            (55, 69),
            (57, 239),
            (59, 89),
            (63, 5),
        ],
        handles: &[
            (0, 239),
            (1, 223),
            (2, 0),
            (3, 4_294_967_269),
            (4, 4_294_967_269),
        ],
    },
    Example {
        name: "a collection that moves nothing",
        rules: Rules::Prefix,
        length: 64,
        steps: &[
            (MAP, Ok(0)),
            (LAYOUT, Ok(0)),
            (RECORD, Ok(0)),
            (SEVEN, Ok(0)),
            (SAVE, Ok(0)),
            (Call::Stepped, Ok(14)),
        ],
        words: &[
            (0, 81),
            (1, 223),
            (2, 0),
            (3, 4_294_967_269),
            (55, 69),
            (57, 239),
            (59, 89),
        ],
        handles: &[(0, 239), (1, 223), (2, 2)],
    },
    Example {
        name: "a record in its own field",
        rules: Rules::Prefix,
        length: 64,
        steps: &[
            (MAP, Ok(0)),
            (LAYOUT, Ok(0)),
            (RECORD, Ok(0)),
            (SAVE_ITSELF, Ok(0)),
            (CLEAR_RECORD, Ok(0)),
            (Call::Collect, Ok(9)),
        ],
        words: &[(0, 0), (3, 0), (55, 69)],
        handles: &[(2, 0)],
    },
    Example {
        name: "a record that a second map has as its name",
        rules: Rules::Prefix,
        length: 64,
        steps: &[
            (MAP, Ok(0)),
            (LAYOUT, Ok(0)),
            (RECORD, Ok(0)),
            (NAMED, Ok(0)),
            (CLEAR_MAP, Ok(0)),
            (CLEAR_LAYOUT, Ok(0)),
            (CLEAR_RECORD, Ok(0)),
            (Call::Collect, Ok(19)),
        ],
        words: &[
            (0, 81),
            (1, 223),
            (50, 89),
            (51, 0),
            (52, 2),
            (53, 0),
            (54, 5),
        ],
        handles: &[(0, 0), (5, 203)],
    },
    Example {
        name: "the second of two records slides",
        rules: Rules::Prefix,
        length: 64,
        steps: &[
            (MAP, Ok(0)),
            (LAYOUT, Ok(0)),
            (RECORD, Ok(0)),
            (ANOTHER, Ok(0)),
            (CLEAR_RECORD, Ok(0)),
            (Call::Collect, Ok(14)),
        ],
        words: &[(0, 81), (1, 223), (5, 0), (6, 0)],
        handles: &[(2, 0), (4, 2)],
    },
    Example {
        name: "a raw field that looks like a reference",
        rules: Rules::Prefix,
        length: 64,
        steps: &[
            (MAP, Ok(0)),
            (LAYOUT, Ok(0)),
            (RECORD, Ok(0)),
            (ANOTHER, Ok(0)),
            (LOOKS_LIKE, Ok(0)),
            (CLEAR_RECORD, Ok(0)),
            (Call::Stepped, Ok(14)),
            (RAWLOAD, Ok(2)),
        ],
        words: &[(0, 81), (1, 223), (2, 2)],
        handles: &[(4, 2)],
    },
    Example {
        name: "16 words: 5 fields go in, a second record only after a clear",
        rules: Rules::Prefix,
        length: 16,
        steps: &[
            (MAP, Ok(0)),
            (FIVE_FIELDS, Ok(0)),
            (RECORD, Ok(0)),
            (Call::Fill, Ok(100)),
            (RECORD, Err(Refusal::Full)),
            (CLEAR_RECORD, Ok(0)),
            (RECORD, Ok(0)),
            (Call::Fill, Ok(100)),
        ],
        words: &[(0, 113), (1, 31), (7, 69), (11, 89), (15, 5)],
        handles: &[(2, 2)],
    },
    Example {
        name: "16 words: 6 fields do not go in",
        rules: Rules::Prefix,
        length: 16,
        steps: &[
            (MAP, Ok(0)),
            (SIX_FIELDS, Ok(0)),
            (RECORD, Err(Refusal::Full)),
            (Call::Fill, Ok(56)),
        ],
        words: &[(0, 0), (6, 0), (7, 69)],
        handles: &[(2, 0)],
    },
    Example {
        name: "no words",
        rules: Rules::Mask,
        length: 0,
        steps: &[
            (MAP, Err(Refusal::Full)),
            (Call::Collect, Ok(0)),
            (Call::Stepped, Ok(0)),
            (Call::Fill, Ok(0)),
        ],
        words: &[],
        handles: &[(0, 0)],
    },
    Example {
        name: "a half goes upward",
        rules: Rules::Prefix,
        length: 200,
        steps: &[(MAP, Ok(0)), (Call::Fill, Ok(3))],
        words: &[(195, 89), (199, 5)],
        handles: &[(0, 783)],
    },
    Example {
        name: "PREFIX takes rule 32 and no greater one",
        rules: Rules::Prefix,
        length: 64,
        steps: &[
            (RULE_32, Ok(0)),
            (RULE_33, Err(Refusal::NoRule(2))),
            (RULE_LAST_BIT, Err(Refusal::NoRule(2))),
            (WIDEST, Ok(0)),
            (Call::Raws { handle: 1 }, Ok(32)),
            (Call::Figure { handle: 0 }, Ok(32)),
            (TOO_WIDE, Err(Refusal::TooWide(2))),
        ],
        words: &[(56, 32), (60, 32)],
        handles: &[(0, 239)],
    },
    Example {
        name: "MASK takes every rule, and the last bit is field 31",
        rules: Rules::Mask,
        length: 64,
        steps: &[
            (RULE_33, Ok(0)),
            (RULE_LAST_BIT, Ok(0)),
            (WIDEST, Ok(0)),
            (Call::Raws { handle: 1 }, Ok(1)),
            (Call::Figure { handle: 0 }, Ok(2_147_483_648)),
            (RECORD, Ok(0)),
            (RAWSAVE_LAST, Ok(0)),
            (RAWLOAD_LAST, Ok(4_294_967_295)),
            (RAWLOAD_30, Err(Refusal::OtherField(2))),
            (RAWLOAD_32, Err(Refusal::NoField(2))),
        ],
        words: &[(0, 545), (33, 4_294_967_295)],
        handles: &[(2, 2)],
    },
    Example {
        name: "numbers",
        rules: Rules::Prefix,
        length: 1,
        steps: &[
            (SEVEN, Ok(0)),
            (GREATEST, Ok(0)),
            (LEAST, Ok(0)),
            (TOO_GREAT, Err(Refusal::NoNumber(2))),
            (TOO_LITTLE, Err(Refusal::NoNumber(2))),
            (Call::Value { handle: 5 }, Ok(-536_870_912)),
            (Call::Kind { handle: 3 }, Ok(1)),
            (Call::Figure { handle: 3 }, Err(Refusal::OtherKind(1))),
            (Call::Value { handle: 6 }, Err(Refusal::OtherKind(1))),
        ],
        words: &[(0, 0)],
        handles: &[
            (3, 4_294_967_269),
            (4, 2_147_483_645),
            (5, 2_147_483_649),
            (6, 0),
        ],
    },
    Example {
        name: "the order of refusals",
        rules: Rules::Prefix,
        length: 9,
        steps: &[
            (MAP, Ok(0)),
            (LAYOUT, Ok(0)),
            (ALL_WRONG, Err(Refusal::NoHandle(1))),
            (RULE_AND_NAME, Err(Refusal::NoRule(2))),
            (NAME_AND_PARENT, Err(Refusal::NoHandle(3))),
            (NO_MAP_AS_PARENT, Err(Refusal::OtherKind(4))),
            (SAVE_FROM_NONE, Err(Refusal::NoHandle(3))),
            (SAVE, Err(Refusal::OtherKind(1))),
            (NO_PART, Err(Refusal::NoPart(3))),
            (OTHER_PART, Err(Refusal::OtherKind(2))),
            (RECORD, Err(Refusal::Full)),
            (Call::Raws { handle: 0 }, Err(Refusal::OtherKind(1))),
        ],
        words: &[(0, 69), (2, 19), (4, 89)],
        handles: &[(0, 19), (1, 3)],
    },
];

/// Whether the words named are read.
fn are_read<F: Fn(u32) -> u32>(words: &[(u32, u32)], read: F) -> bool
    requires { F.IsAlwaysCallable read }
{
    words.iter().all(|(place, word)| read(*place) == *word)
}

/// The word at a place among bytes: four of them, the most significant first.
fn word_in(bytes: &[u8], place: u32) -> u32 {
    let (words, _) = bytes.as_chunks::<4>();
    words
        .get(place as usize)
        .map_or(0, |word| u32::from_be_bytes(*word))
}

impl Example {
    /// Whether a heap over the memory, and the model beside it, do as the example says.
    fn holds_over<M: Memory + Drop, S: Modelled>(
        self,
        alloc: Global,
        memory: M,
        scheme: S,
    ) -> Result<bool, AllocError> {
        let mut beside = Beside::new(alloc, self.length, S::RULES)?;
        let mut heap = Heap::new(memory, scheme);
        let mut all = true;
        // a `for`, since each call takes the heap and gives it back
        for (call, outcome) in self.steps {
            let (next, answer) = heap.run(*call);
            heap = next;
            let answered = Answered {
                call: *call,
                answer,
            };
            let agrees = beside.compare(&heap, answered).is_ok();
            all = all && agrees && answer == *outcome;
        }
        all = all
            && are_read(self.words, |place| heap.word(place))
            && are_read(self.handles, |handle| heap.handle_word(handle));
        let (_, _) = heap.into_parts();
        Ok(all)
    }

    /// Whether the example holds over words and over bytes, and its words lie in the bytes as they should.
    fn holds_under<S: Modelled>(self, alloc: Global, scheme: S) -> Result<bool, AllocError> {
        let length = self.length as usize;
        let mut words = vec![in alloc; 9u32; length]?;
        let mut bytes = vec![in alloc; 9u8; length.saturating_mul(4).saturating_add(3)]?;
        let over_words = self.holds_over(alloc, words.as_mut_slice(), scheme)?;
        let over_bytes = self.holds_over(alloc, bytes.as_mut_slice(), scheme)?;
        let lie = are_read(self.words, |place| word_in(&bytes, place));
        Ok(over_words && over_bytes && lie)
    }

    /// Whether heap and model do as the example says, over both memories.
    pub fn holds(self, alloc: Global) -> Result<bool, AllocError> {
        match self.rules {
            Rules::Prefix => self.holds_under(alloc, Prefix),
            Rules::Mask => self.holds_under(alloc, Mask),
        }
    }
}
