// The calls of the still graph, and what a call answers.
#![tactic(auto)]

ghost use Rattle.std.specs.Prelude.{◌≡◌};
ghost use Rattle.graph.specs.Numbers.{refusal_number, refusal_position, kind_number};

mod theorems;

pub use theorems::{
    alterations_stand, collections_unnoticed, fill_is_nearest, laws_stand,
    order_of_marking_is_free, reachability_stands, sliding_stands, soundness_stands,
    stored_is_read_back, stored_stays, worked_examples_stand,
};

/// A call with its arguments, from left to right.
#[derive(Clone, Copy, Debug)]
pub enum Call {
    /// The handle becomes the number.
    Num {
        handle: u32,
        number: i32,
    },
    /// The handle becomes empty.
    Clear {
        handle: u32,
    },
    /// The target takes the value of the source.
    Copy {
        target: u32,
        source: u32,
    },
    /// Makes a map of the rule, whose name and parent are the values of two handles; the target refers to it.
    Map {
        target: u32,
        rule: u32,
        name: u32,
        parent: u32,
    },
    /// Makes a layout under the map that a handle holds, for records of so many fields; the target refers to it.
    Layout {
        target: u32,
        fields: u32,
        map: u32,
    },
    /// Makes a record of the layout that a handle holds; the target refers to it. Its raw fields are 0, and no other holds a value.
    Record {
        target: u32,
        layout: u32,
    },
    /// The target takes the value in a field of the record.
    Load {
        target: u32,
        record: u32,
        field: u32,
    },
    /// A field of the record takes the value in the source.
    Save {
        record: u32,
        field: u32,
        source: u32,
    },
    /// Tells the word in a raw field.
    RawLoad {
        record: u32,
        field: u32,
    },
    /// Puts the word into a raw field.
    RawSave {
        record: u32,
        field: u32,
        word: u32,
    },
    /// Tells what a handle holds, by the number of its kind: 1 for a number, 2 to 4 for a record, a layout and a map, and 0 for nothing.
    Kind {
        handle: u32,
    },
    /// Tells the number that a handle holds.
    Value {
        handle: u32,
    },
    /// Tells 1 where two handles hold the same number, the same object, or nothing both, and 0 where they do not.
    Same {
        first: u32,
        second: u32,
    },
    /// The target takes a part of the object: with 0 the layout of a record, with 1 the map of a layout, with 2 a map's name, with 3 its parent.
    Part {
        target: u32,
        object: u32,
        part: u32,
    },
    /// Tells how many fields a record or a layout has, or which rule a map.
    Figure {
        handle: u32,
    },
    /// Tells the number of raw fields that a layout gives its records.
    Raws {
        handle: u32,
    },
    /// Packs the heap, and tells the live words.
    Collect,
    /// Tells how full the heap is: its live words in a hundred of all, rounded.
    Fill,
    /// A collection that is begun, drawn and closed, one after another: the same as `Collect`.
    Stepped,
    /// A collection that is begun and then given up: nothing comes of it.
    GivenUp,
}

/// Why a call was refused, with the position of the argument that did not do, from 1.
#[derive(Clone, Copy, PartialEq, Eq, Debug)]
pub enum Refusal {
    /// A handle above 31.
    NoHandle(u8),
    /// A number that 30 bits with sign cannot hold.
    NoNumber(u8),
    /// A field count above 32.
    TooWide(u8),
    /// A part above 3.
    NoPart(u8),
    /// A rule that the scheme does not admit.
    NoRule(u8),
    /// A handle that does not hold what the call needs there.
    OtherKind(u8),
    /// A field that the record does not have.
    NoField(u8),
    /// A field that is raw where the call needs a value, or holds a value where it needs raw bits.
    OtherField(u8),
    /// No room for the new object beside the live words.
    Full,
}

// Numbers by methods and not by `From`: a refusal has two, and the call `kind` gives a kind its own.
impl Refusal {
    /// The number by which the refusal is known outside.
    pub fn number(self) -> u8
        ensures { result ≡ refusal_number self }
    {
        match self {
            Refusal::NoHandle(_) => 11,
            Refusal::NoNumber(_) => 12,
            Refusal::TooWide(_) => 13,
            Refusal::NoPart(_) => 14,
            Refusal::NoRule(_) => 15,
            Refusal::OtherKind(_) => 21,
            Refusal::NoField(_) => 22,
            Refusal::OtherField(_) => 23,
            Refusal::Full => 31,
        }
    }

    /// The position of the argument that did not do, from 1; 0 where it is no argument's fault.
    pub fn position(self) -> u8
        ensures { result ≡ refusal_position self }
    {
        match self {
            Refusal::NoHandle(at)
            | Refusal::NoNumber(at)
            | Refusal::TooWide(at)
            | Refusal::NoPart(at)
            | Refusal::NoRule(at)
            | Refusal::OtherKind(at)
            | Refusal::NoField(at)
            | Refusal::OtherField(at) => at,
            Refusal::Full => 0,
        }
    }
}

/// What a handle or a field holds.
#[derive(Clone, Copy, PartialEq, Eq, Debug)]
pub enum Kind {
    Empty,
    Number,
    Record,
    Layout,
    Map,
}

impl Kind {
    /// The number that the call `kind` answers.
    pub fn number(self) -> u8
        ensures { result ≡ kind_number self }
    {
        match self {
            Kind::Empty => 0,
            Kind::Number => 1,
            Kind::Record => 2,
            Kind::Layout => 3,
            Kind::Map => 4,
        }
    }
}

/// What a call gives: a number, 0 where there is none to tell, or a refusal.
pub type Outcome = Result<i64, Refusal>;
