// Headers: bit 0 is set, bit 1 is the mark, bits 2 and 3 are the kind, and the bits above are the size.
ghost use Rattle.std.specs.Prelude.{◌≡◌, ℕ, ◌+◌, ◌-◌, ◌*◌, ◌/◌, ◌%◌, ◌<◌, ◌≤◌, Bool, false, if◌then◌else◌, ◌==◌, nat_eq, MatchOption};
ghost use Rattle.graph.specs.Words.{header};
ghost use Rattle.codec.specs.Kinds.{shape_number};
ghost use Rattle.codec.specs.declared.header.Shape.TheVariants.{Record};

/// What kind of object a header stands before.
#[derive(Clone, Copy, PartialEq, Eq, Debug)]
pub enum Shape {
    Record,
    Layout,
    Map,
}

impl Shape {
    // By a method, since a `From` would not say that the number is the header's.
    /// The number that a header holds for it.
    pub fn number(self) -> u32
        ensures { result ≡ shape_number self }
    {
        match self {
            Shape::Record => 0,
            Shape::Layout => 1,
            Shape::Map => 2,
        }
    }
}

/// The unmarked header of an object of so many words. No object has 2^27 words and more.
pub fn header_of(shape: Shape, words: u32) -> u32
    ensures { words < 134_217_728 → result ≡ header false (shape_number shape) words }
{
    let kind = shape.number();
    words.wrapping_mul(16).wrapping_add(4 * kind + 1)
}

/// How many words the object takes, its header with them.
pub fn size_in(header: u32) -> u32
    ensures { result ≡ header / 16 }
{
    header / 16
}

/// The object's kind. The fourth number is no kind's, and no header of a heap at rest has it.
pub fn shape_in(header: u32) -> Option<Shape>
    ensures { MatchOption result (header / 4 % 4 ≡ 3) (λ s. shape_number s ≡ header / 4 % 4) }
{
    match header / 4 % 4 {
        0 => Some(Shape::Record),
        1 => Some(Shape::Layout),
        2 => Some(Shape::Map),
        _ => None,
    }
}

/// Whether the object is a record.
pub fn is_record(header: u32) -> bool
    ensures { result ≡ (header / 4 % 4 == shape_number Record) }
{
    header / 4 % 4 == 0
}

/// Whether the second bit of the object's number is set: it is a map then, or its bits are no kind's.
pub fn is_map(header: u32) -> bool
    ensures { result ≡ (header / 4 % 4 / 2 == 1) }
{
    header / 8 % 2 == 1
}

/// Whether the word is the header of a marked object.
pub fn is_marked(word: u32) -> bool
    ensures { result ≡ (word % 4 == 3) }
{
    word % 4 == 3
}

/// Whether the word is the header of an object that is not marked.
pub fn is_unmarked(word: u32) -> bool
    ensures { result ≡ (word % 4 == 1) }
{
    word % 4 == 1
}

/// Whether a header has its mark, which is bit 1.
pub fn has_mark(header: u32) -> bool
    ensures { result ≡ (header / 2 % 2 == 1) }
{
    header / 2 % 2 == 1
}

/// The header with its mark.
pub fn marked(header: u32) -> u32
    ensures { result ≡ header + (if nat_eq (header / 2 % 2) 1 then 0 else 2) }
{
    if header / 2 % 2 == 1 {
        header
    } else {
        header + 2
    }
}

/// The header without its mark.
pub fn unmarked(header: u32) -> u32
    ensures { result ≡ header - (if nat_eq (header / 2 % 2) 1 then 2 else 0) }
{
    if header / 2 % 2 == 1 {
        header - 2
    } else {
        header
    }
}
