// The values and objects of the still graph.
use graph::Kind;

/// What a handle or a value field holds.
#[derive(Clone, Copy, PartialEq, Eq, Debug)]
pub enum Value {
    Empty,
    Number(i32),
    /// The object at this position in the order of making.
    Object(usize),
}

/// A field of a record. Whether it is raw is settled when the record is made.
#[derive(Clone, Copy)]
pub enum Field {
    Raw(u32),
    Value(Value),
}

/// A record: its layout's position and its fields.
#[derive(Drop)]
pub struct Record {
    pub layout: usize,
    pub fields: Vec<Field>,
}

/// A layout: how many fields, and its map's position.
#[derive(Clone, Copy)]
pub struct Layout {
    pub fields: u32,
    pub map: usize,
}

/// A map: its rule, its name and its parent, which is empty or another map.
#[derive(Clone, Copy)]
pub struct Map {
    pub rule: u32,
    pub name: Value,
    pub parent: Value,
}

/// An object of the graph.
// Objects name each other by position and not by `Box`: they may form cycles, and the order of making is part of the rules.
#[derive(Drop)]
pub enum Object {
    Record(Record),
    Layout(Layout),
    Map(Map),
}

impl Object {
    // By a method, which is passed by its name: a `From` would hold the same match.
    pub fn kind(&self) -> Kind {
        match self {
            Object::Record(_) => Kind::Record,
            Object::Layout(_) => Kind::Layout,
            Object::Map(_) => Kind::Map,
        }
    }

    /// How many words it takes, the header and a class's boundary tag with them.
    pub fn size(&self) -> u32 {
        match self {
            Object::Record(it) => word_of(it.fields.len()).saturating_add(2),
            Object::Layout(_) => 4,
            Object::Map(_) => 5,
        }
    }
}

/// A count as a word: counts are far below 2^32 here.
pub fn word_of(count: usize) -> u32 {
    u32::try_from(count).unwrap_or(u32::MAX)
}
