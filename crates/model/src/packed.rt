// The words that the handles and the reachable objects have when they alone are there.
use crate::object::{Field, Object, Record, Value};
use crate::reach::reachable;
use crate::still::Still;
use graph::Kind;
use std::alloc::{AllocError, Global};

/// The two inner ends of the sides, between which all words are free.
#[derive(Clone, Copy)]
struct Ends {
    low: u32,
    high: u32,
}

impl Ends {
    /// Gives the next object its place: records go up from the left, classes down from the right.
    fn place(&mut self, object: &Object) -> u32 {
        match object {
            Object::Record(_) => {
                let place = self.low;
                self.low = self.low.saturating_add(object.size());
                place
            }
            Object::Layout(_) | Object::Map(_) => {
                self.high = self.high.saturating_sub(object.size());
                self.high
            }
        }
    }
}

/// The number in a header for this kind of object.
// A match: these numbers belong to the layout of words, and are not those that the call `kind` answers.
fn kind_bits(object: &Object) -> u32 {
    match object {
        Object::Record(_) => 0,
        Object::Layout(_) => 1,
        Object::Map(_) => 2,
    }
}

/// The header of an object at rest.
fn header(object: &Object) -> u32 {
    object.size() << 4 | kind_bits(object) << 2 | 1
}

/// The word of a number, which is n × 4 + 1 modulo 2^32.
fn number_word(number: i32) -> u32 {
    number.wrapping_mul(4).wrapping_add(1).cast_unsigned()
}

/// The reference to an object at this place.
fn reference(kind: Kind, place: u32) -> u32 {
    match kind {
        Kind::Record => place << 2 | 2,
        _ => place << 2 | 3,
    }
}

/// Writes the words from the place on.
fn write(memory: &mut [u32], place: u32, words: &[u32]) {
    let from = place as usize;
    if let Some(old) = memory.get_mut(from..from.saturating_add(words.len())) {
        old.copy_from_slice(words);
    }
}

/// Every object with its place, none for garbage: what it takes to write a value as a word.
#[derive(Drop)]
struct Placed<'a> {
    objects: Vec<(&'a Object, Option<u32>)>,
}

impl<'a> Placed<'a> {
    fn among(
        heap: Global,
        words: u32,
        objects: &'a [Object],
        reachable: &[bool],
    ) -> Result<Placed<'a>, AllocError> {
        let mut ends = Ends {
            low: 0,
            high: words,
        };
        let objects = objects
            .iter()
            .zip(reachable)
            .map(|(object, reached)| (object, reached.then(|| ends.place(object))))
            .collect(heap)?;
        Ok(Placed { objects })
    }

    fn object_word(&self, object: usize) -> u32 {
        match self.objects.get(object) {
            Some((it, Some(place))) => reference(it.kind(), *place),
            _ => 0,
        }
    }

    fn value_word(&self, value: Value) -> u32 {
        match value {
            Value::Empty => 0,
            Value::Number(number) => number_word(number),
            Value::Object(object) => self.object_word(object),
        }
    }

    fn field_word(&self, field: Field) -> u32 {
        match field {
            Field::Raw(word) => word,
            Field::Value(value) => self.value_word(value),
        }
    }

    fn record_words(
        &self,
        heap: Global,
        head: u32,
        record: &Record,
    ) -> Result<Vec<u32>, AllocError> {
        let mut words = vec![in heap; head, self.object_word(record.layout)]?;
        words.extend(record.fields.iter().map(|field| self.field_word(*field)))?;
        Ok(words)
    }

    /// The object's words, header first; a class ends in its boundary tag.
    fn object_words(&self, heap: Global, object: &Object) -> Result<Vec<u32>, AllocError> {
        let head = header(object);
        let words = match object {
            Object::Record(it) => self.record_words(heap, head, it)?,
            Object::Layout(it) => vec![in heap; head, it.fields, self.object_word(it.map), 4]?,
            Object::Map(it) => vec![in heap;
                head,
                it.rule,
                self.value_word(it.name),
                self.value_word(it.parent),
                5,
            ]?,
        };
        Ok(words)
    }

    fn handle_words(&self, handles: &[Value; 32]) -> [u32; 32] {
        handles.map(|value| self.value_word(value))
    }
}

/// The packed words: those of the memory, and those of the handles.
#[derive(Drop)]
pub struct Packed {
    pub words: Vec<u32>,
    pub handles: [u32; 32],
}

impl Still {
    /// The words that the graph has when it is packed.
    pub fn packed(&self) -> Result<Packed, AllocError> {
        let heap = self.heap();
        let objects = self.objects();
        let reachable = reachable(heap, self.handles(), objects)?;
        let placed = Placed::among(heap, self.words(), objects, &reachable)?;
        let mut words = vec![in heap; 0; self.words() as usize]?;
        for (object, place) in &placed.objects {
            if let Some(place) = place {
                write(&mut words, *place, &placed.object_words(heap, object)?);
            }
        }
        let handles = placed.handle_words(self.handles());
        Ok(Packed { words, handles })
    }
}
