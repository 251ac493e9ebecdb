// The still graph and its calls.
use crate::object::{Field, Layout, Map, Object, Record, Value, word_of};
use crate::reach::reachable;
use crate::rules::Rules;
use graph::{Call, Kind, Outcome, Refusal};
use std::alloc::{AllocError, AllocFailed, Global};

/// Why a call ends before its answer.
#[derive(Drop)]
enum Stop {
    Refused(Refusal),
    NoMemory,
}

impl From<Refusal> for Stop {
    fn from(refusal: Refusal) -> Stop {
        Stop::Refused(refusal)
    }
}

impl From<AllocError> for Stop {
    fn from(_: AllocError) -> Stop {
        Stop::NoMemory
    }
}

impl<T: Drop> From<AllocFailed<T>> for Stop {
    fn from(_: AllocFailed<T>) -> Stop {
        Stop::NoMemory
    }
}

/// Thirty-two handles, and every object ever made, in the order of making.
#[derive(Drop)]
pub struct Still {
    heap: Global,
    words: u32,
    rules: Rules,
    handles: [Value; 32],
    objects: Vec<Object>,
}

impl Still {
    /// A graph for a memory of so many words, of which 16,384 count at most.
    pub fn new(heap: Global, length: u32, rules: Rules) -> Still {
        Still {
            heap,
            words: length.min(16_384),
            rules,
            handles: [Value::Empty; 32],
            objects: Vec::new(heap),
        }
    }

    /// Where the graph's lists are kept.
    pub(crate) fn heap(&self) -> Global {
        self.heap
    }

    pub fn words(&self) -> u32 {
        self.words
    }

    pub fn handles(&self) -> &[Value; 32] {
        &self.handles
    }

    pub fn objects(&self) -> &[Object] {
        &self.objects
    }

    /// Gives the call to the graph. An error is the computer's own lack of memory.
    pub fn give(&mut self, call: Call) -> Result<Outcome, AllocError> {
        match self.answer(call) {
            Ok(number) => Ok(Ok(number)),
            Err(Stop::Refused(refusal)) => Ok(Err(refusal)),
            Err(Stop::NoMemory) => Err(AllocError),
        }
    }

    // A match: the calls are the variants of an enum with arguments of their own, so a table of closures would have to take them apart too.
    fn answer(&mut self, call: Call) -> Result<i64, Stop> {
        match call {
            Call::Num { handle, number } => self.num(handle, number),
            Call::Clear { handle } => self.clear(handle),
            Call::Copy { target, source } => self.copy(target, source),
            Call::Map {
                target,
                rule,
                name,
                parent,
            } => self.make_map(target, rule, name, parent),
            Call::Layout {
                target,
                fields,
                map,
            } => self.make_layout(target, fields, map),
            Call::Record { target, layout } => self.make_record(target, layout),
            Call::Load {
                target,
                record,
                field,
            } => self.load(target, record, field),
            Call::Save {
                record,
                field,
                source,
            } => self.save(record, field, source),
            Call::RawLoad { record, field } => self.raw_load(record, field),
            Call::RawSave {
                record,
                field,
                word,
            } => self.raw_save(record, field, word),
            Call::Kind { handle } => self.kind(handle),
            Call::Value { handle } => self.value(handle),
            Call::Same { first, second } => self.same(first, second),
            Call::Part {
                target,
                object,
                part,
            } => self.part(target, object, part),
            Call::Figure { handle } => self.figure(handle),
            Call::Raws { handle } => self.raws(handle),
            Call::Collect | Call::Stepped => self.collect(),
            Call::Fill => self.fill(),
            Call::GivenUp => Ok(0),
        }
    }
}

/// What a handle holds, and the position of the argument that named the handle.
#[derive(Clone, Copy)]
struct Held {
    value: Value,
    at: u8,
}

impl Held {
    /// The refusal of a handle that holds another kind than the call needs.
    fn other_kind(self) -> Refusal {
        Refusal::OtherKind(self.at)
    }

    /// The position of the field number, which follows its record.
    fn field_at(self) -> u8 {
        self.at.saturating_add(1)
    }
}

// What the calls hold their arguments to.
impl Still {
    /// What the handle holds that is the argument at this position.
    fn held(&self, handle: u32, at: u8) -> Result<Held, Refusal> {
        match self.handles.get(handle as usize) {
            Some(value) => Ok(Held { value: *value, at }),
            None => Err(Refusal::NoHandle(at)),
        }
    }

    /// The object that the value refers to, with its position.
    fn object(&self, value: Value) -> Option<(usize, &Object)> {
        match value {
            Value::Object(object) => Some((object, self.objects.get(object)?)),
            Value::Empty | Value::Number(_) => None,
        }
    }

    // Three look-ups that differ in a variant: no parameter can name one, so one for all would take a function from objects for each.
    fn record_in(&self, held: Held) -> Result<&Record, Refusal> {
        match self.object(held.value) {
            Some((_, Object::Record(it))) => Ok(it),
            _ => Err(held.other_kind()),
        }
    }

    fn layout_in(&self, held: Held) -> Result<&Layout, Refusal> {
        match self.object(held.value) {
            Some((_, Object::Layout(it))) => Ok(it),
            _ => Err(held.other_kind()),
        }
    }

    fn map_in(&self, held: Held) -> Result<&Map, Refusal> {
        match self.object(held.value) {
            Some((_, Object::Map(it))) => Ok(it),
            _ => Err(held.other_kind()),
        }
    }

    fn kind_of(&self, value: Value) -> Kind {
        match value {
            Value::Empty => Kind::Empty,
            Value::Number(_) => Kind::Number,
            Value::Object(object) => self.objects.get(object).map_or(Kind::Empty, Object::kind),
        }
    }

    /// The field of the record.
    fn field_in(&self, record: Held, field: u32) -> Result<Field, Refusal> {
        self.record_in(record)?
            .fields
            .get(field as usize)
            .copied()
            .ok_or(Refusal::NoField(record.field_at()))
    }

    // Two that differ in a variant, as the look-ups above do.
    fn value_field(&self, record: Held, field: u32) -> Result<Value, Refusal> {
        match self.field_in(record, field)? {
            Field::Value(value) => Ok(value),
            Field::Raw(_) => Err(Refusal::OtherField(record.field_at())),
        }
    }

    fn raw_field(&self, record: Held, field: u32) -> Result<u32, Refusal> {
        match self.field_in(record, field)? {
            Field::Raw(word) => Ok(word),
            Field::Value(_) => Err(Refusal::OtherField(record.field_at())),
        }
    }
}

// How the calls change the graph, once nothing stands against it.
impl Still {
    fn hold(&mut self, handle: u32, value: Value) {
        if let Some(held) = self.handles.get_mut(handle as usize) {
            *held = value;
        }
    }

    // Nested, since the borrow checker does not cover where the branches of a chain of `let`s meet.
    fn set_field(&mut self, record: Value, field: u32, new: Field) {
        let Value::Object(object) = record else {
            return;
        };
        if let Some(Object::Record(it)) = self.objects.get_mut(object) {
            if let Some(old) = it.fields.get_mut(field as usize) {
                *old = new;
            }
        }
    }

    /// Makes the object, if it goes into the words beside all that is reachable now.
    fn make(&mut self, target: u32, object: Object) -> Result<i64, Stop> {
        let live = self.live_words()?;
        if live.saturating_add(object.size()) > self.words {
            return Err(Refusal::Full.into());
        }
        let made = self.objects.len();
        self.objects.push(object)?;
        self.hold(target, Value::Object(made));
        Ok(0)
    }

    /// The fields of a new record: raw ones 0, the others empty.
    fn blank(&self, layout: &Layout) -> Result<Vec<Field>, AllocError> {
        let rule = self.rule_of(layout);
        (0..layout.fields)
            .map(|field| {
                if self.rules.is_raw(rule, field) {
                    Field::Raw(0)
                } else {
                    Field::Value(Value::Empty)
                }
            })
            .collect(self.heap)
    }

    fn rule_of(&self, layout: &Layout) -> u32 {
        match self.objects.get(layout.map) {
            Some(Object::Map(it)) => it.rule,
            _ => 0,
        }
    }
}

// The calls, in the order of their table.
impl Still {
    fn num(&mut self, handle: u32, number: i32) -> Result<i64, Stop> {
        self.held(handle, 1)?;
        if !(-536_870_912..=536_870_911).contains(&number) {
            return Err(Refusal::NoNumber(2).into());
        }
        self.hold(handle, Value::Number(number));
        Ok(0)
    }

    fn clear(&mut self, handle: u32) -> Result<i64, Stop> {
        self.held(handle, 1)?;
        self.hold(handle, Value::Empty);
        Ok(0)
    }

    fn copy(&mut self, target: u32, source: u32) -> Result<i64, Stop> {
        self.held(target, 1)?;
        let source = self.held(source, 2)?;
        self.hold(target, source.value);
        Ok(0)
    }

    fn make_map(&mut self, target: u32, rule: u32, name: u32, parent: u32) -> Result<i64, Stop> {
        self.held(target, 1)?;
        if !self.rules.admits(rule) {
            return Err(Refusal::NoRule(2).into());
        }
        let name = self.held(name, 3)?.value;
        let parent = self.held(parent, 4)?;
        if parent.value != Value::Empty {
            self.map_in(parent)?;
        }
        let parent = parent.value;
        self.make(target, Object::Map(Map { rule, name, parent }))
    }

    fn make_layout(&mut self, target: u32, fields: u32, map: u32) -> Result<i64, Stop> {
        self.held(target, 1)?;
        if fields > 32 {
            return Err(Refusal::TooWide(2).into());
        }
        let map = self.held(map, 3)?;
        let Some((map, Object::Map(_))) = self.object(map.value) else {
            return Err(map.other_kind().into());
        };
        self.make(target, Object::Layout(Layout { fields, map }))
    }

    fn make_record(&mut self, target: u32, layout: u32) -> Result<i64, Stop> {
        self.held(target, 1)?;
        let layout = self.held(layout, 2)?;
        let Some((layout, Object::Layout(it))) = self.object(layout.value) else {
            return Err(layout.other_kind().into());
        };
        let fields = self.blank(it)?;
        self.make(target, Object::Record(Record { layout, fields }))
    }

    fn load(&mut self, target: u32, record: u32, field: u32) -> Result<i64, Stop> {
        self.held(target, 1)?;
        let record = self.held(record, 2)?;
        let value = self.value_field(record, field)?;
        self.hold(target, value);
        Ok(0)
    }

    fn save(&mut self, record: u32, field: u32, source: u32) -> Result<i64, Stop> {
        let record = self.held(record, 1)?;
        let source = self.held(source, 3)?;
        self.value_field(record, field)?;
        self.set_field(record.value, field, Field::Value(source.value));
        Ok(0)
    }

    fn raw_load(&self, record: u32, field: u32) -> Result<i64, Stop> {
        let record = self.held(record, 1)?;
        let word = self.raw_field(record, field)?;
        Ok(i64::from(word))
    }

    fn raw_save(&mut self, record: u32, field: u32, word: u32) -> Result<i64, Stop> {
        let record = self.held(record, 1)?;
        self.raw_field(record, field)?;
        self.set_field(record.value, field, Field::Raw(word));
        Ok(0)
    }

    fn kind(&self, handle: u32) -> Result<i64, Stop> {
        let held = self.held(handle, 1)?;
        Ok(i64::from(self.kind_of(held.value).number()))
    }

    fn value(&self, handle: u32) -> Result<i64, Stop> {
        let held = self.held(handle, 1)?;
        match held.value {
            Value::Number(number) => Ok(i64::from(number)),
            Value::Empty | Value::Object(_) => Err(held.other_kind().into()),
        }
    }

    fn same(&self, first: u32, second: u32) -> Result<i64, Stop> {
        let first = self.held(first, 1)?;
        let second = self.held(second, 2)?;
        Ok(i64::from(first.value == second.value))
    }

    fn part(&mut self, target: u32, object: u32, part: u32) -> Result<i64, Stop> {
        self.held(target, 1)?;
        let whole = self.held(object, 2)?;
        let value = match part {
            0 => Value::Object(self.record_in(whole)?.layout),
            1 => Value::Object(self.layout_in(whole)?.map),
            2 => self.map_in(whole)?.name,
            3 => self.map_in(whole)?.parent,
            _ => return Err(Refusal::NoPart(3).into()),
        };
        self.hold(target, value);
        Ok(0)
    }

    fn figure(&self, handle: u32) -> Result<i64, Stop> {
        let held = self.held(handle, 1)?;
        match self.object(held.value) {
            Some((_, Object::Record(it))) => Ok(i64::from(word_of(it.fields.len()))),
            Some((_, Object::Layout(it))) => Ok(i64::from(it.fields)),
            Some((_, Object::Map(it))) => Ok(i64::from(it.rule)),
            None => Err(held.other_kind().into()),
        }
    }

    fn raws(&self, handle: u32) -> Result<i64, Stop> {
        let held = self.held(handle, 1)?;
        let layout = self.layout_in(held)?;
        let rule = self.rule_of(layout);
        Ok(i64::from(self.rules.raws(rule, layout.fields)))
    }

    fn collect(&self) -> Result<i64, Stop> {
        Ok(i64::from(self.live_words()?))
    }

    /// How full the heap is: the live words in a hundred of all, rounded, with a half counted up.
    fn fill(&self) -> Result<i64, Stop> {
        let live = self.live_words()?;
        let parts = live.saturating_mul(100).saturating_add(self.words / 2);
        Ok(i64::from(parts.checked_div(self.words).unwrap_or(0)))
    }

    /// How many words the objects take that can be reached.
    pub fn live_words(&self) -> Result<u32, AllocError> {
        let reachable = reachable(self.heap, &self.handles, &self.objects)?;
        Ok(
            self.objects
                .iter()
                .zip(&reachable)
                .filter(|(_, reached)| **reached)
                .fold(
                    0,
                    |live: u32, (object, _)| live.saturating_add(object.size()),
                ),
        )
    }
}
