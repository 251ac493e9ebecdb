// Any call given to a heap.
ghost use Rattle.std.specs.Prelude.{◌≡◌};
ghost use Rattle.heap.specs.Views.{Meets, outcome_of};

use crate::Heap;
use graph::{Call, Outcome};
use memory::Memory;
use scheme::Scheme;

impl<M: Memory, S: Scheme> Heap<M, S> {
    /// Gives a call to the heap.
    pub fn give(&mut self, call: Call) -> Outcome
        ensures { Meets M.Memory.words S.Scheme.meaning call self.old self.new (outcome_of (λ n. n) result) }
    {
        match call {
            Call::Num { handle, number } => self.num(handle, number).map(|()| 0),
            Call::Clear { handle } => self.clear(handle).map(|()| 0),
            Call::Copy { target, source } => self.copy(target, source).map(|()| 0),
            Call::Map {
                target,
                rule,
                name,
                parent,
            } => self.map(target, rule, name, parent).map(|()| 0),
            Call::Layout {
                target,
                fields,
                map,
            } => self.layout(target, fields, map).map(|()| 0),
            Call::Record { target, layout } => self.record(target, layout).map(|()| 0),
            Call::Load {
                target,
                record,
                field,
            } => self.load(target, record, field).map(|()| 0),
            Call::Save {
                record,
                field,
                source,
            } => self.save(record, field, source).map(|()| 0),
            Call::RawLoad { record, field } => self.rawload(record, field).map(i64::from),
            Call::RawSave {
                record,
                field,
                word,
            } => self.rawsave(record, field, word).map(|()| 0),
            Call::Kind { handle } => self.kind(handle).map(|kind| i64::from(kind.number())),
            Call::Value { handle } => self.value(handle).map(i64::from),
            Call::Same { first, second } => self.same(first, second).map(i64::from),
            Call::Part {
                target,
                object,
                part,
            } => self.part(target, object, part).map(|()| 0),
            Call::Figure { handle } => self.figure(handle).map(i64::from),
            Call::Raws { handle } => self.raws(handle).map(i64::from),
            Call::Collect => Ok(i64::from(self.collect())),
            Call::Fill => Ok(i64::from(self.fill())),
            Call::Stepped => Ok(i64::from(self.pack())),
            Call::GivenUp => {
                self.weigh();
                Ok(0)
            }
        }
    }

    /// Gives a call to the heap and has it back; a collection by steps, and one given up, go by their steps.
    pub fn run(mut self, call: Call) -> (Self, Outcome)
        ensures { Meets M.Memory.words S.Scheme.meaning call self result.0 (outcome_of (λ n. n) result.1) }
    {
        match call {
            Call::Stepped => {
                let (heap, live) = self.collect_by_steps();
                (heap, Ok(i64::from(live)))
            }
            Call::GivenUp => (self.collect_given_up(), Ok(0)),
            _ => {
                let outcome = self.give(call);
                (self, outcome)
            }
        }
    }
}
