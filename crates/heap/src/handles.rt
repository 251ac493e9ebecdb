// The calls that make and touch no object.
ghost use Rattle.std.specs.Prelude.{◌≡◌, ℕ, ◌+◌, ◌-◌, ◌*◌, ◌<◌, ◌≤◌, cond, ℤ, pos};
ghost use Rattle.graph.specs.declared.Call.TheVariants.{Num, Clear, Copy, Kind as KindOf, Value as ValueOf, Same};
ghost use Rattle.graph.specs.Numbers.{kind_number};
ghost use Rattle.heap.specs.Views.{view, Meets, outcome_of, nothing, truth};

use crate::Heap;
use crate::checks::{check_handle, check_number};
use codec::value;
use graph::{Kind, Refusal};
use memory::Memory;
use scheme::Scheme;

impl<M: Memory, S: Scheme> Heap<M, S> {
    /// The handle becomes the number.
    pub fn num(&mut self, handle: u32, number: i32) -> Result<(), Refusal>
        ensures { Meets M.Memory.words S.Scheme.meaning (Num handle number) self.old self.new (outcome_of nothing result) }
    {
        check_handle(handle, 1)?;
        check_number(number, 2)?;
        self.space.handles[handle as usize] = value::encode(number);
        Ok(())
    }

    /// The handle becomes empty.
    pub fn clear(&mut self, handle: u32) -> Result<(), Refusal>
        ensures { Meets M.Memory.words S.Scheme.meaning (Clear handle) self.old self.new (outcome_of nothing result) }
    {
        check_handle(handle, 1)?;
        self.space.handles[handle as usize] = value::EMPTY;
        Ok(())
    }

    /// The target takes the value of the source.
    pub fn copy(&mut self, target: u32, source: u32) -> Result<(), Refusal>
        ensures { Meets M.Memory.words S.Scheme.meaning (Copy target source) self.old self.new (outcome_of nothing result) }
    {
        check_handle(target, 1)?;
        check_handle(source, 2)?;
        self.space.handles[target as usize] = self.space.handles[source as usize];
        Ok(())
    }

    /// What the handle holds.
    pub fn kind(&self, handle: u32) -> Result<Kind, Refusal>
        ensures { Meets M.Memory.words S.Scheme.meaning (KindOf handle) self.now self.now (outcome_of (λ k. pos (kind_number k)) result) }
    {
        check_handle(handle, 1)?;
        Ok(self.kind_of(self.space.handles[handle as usize]))
    }

    /// The number in the handle.
    pub fn value(&self, handle: u32) -> Result<i32, Refusal>
        ensures { Meets M.Memory.words S.Scheme.meaning (ValueOf handle) self.now self.now (outcome_of (λ n. n) result) }
    {
        check_handle(handle, 1)?;
        let word = self.space.handles[handle as usize];
        self.check_kind(word, Kind::Number, 1)?;
        Ok(value::decode(word))
    }

    /// Whether two handles hold the same number, the same object, or nothing both.
    pub fn same(&self, first: u32, second: u32) -> Result<bool, Refusal>
        ensures { Meets M.Memory.words S.Scheme.meaning (Same first second) self.now self.now (outcome_of truth result) }
    {
        check_handle(first, 1)?;
        check_handle(second, 2)?;
        Ok(self.space.handles[first as usize] == self.space.handles[second as usize])
    }
}
