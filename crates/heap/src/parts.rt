// The calls on the parts and figures of an object.
ghost use Rattle.std.specs.Prelude.{◌≡◌, ℕ, ◌+◌, ◌-◌, ◌*◌, ◌<◌, ◌≤◌, ℤ, pos};
ghost use Rattle.graph.specs.declared.Call.TheVariants.{Part, Figure, Raws};
ghost use Rattle.heap.specs.Views.{view, Meets, outcome_of, nothing};

use crate::Heap;
use crate::checks::{check_handle, part_at};
use graph::{Kind, Refusal};
use memory::Memory;
use scheme::Scheme;

impl<M: Memory, S: Scheme> Heap<M, S> {
    /// The target takes a part of the object: with 0 the layout of a record, with 1 the map of a layout, with 2 a map's name, with 3 its parent.
    pub fn part(&mut self, target: u32, owner: u32, part: u32) -> Result<(), Refusal>
        ensures { Meets M.Memory.words S.Scheme.meaning (Part target owner part) self.old self.new (outcome_of nothing result) }
    {
        check_handle(target, 1)?;
        check_handle(owner, 2)?;
        let (kind, offset) = part_at(part, 3)?;
        let word = self.space.handles[owner as usize];
        self.check_kind(word, kind, 2)?;
        self.space.handles[target as usize] = self.word_in(word, offset);
        Ok(())
    }

    /// How many fields a record or a layout has, or which rule a map.
    pub fn figure(&self, handle: u32) -> Result<u32, Refusal>
        ensures { Meets M.Memory.words S.Scheme.meaning (Figure handle) self.now self.now (outcome_of pos result) }
    {
        check_handle(handle, 1)?;
        let figure = self.figure_of(self.space.handles[handle as usize], 1)?;
        Ok(figure)
    }

    /// The number of raw fields that a layout gives its records.
    pub fn raws(&self, handle: u32) -> Result<u32, Refusal>
        ensures { Meets M.Memory.words S.Scheme.meaning (Raws handle) self.now self.now (outcome_of pos result) }
    {
        check_handle(handle, 1)?;
        let word = self.space.handles[handle as usize];
        self.check_kind(word, Kind::Layout, 1)?;
        let fields = self.word_in(word, 1);
        let rule = self.rule_of(word);
        Ok(self.scheme.raw_count(rule, fields))
    }
}
