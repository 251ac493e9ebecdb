// The calls on the fields of a record.
ghost use Rattle.std.specs.Prelude.{◌≡◌, ℕ, ◌+◌, ◌-◌, ◌*◌, ◌<◌, ◌≤◌, ℤ, pos};
ghost use Rattle.graph.specs.declared.Call.TheVariants.{Load, Save, RawLoad, RawSave};
ghost use Rattle.heap.specs.Views.{view, Meets, outcome_of, nothing};

use crate::Heap;
use crate::checks::check_handle;
use graph::Refusal;
use memory::Memory;
use scheme::Scheme;

impl<M: Memory, S: Scheme> Heap<M, S> {
    /// The target takes the value in a field of the record.
    pub fn load(&mut self, target: u32, owner: u32, field: u32) -> Result<(), Refusal>
        ensures { Meets M.Memory.words S.Scheme.meaning (Load target owner field) self.old self.new (outcome_of nothing result) }
    {
        check_handle(target, 1)?;
        check_handle(owner, 2)?;
        let place = self.field_in(self.space.handles[owner as usize], 2, field, 3, false)?;
        self.space.handles[target as usize] = self.space.memory.read(place);
        Ok(())
    }

    /// A field of the record takes the value in the source.
    pub fn save(&mut self, owner: u32, field: u32, source: u32) -> Result<(), Refusal>
        ensures { Meets M.Memory.words S.Scheme.meaning (Save owner field source) self.old self.new (outcome_of nothing result) }
    {
        check_handle(owner, 1)?;
        check_handle(source, 3)?;
        let place = self.field_in(self.space.handles[owner as usize], 1, field, 2, false)?;
        self.space
            .memory
            .write(place, self.space.handles[source as usize]);
        Ok(())
    }

    /// The word in a raw field.
    pub fn rawload(&self, owner: u32, field: u32) -> Result<u32, Refusal>
        ensures { Meets M.Memory.words S.Scheme.meaning (RawLoad owner field) self.now self.now (outcome_of pos result) }
    {
        check_handle(owner, 1)?;
        let place = self.field_in(self.space.handles[owner as usize], 1, field, 2, true)?;
        Ok(self.space.memory.read(place))
    }

    /// Puts the word into a raw field.
    pub fn rawsave(&mut self, owner: u32, field: u32, raw: u32) -> Result<(), Refusal>
        ensures { Meets M.Memory.words S.Scheme.meaning (RawSave owner field raw) self.old self.new (outcome_of nothing result) }
    {
        check_handle(owner, 1)?;
        let place = self.field_in(self.space.handles[owner as usize], 1, field, 2, true)?;
        self.space.memory.write(place, raw);
        Ok(())
    }
}
