// A collection by steps: each takes the heap as one type and gives it as another, so that nothing else can be asked of it in between.
ghost use Rattle.std.specs.Prelude.{◌≡◌, ℤ, pos, Ok};
ghost use Rattle.graph.specs.declared.Call.TheVariants.{Stepped, GivenUp};
ghost use Rattle.heap.specs.Views.{view, Meets};
ghost use Rattle.heap.specs.Collected.{LeavesCollected};
ghost use Rattle.heap.specs.Phases.{Begins};

use crate::{Begun, Heap};
use memory::Memory;
use scheme::Scheme;

impl<M: Memory, S: Scheme> Heap<M, S> {
    /// Begins a collection: each object that can be reached gets its mark, and that is all. In which order they
    /// get it is left free, and no word depends on it.
    pub fn begin(mut self) -> Begun<M, S>
        ensures begins { Begins (S.Scheme.meaning self.scheme) (view M.Memory.words self) (view M.Memory.words result.heap) result.live }
        ensures scheme { result.heap.scheme ≡ self.scheme }
    {
        let live = self.mark();
        Begun { heap: self, live }
    }

    /// A whole collection by its steps, the same as `collect`; with the live words.
    pub fn collect_by_steps(self) -> (Self, u32)
        ensures collected { LeavesCollected (S.Scheme.meaning self.scheme)
            (view M.Memory.words self) (view M.Memory.words result.0) }
        ensures meets { Meets M.Memory.words S.Scheme.meaning Stepped self result.0 (Ok (pos result.1)) }
    {
        self.begin().draw().close()
    }

    /// A collection that is begun and given up: nothing comes of it.
    pub fn collect_given_up(self) -> Self
        ensures { Meets M.Memory.words S.Scheme.meaning GivenUp self result (Ok (pos 0)) }
    {
        self.begin().give_up()
    }
}
