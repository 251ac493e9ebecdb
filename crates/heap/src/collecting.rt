// Collections: at once, by steps, or given up; and how full the heap is.
ghost use Rattle.std.specs.Prelude.{◌≡◌, ℕ, ◌+◌, ◌-◌, ◌*◌, ◌<◌, ◌≤◌, ℤ, pos, Ok};
ghost use Rattle.graph.specs.declared.Call.TheVariants.{Collect, Fill, Stepped, GivenUp};
ghost use Rattle.graph.specs.Step.{percent};
ghost use Rattle.heap.specs.Views.{view, Meets, Packs, Tells, TellsFill};
ghost use Rattle.heap.specs.Collected.{LeavesCollected, ClosesCollected};
ghost use Rattle.heap.specs.Phases.{Begins, Draws, Closes, GivesUp};

use crate::Heap;
use marking::{begin, give_up};
use memory::Memory;
use scheme::Scheme;

impl<M: Memory, S: Scheme> Heap<M, S> {
    /// Marks exactly the reachable objects, and tells their words.
    pub(crate) fn mark(&mut self) -> u32
        ensures begins { Begins (S.Scheme.meaning self.old.scheme) (view M.Memory.words self.old) (view M.Memory.words self.new) result }
        ensures scheme { self.new.scheme ≡ self.old.scheme }
    {
        begin(&mut self.space, &self.scheme, self.bounds)
    }

    /// Takes the marks off again.
    pub(crate) fn unmark(&mut self)
        ensures rests { GivesUp (S.Scheme.meaning self.old.scheme) (view M.Memory.words self.old) (view M.Memory.words self.new) }
        ensures scheme { self.new.scheme ≡ self.old.scheme }
    {
        give_up(&mut self.space, self.bounds);
    }

    /// The forward update of the marked objects.
    pub(crate) fn thread_marked(&mut self)
        ensures draws { Draws (S.Scheme.meaning self.old.scheme) (view M.Memory.words self.old) (view M.Memory.words self.new) }
        ensures scheme { self.new.scheme ≡ self.old.scheme }
    {
        self.space.draw(&self.scheme, self.bounds);
    }

    /// The backward update: the marked objects slide outward and lose their marks.
    pub(crate) fn slide_marked(&mut self)
        ensures closes { Closes (S.Scheme.meaning self.old.scheme) (view M.Memory.words self.old) (view M.Memory.words self.new) }
        ensures collected { ClosesCollected (S.Scheme.meaning self.old.scheme)
            (view M.Memory.words self.old) (view M.Memory.words self.new) }
        ensures scheme { self.new.scheme ≡ self.old.scheme }
    {
        self.bounds = self.space.close(self.bounds);
    }

    /// Packs the reachable objects, and tells the live words.
    pub(crate) fn pack(&mut self) -> u32
        ensures packs { Packs (S.Scheme.meaning self.old.scheme) (view M.Memory.words self.old) (view M.Memory.words self.new) result }
        ensures collected { LeavesCollected (S.Scheme.meaning self.old.scheme)
            (view M.Memory.words self.old) (view M.Memory.words self.new) }
        ensures scheme { self.new.scheme ≡ self.old.scheme }
    {
        let live = self.mark();
        self.thread_marked();
        self.slide_marked();
        live
    }

    /// Tells the live words by a marking that is undone.
    pub(crate) fn weigh(&mut self) -> u32
        ensures tells { Tells (S.Scheme.meaning self.old.scheme) (view M.Memory.words self.old) (view M.Memory.words self.new) result }
        ensures bounds { self.new.bounds ≡ self.old.bounds }
        ensures scheme { self.new.scheme ≡ self.old.scheme }
    {
        let live = self.mark();
        self.unmark();
        live
    }

    /// Packs the reachable objects, and answers the live words. Each of them slides outward over the garbage on
    /// its side, with all its words. Each reference, in a handle or an object, goes to the object that it went to.
    pub fn collect(&mut self) -> u32
        ensures collected { LeavesCollected (S.Scheme.meaning self.old.scheme)
            (view M.Memory.words self.old) (view M.Memory.words self.new) }
        ensures meets { Meets M.Memory.words S.Scheme.meaning Collect self.old self.new (Ok (pos result)) }
    {
        self.pack()
    }

    /// How full the heap is: its live words in a hundred of all, to the nearest whole number, from a half upward.
    /// Of no words it is 0.
    pub fn fill(&mut self) -> u32
        ensures nearest { TellsFill (S.Scheme.meaning self.old.scheme)
            (view M.Memory.words self.old) result }
        ensures meets { Meets M.Memory.words S.Scheme.meaning Fill self.old self.new (Ok (pos result)) }
    {
        let live = self.weigh();
        percent(live, self.bounds.limit)
    }
}

/// So many of the words in a hundred, rounded, with a half counted up; of no words 0. No heap has more than 16,384.
fn percent(live: u32, words: u32) -> u32
    ensures { live ≤ 16384 → words ≤ 16384 → result ≡ percent live words }
{
    if words == 0 {
        return 0;
    }
    live.saturating_mul(200).saturating_add(words) / words.saturating_mul(2)
}
