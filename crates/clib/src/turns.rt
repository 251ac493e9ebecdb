// What a caller from outside may do to a heap that it keeps, over any memory and scheme.
ghost use Rattle.std.specs.Prelude.{◌≡◌, ◌↔◌, IsOk};
ghost use Rattle.heap.specs.Asides.{Suspends, at_rest, begun};
ghost use Rattle.clib.specs.Turns.{Opened, Collected, Listed, BegunBy, DrawnBy, ClosedBy, GivenUpBy, IsDrawn};
ghost use Rattle.clib.specs.Kept.{Does, effect_of};

use crate::forms::{Answer, CallWords};
use crate::lists::give_list;
use heap::{Aside, Heap, Phase, WORDS};
use memory::Memory;
use scheme::Scheme;

/// A heap as its caller keeps it between two calls: its memory and scheme, and what was put aside of it.
#[derive(Drop)]
pub struct Kept<M: Memory, S: Scheme> {
    pub memory: M,
    pub scheme: S,
    pub aside: Aside,
}

/// The heap is not in the phase that is asked for: it comes back as it was.
pub struct OutOfTurn<M: Memory, S: Scheme>(pub Kept<M, S>);

/// A whole collection, or a step of one.
#[derive(Clone, Copy, Debug, PartialEq, Eq)]
pub enum Step {
    Collect,
    Begin,
    Draw,
    Close,
    GiveUp,
}

/// What a turn gives: the heap after it, with its answer.
pub type Turned<M, S> = Result<(Kept<M, S>, i64), OutOfTurn<M, S>>;

impl<M: Memory, S: Scheme> From<Phase<M, S>> for Kept<M, S> {
    ghost from_gives = { λ phase kept. Suspends phase kept.memory kept.scheme kept.aside };

    fn from(phase: Phase<M, S>) -> Kept<M, S> {
        let (memory, scheme, aside) = phase.suspend();
        Kept {
            memory,
            scheme,
            aside,
        }
    }
}

impl<M: Memory, S: Scheme> Kept<M, S> {
    /// A new heap over the memory. Answers how many words it uses.
    pub fn open(memory: M, scheme: S) -> (Self, i64)
        ensures opened { Opened (S.Scheme.meaning scheme) (M.Memory.words memory) (M.Memory.words result.0.memory) result.0.aside result.1 }
        ensures scheme { result.0.scheme ≡ scheme }
    {
        let words = memory.length().min(WORDS);
        let heap = Heap::new(memory, scheme);
        (Kept::from(Phase::Resting(heap)), words as i64)
    }

    // Each turn matches the phase itself. With functions that give the heap of a phase or the
    // refusal, and a `?` here, it took twice as long: a result that may hold either lays the one
    // over the other, and the handles are then copied word by word.
    /// A whole collection of a resting heap. Answers the live words.
    pub fn collect(self) -> Turned<M, S>
        ensures in_turn { IsOk result ↔ (self.aside.phase ≡ at_rest) }
        ensures does { Does Collected M.Memory.words S.Scheme.meaning self result }
    {
        match Phase::resume(self.memory, self.scheme, &self.aside) {
            Phase::Resting(mut heap) => {
                let live = heap.collect();
                Ok((Kept::from(Phase::Resting(heap)), i64::from(live)))
            }
            other => Err(OutOfTurn(Kept {
                aside: self.aside,
                ..Kept::from(other)
            })),
        }
    }

    /// Gives calls to a resting heap, one after another. Answers how many it gave.
    pub fn give(self, calls: &[CallWords], answers: &mut [Answer]) -> Turned<M, S>
        ensures in_turn { IsOk result ↔ (self.aside.phase ≡ at_rest) }
        ensures does { Does (λ m ws a vs b n. Listed m calls.now answers.old answers.new ws a vs b n) M.Memory.words S.Scheme.meaning self result }
    {
        match Phase::resume(self.memory, self.scheme, &self.aside) {
            Phase::Resting(mut heap) => {
                let given = give_list(&mut heap, calls, answers);
                Ok((Kept::from(Phase::Resting(heap)), given as i64))
            }
            other => Err(OutOfTurn(Kept {
                aside: self.aside,
                ..Kept::from(other)
            })),
        }
    }

    /// Begins a collection of a resting heap. Answers the live words.
    pub fn begin(self) -> Turned<M, S>
        ensures in_turn { IsOk result ↔ (self.aside.phase ≡ at_rest) }
        ensures does { Does BegunBy M.Memory.words S.Scheme.meaning self result }
    {
        match Phase::resume(self.memory, self.scheme, &self.aside) {
            Phase::Resting(heap) => {
                let begun = heap.begin();
                let live = begun.live_words();
                Ok((Kept::from(Phase::Begun(begun)), i64::from(live)))
            }
            other => Err(OutOfTurn(Kept {
                aside: self.aside,
                ..Kept::from(other)
            })),
        }
    }

    /// Draws a begun heap. Answers 0.
    pub fn draw(self) -> Turned<M, S>
        ensures in_turn { IsOk result ↔ (self.aside.phase ≡ begun) }
        ensures does { Does DrawnBy M.Memory.words S.Scheme.meaning self result }
    {
        match Phase::resume(self.memory, self.scheme, &self.aside) {
            Phase::Begun(begun) => Ok((Kept::from(Phase::Drawn(begun.draw())), 0)),
            other => Err(OutOfTurn(Kept {
                aside: self.aside,
                ..Kept::from(other)
            })),
        }
    }

    /// Closes a drawn heap. Answers the live words.
    pub fn close(self) -> Turned<M, S>
        ensures in_turn { IsOk result ↔ IsDrawn self.aside }
        ensures does { Does ClosedBy M.Memory.words S.Scheme.meaning self result }
    {
        match Phase::resume(self.memory, self.scheme, &self.aside) {
            Phase::Drawn(drawn) => {
                let (heap, live) = drawn.close();
                Ok((Kept::from(Phase::Resting(heap)), i64::from(live)))
            }
            other => Err(OutOfTurn(Kept {
                aside: self.aside,
                ..Kept::from(other)
            })),
        }
    }

    /// Gives up the collection of a begun heap. Answers 0.
    pub fn give_up(self) -> Turned<M, S>
        ensures in_turn { IsOk result ↔ (self.aside.phase ≡ begun) }
        ensures does { Does GivenUpBy M.Memory.words S.Scheme.meaning self result }
    {
        match Phase::resume(self.memory, self.scheme, &self.aside) {
            Phase::Begun(begun) => Ok((Kept::from(Phase::Resting(begun.give_up())), 0)),
            other => Err(OutOfTurn(Kept {
                aside: self.aside,
                ..Kept::from(other)
            })),
        }
    }

    /// Takes the step.
    pub fn take(self, step: Step) -> Turned<M, S>
        ensures { Does (effect_of step) M.Memory.words S.Scheme.meaning self result }
    {
        match step {
            Step::Collect => self.collect(),
            Step::Begin => self.begin(),
            Step::Draw => self.draw(),
            Step::Close => self.close(),
            Step::GiveUp => self.give_up(),
        }
    }
}
