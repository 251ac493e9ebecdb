// Lists of calls in their fixed form, given to a resting heap.
ghost use Rattle.std.specs.Prelude.{◌≡◌};
ghost use Rattle.heap.specs.Views.{view};
ghost use Rattle.clib.specs.Forms.{ListsAgree};
ghost use Rattle.clib.specs.Turns.{Answers, Gives};

use crate::forms::{Answer, CallWords};
use graph::Call;
use heap::Heap;
use memory::Memory;
use scheme::Scheme;

/// Gives the call that five words stand for.
pub fn give_words<M: Memory, S: Scheme>(heap: &mut Heap<M, S>, words: CallWords) -> Answer
    ensures answers { Answers (S.Scheme.meaning heap.old.scheme) words (view M.Memory.words heap.old) (view M.Memory.words heap.new) result }
    ensures scheme { heap.new.scheme ≡ heap.old.scheme }
{
    match Call::try_from(words) {
        Ok(call) => Answer::from(heap.give(call)),
        Err(none) => Answer::from(none),
    }
}

/// Gives the calls one after another, and writes their answers, as far as there are calls and room for answers; tells how many.
pub fn give_list<M: Memory, S: Scheme>(
    heap: &mut Heap<M, S>,
    calls: &[CallWords],
    answers: &mut [Answer],
) -> usize
    ensures gives { Gives (S.Scheme.meaning heap.old.scheme) calls.now (view M.Memory.words heap.old) (view M.Memory.words heap.new) answers.old answers.new result }
    ensures scheme { heap.new.scheme ≡ heap.old.scheme }
{
    let given = calls.len().min(answers.len());
    // Not a `zip` with `answers.iter_mut()`: a proof knows nothing of a slice after a loop over an adapter of its `iter_mut`.
    for (i, call) in calls[..given].iter().enumerate() {
        answers[i] = give_words(heap, *call);
    }
    given
}

/// A list of words that stand for calls is answered as the still graph answers these calls.
pub fn lists_agree() -> u8
    ensures { ListsAgree }
{
    0
}
