// Lists of calls over new heaps, and what no such list can tell.
#![tactic(auto)]

ghost use Rattle.std.specs.Prelude.{◌≡◌, ℕ, ◌+◌, ◌≤◌, ◌<◌, List, [], ◌∷◌, IfOk, IfErr, IsOk, length, vec_len, vec_capacity};
ghost use Rattle.graph.specs.Runs.{others};
ghost use Rattle.heap.specs.Views.{view};
ghost use Rattle.service.specs.Course.{Continues};
ghost use Rattle.service.specs.Still.{heap_words, ServedAs, Shown, AsOneList, Alike, Unnoticed};

use graph::{Call, Outcome};
use heap::Heap;
use memory::Memory;
use scheme::Scheme;
use std::alloc::{AllocError, AllocFailed, Global};

/// A heap that was given calls: their answers, one for each, and the heap after them.
pub struct Served<M: Memory, S: Scheme> {
    pub answers: Vec<Outcome>,
    pub heap: Heap<M, S>,
}

impl<M: Memory, S: Scheme> Served<M, S> {
    /// Gives the heap more calls; their answers come behind those at hand. Where a list over a new
    /// heap left it, both lists are served as one: so a list may be halted at any call, the heap
    /// looked at, and the answers taken away. Fails only where there is no memory for the answers,
    /// so not where there is room for them, and hands everything back as it was.
    pub fn go_on(mut self, calls: &[Call]) -> Result<Self, AllocFailed<Self>>
        ensures continues { IfOk result (λ s. Continues (S.Scheme.meaning self.heap.scheme)
            (view M.Memory.words self.heap) self.answers.items
            calls.now s.answers.items (view M.Memory.words s.heap)) }
        ensures as_one_list { IfOk result (λ s. AsOneList (S.Scheme.meaning self.heap.scheme)
            (view M.Memory.words self.heap) self.answers.items
            calls.now s.answers.items (view M.Memory.words s.heap)) }
        ensures scheme { IfOk result (λ s. s.heap.scheme ≡ self.heap.scheme) }
        ensures succeeds { vec_len self.answers + length calls.now ≤ vec_capacity self.answers
            → IsOk result }
        ensures unchanged { IfErr result (λ e. (e.value.heap ≡ self.heap)
            × (e.value.answers.items ≡ self.answers.items)) }
    {
        match self.answers.reserve(calls.len()) {
            Ok(()) => Ok(self.give_each(calls)),
            Err(_) => Err(AllocFailed { value: self }),
        }
    }

    /// A new heap, which was given no call.
    fn new(memory: M, scheme: S, answers: Vec<Outcome>) -> Self
        requires none { answers.items ≡ [] }
        ensures served { ServedAs (S.Scheme.meaning scheme) (M.Memory.words memory)
            [] result.answers.items (view M.Memory.words result.heap) }
        ensures scheme { result.heap.scheme ≡ scheme }
        ensures len { vec_len result.answers ≡ vec_len answers }
        ensures capacity { vec_capacity result.answers ≡ vec_capacity answers }
    {
        let heap = Heap::new(memory, scheme);
        Served { answers, heap }
    }

    /// Gives the heap the calls, with room for their answers behind those at hand.
    fn give_each(self, calls: &[Call]) -> Self
        requires room { vec_len self.answers + length calls.now ≤ vec_capacity self.answers }
        ensures continues { Continues (S.Scheme.meaning self.heap.scheme)
            (view M.Memory.words self.heap) self.answers.items
            calls.now result.answers.items (view M.Memory.words result.heap) }
        ensures as_one_list { AsOneList (S.Scheme.meaning self.heap.scheme)
            (view M.Memory.words self.heap) self.answers.items
            calls.now result.answers.items (view M.Memory.words result.heap) }
        ensures scheme { result.heap.scheme ≡ self.heap.scheme }
    {
        let mut served = self;
        for call in calls {
            served = served.give(*call);
        }
        served
    }

    /// Gives the heap one call, with room for its answer.
    #[tactic(auto, using(crate::proofs::Steps::one_call))]
    fn give(self, call: Call) -> Self
        requires room { vec_len self.answers < vec_capacity self.answers }
        ensures continues { Continues (S.Scheme.meaning self.heap.scheme)
            (view M.Memory.words self.heap) self.answers.items
            (call ∷ []) result.answers.items (view M.Memory.words result.heap) }
        ensures scheme { result.heap.scheme ≡ self.heap.scheme }
        ensures len { vec_len result.answers ≡ vec_len self.answers + 1 }
        ensures capacity { vec_capacity result.answers ≡ vec_capacity self.answers }
    {
        let Served { mut answers, heap } = self;
        let (heap, answer) = heap.run(call);
        answers.push_reserved(answer);
        Served { answers, heap }
    }
}

/// Gives the calls to a new heap, with room for their answers.
fn serve_reserved<M: Memory, S: Scheme>(
    memory: M,
    scheme: S,
    calls: &[Call],
    answers: Vec<Outcome>,
) -> Served<M, S>
    requires none { answers.items ≡ [] }
    requires room { vec_len answers + length calls.now ≤ vec_capacity answers }
    ensures served { ServedAs (S.Scheme.meaning scheme) (M.Memory.words memory)
        calls.now result.answers.items (view M.Memory.words result.heap) }
    ensures unnoticed { Unnoticed (S.Scheme.meaning scheme) (M.Memory.words memory)
        calls.now result.answers.items (view M.Memory.words result.heap) }
    ensures scheme { result.heap.scheme ≡ scheme }
{
    Served::new(memory, scheme, answers).give_each(calls)
}

/// Gives a list of calls to a new heap over the memory. No list can tell the heap from the still
/// graph, in which nothing ever moves. The answers and refusals are the still graph's. After each
/// call, wherever it stands in the list, every word is that of the still graph, and at the
/// end of each collection the packed words alone stand. And whatever list that differs only in its
/// collections, at once, by steps or given up, was given to whatever new heap of as many words:
/// all its other calls had the same answers. Fails only where there is no memory for the answers,
/// before a heap is made; an empty list needs none.
pub fn serve<M: Memory + Drop, S: Scheme + Drop>(
    memory: M,
    scheme: S,
    calls: &[Call],
    alloc: Global,
) -> Result<Served<M, S>, AllocError>
    ensures served { IfOk result (λ s. ServedAs (S.Scheme.meaning scheme) (M.Memory.words memory)
        calls.now s.answers.items (view M.Memory.words s.heap)) }
    ensures unnoticed { IfOk result (λ s. Unnoticed (S.Scheme.meaning scheme) (M.Memory.words memory)
        calls.now s.answers.items (view M.Memory.words s.heap)) }
    ensures scheme { IfOk result (λ s. s.heap.scheme ≡ scheme) }
    ensures succeeds { length calls.now ≡ 0 → IsOk result }
{
    let answers = Vec::with_capacity(alloc, calls.len())?;
    Ok(serve_reserved(memory, scheme, calls, answers))
}

/// Looks at a heap between the calls of a list.
pub trait Onlooker<M: Memory, S: Scheme> {
    /// Is shown the heap after each call, with the calls so far and their answers: a new heap that
    /// was given these calls stands so. Hands it back as it was; in between a collection may be
    /// begun and given up, to see what lives.
    fn look(&mut self, heap: Heap<M, S>, calls: &[Call], answers: &[Outcome]) -> Heap<M, S>
        requires shown { Shown (S.Scheme.meaning heap.scheme) calls.now answers.now
            (view M.Memory.words heap) }
        ensures kept { view M.Memory.words result ≡ view M.Memory.words heap }
        ensures scheme { result.scheme ≡ heap.scheme };
}

/// Gives a list of calls to a new heap, as `serve` does, and shows an onlooker the heap after each.
/// Fails only where there is no memory for the answers, before a heap is made.
pub fn serve_watched<M: Memory + Drop, S: Scheme + Drop, O: Onlooker<M, S>>(
    memory: M,
    scheme: S,
    calls: &[Call],
    onlooker: &mut O,
    alloc: Global,
) -> Result<Served<M, S>, AllocError>
    ensures served { IfOk result (λ s. ServedAs (S.Scheme.meaning scheme) (M.Memory.words memory)
        calls.now s.answers.items (view M.Memory.words s.heap)) }
    ensures unnoticed { IfOk result (λ s. Unnoticed (S.Scheme.meaning scheme) (M.Memory.words memory)
        calls.now s.answers.items (view M.Memory.words s.heap)) }
    ensures scheme { IfOk result (λ s. s.heap.scheme ≡ scheme) }
{
    let answers = Vec::with_capacity(alloc, calls.len())?;
    let mut served = Served::new(memory, scheme, answers);
    for (index, call) in calls.iter().enumerate() {
        let Served { answers, heap } = served.give(*call);
        let heap = onlooker.look(heap, &calls[..=index], answers.as_slice());
        served = Served { answers, heap };
    }
    Ok(served)
}

/// Gives two lists of calls to two new heaps, each over a memory and a scheme of its own kind.
/// Where the schemes mean the same, the heaps have as many words and the lists differ only in their
/// collections, all other calls have the same answers and both heaps stand for one still graph; and
/// where a collection was the last call of each, their words are the same. Fails only where there
/// is no memory for the answers, before a heap is made; empty lists need none.
pub fn serve_both<M: Memory + Drop, S: Scheme + Drop, N: Memory + Drop, T: Scheme + Drop>(
    memory: M,
    scheme: S,
    calls: &[Call],
    other_memory: N,
    other_scheme: T,
    other_calls: &[Call],
    alloc: Global,
) -> Result<(Served<M, S>, Served<N, T>), AllocError>
    ensures served { IfOk result (λ both. ServedAs (S.Scheme.meaning scheme) (M.Memory.words memory)
        calls.now both.0.answers.items (view M.Memory.words both.0.heap)) }
    ensures other_served { IfOk result (λ both. ServedAs (T.Scheme.meaning other_scheme) (N.Memory.words other_memory)
        other_calls.now both.1.answers.items (view N.Memory.words both.1.heap)) }
    ensures schemes { IfOk result (λ both. (both.0.heap.scheme ≡ scheme) × (both.1.heap.scheme ≡ other_scheme)) }
    ensures succeeds { length calls.now ≡ 0 → length other_calls.now ≡ 0 → IsOk result }
    ensures alike { S.Scheme.meaning scheme ≡ T.Scheme.meaning other_scheme
        → heap_words (M.Memory.words memory) ≡ heap_words (N.Memory.words other_memory)
        → others calls.now ≡ others other_calls.now
        → IfOk result (λ both. Alike (S.Scheme.meaning scheme)
        (M.Memory.words memory)
        calls.now both.0.answers.items (view M.Memory.words both.0.heap)
        (N.Memory.words other_memory)
        other_calls.now both.1.answers.items (view N.Memory.words both.1.heap)) }
{
    let answers = Vec::with_capacity(alloc, calls.len())?;
    let other_answers = Vec::with_capacity(alloc, other_calls.len())?;
    let one = serve_reserved(memory, scheme, calls, answers);
    let other = serve_reserved(other_memory, other_scheme, other_calls, other_answers);
    Ok((one, other))
}
