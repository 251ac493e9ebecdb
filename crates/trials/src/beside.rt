// The heap beside the model: the same calls to both, and the first thing in which they differ.
use crate::answered::{Answered, Change};
use crate::picture::Picture;
use graph::{Call, Outcome};
use heap::Heap;
use memory::Memory;
use model::{Rules, Still};
use scheme::Scheme;
use std::alloc::{AllocError, Global};
use std::fmt;

/// The first thing in which heap and model differ.
#[derive(Clone, Copy)]
pub enum Difference {
    /// What a call answers.
    Answer { heap: Answered, model: Outcome },
    /// A word of the memory once it is packed.
    Word(Other),
    /// A word of the handles once the heap is packed.
    Handle(Other),
    /// Words that the call may not change.
    Changed(Call),
    /// The model found no room to work in: it is not known whether they agree.
    NoRoom,
}

/// A word that is another in the heap than in the model.
#[derive(Clone, Copy)]
pub struct Other {
    place: u32,
    heap: u32,
    model: u32,
}

impl From<AllocError> for Difference {
    fn from(_: AllocError) -> Difference {
        Difference::NoRoom
    }
}

impl fmt::Display for Difference {
    fn fmt<W: fmt::Write>(&self, f: &mut fmt::Formatter<W>) -> fmt::Result {
        match self {
            Difference::Answer {
                heap: Answered { call, answer },
                model,
            } => write!(f, "{call:?} answers {answer:?} and not {model:?}"),
            Difference::Word(word) => write!(f, "word {word}"),
            Difference::Handle(handle) => write!(f, "handle {handle}"),
            Difference::Changed(call) => write!(f, "{call:?} changes words that it may not"),
            Difference::NoRoom => write!(f, "no room for the model"),
        }
    }
}

impl fmt::Display for Other {
    fn fmt<W: fmt::Write>(&self, f: &mut fmt::Formatter<W>) -> fmt::Result {
        let Other { place, heap, model } = self;
        write!(f, "{place} is {heap} and not {model}")
    }
}

/// Compares what stands in the heap with the packed words.
fn agree<F: Fn(u32) -> u32>(packed: &[u32], stands: F) -> Result<(), Other>
    requires { F.IsAlwaysCallable stands }
{
    (0..)
        .zip(packed)
        .map(|(place, word)| Other {
            place,
            heap: stands(place),
            model: *word,
        })
        .find(|word| word.heap != word.model)
        .map_or(Ok(()), Err)
}

/// The most words of a heap that are compared after every call, and not only where it is packed.
const WATCHED: u32 = 200;

/// What stands beside a heap: the model, and a picture of the heap's words before the call.
#[derive(Drop)]
pub struct Beside {
    still: Still,
    picture: Picture,
}

impl Beside {
    /// Stands beside a new heap over a memory of so many words.
    pub fn new(alloc: Global, length: u32, rules: Rules) -> Result<Beside, AllocError> {
        let picture = Picture::new(alloc, length.min(WATCHED))?;
        Ok(Beside {
            still: Still::new(alloc, length, rules),
            picture,
        })
    }

    /// Whether only what may change has changed, as far as the words are watched.
    fn keeps<M: Memory, S: Scheme>(
        &self,
        heap: &Heap<M, S>,
        change: Change,
    ) -> Result<bool, AllocError> {
        if self.still.words() > WATCHED {
            return Ok(true);
        }
        self.picture.keeps(heap, &self.still, change)
    }

    /// Compares every word of a heap that is packed.
    fn compare_words<M: Memory, S: Scheme>(&self, heap: &Heap<M, S>) -> Result<(), Difference> {
        let packed = self.still.packed()?;
        agree(&packed.words, |place| heap.word(place)).map_err(Difference::Word)?;
        agree(&packed.handles, |handle| heap.handle_word(handle)).map_err(Difference::Handle)
    }

    /// Gives the model a call that the heap has answered, and compares: the answers, which words have changed, and all words
    /// where the heap is packed now.
    pub fn compare<M: Memory, S: Scheme>(
        &mut self,
        heap: &Heap<M, S>,
        answered: Answered,
    ) -> Result<(), Difference> {
        let Answered { call, answer } = answered;
        let change = answered.change();
        let kept = self.keeps(heap, change)?;
        self.picture.retake(heap);
        let model = self.still.give(call)?;
        if answer != model {
            return Err(Difference::Answer {
                heap: answered,
                model,
            });
        }
        if !kept {
            return Err(Difference::Changed(call));
        }
        match change {
            Change::All => self.compare_words(heap),
            _ => Ok(()),
        }
    }
}
