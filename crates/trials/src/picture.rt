// Which words have changed, told from the words before and after a call.
use crate::answered::Change;
use heap::Heap;
use memory::Memory;
use model::{Packed, Still};
use scheme::Scheme;
use std::alloc::{AllocError, Global};
use std::array;
use std::ops::Range;

/// The words of a heap and its handles as they stood.
#[derive(Drop)]
pub struct Picture {
    words: Vec<u32>,
    handles: [u32; 32],
}

impl From<Packed> for Picture {
    fn from(packed: Packed) -> Picture {
        let Packed { words, handles } = packed;
        Picture { words, handles }
    }
}

/// No place.
const NONE: Range<u32> = 0..0;

/// The place alone.
fn only(place: u32) -> Range<u32> {
    place..place.saturating_add(1)
}

/// How many words are not as they were, some places left out.
fn changed<F: Fn(u32) -> u32>(before: &[u32], now: F, but: Range<u32>) -> usize
    requires { F.IsAlwaysCallable now }
{
    (0..)
        .zip(before)
        .filter(|(place, word)| !but.contains(place) && now(*place) != **word)
        .count()
}

// Bits by number: the trials share nothing with the heap's own reading of words.
/// Where the records end: each header tells the size, and a class or a free word ends the walk.
fn records_end(words: &[u32]) -> usize {
    let mut end = 0;
    while let Some(header) = words.get(end) {
        let size = header / 16;
        if size == 0 || header / 4 % 4 != 0 {
            break;
        }
        end = end.saturating_add(size as usize);
    }
    end
}

/// Where the classes begin, not before the end of the records: each boundary tag tells the size, and a free word ends the walk.
fn classes_begin(words: &[u32], end: usize) -> usize {
    let mut begin = words.len();
    while end < begin {
        let tag = words[begin - 1];
        if tag == 0 {
            break;
        }
        begin = begin.saturating_sub(tag as usize);
    }
    begin
}

impl Picture {
    /// A picture of a new heap of so many words.
    pub fn new(alloc: Global, words: u32) -> Result<Picture, AllocError> {
        Ok(Picture {
            words: vec![in alloc; 0; words as usize]?,
            handles: [0; 32],
        })
    }

    /// Takes the picture anew.
    pub fn retake<M: Memory, S: Scheme>(&mut self, heap: &Heap<M, S>) {
        for (place, word) in (0..).zip(self.words.iter_mut()) {
            *word = heap.word(place);
        }
        self.handles = array::from_fn(|handle| heap.handle_word(handle as u32));
    }

    /// How many words of the memory have changed, some places left out.
    fn changed_words<M: Memory, S: Scheme>(&self, heap: &Heap<M, S>, but: Range<u32>) -> usize {
        changed(&self.words, |place| heap.word(place), but)
    }

    /// How many handle words have changed, some handles left out.
    fn changed_handles<M: Memory, S: Scheme>(&self, heap: &Heap<M, S>, but: Range<u32>) -> usize {
        changed(&self.handles, |handle| heap.handle_word(handle), but)
    }

    /// Whether no word has changed, some places and handles left out.
    fn stands<M: Memory, S: Scheme>(
        &self,
        heap: &Heap<M, S>,
        places: Range<u32>,
        handles: Range<u32>,
    ) -> bool {
        self.changed_words(heap, places) == 0 && self.changed_handles(heap, handles) == 0
    }

    /// The words between the two sides.
    fn room(&self) -> usize {
        let end = records_end(&self.words);
        classes_begin(&self.words, end).saturating_sub(end)
    }

    /// Whether a call that made an object has changed only what it may. It collects first exactly where there is no room.
    fn keeps_making<M: Memory, S: Scheme>(
        &self,
        heap: &Heap<M, S>,
        still: &Still,
        target: u32,
    ) -> Result<bool, AllocError> {
        // By number, as where the records end.
        let place = heap.handle_word(target) / 4;
        let size = heap.word(place) / 16;
        let object = place..place.saturating_add(size);
        if size as usize <= self.room() {
            return Ok(self.stands(heap, object, only(target)));
        }
        let packed = Picture::from(still.packed()?);
        Ok(packed.stands(heap, object, only(target)))
    }

    /// Whether only what may change has changed. The graph is the one before the call.
    pub fn keeps<M: Memory, S: Scheme>(
        &self,
        heap: &Heap<M, S>,
        still: &Still,
        change: Change,
    ) -> Result<bool, AllocError> {
        match change {
            Change::Nothing => Ok(self.stands(heap, NONE, NONE)),
            Change::Handle(handle) => Ok(self.stands(heap, NONE, only(handle))),
            Change::Field => {
                Ok(self.changed_words(heap, NONE) <= 1 && self.changed_handles(heap, NONE) == 0)
            }
            Change::Object(target) => self.keeps_making(heap, still, target),
            Change::All => Ok(true),
        }
    }
}
