// A memory over a slice of bytes.
ghost use Rattle.std.specs.Prelude.{◌≡◌, ℕ, ◌+◌, ◌*◌, ◌/◌, ◌≤◌, length, slice_index, slice_set};
ghost use Rattle.memory.specs.Bytes.{words_of};
ghost use Rattle.memory.specs.Ranges.{shifted, cleared};

use crate::Memory;

/// A word is a group of four bytes, its first the highest. Up to three bytes behind the last group stay as they are.
impl Memory for &mut [u8] {
    ghost words = { λ m. words_of m.now };

    fn length(&self) -> usize {
        self.len() / 4
    }

    fn read(&self, place: usize) -> u32 {
        // By a match: behind `map_or` the proof was left open.
        match self.as_chunks::<4>().0.get(place) {
            Some(bytes) => u32::from_be_bytes(*bytes),
            None => 0,
        }
    }

    fn write(&mut self, place: usize, word: u32)
        ensures word { words_of self.new.now ≡ slice_set (words_of self.old.now) place word }
        ensures leftover { (k : ℕ) → length self.old.now / 4 * 4 ≤ k → slice_index self.new.now k ≡ slice_index self.old.now k }
    {
        if place < self.len() / 4 {
            let at = place * 4;
            self[at..at + 4].copy_from_slice(&word.to_be_bytes());
        }
    }

    fn write_within(&mut self, place: usize, word: u32)
        ensures word { words_of self.new.now ≡ slice_set (words_of self.old.now) place word }
        ensures leftover { (k : ℕ) → length self.old.now / 4 * 4 ≤ k → slice_index self.new.now k ≡ slice_index self.old.now k }
    {
        self.write(place, word);
    }

    fn write_fresh(&mut self, place: usize, first: u32, second: u32, end: usize)
        requires { place + 2 ≤ end }
        ensures length { length (words_of self.new.now) ≡ length (words_of self.old.now) }
        ensures words { (k : ℕ) → slice_index (words_of self.new.now) k ≡ cleared (slice_set (slice_set (words_of self.old.now) place first) (place + 1) second) (place + 2) end k }
        ensures leftover { (k : ℕ) → length self.old.now / 4 * 4 ≤ k → slice_index self.new.now k ≡ slice_index self.old.now k }
    {
        self.write(place, first);
        self.write(place + 1, second);
        self.clear(place + 2, end);
    }

    // This and `clear` at once, as over a slice of words.
    fn shift(&mut self, from: usize, to: usize, size: usize)
        ensures length { length (words_of self.new.now) ≡ length (words_of self.old.now) }
        ensures words { (k : ℕ) → slice_index (words_of self.new.now) k ≡ shifted (words_of self.old.now) from to size k }
        ensures leftover { (k : ℕ) → length self.old.now / 4 * 4 ≤ k → slice_index self.new.now k ≡ slice_index self.old.now k }
    {
        let len = self.len() / 4;
        if size <= len && from <= len - size && to <= len - size {
            self.copy_within(from * 4..(from + size) * 4, to * 4);
        }
    }

    fn shift_within(&mut self, from: usize, to: usize, size: usize)
        ensures length { length (words_of self.new.now) ≡ length (words_of self.old.now) }
        ensures words { (k : ℕ) → slice_index (words_of self.new.now) k ≡ shifted (words_of self.old.now) from to size k }
        ensures leftover { (k : ℕ) → length self.old.now / 4 * 4 ≤ k → slice_index self.new.now k ≡ slice_index self.old.now k }
    {
        self.shift(from, to, size);
    }

    fn clear(&mut self, from: usize, end: usize)
        ensures length { length (words_of self.new.now) ≡ length (words_of self.old.now) }
        ensures words { (k : ℕ) → slice_index (words_of self.new.now) k ≡ cleared (words_of self.old.now) from end k }
        ensures leftover { (k : ℕ) → length self.old.now / 4 * 4 ≤ k → slice_index self.new.now k ≡ slice_index self.old.now k }
    {
        let end = end.min(self.len() / 4);
        if from < end {
            self[from * 4..end * 4].fill(0);
        }
    }
}
