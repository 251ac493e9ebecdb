// A memory over a slice of words.
ghost use Rattle.std.specs.Prelude.{◌≡◌, ℕ, ◌+◌, ◌<◌, ◌≤◌, length, replicate, slice_index, slice_set};
ghost use Rattle.memory.specs.Ranges.{shifted, cleared};

use crate::Memory;

/// A word of the slice is a word of the memory. Each call leaves the same slice lent, so who lent it knows its words afterwards.
impl Memory for &mut [u32] {
    ghost words = { λ m. m.now };

    fn length(&self) -> usize {
        self.len()
    }

    fn read(&self, place: usize) -> u32 {
        self.get(place).copied().unwrap_or(0)
    }

    fn write(&mut self, place: usize, word: u32)
        ensures word { self.new.now ≡ slice_set self.old.now place word }
        ensures same_reference { self.new.ghost_name ≡ self.old.ghost_name }
    {
        if place < self.len() {
            self[place] = word;
        }
    }

    fn read_within(&self, place: usize) -> u32 {
        self[place]
    }

    fn write_within(&mut self, place: usize, word: u32)
        requires { place < length self.old.now }
        ensures word { self.new.now ≡ slice_set self.old.now place word }
        ensures same_reference { self.new.ghost_name ≡ self.old.ghost_name }
    {
        self[place] = word;
    }

    // By one test, and the words at once.
    #[inline(always)]
    fn write_fresh(&mut self, place: usize, first: u32, second: u32, end: usize)
        requires { place + 2 ≤ end }
        ensures length { length self.new.now ≡ length self.old.now }
        ensures words { (k : ℕ) → slice_index self.new.now k ≡ cleared (slice_set (slice_set self.old.now place first) (place + 1) second) (place + 2) end k }
        ensures same_reference { self.new.ghost_name ≡ self.old.ghost_name }
    {
        if end <= self.len() {
            make_fresh(&mut self[place..end], first, second);
        } else {
            self.write(place, first);
            self.write(place + 1, second);
            self.clear(place + 2, end);
        }
    }

    // This and `clear` at once: the trait's own bodies go word by word.
    #[inline(always)]
    fn shift(&mut self, from: usize, to: usize, size: usize)
        ensures length { length self.new.now ≡ length self.old.now }
        ensures words { (k : ℕ) → slice_index self.new.now k ≡ shifted self.old.now from to size k }
        ensures same_reference { self.new.ghost_name ≡ self.old.ghost_name }
    {
        let len = self.len();
        if size <= len && from <= len - size && to <= len - size {
            self.shift_within(from, to, size);
        }
    }

    // Whoever calls it knows the bounds, so the machine code tests none of them. By `copy_within`,
    // which is compiled into a loop: `copy_from_slice` would be a call of `memmove`, which whoever
    // links the library for C would have to bring.
    #[inline(always)]
    fn shift_within(&mut self, from: usize, to: usize, size: usize)
        requires from_in { from + size ≤ length self.old.now }
        requires to_in { to + size ≤ length self.old.now }
        ensures length { length self.new.now ≡ length self.old.now }
        ensures words { (k : ℕ) → slice_index self.new.now k ≡ shifted self.old.now from to size k }
        ensures same_reference { self.new.ghost_name ≡ self.old.ghost_name }
    {
        self.copy_within(from..from + size, to);
    }

    fn clear(&mut self, from: usize, end: usize)
        ensures length { length self.new.now ≡ length self.old.now }
        ensures words { (k : ℕ) → slice_index self.new.now k ≡ cleared self.old.now from end k }
        ensures same_reference { self.new.ghost_name ≡ self.old.ghost_name }
    {
        let end = end.min(self.len());
        if from < end {
            self[from..end].fill(0);
        }
    }
}

// The whole slice: two words, and 0 behind them.
#[inline(always)]
fn make_fresh(words: &mut [u32], first: u32, second: u32)
    requires { 2 ≤ length words.old }
    ensures length { length words.new ≡ length words.old }
    ensures first { slice_index words.new 0 ≡ first }
    ensures second { slice_index words.new 1 ≡ second }
    ensures rest { (k : ℕ) → 2 ≤ k → slice_index words.new k ≡ 0 }
{
    words[0] = first;
    words[1] = second;
    zero(&mut words[2..]);
}

// 0 in each of the words. A few are set by their ends, which is sooner done than a call of `memset`.
#[inline(always)]
fn zero(words: &mut [u32])
    ensures { words.new ≡ replicate (length words.old) 0 }
{
    let len = words.len();
    if 4 <= len && len <= 8 {
        zero_ends(words, 4);
    } else if 2 <= len && len <= 4 {
        zero_ends(words, 2);
    } else {
        words.fill(0);
    }
}

// The first so many words and the last so many, which are all of them: they may overlap.
#[inline(always)]
fn zero_ends(words: &mut [u32], many: usize)
    requires within { many ≤ length words.old }
    requires all { length words.old ≤ many + many }
    ensures { words.new ≡ replicate (length words.old) 0 }
{
    let len = words.len();
    words[..many].fill(0);
    words[len - many..].fill(0);
}
