// Value words: the two lowest bits are the tag, 1 for a number, 2 for a record, 3 for a class; above it stands the number or the place. 0 is empty.
ghost use Rattle.std.specs.Prelude.{◌≡◌, ℕ, ◌+◌, ◌*◌, ◌/◌, ◌%◌, ◌<◌, ◌≤◌, true, ℤ, nat_le};
ghost use Rattle.graph.specs.Laws.{word_number};
ghost use Rattle.graph.specs.Words.{number_word};
ghost use Rattle.graph.specs.Step.{in_range};
ghost use Rattle.codec.specs.Kinds.{kind_tag};

use crate::header::is_record;

/// The word of an empty value.
pub const EMPTY: u32 = 0;

/// The least and the largest number that a value word holds: 30 bits, signed.
pub const LEAST: i32 = -536_870_912;

pub const GREATEST: i32 = 536_870_911;

/// Whether a value word holds the number.
pub fn fits(n: i32) -> bool
    ensures { result ≡ in_range n }
{
    (LEAST..=GREATEST).contains(&n)
}

/// The word of a number.
pub fn encode(n: i32) -> u32
    ensures { result ≡ number_word n }
{
    n.wrapping_mul(4).wrapping_add(1).cast_unsigned()
}

/// The number that a word holds, the word's tag aside.
pub fn decode(word: u32) -> i32
    ensures value { result ≡ word_number word }
    ensures exact { (n : ℤ) → in_range n ≡ true → word ≡ number_word n → result ≡ n }
{
    word.cast_signed().div_euclid(4)
}

/// Whether a value word refers to an object.
pub fn refers(word: u32) -> bool
    ensures { result ≡ nat_le 2 (word % 4) }
{
    word % 4 >= 2
}

/// The place of the object that a value word refers to.
pub fn place_of(word: u32) -> u32
    ensures { result ≡ word / 4 }
{
    word / 4
}

/// The reference to a record, by its place. No heap has places of 2^30 and more.
pub fn to_record(place: u32) -> u32
    ensures { place < 1_073_741_824 → result ≡ place * 4 + 2 }
{
    place.wrapping_mul(4).wrapping_add(2)
}

/// The reference to a class, by its place.
pub fn to_class(place: u32) -> u32
    ensures { place < 1_073_741_824 → result ≡ place * 4 + 3 }
{
    place.wrapping_mul(4).wrapping_add(3)
}

/// The reference to an object, by its place and its header: the tag is that of the kind which the
/// header tells.
pub fn to_object(place: u32, header: u32) -> u32
    ensures { place < 1_073_741_824 → result ≡ place * 4 + kind_tag (header / 4 % 4) }
{
    if is_record(header) {
        to_record(place)
    } else {
        to_class(place)
    }
}
