// Conditions that stop a call, each with its refusal at an argument's position.
ghost use Rattle.std.specs.Prelude.{◌≡◌, ℕ, ◌+◌, ◌*◌, ◌/◌, ◌<◌, ◌≤◌, min, Bool, true, false, cond, Ok, Err, List, [], ◌∷◌, IfOk, slice_index, slice_index_or};
ghost use Rattle.graph.specs.Graph.{Graph, object_at};
ghost use Rattle.graph.specs.Numbers.{kind_number};
ghost use Rattle.graph.specs.Step.{handle, field_count, value_number, in_range, part_number, part_kind, admitted, kind_of, object_kind, object_of, figure_of};
ghost use Rattle.graph.specs.Words.{reference, place_of};
ghost use Rattle.heap.specs.Effects.{part_offset};
ghost use Rattle.heap.specs.Views.{view, Stands};
ghost use Rattle.heap.specs.Checks.{OfValue, Sifts, map_of, is_kind, is_parent, is_object, has_field, is_sort};

use crate::Heap;
use codec::header::Shape;
use codec::{header, value};
use graph::{Kind, Refusal};
use memory::Memory;
use scheme::Scheme;

/// A condition that must hold, else the refusal.
fn hold(condition: bool, refusal: Refusal) -> Result<(), Refusal>
    ensures { result ≡ cond condition (Ok tt) (Err refusal) }
{
    condition.then_some(()).ok_or(refusal)
}

/// A handle's number is at most 31.
pub(crate) fn check_handle(h: u32, at: u8) -> Result<(), Refusal>
    ensures { Sifts (handle h at ∷ []) (λ _. h < 32) result }
{
    hold(h < 32, Refusal::NoHandle(at))
}

/// A number is one that 30 bits with sign can hold.
pub(crate) fn check_number(n: i32, at: u8) -> Result<(), Refusal>
    ensures { Sifts (value_number n at ∷ []) (λ _. in_range n ≡ true) result }
{
    hold(value::fits(n), Refusal::NoNumber(at))
}

/// A field count is at most 32.
pub(crate) fn check_fields(fields: u32, at: u8) -> Result<(), Refusal>
    ensures { Sifts (field_count fields at ∷ []) (λ _. fields ≤ 32) result }
{
    hold(fields <= 32, Refusal::TooWide(at))
}

/// A part's number is at most 3; then the kind that has the part, and the word of it that holds the part.
pub(crate) fn part_at(part: u32, at: u8) -> Result<(Kind, usize), Refusal>
    ensures { Sifts (part_number part at ∷ []) (λ p. (part ≤ 3) × (kind_number p.0 ≡ part_kind part) × (p.1 ≡ part_offset part)) result }
{
    match part {
        0 => Ok((Kind::Record, 1)),
        1 => Ok((Kind::Layout, 2)),
        2 => Ok((Kind::Map, 2)),
        3 => Ok((Kind::Map, 3)),
        _ => Err(Refusal::NoPart(at)),
    }
}

// A word and its argument's position stay apart: a struct of both would be made and taken apart again in each call, and be no plainer.
impl<M: Memory, S: Scheme> Heap<M, S> {
    /// Word i of the object that a word refers to.
    pub(crate) fn word_in(&self, word: u32, i: usize) -> u32
        requires { i < 4 }
        ensures { result ≡ slice_index (M.Memory.words self.now.space.memory) (word / 4 + i) }
    {
        self.space.memory.read(value::place_of(word) as usize + i)
    }

    /// The kind of the value that a word stands for.
    pub(crate) fn kind_of(&self, word: u32) -> Kind
        ensures { OfValue (S.Scheme.meaning self.now.scheme) (view M.Memory.words self.now) word (λ g v. kind_number result ≡ kind_of g v) }
    {
        // By the tag's number: an enum of the four tags would be `Kind` again, but for the class.
        match word % 4 {
            0 => Kind::Empty,
            1 => Kind::Number,
            2 => Kind::Record,
            _ => {
                let class = self.space.memory.read(value::place_of(word) as usize);
                if header::shape_in(class) == Some(Shape::Layout) {
                    Kind::Layout
                } else {
                    Kind::Map
                }
            }
        }
    }

    /// The value that a word stands for has the kind.
    pub(crate) fn check_kind(&self, word: u32, kind: Kind, at: u8) -> Result<(), Refusal>
        ensures { OfValue (S.Scheme.meaning self.now.scheme) (view M.Memory.words self.now) word (λ g v. Sifts (is_kind g v (kind_number kind) at ∷ []) (λ _. Unit {0}) result) }
    {
        hold(self.kind_of(word) == kind, Refusal::OtherKind(at))
    }

    /// The rule of the map of a layout, from the layout's reference.
    // Two look-ups, as in the space, which goes from a record's place: a function for both would be no plainer.
    pub(crate) fn rule_of(&self, word: u32) -> u32
        ensures { (g : Graph) (s : List Bool) (q : ℕ) → Stands (S.Scheme.meaning self.now.scheme) (view M.Memory.words self.now) g s → slice_index_or s q false ≡ true → object_kind (object_at g q) ≡ 3 → word ≡ reference self.now.bounds.limit g s q → result ≡ figure_of (object_at g (map_of (object_at g q))) }
    {
        let map = self.word_in(word, 2);
        self.word_in(map, 1)
    }

    // Raw or not is a yes or no of the field, as the scheme answers it.
    /// A field of the record is there, and is raw or not as wanted; then the place of its word.
    pub(crate) fn field_of(
        &self,
        word: u32,
        field: u32,
        at: u8,
        raw: bool,
    ) -> Result<usize, Refusal>
        ensures place { IfOk result (λ p. p ≡ word / 4 + (2 + field)) }
        ensures sifts { OfValue (S.Scheme.meaning self.now.scheme) (view M.Memory.words self.now) word (λ g v. kind_of g v ≡ 2 → Sifts (has_field g v field at ∷ is_sort g v field raw at ∷ []) (λ p. p ≡ word / 4 + (2 + field)) result) }
    {
        let place = value::place_of(word) as usize;
        let size = header::size_in(self.space.memory.read(place));
        if field as usize + 2 >= size as usize {
            return Err(Refusal::NoField(at));
        }
        let rule = self.rule_of(self.word_in(word, 1));
        if self.scheme.is_raw(rule, field) != raw {
            return Err(Refusal::OtherField(at));
        }
        Ok(place + 2 + field as usize)
    }

    /// The value of a word is a record, and its field is there and raw or not as wanted; then the place of the field's word.
    pub(crate) fn field_in(
        &self,
        word: u32,
        at: u8,
        field: u32,
        field_at: u8,
        raw: bool,
    ) -> Result<usize, Refusal>
        ensures place { IfOk result (λ p. p ≡ word / 4 + (2 + field)) }
        ensures sifts { OfValue (S.Scheme.meaning self.now.scheme) (view M.Memory.words self.now) word (λ g v. Sifts (is_kind g v 2 at ∷ has_field g v field field_at ∷ is_sort g v field raw field_at ∷ []) (λ p. p ≡ word / 4 + (2 + field)) result) }
    {
        self.check_kind(word, Kind::Record, at)?;
        self.field_of(word, field, field_at, raw)
    }

    /// The scheme admits the rule.
    pub(crate) fn check_rule(&self, rule: u32, at: u8) -> Result<(), Refusal>
        ensures { Sifts (admitted (S.Scheme.meaning self.now.scheme) rule at ∷ []) (λ _. Unit {0}) result }
    {
        hold(self.scheme.admits(rule), Refusal::NoRule(at))
    }

    /// The value of a word is a parent: empty or a map.
    pub(crate) fn check_parent(&self, word: u32, at: u8) -> Result<(), Refusal>
        ensures { OfValue (S.Scheme.meaning self.now.scheme) (view M.Memory.words self.now) word (λ g v. Sifts (is_parent g v at ∷ []) (λ _. Unit {0}) result) }
    {
        match self.kind_of(word) {
            Kind::Empty | Kind::Map => Ok(()),
            _ => Err(Refusal::OtherKind(at)),
        }
    }

    /// The value of a word is a layout; then how many words its records take. No layout of a heap at rest has more than 32 fields.
    pub(crate) fn record_size(&self, word: u32, at: u8) -> Result<u32, Refusal>
        ensures counted { IfOk result (λ n. n ≡ 2 + min (slice_index (M.Memory.words self.now.space.memory) (word / 4 + 1)) 32) }
        ensures size { OfValue (S.Scheme.meaning self.now.scheme) (view M.Memory.words self.now) word (λ g v. Sifts (is_kind g v 3 at ∷ []) (λ n. n ≡ 2 + figure_of (object_of g v)) result) }
    {
        self.check_kind(word, Kind::Layout, at)?;
        Ok(2 + self.word_in(word, 1).min(32))
    }

    /// The value of a word is an object; then how many fields it has or gives, or which rule it has.
    pub(crate) fn figure_of(&self, word: u32, at: u8) -> Result<u32, Refusal>
        ensures { OfValue (S.Scheme.meaning self.now.scheme) (view M.Memory.words self.now) word (λ g v. Sifts (is_object g v at ∷ []) (λ n. n ≡ figure_of (object_of g v)) result) }
    {
        let place = value::place_of(word) as usize;
        match self.kind_of(word) {
            Kind::Empty | Kind::Number => Err(Refusal::OtherKind(at)),
            Kind::Record => Ok(header::size_in(self.space.memory.read(place)).saturating_sub(2)),
            Kind::Layout | Kind::Map => Ok(self.word_in(word, 1)),
        }
    }
}
