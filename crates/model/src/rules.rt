// What a map's rule says of the fields of its records.
use crate::object::word_of;

/// Which scheme the graph goes by.
#[derive(Clone, Copy)]
pub enum Rules {
    /// A rule of 0 to 32: so many fields from the first on are raw.
    Prefix,
    /// Any word: the fields whose bits are set are raw.
    Mask,
}

impl Rules {
    /// Whether a map may have the rule.
    pub fn admits(self, rule: u32) -> bool {
        match self {
            Rules::Prefix => rule <= 32,
            Rules::Mask => true,
        }
    }

    /// Whether the field of a record under the rule is raw.
    pub fn is_raw(self, rule: u32, field: u32) -> bool {
        match self {
            Rules::Prefix => field < rule,
            Rules::Mask => field < 32 && rule >> field & 1 == 1,
        }
    }

    /// The number of raw fields below a number: asked one by one.
    pub fn raws(self, rule: u32, fields: u32) -> u32 {
        word_of(
            (0..fields)
                .filter(|field| self.is_raw(rule, *field))
                .count(),
        )
    }
}
