// The two schemes by their numbers, as a caller from outside names them.
ghost use Rattle.std.specs.Prelude.{◌≡◌};
ghost use Rattle.clib.specs.Schemes.{scheme_of, meaning_of};

use crate::errors::TurnError;
use scheme::{Mask, Prefix, Scheme};

/// One of the two schemes. It answers as that one does.
#[derive(Clone, Copy, Debug, PartialEq, Eq)]
pub enum AnyScheme {
    Prefix,
    Mask,
}

impl TryFrom<u32> for AnyScheme {
    type Error = TurnError;

    ghost try_from_gives = { λ number r. r ≡ scheme_of number };

    fn try_from(number: u32) -> Result<Self, TurnError> {
        match number {
            0 => Ok(AnyScheme::Prefix),
            1 => Ok(AnyScheme::Mask),
            _ => Err(TurnError::NoScheme),
        }
    }
}

impl Scheme for AnyScheme {
    ghost meaning = { meaning_of };

    fn admits(&self, rule: u32) -> bool {
        match self {
            AnyScheme::Prefix => Prefix.admits(rule),
            AnyScheme::Mask => Mask.admits(rule),
        }
    }

    fn is_raw(&self, rule: u32, field: u32) -> bool {
        match self {
            AnyScheme::Prefix => Prefix.is_raw(rule, field),
            AnyScheme::Mask => Mask.is_raw(rule, field),
        }
    }

    fn raw_count(&self, rule: u32, n: u32) -> u32 {
        match self {
            AnyScheme::Prefix => Prefix.raw_count(rule, n),
            AnyScheme::Mask => Mask.raw_count(rule, n),
        }
    }

    fn raw_fields(&self, rule: u32) -> u32 {
        match self {
            AnyScheme::Prefix => Prefix.raw_fields(rule),
            AnyScheme::Mask => Mask.raw_fields(rule),
        }
    }
}
