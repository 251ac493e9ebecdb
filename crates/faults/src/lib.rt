// Where the load text is stopped.
#![tactic(auto)]

ghost use Rattle.std.specs.Prelude.{◌≡◌};
ghost use Rattle.faults.specs.Faults.{argument_position, text_number, text_position};

/// The four columns that a call's arguments fill, from the left.
#[derive(Clone, Copy, PartialEq, Eq, Debug)]
pub enum Argument {
    A,
    B,
    C,
    D,
}

impl Argument {
    /// All four, in their order.
    pub const ALL: [Argument; 4] = [Argument::A, Argument::B, Argument::C, Argument::D];

    /// 1 to 4 for a to d, wherever the column stands on the line.
    // No From: `u8::from` would not say which of its numbers is meant.
    pub fn position(self) -> u8
        ensures { result ≡ argument_position self }
    {
        match self {
            Argument::A => 1,
            Argument::B => 2,
            Argument::C => 3,
            Argument::D => 4,
        }
    }
}

/// More bytes of input than this are no load.
pub const LONGEST_INPUT: usize = 65_536;

/// What is wrong with the load text.
#[derive(Clone, Copy, PartialEq, Eq, Debug)]
pub enum TextFault {
    /// More bytes of input than a load may have.
    TooLong,
    /// The first line does not give each of the five columns its place.
    NoNames,
    /// A line that is too long, or that single spaces do not cut into five values.
    NoShape,
    /// No call has this word.
    NoWord,
    /// A value that does not do for its column.
    NoValue(Argument),
}

impl TextFault {
    /// The number by which the fault is known outside.
    // No From: a fault has two numbers, this one and its position.
    pub fn number(self) -> u8
        ensures { result ≡ text_number self }
    {
        match self {
            TextFault::TooLong => 40,
            TextFault::NoNames => 41,
            TextFault::NoShape => 42,
            TextFault::NoWord => 43,
            TextFault::NoValue(_) => 44,
        }
    }

    /// The position of the value that did not do; 0 where it is no single value's fault.
    pub fn position(self) -> u8
        ensures { result ≡ text_position self }
    {
        match self {
            TextFault::NoValue(argument) => argument.position(),
            _ => 0,
        }
    }
}
