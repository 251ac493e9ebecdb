// A refusal of the heap goes up to the call runner, and from there to the load line; each layer adds its place.
ghost use Rattle.std.specs.Prelude.{◌≡◌, ℕ, Result};
ghost use Rattle.report.specs.declared.line_faults.LineFault.{LineFault};
ghost use Rattle.report.specs.declared.line_faults.CallFault.TheVariants.{Text, Heap};
ghost use Rattle.report.specs.Faults.{fault_number, fault_position, on_line};

use faults::TextFault;
use graph::Refusal;

/// What stops a call: the text of its line, or the heap.
#[derive(Clone, Copy, PartialEq, Eq, Debug)]
pub enum CallFault {
    Text(TextFault),
    Heap(Refusal),
}

impl CallFault {
    // By methods: a fault has two numbers, and each layer below names its own.
    /// The number by which the fault is known outside.
    pub fn number(self) -> u8
        ensures { result ≡ fault_number self }
    {
        match self {
            CallFault::Text(fault) => fault.number(),
            CallFault::Heap(refusal) => refusal.number(),
        }
    }

    /// Which value is to blame, 1 to 4 for a to d, or 0 for none.
    pub fn position(self) -> u8
        ensures { result ≡ fault_position self }
    {
        match self {
            CallFault::Text(fault) => fault.position(),
            CallFault::Heap(refusal) => refusal.position(),
        }
    }
}

// By hand, and the next one too: a derived From has no contract that says which case it makes.
impl From<TextFault> for CallFault {
    ghost from_gives = { λ e r. r ≡ Text e };

    fn from(e: TextFault) -> CallFault {
        CallFault::Text(e)
    }
}

impl From<Refusal> for CallFault {
    ghost from_gives = { λ e r. r ≡ Heap e };

    fn from(e: Refusal) -> CallFault {
        CallFault::Heap(e)
    }
}

/// What stops a line of the load, with the line's number.
#[derive(Clone, Copy, PartialEq, Eq, Debug)]
pub struct LineFault {
    pub line: u32,
    pub fault: CallFault,
}

/// Gives a fault on its way up the number of the line.
pub trait OnLine<T> {
    ghost placed: { Self → ℕ → Result T LineFault };

    fn on(self, line: u32) -> Result<T, LineFault>
        ensures { result ≡ placed self line };
}

impl<T> OnLine<T> for Result<T, CallFault> {
    ghost placed = { λ s n. on_line s n };

    fn on(self, line: u32) -> Result<T, LineFault> {
        self.map_err(|fault| LineFault { line, fault })
    }
}
