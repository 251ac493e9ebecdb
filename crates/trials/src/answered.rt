// A call with its answer, and which words such a call may change.
use graph::{Call, Outcome, Refusal};

/// A call, and what the heap has answered to it.
#[derive(Clone, Copy)]
pub struct Answered {
    pub call: Call,
    pub answer: Outcome,
}

/// What a call may change.
#[derive(Clone, Copy)]
pub enum Change {
    /// No word.
    Nothing,
    /// The word of a handle.
    Handle(u32),
    /// A word of the memory.
    Field,
    /// A new object's words and the word of a handle; if it collects first, all.
    Object(u32),
    /// All words: they are the packed ones afterwards.
    All,
}

impl Answered {
    /// What the call may change, with this answer.
    pub fn change(self) -> Change {
        match self.answer {
            Ok(_) => granted_change(self.call),
            Err(Refusal::Full) => Change::All,
            Err(_) => Change::Nothing,
        }
    }
}

fn granted_change(call: Call) -> Change {
    match call {
        Call::Num { handle, .. } | Call::Clear { handle } => Change::Handle(handle),
        Call::Copy { target, .. } | Call::Load { target, .. } | Call::Part { target, .. } => {
            Change::Handle(target)
        }
        Call::Save { .. } | Call::RawSave { .. } => Change::Field,
        Call::Map { target, .. } | Call::Layout { target, .. } | Call::Record { target, .. } => {
            Change::Object(target)
        }
        Call::Collect | Call::Stepped => Change::All,
        _ => Change::Nothing,
    }
}
