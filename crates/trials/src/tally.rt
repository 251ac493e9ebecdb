// What came of the loads of one memory and scheme.
use crate::answered::Answered;
use crate::beside::Difference;
use graph::Call;
use std::fmt;

/// How many calls there were and how they ended, the most live words of a collection, and the first difference, if there is one.
#[derive(Clone, Copy, Default)]
pub struct Tally {
    loads: u32,
    calls: u32,
    granted: u32,
    refused: u32,
    collections: u32,
    most: i64,
    finding: Option<Finding>,
}

/// Where something was not as it should be, and what.
#[derive(Clone, Copy)]
pub struct Finding {
    load: u32,
    call: u32,
    what: What,
}

#[derive(Clone, Copy)]
pub enum What {
    Differs(Difference),
    /// Words or bytes behind the heap's have changed.
    Spilled,
}

impl Tally {
    /// Another load begins.
    pub fn begin(&mut self) {
        self.loads = self.loads.saturating_add(1);
    }

    /// Counts a call with its answer. A collection that is given up is none.
    pub fn count(&mut self, answered: Answered) {
        self.calls = self.calls.saturating_add(1);
        match answered.answer {
            Ok(number) => {
                self.granted = self.granted.saturating_add(1);
                self.count_collection(answered.call, number);
            }
            Err(_) => self.refused = self.refused.saturating_add(1),
        }
    }

    fn count_collection(&mut self, call: Call, live: i64) {
        if matches!(call, Call::Collect | Call::Stepped) {
            self.collections = self.collections.saturating_add(1);
            self.most = self.most.max(live);
        }
    }

    /// Notes what a comparison has found.
    pub fn find(&mut self, found: Result<(), Difference>) {
        if let Err(difference) = found {
            self.note(What::Differs(difference));
        }
    }

    /// Notes whether what stands behind the heap's words is as it was.
    pub fn find_behind(&mut self, untouched: bool) {
        if !untouched {
            self.note(What::Spilled);
        }
    }

    fn note(&mut self, what: What) {
        if self.finding.is_none() {
            self.finding = Some(Finding {
                load: self.loads,
                call: self.calls,
                what,
            });
        }
    }
}

impl fmt::Display for Tally {
    fn fmt<W: fmt::Write>(&self, f: &mut fmt::Formatter<W>) -> fmt::Result {
        let Tally {
            calls,
            granted,
            refused,
            collections,
            most,
            finding,
            ..
        } = self;
        write!(
            f,
            "{calls} calls, {granted} granted, {refused} refused, {collections} collections, live words up to {most}, "
        )?;
        match finding {
            None => write!(f, "agree"),
            Some(finding) => write!(f, "{finding}"),
        }
    }
}

impl fmt::Display for Finding {
    fn fmt<W: fmt::Write>(&self, f: &mut fmt::Formatter<W>) -> fmt::Result {
        let Finding { load, call, what } = self;
        write!(f, "differ in load {load} after {call} calls: ")?;
        match what {
            What::Differs(difference) => write!(f, "{difference}"),
            What::Spilled => write!(f, "words behind the heap's have changed"),
        }
    }
}
