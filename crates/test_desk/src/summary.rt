//! How many things were tried, how many of them differ, and what is printed of these.
use std::alloc::{AllocError, Global};
use std::io;
use test_support::{AnswerForm, AnswerText};

#[derive(Drop)]
pub struct Summary {
    out: AnswerText,
    run: u64,
    differing: u64,
}

impl Summary {
    pub fn new(alloc: Global) -> Result<Summary, AllocError> {
        Ok(Summary {
            out: AnswerText::new(alloc, AnswerForm::Short)?,
            run: 0,
            differing: 0,
        })
    }

    /// Counts one more that is tried.
    pub fn count_tried(&mut self) {
        self.run = self.run.wrapping_add(1);
    }

    /// Counts and reports a condition that doesn't hold.
    pub fn report_unless(&mut self, holds: bool, what: &str) {
        if !holds {
            self.differing = self.differing.wrapping_add(1);
            self.out.push_str("number ");
            self.out.number(self.run);
            self.out.push_str(" differs: ");
            self.out.push_str(what);
            self.out.push_str("\n");
        }
    }

    /// Prints what differs, and how many things of this kind were tried; whether none differs.
    pub fn print(&mut self, rt: &impl Print, kind: &str) -> io::Result<bool> {
        self.out.number(self.run);
        self.out.push_str(kind);
        self.out.number(self.differing);
        self.out.push_str(" differ\n");
        rt.print(self.out.whole()?)?;
        Ok(self.differing == 0)
    }
}
