//! Invariants as laws that do no work: no line of a text or an edit holds a newline, and a text keeps its limits.
ghost use Rattle.pd_text.specs.Text.{AreLines, IsText};

use crate::line_edit::LineEdit;
use crate::lines::Lines;
use crate::text::Text;

impl Lines {
    /// No line holds a newline.
    pub fn law_invariant(&self)
        ensures { AreLines self.now }
    {
        // A look at a line shows so.
        let _first = self.line(1);
    }
}

impl Text {
    /// The lines are within the limits, and none holds a newline.
    pub fn law_invariant(&self)
        ensures { IsText self.now }
    {
        let _first = self.lines().line(1);
    }
}

impl LineEdit {
    /// No line that is inserted holds a newline.
    pub fn law_invariant(&self)
        ensures { AreLines self.now.insert }
    {
        let _count = self.insert.len();
    }
}
