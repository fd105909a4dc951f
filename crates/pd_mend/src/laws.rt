//! A law of mends: a function without work, whose contract is the law.
ghost use Rattle.pd_mend.specs.Mending.{OtherLinesStay};

/// A law: each line that no mend changed is in the mended text, octet for octet.
pub fn law_other_lines_stay()
    ensures { OtherLinesStay }
{}
