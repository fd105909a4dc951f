//! Laws: functions that do no work, whose contracts are the laws.
ghost use Rattle.pd_refusal.specs.Rules.{LimitsHaveNumbers, ShapesHaveRules, OpeningsHaveRules, ContentsHaveRules};
ghost use Rattle.pd_refusal.specs.Escape.{EscapedIsPrintable};

/// A number is named exactly where some number of an event is over its limit, and a shape exactly where its shape isn't run.
/// Of a segment that the sender doesn't run, the rule that is named holds.
pub fn law_rules_are_named_iff_broken()
    ensures limits { LimitsHaveNumbers }
    ensures shapes { ShapesHaveRules }
    ensures openings { OpeningsHaveRules }
    ensures contents { ContentsHaveRules }
{}

/// Escaped octets are printable, whatever they stand for.
pub fn law_escaped_is_printable()
    ensures { EscapedIsPrintable }
{}
