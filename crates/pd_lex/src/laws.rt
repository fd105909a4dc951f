//! Laws of the tokens of texts.
ghost use Rattle.pd_lex.specs.Agreement.{ItemsAreInOrder, FirstLinesAgree};
ghost use Rattle.pd_lex.specs.Laws.{ItemsAreLongest, NoOthersAreLongest, ItemsGoOn};

/// Two laws, and no work: the tokens of a text come in the order of their lines, and texts whose
/// first lines are equal have the same tokens there.
pub fn law_first_lines_fix_tokens_in_order()
    ensures order { ItemsAreInOrder }
    ensures same { FirstLinesAgree }
{}

/// Two laws, and no work: the items of every text are those that the longest piece at each place
/// gives, and nothing else is.
pub fn law_tokens_are_exactly_longest_pieces()
    ensures items { ItemsAreLongest }
    ensures only { NoOthersAreLongest }
{}

/// A law, and no work: the items after a token are those from the place after it.
pub fn law_lexing_resumes_at_token_end()
    ensures { ItemsGoOn }
{}
