//! Laws of scripts.
ghost use Rattle.pd_script.specs.Laws.{ScriptsAreGrammatical, NoOthersAreGrammatical, ItemsAreReadInOneWay, ItemsStandThere};

use pd_lex::{law_lexing_resumes_at_token_end, law_tokens_are_exactly_longest_pieces};

/// Three laws, and no work: what a text is read as is what the grammar gives for its tokens, it gives
/// nothing else, and no tokens are read in two ways.
pub fn law_parse_gives_the_only_grammatical_reading()
    ensures given { ScriptsAreGrammatical }
    ensures only { NoOthersAreGrammatical }
    ensures one_way { ItemsAreReadInOneWay }
{
    law_tokens_are_exactly_longest_pieces();
}

/// A law, and no work: from the place of an item with which an event or the end begins, in a text,
/// the items are that one and those after it.
pub fn law_lexing_from_event_start_gives_same_items()
    ensures { ItemsStandThere }
{
    law_lexing_resumes_at_token_end();
}
