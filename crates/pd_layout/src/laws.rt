//! Laws of how calls are laid out.
ghost use Rattle.pd_layout.specs.Grammatical.{EqualsSignsAreOutside, NotesEndOutside};

/// Two laws, and no work: the equals sign of a call, as the grammar spells it, is the first of its tokens that is one and leaves
/// no bracket open, and the last token of a note the first that closes a bracket and leaves none open.
pub fn law_equals_and_note_end_are_first_outside()
    ensures equals { EqualsSignsAreOutside }
    ensures notes { NotesEndOutside }
{}
