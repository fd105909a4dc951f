//! Laws of comparisons: a function without code, whose contract is the laws.
ghost use Rattle.pd_match.specs.Laws.{MismatchIsFirst, MatchIsResult};

/// The meaning of a packet, or an answer of a call, that differs in nothing or in a field.
pub fn law_first_mismatch_of_packets_and_calls()
    ensures packets { MismatchIsFirst }
    ensures calls { MatchIsResult }
{}
