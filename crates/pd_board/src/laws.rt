//! Laws of the rules: functions without code, whose contracts are the laws.
ghost use Rattle.pd_board.specs.Laws.{LostIsDownwardClosed, PipeCountsTwiceAtMost, EdgeShowsLosses, CountsUndelivered};

/// The laws of losses and of the pipe, whatever was SACKed.
pub fn law_lost_downward_closed_pipe_bounded()
    ensures lost { LostIsDownwardClosed }
    ensures pipe { PipeCountsTwiceAtMost }
    ensures edge { EdgeShowsLosses }
    ensures undelivered_octets { CountsUndelivered }
{}
