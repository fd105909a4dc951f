//! The conditions under which the end of a job is refused; the function does nothing.
ghost use Rattle.pd_desk.specs.Laws.{FinishedByAnother, AbandonedByAnother};

/// Where a worker's end of a job is refused since no such job is outstanding, acts noted with another seat's number ended it.
pub fn law_refused_end_was_by_another_seat()
    ensures finished { FinishedByAnother }
    ensures abandoned { AbandonedByAnother }
{}
