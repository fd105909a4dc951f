//! Laws of the timer's rules: a function without code, whose contract is the laws.
ghost use Rattle.pd_timer.specs.Laws.{StaysWithin, ExpiresInTime, BacksOff};

/// The laws of the timer, whatever happens.
pub fn law_rto_bounded_and_expiries_back_off()
    ensures bounds { StaysWithin }
    ensures deadlines { ExpiresInTime }
    ensures expiries { BacksOff }
{}
