//! The replies of a book as texts.
use crate::started_jobs::StartedJob;
use pd_book::{BookFault, FinishFault, Job, Ruling};

/// `ok`, or the refusal of a change.
pub fn changed(reply: Result<(), BookFault>) -> &'static str {
    match reply {
        Ok(()) => "ok",
        Err(fault) => fault.number_and_name(),
    }
}

/// The job that was started, by this seat if there are seats; `none`, or the refusal.
pub fn started_job_or_reply(
    reply: Result<Option<Job>, BookFault>,
    seat: Option<usize>,
) -> Result<StartedJob, &'static str> {
    match reply {
        Ok(Some(job)) => Ok(StartedJob::new(job, seat)),
        Ok(None) => Err("none"),
        Err(fault) => Err(fault.number_and_name()),
    }
}

/// The ruling, or the refusal of a result. The refusal also says whether the job is the caller's own.
pub fn finished(reply: Result<Ruling, FinishFault>, is_own: bool) -> &'static str {
    match reply {
        Ok(Ruling::Taken) => "Taken",
        Ok(Ruling::Stale) => "Stale",
        Err(fault) => not_ended(fault, is_own),
    }
}

/// `ok`, or why a job isn't given up.
pub fn abandoned(reply: Result<(), FinishFault>, is_own: bool) -> &'static str {
    match reply {
        Ok(()) => "ok",
        Err(fault) => not_ended(fault, is_own),
    }
}

/// Why a job isn't ended. The end of an own job wants no memory.
fn not_ended(fault: FinishFault, is_own: bool) -> &'static str {
    match fault {
        FinishFault::OutOfMemory if is_own => "(the end of an own job found no memory)",
        fault => fault.number_and_name(),
    }
}
