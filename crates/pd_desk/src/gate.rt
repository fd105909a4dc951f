//! Gates, which a worker passes before and after each of its jobs.

/// Is called by a worker round each job that it runs, with the job's number, while the desk isn't locked.
pub trait Gate {
    /// Before the job is run.
    fn before(&self, job: u64);

    /// After it, before its result is handed in.
    fn after(&self, job: u64);
}

/// Lets every job go.
#[derive(Drop)]
pub struct OpenGate;

impl Gate for OpenGate {
    fn before(&self, _job: u64) {}

    fn after(&self, _job: u64) {}
}
