//! The workers of a desk.
ghost use Rattle.std.specs.Prelude.{◌≡◌, ◌+◌, ◌<◌, ◌↔◌, ◌^◌, true, false, IsTrue, if◌then◌else◌};

/// For how many workers a desk was opened, how many entered and left, and whether it is shut.
#[derive(Drop)]
pub struct WorkerCounts {
    /// For how many workers the desk was opened.
    size: usize,
    /// How many of them entered.
    entered: usize,
    /// How many of them left.
    left: usize,
    /// Whether they leave after their present jobs.
    is_shut: bool,
}

impl WorkerCounts {
    /// So many workers, of whom none entered.
    pub fn new(size: usize) -> WorkerCounts
        ensures { result ≡ record { size = size; entered = 0; left = 0; is_shut = false } }
    {
        WorkerCounts {
            size,
            entered: 0,
            left: 0,
            is_shut: false,
        }
    }

    /// Lets a worker in while fewer entered than there are; whether it is in.
    pub fn enter_unless_all_entered(&mut self) -> bool
        ensures is_in { IsTrue result ↔ self.old.entered < self.old.size }
        ensures counted { self.new ≡ record self.old { entered = self.old.entered + (if result then 1 else 0) } }
    {
        if self.entered >= self.size {
            return false;
        }
        self.entered += 1;
        true
    }

    /// Lets a worker leave.
    pub fn leave(&mut self)
        ensures { self.old.left + 1 < 2 ^ 64 → self.new ≡ record self.old { left = self.old.left + 1 } }
    {
        self.left = self.left.saturating_add(1);
    }

    /// Lets all leave after their present jobs.
    pub fn shut(&mut self)
        ensures { self.new ≡ record self.old { is_shut = true } }
    {
        self.is_shut = true;
    }

    /// Whether a worker is in or may still enter.
    pub fn has_worker_not_yet_left(&self) -> bool
        ensures { IsTrue result ↔ self.now.left < self.now.size }
    {
        self.left < self.size
    }

    /// Whether all leave after their present jobs.
    pub fn is_shut(&self) -> bool
        ensures { result ≡ self.now.is_shut }
    {
        self.is_shut
    }
}
