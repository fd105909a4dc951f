//! Results of calls.
ghost use Rattle.std.specs.Prelude.{◌≡◌, ◌↔◌, IsTrue};

/// The result of a call.
#[derive(Clone, Copy, PartialEq, Eq)]
pub enum Answer {
    /// A number from 0 on: a descriptor, a count of octets, or 0 for a call that was done.
    Number(u32),
    /// An error; a script sees it as -1.
    Error(Errno),
}

/// The errors that a call answers, by their names in POSIX.
#[derive(Clone, Copy, PartialEq, Eq)]
pub enum Errno {
    /// The descriptor isn't open.
    Ebadf,
    /// The call doesn't go with the state of the descriptor.
    Einval,
    /// The call would have to wait.
    Eagain,
    /// The connection was reset.
    Epipe,
}

impl Answer {
    /// Whether both are the same number or the same error.
    pub fn is_same(&self, other: &Answer) -> bool
        ensures { IsTrue result ↔ (self.now ≡ other.now) }
    {
        self == other
    }
}
