//! Descriptors 3 and 4, as a program has them.
ghost use Rattle.std.specs.Prelude.{◌≡◌};
ghost use Rattle.pd_host.specs.Calls.{is_listener_open, is_unaccepted, is_open};
ghost use Rattle.pd_host.specs.Handshake.{is_listening};

/// How far descriptor 3 has come.
#[derive(Clone, Copy, PartialEq, Eq)]
pub enum ListenState {
    /// No `socket` was called.
    Absent,
    Open,
    Bound,
    Listens,
    Closed,
}

impl ListenState {
    /// Whether descriptor 3 is open: `socket` was called, and it wasn't closed.
    pub fn is_open(self) -> bool
        ensures { result ≡ is_listener_open self }
    {
        !matches!(self, ListenState::Absent | ListenState::Closed)
    }

    /// Whether descriptor 3 listens.
    pub fn is_listening(self) -> bool
        ensures { result ≡ is_listening self }
    {
        matches!(self, ListenState::Listens)
    }
}

/// How far descriptor 4 has come, once the connection is established.
#[derive(Clone, Copy, PartialEq, Eq)]
pub enum StreamState {
    /// `accept` hasn't handed it out.
    Waiting,
    Open,
    Closed,
}

impl StreamState {
    /// Whether `accept` has still to hand it out.
    pub fn is_unaccepted(self) -> bool
        ensures { result ≡ is_unaccepted self }
    {
        matches!(self, StreamState::Waiting)
    }

    /// Whether descriptor 4 is open: `accept` has handed it out, and it wasn't closed.
    pub fn is_open(self) -> bool
        ensures { result ≡ is_open self }
    {
        matches!(self, StreamState::Open)
    }
}
