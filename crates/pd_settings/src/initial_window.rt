//! How large the initial congestion window is.
ghost use Rattle.std.specs.Prelude.{◌≡◌};
ghost use Rattle.pd_settings.specs.Words.{window_named, window_word};

/// The rule that the initial congestion window follows.
#[derive(Clone, Copy, PartialEq, Eq)]
pub enum InitialWindow {
    /// RFC 5681, section 3.1: two to four segments.
    Rfc5681,
    /// RFC 6928, section 2: up to ten segments.
    Rfc6928,
}

impl InitialWindow {
    /// All of them.
    const ALL: [InitialWindow; 2] = [InitialWindow::Rfc5681, InitialWindow::Rfc6928];

    /// The one of a word; None where the word is no rule's.
    pub fn from_word(word: &[u8]) -> Option<InitialWindow>
        ensures { result ≡ window_named word.now }
    {
        InitialWindow::ALL
            .iter()
            .copied()
            .find(|window| window.word() == word)
    }

    /// The word that it is written by.
    pub fn word(&self) -> &'static [u8]
        ensures { result.now ≡ window_word self.now }
    {
        match self {
            InitialWindow::Rfc5681 => b"rfc5681",
            InitialWindow::Rfc6928 => b"rfc6928",
        }
    }
}
