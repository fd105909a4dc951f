//! By which algorithm loss recovery with SACK sends.
ghost use Rattle.std.specs.Prelude.{◌≡◌};
ghost use Rattle.pd_settings.specs.Words.{algorithm_named, algorithm_word};

/// The algorithm by which loss recovery with SACK sends.
#[derive(Clone, Copy, PartialEq, Eq)]
pub enum RecoveryAlgorithm {
    /// RFC 6675: what cwnd, which stays, leaves beside the pipe.
    Rfc6675,
    /// RFC 9937: Proportional Rate Reduction, which sets cwnd at each ACK.
    Rfc9937,
}

impl RecoveryAlgorithm {
    /// All of them.
    const ALL: [RecoveryAlgorithm; 2] = [RecoveryAlgorithm::Rfc6675, RecoveryAlgorithm::Rfc9937];

    /// The one of a word; None where the word is no algorithm's.
    pub fn from_word(word: &[u8]) -> Option<RecoveryAlgorithm>
        ensures { result ≡ algorithm_named word.now }
    {
        RecoveryAlgorithm::ALL
            .iter()
            .copied()
            .find(|algorithm| algorithm.word() == word)
    }

    /// The word that it is written by.
    pub fn word(&self) -> &'static [u8]
        ensures { result.now ≡ algorithm_word self.now }
    {
        match self {
            RecoveryAlgorithm::Rfc6675 => b"rfc6675",
            RecoveryAlgorithm::Rfc9937 => b"rfc9937",
        }
    }
}
