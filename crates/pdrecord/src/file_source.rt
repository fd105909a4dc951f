//! Where files are opened by their names.
ghost use Rattle.std.specs.Prelude.{◌≡◌, ℕ, List, Option, IfOk, IfErr};

use pd_protocol::{InputStream, ServeFault};
use std::fs::File;

/// Opens files by their names.
pub trait FileSource<R: InputStream> {
    ghost octets_in: { Self → List ℕ → Option (List ℕ) };

    /// Opens a file, to be read from its first octet on.
    ///
    /// # Errors
    /// `Read` where it can't be opened.
    fn open(&self, name: &str) -> Result<R, ServeFault>
        ensures octets_in { IfOk result (λ file. R.remaining file ≡ octets_in self.now name.now) }
        ensures only { IfErr result (λ fault. fault ≡ ServeFault.Read) };
}

/// No files.
#[derive(Drop)]
pub struct NoFiles;

impl FileSource<File> for NoFiles {
    ghost use Rattle.std.specs.Prelude.{None};

    ghost octets_in = { λ _ _. None };

    fn open(&self, _name: &str) -> Result<File, ServeFault> {
        Err(ServeFault::Read)
    }
}
