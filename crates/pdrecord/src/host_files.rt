//! The files of this machine.
use crate::file_source::FileSource;
use pd_protocol::ServeFault;
use std::fs::{self, File};

/// The files of this machine, of which nothing is claimed.
#[derive(Drop)]
pub struct HostFiles<'a> {
    rt: &'a HostRuntime,
}

impl<'a> HostFiles<'a> {
    pub fn new(rt: &'a HostRuntime) -> HostFiles<'a> {
        HostFiles { rt }
    }
}

impl FileSource<File> for HostFiles<'_> {
    ghost use Rattle.std.specs.Prelude.{None};

    ghost octets_in = { λ _ _. None };

    fn open(&self, name: &str) -> Result<File, ServeFault> {
        match fs::open(self.rt, name) {
            Ok(file) => Ok(file),
            Err(_) => Err(ServeFault::Read),
        }
    }
}
