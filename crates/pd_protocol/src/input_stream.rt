//! Readers of which it may be known whether a read has failed: standard input, files and octets in memory.
use std::fs::File;
use std::io;
use std::io::{Read, Stdin};

/// A reader, with what is known of whether a read has failed.
pub trait InputStream: Read {
    ghost use Rattle.std.specs.Prelude.{IfErr};
    ghost use Rattle.std.specs.Io.{ReadsAtMost};
    ghost use Rattle.std.specs.Io.KnownBytes.{ReadConsumes};

    /// Its last read may have failed.
    ghost has_failed: { Self → Type 0 };

    /// Reads once, at most as many octets as the block has room for.
    fn read_block(&mut self, block: &mut [u8]) -> io::Result<usize>
        ensures bound { ReadsAtMost result block.new }
        ensures bytes { ReadConsumes (Self.remaining self.old) (Self.remaining self.new) result block.new }
        ensures failed { IfErr result (λ _. has_failed self.new) };
}

/// Of standard input nothing is known.
impl InputStream for Stdin {
    ghost has_failed = { λ _. Unit {0} };

    fn read_block(&mut self, block: &mut [u8]) -> io::Result<usize> {
        self.read(block)
    }
}

/// Of a file nothing is known.
impl InputStream for File {
    ghost has_failed = { λ _. Unit {0} };

    fn read_block(&mut self, block: &mut [u8]) -> io::Result<usize> {
        self.read(block)
    }
}

/// No read of octets in memory fails.
impl InputStream for &[u8] {
    ghost has_failed = { λ _. ⊥ };

    fn read_block(&mut self, block: &mut [u8]) -> io::Result<usize> {
        self.read(block)
    }
}
