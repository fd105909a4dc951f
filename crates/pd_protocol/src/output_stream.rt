//! Writing all of some octets, or saying that it can't be done.
ghost use Rattle.std.specs.Prelude.{◌≡◌, ℕ, OnOk, OnErr, IfErr, take};
ghost use Rattle.std.specs.Io.KnownBytes.{Appends};
ghost use Rattle.pd_protocol.specs.WriterOutput.{WritesTo};

use crate::faults::ServeFault;
use std::io::Write;

/// Writes all of the octets.
///
/// # Errors
/// `Write` where a call fails or takes no octet: then only the first of the octets were written.
pub fn write_all_without_flush<W: Write>(writer: &mut W, octets: &[u8]) -> Result<(), ServeFault>
    ensures ok { OnOk result (Appends (W.contents writer.old) (W.contents writer.new) octets.now) }
    ensures err { let old = W.contents writer.old in
        OnErr result ((n : ℕ) × Appends old (W.contents writer.new) (take n octets.now)) }
    ensures only { IfErr result (λ e. e ≡ ServeFault.Write) }
{
    let mut done = 0;
    while done < octets.len() {
        match writer.write(&octets[done..]) {
            Ok(0) => return Err(ServeFault::Write),
            Ok(n) => done += n,
            Err(_) => return Err(ServeFault::Write),
        }
    }
    Ok(())
}

/// Says octets; false where the writer didn't take all.
pub fn write_all_or_false<E: Write>(err: &mut E, octets: &[u8]) -> bool
    ensures { WritesTo result (E.contents err.old) (E.contents err.new) octets.now }
{
    write_all_without_flush(err, octets).is_ok()
}
