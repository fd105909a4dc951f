//! The octets of a verdict.
ghost use Rattle.std.specs.Prelude.{◌≡◌, ◌++◌, OnOk};
ghost use Rattle.std.specs.Fmt.{decimal};
ghost use Rattle.pd_protocol.specs.Verdicts.{verdict_text};

use itoa::Buffer;
use pd_run::Verdict;
use std::alloc::AllocError;

/// Adds the text of a verdict.
///
/// # Errors
/// `AllocError` where a growth is refused.
pub fn put_verdict(out: &mut Vec<u8>, verdict: Verdict) -> Result<(), AllocError>
    ensures { OnOk result (out.new.items ≡ out.old.items ++ verdict_text verdict) }
{
    match verdict {
        Verdict::Pass(events) => put_prefix_and_number(out, b"pass ", events),
        Verdict::Fail(line, kind) => {
            put_prefix_and_number(out, b"fail ", line)?;
            out.extend_from_slice(b" ")?;
            out.extend_from_slice(kind.word().as_bytes())
        }
        Verdict::Syntax(line) => put_prefix_and_number(out, b"syntax ", line),
        Verdict::Unsupported(line) => put_prefix_and_number(out, b"unsupported ", line),
        Verdict::Limit(line) => put_prefix_and_number(out, b"limit ", line),
    }
}

/// Adds a word and a number in decimal digits.
///
/// # Errors
/// `AllocError` where a growth is refused.
pub fn put_prefix_and_number(out: &mut Vec<u8>, word: &[u8], n: usize) -> Result<(), AllocError>
    ensures { OnOk result (out.new.items ≡ out.old.items ++ word.now ++ decimal n) }
{
    let mut digits = Buffer::new();
    out.extend_from_slice(word)?;
    out.extend_from_slice(digits.format(n).as_bytes())
}
