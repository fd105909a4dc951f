//! A script cut after each octet, and with each octet left out or changed.
use crate::comparison::Comparison;
use crate::octet_buffer::OctetBuffer;

/// The octets that are put in the place of each octet of a script.
const OCTETS: &[u8] = b".~+-,:=<()[}\"`\\%/*\n 09xF";

/// Compares what both readers read in a script that is cut or changed anywhere, and says how many texts that were.
pub fn change_everywhere(comparison: &mut Comparison, script: &[u8]) {
    let mut changed = OctetBuffer::new(comparison.alloc);
    for at in 0..script.len() {
        change_at(comparison, &mut changed, &script[..at], &script[at + 1..]);
    }
    let texts = script.len();
    let output = &mut comparison.output;
    output.is_short |= changed.is_short;
    output.add_number(b", cut short and with an octet left out", texts);
    output.add_number(
        b" each, with an octet changed",
        texts.saturating_mul(OCTETS.len()),
    );
}

/// Cuts the script, and leaves an octet out and changes it.
fn change_at(comparison: &mut Comparison, changed: &mut OctetBuffer, front: &[u8], back: &[u8]) {
    comparison.compare(front);
    compare_changed(comparison, changed, front, &[], back);
    for octet in OCTETS {
        compare_changed(comparison, changed, front, &[*octet], back);
    }
}

/// Compares what both readers read in these pieces of a text.
fn compare_changed(
    comparison: &mut Comparison,
    changed: &mut OctetBuffer,
    front: &[u8],
    octets: &[u8],
    back: &[u8],
) {
    changed.octets.clear();
    changed.add(front);
    changed.add(octets);
    changed.add(back);
    comparison.compare(changed.octets.as_slice());
}
