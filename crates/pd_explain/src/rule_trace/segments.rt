//! The rules of the segments that an input puts out: the FIN, PSH, and how large they are.
ghost use Rattle.std.specs.Prelude.{◌≡◌, drop, fold, option_map, OnOk};
ghost use Rattle.pd_explain.specs.Inner.{names_of};
ghost use Rattle.pd_explain.specs.RuleNames.{with_name};
ghost use Rattle.pd_explain.specs.RuleSegments.{segment_name, segment_names};

use super::names::put_name_if_some;
use pd_host::Outbox;
use pd_seg::Segment;
use std::alloc::AllocError;

fn segment_name(smss: u16, segment: &Segment) -> Option<&'static str>
    ensures { option_map (λ name. name.now) result ≡ segment_name smss segment.now }
{
    if segment.flags.fin {
        if segment.data_len() == 0 {
            Some("rfc9293.fin.alone")
        } else {
            Some("rfc9293.fin.with-data")
        }
    } else if segment.data_len() == 0 {
        None
    } else if segment.flags.psh {
        Some("rfc9293.segment.push")
    } else if segment.data_len() == u32::from(smss) {
        Some("rfc9293.segment.full")
    } else {
        Some("rfc9293.segment.part")
    }
}

/// Adds the names of the segments of the packets from a place on, with this SMSS in octets.
///
/// # Errors
/// `AllocError` where a growth is refused.
pub fn put_segment_names_from(
    names: &mut Vec<&'static str>,
    smss: u16,
    outbox: &Outbox,
    from: usize,
) -> Result<(), AllocError>
    ensures { OnOk result (names_of names.new.items ≡ fold with_name (names_of names.old.items) (segment_names smss (drop from outbox.now))) }
{
    for place in from..outbox.len() {
        match outbox.get(place) {
            Some(sent) => put_name_if_some(names, segment_name(smss, &sent.segment))?,
            None => unreachable!(),
        }
    }
    Ok(())
}
