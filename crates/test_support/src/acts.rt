//! Acts as they are written in answers.
use crate::output::{AnswerText, OUT_OF_MEMORY};
use crate::results::{write_line, write_lines};
use crate::values::write_setting;
use pd_book::{Act, Ruling, SharedEdit};
use pd_text::Name;

/// Says each of these acts, from the oldest on, with all that it has or its kind and job alone.
pub fn write_acts(output: &mut AnswerText, acts: &[Act], is_whole: bool) {
    for act in acts {
        match act.copy() {
            Ok(copy) => write_act_by_copy(output, act, &copy, is_whole),
            Err(_) => {
                output.clear();
                return output.push_str(OUT_OF_MEMORY);
            }
        }
    }
    output.push_str("end");
}

/// Says an act by a copy of it.
fn write_act_by_copy(output: &mut AnswerText, act: &Act, copy: &Act, is_whole: bool) {
    if copy.is_same(act) {
        write_kind(output, copy);
        if is_whole {
            write_rest(output, copy);
        }
    } else {
        output.push_str("(another act)");
    }
    output.push_str(", ");
}

/// Says the kind of an act, and the job and the ruling where it has them.
fn write_kind(output: &mut AnswerText, act: &Act) {
    match act {
        Act::Add(..) => output.push_str("Add"),
        Act::Edit(..) => output.push_str("Edit"),
        Act::Remove(_) => output.push_str("Remove"),
        Act::Set(..) => output.push_str("Set"),
        Act::Start(number, _) => output.count("Start ", *number, ""),
        Act::Finish(number, ruling) => output.count("Finish ", *number, ruling_word(*ruling)),
        Act::Abandon(number) => output.count("Abandon ", *number, ""),
    }
}

fn ruling_word(ruling: Ruling) -> &'static str {
    match ruling {
        Ruling::Taken => " Taken",
        Ruling::Stale => " Stale",
    }
}

/// Says the script of an act, and what comes to it, or the setting and its value.
fn write_rest(output: &mut AnswerText, act: &Act) {
    match act {
        Act::Add(name, text) => {
            write_name(output, name, ": ");
            write_lines(output, text.lines());
        }
        Act::Edit(name, edit) => {
            write_name(output, name, "");
            write_edit(output, edit);
        }
        Act::Remove(name) | Act::Start(_, name) => write_name(output, name, ""),
        Act::Set(key, value) => {
            output.push_str(" ");
            write_setting(output, *key, *value);
        }
        Act::Finish(..) | Act::Abandon(_) => {}
    }
}

fn write_name(output: &mut AnswerText, name: &Name, after: &str) {
    output.push_str(" ");
    output.push_octets(name.as_slice());
    output.push_str(after);
}

/// Says the first line of an edit, how many lines go, and those that come.
fn write_edit(output: &mut AnswerText, edit: &SharedEdit) {
    let edit = edit.edit();
    output.count(" ", edit.from as u64, "");
    output.count(" ", edit.remove as u64, ": ");
    for place in 0..edit.insert.len() {
        write_line(output, place, edit.insert.get(place));
    }
}
