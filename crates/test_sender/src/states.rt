//! Scripts of one line.
use crate::lines::one_line;
use crate::output::OutputText;
use crate::state_trace::StateTrace;
use pd_run::{Verdict, run_with_stepper};
use pd_settings::Settings;
use pd_text::Lines;
use std::alloc::Global;

/// The opening before a script that begins with a `+`.
const OPENING: &str =
    "0 socket(..., SOCK_STREAM, 0) = 3 +0 bind(3, ..., ...) = 0 +0 listen(3, 1) = 0 +0.1 < S 0:0(0) win 32792 <mss 1000,sackOK,nop,nop,nop,wscale 7> +0 > S. 0:0(0) ack 1 <...> +0.1 < . 1:1(0) ack 1 win 257 +0 accept(3, ..., ...) = 4 ";

/// Says of each script, a line each, the names of the states that it goes through, and whether it stops before its end.
pub fn write_all_states(alloc: Global, scripts: &str, output: &mut OutputText) {
    for script in scripts.lines() {
        write_states(alloc, script, output);
    }
}

fn write_states(alloc: Global, script: &str, output: &mut OutputText) {
    let mut text = OutputText::new(alloc);
    write_script_in_full(script, &mut text);
    match one_line(alloc, text.as_str().as_bytes()) {
        Ok(lines) => run(alloc, &lines, output),
        Err(_) => output.is_whole = false,
    }
    output.is_whole = output.is_whole && text.is_whole;
}

/// Puts down the whole script.
fn write_script_in_full(script: &str, text: &mut OutputText) {
    if !script.starts_with('0') {
        text.push_str(OPENING);
    }
    match script.strip_prefix("1025 times ") {
        None => text.push_str(script),
        Some(event) => {
            for _time in 0..1_025 {
                text.push_str(event);
                text.push_str(" ");
            }
        }
    }
}

fn run(alloc: Global, lines: &Lines, output: &mut OutputText) {
    let mut state_trace = StateTrace::new(alloc);
    let verdict = run_with_stepper(alloc, lines, &Settings::new(), &mut state_trace);
    output.push_str(state_trace.states.as_str());
    output.push_str(match verdict {
        Ok(Verdict::Pass(_)) => "",
        Ok(_) => " stops",
        Err(_) => " finds no memory",
    });
    output.push_str(if state_trace.is_copied {
        "\n"
    } else {
        ", but not its copy\n"
    });
}
