//! Serving the commands of a reader to a writer.
ghost use Rattle.std.specs.Prelude.{◌≤◌, ℕ, List, IfOk, IfErr, OnOk};
ghost use Rattle.std.specs.Io.KnownBytes.{Appends};
ghost use Rattle.pd_protocol.specs.Input.{HasCause};
ghost use Rattle.pd_cli.specs.Beside.{ServesBeside};
ghost use Rattle.pd_cli.specs.Grammatical.{ServesAlone};
ghost use Rattle.pd_cli.specs.Sessions.{ServesBy, ReadsBy, HasAnswered, DoesBy, SettlesBy};

use crate::handler::CommandHandler;
use crate::laws::law_settle_reports_from_scratch;
use crate::local_handler::LocalHandler;
use crate::observer::NoObserver;
use crate::shared_handler::SharedHandler;
use pd_book::{Book, law_verdicts_are_of_current_runs};
use pd_desk::Desk;
use pd_protocol::{
    Command, InputStream, LineReader, ServeFault, next_command, write_all_without_flush,
};
use pd_seat::Seat;
use pd_settings::Settings;
use std::alloc::Global;
use std::io::Write;
use std::sync::Wait;

/// Serves the commands of a reader, to its end, with a book that begins with these settings and keeps at most `cache`
/// tracks: 1 to 1,024.
/// It writes the output of the commands that it reads, and returns whether each row of the last report passes.
///
/// # Errors
/// `BadCommand` and `Truncated` where they are in the input, `HistoryFull` where a settling has no
/// room for a start: the output up to there is written. `Read` where a read failed or all were made, `Write` and
/// `OutOfMemory`: a prefix of the output is written.
pub fn serve_alone<R: InputStream, W: Write>(
    alloc: Global,
    settings: Settings,
    cache: usize,
    reader: &mut R,
    writer: &mut W,
) -> Result<bool, ServeFault>
    requires some { 1 ≤ cache }
    requires few { cache ≤ 1024 }
    ensures serves { ServesAlone result settings (R.remaining reader.old) (W.contents writer.old) (W.contents writer.new) }
    ensures cause { HasCause result (R.has_failed reader.new) (R.remaining reader.old) }
{
    law_verdicts_are_of_current_runs();
    law_settle_reports_from_scratch();
    let mut at = LocalHandler {
        alloc,
        book: Book::new(alloc, cache, settings),
        observer: NoObserver,
    };
    serve_commands_then_settle(&mut at, reader, writer)
}

/// Serves the commands of a reader, to its end, at a seat of a new desk that was opened with these settings. A `settle`
/// waits until nothing is owed. It returns whether each row of the last report passes.
///
/// It keeps a copy of the scripts and the settings, as the accepted commands make them, and compares it with each reply of
/// the desk (unless that is a full history or out of memory) and with each report.
///
/// # Errors
/// `BadCommand` and `Truncated` where they are in the input, `NoWorkers` where a script is owed its verdict and all
/// workers have left, `Differs` where the desk isn't as the own copy, `Read`, `OutOfMemory`: what the commands before print
/// is written. `Write`: a prefix of it is.
pub fn serve_seat<H: Wait, R: InputStream, W: Write>(
    rt: &H,
    alloc: Global,
    desk: &Desk,
    seat: &mut Seat,
    settings: Settings,
    reader: &mut R,
    writer: &mut W,
) -> Result<bool, ServeFault>
    ensures serves { ServesBeside result settings (R.remaining reader.old) (W.contents writer.old) (W.contents writer.new) }
    ensures cause { HasCause result (R.has_failed reader.new) (R.remaining reader.old) }
{
    law_verdicts_are_of_current_runs();
    let mut at = SharedHandler {
        rt,
        alloc,
        desk,
        seat,
        own: Book::new(alloc, 1, settings),
    };
    serve_commands_then_settle(&mut at, reader, writer)
}

/// Serves to the end of the input: takes a command, asks for its reply, writes it.
///
/// # Errors
/// The fault of the input, the handler or the writer. The octets that were written before it stay.
pub(crate) fn serve_commands_then_settle<A: CommandHandler, R: InputStream, W: Write>(
    handler: &mut A,
    reader: &mut R,
    writer: &mut W,
) -> Result<bool, ServeFault>
    requires { A.is_ready handler.old }
    ensures serves { ServesBy A.prints A.fails A.passes result (R.remaining reader.old) (W.contents writer.old) (W.contents writer.new) handler.old handler.new }
    ensures answered { HasAnswered A.prints A.fails handler.old handler.new }
    ensures cause { ReadsBy A.fails result (R.has_failed reader.new) (R.remaining reader.old) }
{
    let alloc = handler.alloc();
    let mut line_reader = LineReader::new(alloc);
    loop {
        match next_command(alloc, &mut line_reader, reader)? {
            Some(command) => execute_command_and_write_reply(handler, command, writer)?,
            None => return settle_and_write_last_report(handler, writer),
        }
    }
}

/// Does one command and writes what it prints.
fn execute_command_and_write_reply<A: CommandHandler, W: Write>(
    handler: &mut A,
    command: Command,
    writer: &mut W,
) -> Result<(), ServeFault>
    requires { A.is_ready handler.old }
    ensures does { let before = W.contents writer.old in
        (octets : List ℕ) × Appends before (W.contents writer.new) octets × DoesBy A.prints A.fails result handler.old command handler.new octets }
    ensures ready { OnOk result (A.is_ready handler.new) }
{
    let reply = execute_command_and_return_reply(handler, command)?;
    write_all_without_flush(writer, reply.as_slice())
}

/// Settles at the end of the input, and writes the last report.
fn settle_and_write_last_report<A: CommandHandler, W: Write>(
    handler: &mut A,
    writer: &mut W,
) -> Result<bool, ServeFault>
    requires { A.is_ready handler.old }
    ensures { let before = W.contents writer.old in
        (octets : List ℕ) × Appends before (W.contents writer.new) octets × SettlesBy A.prints A.fails A.passes result handler.old handler.new octets }
{
    let (octets, passed) = handler.settle()?;
    write_all_without_flush(writer, octets.as_slice())?;
    Ok(passed)
}

/// Does one command, and gives what it prints.
fn execute_command_and_return_reply<A: CommandHandler>(
    handler: &mut A,
    command: Command,
) -> Result<Vec<u8>, ServeFault>
    requires { A.is_ready handler.old }
    ensures printed { IfOk result (λ reply. A.prints handler.old command reply.items handler.new) }
    ensures ready { IfOk result (λ _. A.is_ready handler.new) }
    ensures failed { IfErr result (λ fault. A.fails fault handler.old command handler.new) }
{
    match command {
        Command::Add(name, text) => handler.add(name, text),
        Command::Edit(name, edit) => handler.edit(&name, edit),
        Command::Remove(name) => handler.remove(&name),
        Command::Set(key, value) => handler.set(&key, value),
        Command::Show => handler.show(),
        Command::Settle => Ok(handler.settle()?.0),
    }
}
