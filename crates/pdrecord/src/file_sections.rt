//! Records the scripts of files: of each a title, and its recording or why there is none.
ghost use Rattle.std.specs.Prelude.{◌≡◌, ◌++◌, IfOk, IfErr};
ghost use Rattle.pd_protocol.specs.ChosenOptions.{names_of};
ghost use Rattle.pdrecord.specs.RecordProgram.{IsStop};
ghost use Rattle.pdrecord.specs.FileSections.{IsSection, Writes, WritesOne, line_count, title};

use crate::file_source::FileSource;
use crate::outcome::Outcome;
use crate::program::outcome_of_recording_by_mode;
use crate::record_options::RecordMode;
use crate::script_input::ScriptInput;
use pd_protocol::{InputStream, ServeFault, put_prefix_and_number, write_all_without_flush};
use pd_settings::Settings;
use std::alloc::{AllocError, Global};
use std::io::Write;

/// The section of a file.
#[derive(Drop)]
struct Section {
    octets: Vec<u8>,
    /// Whether its script was recorded.
    is_recorded: bool,
}

/// Why recording files stops, and with which of them.
#[derive(Clone, Copy)]
pub struct FileFault<'a> {
    pub name: &'a str,
    pub fault: ServeFault,
}

/// Records the scripts of files one after the other, and writes what came of each as soon as it is known; whether all were
/// recorded.
///
/// # Errors
/// The first file with `Read` where it can't be opened or read, `Write` where a write fails, `Differs` or `OutOfMemory`.
pub fn record_and_write_files<'a, R: InputStream + Drop, F: FileSource<R>, W: Write>(
    alloc: Global,
    settings: &Settings,
    mode: RecordMode,
    names: &[&'a str],
    files: &F,
    out: &mut W,
) -> Result<bool, FileFault<'a>>
    ensures { Writes settings.now mode (F.octets_in files.now) (names_of names.now) result (W.contents out.old) (W.contents out.new) }
{
    let mut are_all_recorded = true;
    for name in names {
        match record_and_write_file(alloc, settings, mode, name, files, out) {
            Ok(is_recorded) => are_all_recorded &= is_recorded,
            Err(fault) => return Err(FileFault { name: *name, fault }),
        }
    }
    Ok(are_all_recorded)
}

/// Records the script of a file, and writes what came of it; whether it was recorded.
///
/// # Errors
/// As those of `record_and_write_files`.
fn record_and_write_file<R: InputStream + Drop, F: FileSource<R>, W: Write>(
    alloc: Global,
    settings: &Settings,
    mode: RecordMode,
    name: &str,
    files: &F,
    out: &mut W,
) -> Result<bool, ServeFault>
    ensures { WritesOne settings.now mode (F.octets_in files.now) name.now result (W.contents out.old) (W.contents out.new) }
{
    let section = record_file_to_section(alloc, settings, mode, name, files)?;
    write_all_without_flush(out, section.octets.as_slice())?;
    Ok(section.is_recorded)
}

/// The section of the file of a name.
///
/// # Errors
/// `Read` where it can't be opened or read, `Differs` and `OutOfMemory`.
fn record_file_to_section<R: InputStream + Drop, F: FileSource<R>>(
    alloc: Global,
    settings: &Settings,
    mode: RecordMode,
    name: &str,
    files: &F,
) -> Result<Section, ServeFault>
    ensures section { IfOk result (λ section. IsSection settings.now mode name.now (F.octets_in files.now name.now) section.is_recorded section.octets.items) }
    ensures only { IfErr result IsStop }
{
    let mut file = files.open(name)?;
    let input = ScriptInput::read(alloc, &mut file)?;
    match outcome_of_recording_by_mode(alloc, &input, settings, mode)? {
        Outcome::Recorded(octets) => Ok(Section {
            octets: octets_with_title(alloc, b"recorded ", octets.as_slice(), name)?,
            is_recorded: true,
        }),
        Outcome::Refused(message) => Ok(Section {
            octets: octets_with_title(alloc, b"refused ", message.as_slice(), name)?,
            is_recorded: false,
        }),
    }
}

/// Octets after their title.
fn octets_with_title(
    alloc: Global,
    word: &[u8],
    octets: &[u8],
    name: &str,
) -> Result<Vec<u8>, AllocError>
    ensures { IfOk result (λ section. section.items ≡ title word.now octets.now name.now ++ octets.now) }
{
    let mut section = Vec::new(alloc);
    put_prefix_and_number(&mut section, word, line_count(octets))?;
    section.extend_from_slice(b" ")?;
    section.extend_from_slice(name.as_bytes())?;
    section.extend_from_slice(b"\n")?;
    section.extend_from_slice(octets)?;
    Ok(section)
}

/// How many lines octets have, each ended by a newline.
fn line_count(octets: &[u8]) -> usize
    ensures { result ≡ line_count octets.now }
{
    octets.iter().filter(|octet| **octet == b'\n').count()
}
