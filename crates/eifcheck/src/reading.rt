//! The reads of a check: the list file, and then each file in order.

ghost use Rattle.std.specs.Prelude.{◌≡◌, ◌++◌, ◌∷◌, [], map, Some, IfOk};
ghost use Rattle.eifcheck.specs.Inputs.{ReadsText, ReadsInput, CountsStop, IsFit, input_of};
ghost use Rattle.eifcheck.specs.ReadWords.{command_of};
ghost use Rattle.eifcheck.specs.Steps.{files_step, step_by, next_step};

use crate::list_file::{Lines, list_lines};
use crate::words::Words;
use eif_base::limits::{MOST_BYTES, MOST_FILES, MOST_SYSTEM_BYTES};
use eif_base::{FaultList, FileList, Memory, ReadEnd, ReadFail, Texts};
use std::alloc::Global;

/// What a check is to report on.
#[derive(Drop)]
pub(crate) enum Input {
    /// The system of these files.
    Files(FileList),
    /// The list file, alone, with the faults of its lines.
    BadList(FileList, FaultList),
}

/// Why the files can't be judged.
#[derive(Clone, Copy, Debug, PartialEq, Eq)]
pub(crate) enum Stop {
    /// A file has too many bytes, or there are too many files, or too many bytes in all.
    TooLarge,
    /// A file could not be read.
    ReadFault,
    Memory,
}

impl From<Memory> for Stop {
    ghost use Rattle.std.specs.Prelude.{◌≡◌, IfOk};
    ghost use Rattle.eifcheck.specs.declared.reading.Stop.TheVariants as stop;

    ghost from_gives = { λ _ s. s ≡ stop.Memory };

    fn from(_error: Memory) -> Stop {
        Stop::Memory
    }
}

/// The whole text that the name holds.
fn read_text<T: Texts>(alloc: Global, name: &str, texts: &mut T) -> Result<Vec<u8>, Stop>
    ensures read { ReadsText name.now (T.holds texts.old name.now)
        (T.reads texts.old) (T.reads texts.new) result }
    ensures kept { T.holds texts.new ≡ T.holds texts.old }
    ensures faults { CountsStop (T.faults texts.old) (T.faults texts.new) result }
{
    let mut text = Vec::new(alloc);
    match texts.read(alloc, name, MOST_BYTES, &mut text) {
        Ok(ReadEnd::Whole) => Ok(text),
        Ok(ReadEnd::TooLong) => Err(Stop::TooLarge),
        Err(ReadFail::Failed) => Err(Stop::ReadFault),
        Err(ReadFail::Memory) => Err(Stop::Memory),
    }
}

/// Reads the files with these names, in order.
fn read_files<T: Texts>(alloc: Global, names: &[&str], texts: &mut T) -> Result<FileList, Stop>
    ensures reads { ReadsInput (files_step (map (λ name. name.now) names.entry.now))
        (T.holds texts.old) (T.reads texts.old) (T.reads texts.new) (input_of result) }
    ensures fit { IfOk (input_of result) IsFit }
    ensures kept { T.holds texts.new ≡ T.holds texts.old }
    ensures faults { CountsStop (T.faults texts.old) (T.faults texts.new) result }
{
    if names.len() > MOST_FILES as usize {
        return Err(Stop::TooLarge);
    }
    let mut files = FileList::new(alloc);
    let mut total: u64 = 0;
    'names: for name in names {
        let text = read_text(alloc, name, texts)?;
        total += text.len() as u64;
        if total > MOST_SYSTEM_BYTES {
            return Err(Stop::TooLarge);
        }
        files.push(name, text)?;
    }
    Ok(files)
}

/// The names of the words, and then those of the list.
fn all_names<'w: 'a, 'l: 'a, 'a>(
    alloc: Global,
    files: &[&'w str],
    listed: &[&'l str],
) -> Result<Vec<&'a str>, Memory>
    ensures { IfOk result (λ all. map (λ name. name.now) all.items
        ≡ map (λ name. name.now) files.entry.now ++ map (λ name. name.now) listed.entry.now) }
{
    let mut all = Vec::new(alloc);
    'files: for name in files {
        all.push(*name)?;
    }
    all.extend_from_slice(listed)?;
    Ok(all)
}

/// Reads the files that the words and the list name.
fn read_all<T: Texts>(
    alloc: Global,
    files: &[&str],
    listed: &[&str],
    texts: &mut T,
) -> Result<FileList, Stop>
    ensures reads { ReadsInput (files_step
        (map (λ name. name.now) files.entry.now ++ map (λ name. name.now) listed.entry.now))
        (T.holds texts.old) (T.reads texts.old) (T.reads texts.new) (input_of result) }
    ensures fit { IfOk (input_of result) IsFit }
    ensures kept { T.holds texts.new ≡ T.holds texts.old }
    ensures faults { CountsStop (T.faults texts.old) (T.faults texts.new) result }
{
    let all = all_names(alloc, files, listed)?;
    read_files(alloc, &all, texts)
}

/// The list file, alone, with the faults of its lines.
fn bad_list(alloc: Global, list: &str, text: Vec<u8>, faults: FaultList) -> Result<Input, Memory>
    ensures { IfOk result (λ read. read
        ≡ Input.BadList (record { name = list.now; text = text.items } ∷ []) faults) }
{
    let mut files = FileList::new(alloc);
    files.push(list, text)?;
    Ok(Input::BadList(files, faults))
}

/// Reads the list, and then the files that the words and the list name.
fn read_listed<T: Texts>(
    alloc: Global,
    list: &str,
    files: &[&str],
    texts: &mut T,
) -> Result<Input, Stop>
    ensures reads { ReadsInput (step_by (Some list.now) (map (λ name. name.now) files.entry.now))
        (T.holds texts.old) (T.reads texts.old) (T.reads texts.new) result }
    ensures fit { IfOk result IsFit }
    ensures kept { T.holds texts.new ≡ T.holds texts.old }
    ensures faults { CountsStop (T.faults texts.old) (T.faults texts.new) result }
{
    let text = read_text(alloc, list, texts)?;
    let Ok(Lines { names, faults }) = list_lines(alloc, &text) else {
        return Err(Stop::Memory);
    };
    if !faults.is_empty() {
        drop(names);
        return Ok(bad_list(alloc, list, text, faults)?);
    }
    Ok(Input::Files(read_all(alloc, files, &names, texts)?))
}

/// Reads the files that the words name.
pub(crate) fn read_input<T: Texts>(
    alloc: Global,
    words: &Words<'_>,
    texts: &mut T,
) -> Result<Input, Stop>
    ensures reads { ReadsInput (next_step (command_of words.now)) (T.holds texts.old)
        (T.reads texts.old) (T.reads texts.new) result }
    ensures fit { IfOk result IsFit }
    ensures kept { T.holds texts.new ≡ T.holds texts.old }
    ensures faults { CountsStop (T.faults texts.old) (T.faults texts.new) result }
{
    match words.list {
        Some(list) => read_listed(alloc, list, &words.files, texts),
        None => Ok(Input::Files(read_files(alloc, &words.files, texts)?)),
    }
}
