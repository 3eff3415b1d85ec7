//! The parts of a line, written at the end of a text.

ghost use Rattle.std.specs.Prelude.{◌≡◌, [], ◌++◌, OnOk, decimal, slice_get, unwrap_or};
ghost use Rattle.eif_base.specs.FileLists.{names_of};
ghost use Rattle.eif_report.specs.Report.{name_or_dash, place_text, rule_text, fault_line};

use crate::form::ReportForm;
use eif_base::{Fault, FileList, Memory, NO_FILE, Name, Place};
use std::alloc::Global;

/// Adds the line of a fault.
pub fn push_fault_line(
    alloc: Global,
    text: &mut Vec<u8>,
    files: &FileList,
    fault: &Fault,
    form: ReportForm,
) -> Result<(), Memory>
    ensures { OnOk result (text.new.items
        ≡ text.old.items ++ fault_line form (names_of files.now) fault.now) }
{
    push_rule(alloc, text, fault, form)?;
    text.push(b' ')?;
    push_name(text, &fault.class)?;
    text.push(b' ')?;
    push_name(text, &fault.feature)?;
    text.push(b' ')?;
    push_place(alloc, text, files, fault.place)?;
    text.push(b' ')?;
    push_name(text, &fault.about)?;
    text.push(b'\n')?;
    Ok(())
}

fn push_rule(
    alloc: Global,
    text: &mut Vec<u8>,
    fault: &Fault,
    form: ReportForm,
) -> Result<(), Memory>
    ensures { OnOk result (text.new.items ≡ text.old.items ++ rule_text form fault.now) }
{
    text.extend_from_slice(fault.code.text())?;
    match form {
        ReportForm::One => Ok(()),
        ReportForm::Two => {
            text.push(b'.')?;
            push_number(alloc, text, fault.case as usize)
        }
    }
}

fn push_name(text: &mut Vec<u8>, name: &Name) -> Result<(), Memory>
    ensures { OnOk result (text.new.items ≡ text.old.items ++ name_or_dash name.now) }
{
    if name.text().is_empty() {
        text.push(b'-')?;
    } else {
        text.extend_from_slice(name.text())?;
    }
    Ok(())
}

fn push_place(
    alloc: Global,
    text: &mut Vec<u8>,
    files: &FileList,
    place: Place,
) -> Result<(), Memory>
    ensures { OnOk result (text.new.items
        ≡ text.old.items ++ place_text (names_of files.now) place) }
{
    if place.file == NO_FILE {
        text.extend_from_slice(b"-:0:0")?;
        return Ok(());
    }
    push_file_name(text, files, place.file)?;
    text.push(b':')?;
    push_number(alloc, text, place.line as usize)?;
    text.push(b':')?;
    push_number(alloc, text, place.column as usize)?;
    Ok(())
}

/// Adds the name of a file, or nothing where no file has that number.
fn push_file_name(text: &mut Vec<u8>, files: &FileList, file: u32) -> Result<(), Memory>
    ensures { OnOk result (text.new.items
        ≡ text.old.items ++ unwrap_or (slice_get (names_of files.now) file) []) }
{
    if file < files.count() {
        text.extend_from_slice(files.name(file).as_bytes())?;
    }
    Ok(())
}

/// Adds a number in decimal.
pub fn push_number(alloc: Global, text: &mut Vec<u8>, number: usize) -> Result<(), Memory>
    ensures { OnOk result (text.new.items ≡ text.old.items ++ decimal number) }
{
    let digits = format!(in alloc; "{number}")?;
    text.extend_from_slice(digits.as_bytes())?;
    Ok(())
}
