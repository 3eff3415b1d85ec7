ghost use Rattle.std.specs.Prelude.{◌≡◌, ◌++◌, false, length, IfOk, OnOk};
ghost use Rattle.std.specs.Option.{option_map_or};
ghost use Rattle.std.specs.Ordering.{is_eq};
ghost use Rattle.eif_base.specs.FileLists.{names_of};
ghost use Rattle.eif_report.specs.OneReport.{OneReport};
ghost use Rattle.eif_report.specs.Order.{line_cmp};
ghost use Rattle.eif_report.specs.Report.{fault_lines, with_line, count_lines, faults_text, yes_text, verdict_text};

use crate::codes::push_code_lines;
use crate::form::ReportForm;
use crate::line::{push_fault_line, push_number};
use crate::order::compare_lines;
use crate::verdict::Verdict;
use eif_base::{Fault, FaultList, FileList, Memory};
use std::alloc::Global;

/// The bytes of a report: lines for the faults and their count, or a line that says yes.
pub fn report_text(
    alloc: Global,
    files: &FileList,
    verdict: &Verdict,
    form: ReportForm,
) -> Result<Vec<u8>, Memory>
    ensures { IfOk result (λ v. v.items ≡ verdict_text form (names_of files.now) verdict.now) }
{
    match verdict {
        Verdict::Yes(count) => yes_line(alloc, *count),
        Verdict::Faults(list) => fault_report(alloc, files, list, form),
    }
}

fn yes_line(alloc: Global, count: u32) -> Result<Vec<u8>, Memory>
    ensures { IfOk result (λ v. v.items ≡ yes_text count) }
{
    let mut text = Vec::new(alloc);
    text.extend_from_slice(b"yes ")?;
    push_number(alloc, &mut text, count as usize)?;
    text.extend_from_slice(b" classes\n")?;
    Ok(text)
}

fn fault_report(
    alloc: Global,
    files: &FileList,
    list: &FaultList,
    form: ReportForm,
) -> Result<Vec<u8>, Memory>
    ensures { IfOk result (λ v. v.items ≡ faults_text form (names_of files.now) list.now) }
{
    let mut text = Vec::new(alloc);
    let count = push_fault_lines(alloc, &mut text, files, list, form)?;
    push_count_lines(alloc, &mut text, list, form)?;
    text.extend_from_slice(b"no ")?;
    push_number(alloc, &mut text, count)?;
    text.extend_from_slice(b" faults\n")?;
    Ok(text)
}

/// Adds the lines of the faults, and tells how many there are.
fn push_fault_lines(
    alloc: Global,
    text: &mut Vec<u8>,
    files: &FileList,
    list: &FaultList,
    form: ReportForm,
) -> Result<usize, Memory>
    ensures lines { OnOk result (text.new.items
        ≡ text.old.items ++ fault_lines form (names_of files.now) list.now) }
    ensures count { IfOk result (λ count.
        count ≡ length (with_line form (names_of files.now) list.now)) }
{
    match form {
        ReportForm::One => push_lines_once(alloc, text, files, list),
        ReportForm::Two => {
            push_each_line(alloc, text, files, list)?;
            Ok(list.count())
        }
    }
}

/// Adds a line for each fault that differs from the one before it in more than the case.
fn push_lines_once(
    alloc: Global,
    text: &mut Vec<u8>,
    files: &FileList,
    list: &FaultList,
) -> Result<usize, Memory>
    ensures lines { OnOk result (text.new.items
        ≡ text.old.items ++ fault_lines ReportForm.One (names_of files.now) list.now) }
    ensures count { IfOk result (λ count.
        count ≡ length (with_line ReportForm.One (names_of files.now) list.now)) }
{
    let mut count = 0;
    let mut last = None;
    'lines: for fault in list.iter() {
        if !is_repeat(files, last, fault) {
            push_fault_line(alloc, text, files, fault, ReportForm::One)?;
            count += 1;
        }
        last = Some(fault);
    }
    Ok(count)
}

/// Whether the fault differs from the last one at most in the case.
fn is_repeat(files: &FileList, last: Option<&Fault>, fault: &Fault) -> bool
    ensures { result ≡ option_map_or (λ l. is_eq (line_cmp (names_of files.now) l.now fault.now))
        last.entry false }
{
    last.is_some_and(|last| compare_lines(files, last, fault).is_eq())
}

fn push_each_line(
    alloc: Global,
    text: &mut Vec<u8>,
    files: &FileList,
    list: &FaultList,
) -> Result<(), Memory>
    ensures { OnOk result (text.new.items
        ≡ text.old.items ++ fault_lines ReportForm.Two (names_of files.now) list.now) }
{
    'faults: for fault in list.iter() {
        push_fault_line(alloc, text, files, fault, ReportForm::Two)?;
    }
    Ok(())
}

/// In form 2 adds a line for each code that occurs.
fn push_count_lines(
    alloc: Global,
    text: &mut Vec<u8>,
    list: &FaultList,
    form: ReportForm,
) -> Result<(), Memory>
    ensures { OnOk result (text.new.items ≡ text.old.items ++ count_lines form list.now) }
{
    match form {
        ReportForm::One => Ok(()),
        ReportForm::Two => push_code_lines(alloc, text, list),
    }
}

/// Two reports of the same faults are the same bytes.
pub fn one_report()
    ensures { OneReport }
{}
