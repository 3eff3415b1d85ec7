ghost use Rattle.std.specs.Prelude.{◌≡◌, ◌≤◌, map, length, string_bytes, IfOk};
ghost use Rattle.eif_base.specs.FileLists.{names_of, texts_of};
ghost use Rattle.eif_base.specs.declared.limits.TheConstants.{MOST_FILES};
ghost use Rattle.eif_check.specs.Limits.{AreShort};
ghost use Rattle.eifcheck.specs.Answers.{Answers, Checks, CountsReads, CountsWrites, IsComplete, WritesSo};
ghost use Rattle.eifcheck.specs.Form.{form};
ghost use Rattle.eifcheck.specs.Headline.{IsSound};
ghost use Rattle.eifcheck.specs.Inputs.{IsDue, IsFit};
ghost use Rattle.eifcheck.specs.Judgement.{IsReportOn, IsListReport, Ends, EndsJudged, is_yes};
ghost use Rattle.eifcheck.specs.ReadWords.{command_of};
ghost use Rattle.eifcheck.specs.Steps.{Step, judges};

use crate::command_line::read_words;
use crate::reading::{Input, Stop, read_input};
use crate::status::Status;
use crate::words::{Refusal, Words};
use eif_base::{FaultList, FileList, Gate, Memory, Sink, Texts};
use eif_check::check_system;
use eif_report::{Verdict, report_text, sort_faults};
use std::alloc::Global;
use std::thread::Threads;

/// A report, and whether it says yes.
#[derive(Drop)]
pub struct Report {
    pub bytes: Vec<u8>,
    pub is_yes: bool,
}

fn says_yes(verdict: &Verdict) -> bool
    ensures { result ≡ is_yes verdict.now }
{
    matches!(verdict, Verdict::Yes(_))
}

/// The report on the system of these files.
fn system_report<R: Threads + Sync, G: Gate + Sync>(
    rt: &R,
    alloc: Global,
    words: &Words<'_>,
    files: &FileList,
    gate: &G,
) -> Result<Report, Memory>
    requires short { AreShort (texts_of files.now) }
    requires few { length files.now ≤ MOST_FILES }
    ensures { IfOk result (IsReportOn (command_of words.now) (judges files.now)) }
{
    let verdict = check_system(rt, alloc, files, &words.root, words.workers, gate)?;
    let bytes = report_text(alloc, files, &verdict, words.form)?;
    let is_yes = says_yes(&verdict);
    Ok(Report { bytes, is_yes })
}

/// The report on a list whose lines have these faults.
fn list_report(
    alloc: Global,
    words: &Words<'_>,
    list: &FileList,
    faults: FaultList,
) -> Result<Report, Memory>
    ensures { IfOk result (IsListReport words.now.form (names_of list.now) faults) }
{
    let mut faults = faults;
    sort_faults(&mut faults, list);
    let bytes = report_text(alloc, list, &Verdict::Faults(faults), words.form)?;
    Ok(Report {
        bytes,
        is_yes: false,
    })
}

/// The report on what was read.
fn report_on<R: Threads + Sync, G: Gate + Sync>(
    rt: &R,
    alloc: Global,
    words: &Words<'_>,
    input: Input,
    gate: &G,
) -> Result<Report, Memory>
    requires { IsFit input }
    ensures { IfOk result (λ r. (step : Step) → IsDue step input → IsReportOn (command_of words.now) step r) }
{
    match input {
        Input::Files(files) => system_report(rt, alloc, words, &files, gate),
        Input::BadList(list, faults) => list_report(alloc, words, &list, faults),
    }
}

/// Writes the report, and says how that ends.
fn write_report<S: Sink>(report: &Report, sink: &mut S) -> Status
    ensures end { Ends report.now (S.written sink.old) (S.written sink.new) result }
    ensures faults { CountsWrites (S.faults sink.old) (S.faults sink.new) result }
{
    match sink.write(&report.bytes) {
        Ok(()) if report.is_yes => Status::Yes,
        Ok(()) => Status::Faults,
        Err(_) => Status::WriteFault,
    }
}

/// Reports on what was read, and writes the report.
fn judge<R: Threads + Sync, S: Sink, G: Gate + Sync>(
    rt: &R,
    alloc: Global,
    words: &Words<'_>,
    input: Input,
    sink: &mut S,
    gate: &G,
) -> Status
    requires { IsFit input }
    ensures answer { (step : Step) → IsDue step input
        → WritesSo (command_of words.now) step (S.written sink.old) (S.written sink.new) result }
    ensures ends { EndsJudged result }
    ensures faults { CountsWrites (S.faults sink.old) (S.faults sink.new) result }
{
    match report_on(rt, alloc, words, input, gate) {
        Ok(report) => write_report(&report, sink),
        Err(Memory) => Status::Memory,
    }
}

/// Reads the files, judges them and writes the report.
fn check<R: Threads + Sync, T: Texts, S: Sink, G: Gate + Sync>(
    rt: &R,
    alloc: Global,
    words: &Words<'_>,
    texts: &mut T,
    sink: &mut S,
    gate: &G,
) -> Status
    ensures answer { Checks (command_of words.now) (T.holds texts.old) (T.reads texts.old)
        (T.reads texts.new) (S.written sink.old) (S.written sink.new) result }
    ensures kept { T.holds texts.new ≡ T.holds texts.old }
    ensures read_faults { CountsReads (T.faults texts.old) (T.faults texts.new) result }
    ensures write_faults { CountsWrites (S.faults sink.old) (S.faults sink.new) result }
{
    match read_input(alloc, words, texts) {
        Ok(input) => judge(rt, alloc, words, input, sink, gate),
        Err(Stop::TooLarge) => Status::TooLarge,
        Err(Stop::ReadFault) => Status::ReadFault,
        Err(Stop::Memory) => Status::Memory,
    }
}

/// Checks the system that the words name: reads its list of files, if one is named, and its class
/// texts from `texts`, and writes one report to `sink`. `words` are those after the program's name.
/// Each division of the work is one piece for each worker, and each piece passes `gate`.
pub fn eifcheck<R: Threads + Sync, T: Texts, S: Sink, G: Gate + Sync>(
    rt: &R,
    alloc: Global,
    words: &[String],
    texts: &mut T,
    sink: &mut S,
    gate: &G,
) -> Status
    // The status, what was read and what was written, by the words and by what the names hold, where
    // that is told.
    ensures answer { Answers (form (map string_bytes words.now)) (T.holds texts.old) (T.reads texts.old)
        (T.reads texts.new) (S.written sink.old) (S.written sink.new) result }
    ensures kept { T.holds texts.new ≡ T.holds texts.old }

    // A fault of reading or writing comes only where the count of its object rose or stands at its
    // last value, and wherever that count is greater than at entry.
    ensures read_faults { CountsReads (T.faults texts.old) (T.faults texts.new) result }
    ensures write_faults { CountsWrites (S.faults sink.old) (S.faults sink.new) result }

    // Where nothing failed and the files are within the limits, there is an answer.
    ensures complete { IsComplete (form (map string_bytes words.now)) (T.holds texts.old) (T.faults texts.old)
        (T.faults texts.new) (S.faults sink.old) (S.faults sink.new) result }

    // No run of a system with a yes goes wrong.
    ensures sound { IsSound (form (map string_bytes words.now)) (T.holds texts.old) result }
{
    match read_words(alloc, words) {
        Ok(words) => check(rt, alloc, &words, texts, sink, gate),
        Err(Refusal::Usage) => Status::Usage,
        Err(Refusal::Memory) => Status::Memory,
    }
}
