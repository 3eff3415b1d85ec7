ghost use Rattle.std.specs.Prelude.{◌≢◌};
ghost use Rattle.eifcheck.specs.declared.status.Status.TheVariants.{ReadFault, WriteFault};

mod clause_rules;
mod derivation_rules;
mod features;
mod join_rules;
mod large;
mod name_rules;
mod result_rules;
mod rows;
mod signature_rows;
mod signature_rules;
mod version_rules;

use crate::system::complaint;
use crate::{Status, eifcheck};
use eif_base::{FileTexts, MemSink, MemTexts, OpenGate, SureSink, SureTexts, Texts};
use features::FEATURE_ROWS;
use rows::{APP, ROWS, Row};
use signature_rows::SIGNATURE_ROWS;
use std::alloc::{AllocError, Global};
use std::fs;
use std::rt::Files;
use std::test::Fail;
use std::thread::Threads;

/// The numbers of workers that each system is checked with.
const WORKERS: [&str; 4] = ["1", "2", "7", "64"];

/// Class texts that aren't plain, with the class's name at 1:7.
const OTHER_FORMS: [&[u8]; 11] = [
    b"class B feature end",
    b"class B create make feature make do print end end",
    b"class B [G] create make feature make do end end",
    b"class B inherit ANY create make feature make do end end",
    b"class B create make create go feature make do end go do end end",
    b"class B create make, go feature make do end go do end end",
    b"class B create make feature make (a: ANY) do end end",
    b"class B create make feature make local a: ANY do end end",
    b"class B create make feature make do end a: ANY end",
    b"class B create make feature make require True do end end",
    b"class B create make feature make do end invariant True end",
];

/// The lengths of the fronts of `APP` that end before its first token or with a token but its last, and the report on
/// each.
const FRONTS: [(usize, &[u8]); 9] = [
    (0, b"XSYN - - app.e:1:1 -\nno 1 faults\n"),
    (5, b"XSYN - - app.e:1:6 -\nno 1 faults\n"),
    (9, b"XSYN - - app.e:1:10 -\nno 1 faults\n"),
    (16, b"XSYN - - app.e:2:7 -\nno 1 faults\n"),
    (21, b"XSYN - - app.e:2:12 -\nno 1 faults\n"),
    (29, b"XSYN - - app.e:3:8 -\nno 1 faults\n"),
    (36, b"XSYN - - app.e:4:7 -\nno 1 faults\n"),
    (43, b"XSYN - - app.e:5:7 -\nno 1 faults\n"),
    (51, b"XSYN - - app.e:6:8 -\nno 1 faults\n"),
];

/// Words that aren't those of a command, one list a row.
const OTHER_WORDS: [&[&str]; 5] = [
    &[],
    &["--root", "app", "app.e"],
    &["--root", "app.make"],
    &["--root", "app.make", "--workers", "65", "app.e"],
    &["--root", "app.make", "--do", "gen", "app.e"],
];

/// Statuses, and what the program says of them.
const COMPLAINTS: [(Status, Option<&str>); 7] = [
    (Status::Yes, None),
    (Status::Faults, None),
    (
        Status::Usage,
        Some(
            "usage: eifcheck --root CLASS.PROCEDURE [--do check] [--form 1|2] [--workers N] [--list FILE] [FILES]",
        ),
    ),
    (Status::ReadFault, Some("a file could not be read")),
    (Status::WriteFault, Some("the report could not be written")),
    (Status::Memory, Some("out of memory")),
    (Status::TooLarge, Some("the input is too large")),
];

/// The words as the program gets them.
fn strings(alloc: Global, words: &[&str]) -> Result<Vec<String>, AllocError> {
    let mut all = Vec::new(alloc);
    for word in words {
        all.push(String::from_str(alloc, word)?)?;
    }
    Ok(all)
}

/// The words, and behind them a number of workers.
fn owned(alloc: Global, words: &[&str], workers: &str) -> Result<Vec<String>, AllocError> {
    let mut all = strings(alloc, words)?;
    all.push(String::from_str(alloc, "--workers")?)?;
    all.push(String::from_str(alloc, workers)?)?;
    Ok(all)
}

/// Whether the check over that source ends so, with exactly this written.
fn ends_so<R: Threads + Sync, T: Texts>(
    rt: &R,
    alloc: Global,
    words: &[String],
    texts: &mut T,
    status: Status,
    report: &[u8],
) -> Result<bool, Fail> {
    let mut sink = MemSink::new(alloc, 32768)?;
    let ended = eifcheck(rt, alloc, words, texts, &mut sink, &OpenGate);
    Ok(ended == status && sink.written() == report)
}

fn mem_texts(alloc: Global, files: &[(&str, &[u8])]) -> Result<MemTexts, Fail> {
    let mut texts = MemTexts::new(alloc);
    for (name, text) in files {
        texts.put(name, Vec::from_slice(alloc, text)?)?;
    }
    Ok(texts)
}

fn sure_texts(alloc: Global, files: &[(&str, &[u8])]) -> Result<SureTexts, Fail> {
    let mut texts = SureTexts::new(alloc);
    for (name, text) in files {
        texts.put(name, Vec::from_slice(alloc, text)?)?;
    }
    Ok(texts)
}

/// The first number of workers for which the row fails in memory.
fn wrong_row<R: Threads + Sync>(
    rt: &R,
    alloc: Global,
    row: &Row,
) -> Result<Option<&'static str>, Fail> {
    for workers in WORKERS {
        let words = owned(alloc, row.words, workers)?;
        let mut texts = mem_texts(alloc, row.files)?;
        if !ends_so(rt, alloc, &words, &mut texts, row.status, row.report)? {
            return Ok(Some(workers));
        }
    }
    Ok(None)
}

/// The number of the first row that fails in memory.
fn wrong_in_memory<R: Threads + Sync>(
    rt: &R,
    alloc: Global,
    rows: &[Row],
) -> Result<Option<usize>, Fail> {
    for i in 0..rows.len() {
        if wrong_row(rt, alloc, &rows[i])?.is_some() {
            return Ok(Some(i));
        }
    }
    Ok(None)
}

/// Whether the check of these files from `app.make` finds faults, and reports so.
fn is_faulty<R: Threads + Sync>(
    rt: &R,
    alloc: Global,
    files: &[(&str, &[u8])],
    report: &[u8],
) -> Result<bool, Fail> {
    let mut words = owned(alloc, &["--root", "app.make"], "2")?;
    for (name, _) in files {
        words.push(String::from_str(alloc, name)?)?;
    }
    let mut texts = mem_texts(alloc, files)?;
    ends_so(rt, alloc, &words, &mut texts, Status::Faults, report)
}

/// The number of the first text that isn't told to be not plain.
fn wrong_form<R: Threads + Sync>(
    rt: &R,
    alloc: Global,
    rows: &[&[u8]],
) -> Result<Option<usize>, Fail> {
    let report = b"XYET b - b.e:1:7 -\nno 1 faults\n";
    for i in 0..rows.len() {
        if !is_faulty(rt, alloc, &[("app.e", APP), ("b.e", rows[i])], report)? {
            return Ok(Some(i));
        }
    }
    Ok(None)
}

/// The number of the first front of `APP` that isn't told to break off at its end.
fn wrong_front<R: Threads + Sync>(
    rt: &R,
    alloc: Global,
    rows: &[(usize, &[u8])],
) -> Result<Option<usize>, Fail> {
    for i in 0..rows.len() {
        let (length, report) = rows[i];
        let front = APP.get(..length).ok_or("a front is too long")?;
        if !is_faulty(rt, alloc, &[("app.e", front)], report)? {
            return Ok(Some(i));
        }
    }
    Ok(None)
}

/// A class text with an expression in so many parentheses.
fn nested(alloc: Global, count: usize) -> Result<Vec<u8>, AllocError> {
    let opening = vec![in alloc; b'('; count]?;
    let closing = vec![in alloc; b')'; count]?;
    let mut text = Vec::new(alloc);
    text.extend_from_slice(b"class APP create make feature make local b: BOOLEAN do b := ")?;
    text.extend_from_slice(&opening)?;
    text.extend_from_slice(b"True")?;
    text.extend_from_slice(&closing)?;
    text.extend_from_slice(b" end end")?;
    Ok(text)
}

fn sum_of(bytes: &[u8]) -> u64 {
    let mut sum = 0u64;
    for &byte in bytes {
        sum = sum.wrapping_add(u64::from(byte));
    }
    sum
}

/// Over a source and a sink that can't fail, no answer tells of a failed read or write.
fn check_surely<R: Threads + Sync>(
    rt: &R,
    alloc: Global,
    words: &[String],
    texts: &mut SureTexts,
    sink: &mut SureSink,
) -> Status
    ensures no_read_fault { result ≢ ReadFault }
    ensures no_write_fault { result ≢ WriteFault }
{
    eifcheck(rt, alloc, words, texts, sink, &OpenGate)
}

/// The number of the first row that fails over a source and a sink that can't fail.
fn wrong_surely<R: Threads + Sync>(
    rt: &R,
    alloc: Global,
    rows: &[Row],
) -> Result<Option<usize>, Fail> {
    for i in 0..rows.len() {
        let row = &rows[i];
        let words = owned(alloc, row.words, "2")?;
        let mut texts = sure_texts(alloc, row.files)?;
        let mut sink = SureSink::new();
        let ended = check_surely(rt, alloc, &words, &mut texts, &mut sink);
        let wrote = sink.count() == row.report.len() as u64 && sink.sum() == sum_of(row.report);
        if ended != row.status || !wrote {
            return Ok(Some(i));
        }
    }
    Ok(None)
}

fn write_files<R: Files>(rt: &R, files: &[(&str, &[u8])]) -> Result<(), Fail> {
    for (name, text) in files {
        fs::write(rt, name, *text)?;
    }
    Ok(())
}

/// The number of the first row that fails over files.
fn wrong_over_files<R: Threads + Sync + Files>(
    rt: &R,
    alloc: Global,
    rows: &[Row],
) -> Result<Option<usize>, Fail> {
    for i in 0..rows.len() {
        let row = &rows[i];
        write_files(rt, row.files)?;
        let mut texts = FileTexts::new(rt, alloc);
        let words = owned(alloc, row.words, "2")?;
        if !ends_so(rt, alloc, &words, &mut texts, row.status, row.report)? {
            return Ok(Some(i));
        }
    }
    Ok(None)
}

/// The number of the first list of words that isn't refused with nothing read and nothing written.
fn wrong_words<R: Threads + Sync>(
    rt: &R,
    alloc: Global,
    rows: &[&[&str]],
) -> Result<Option<usize>, Fail> {
    for i in 0..rows.len() {
        let words = strings(alloc, rows[i])?;
        let mut texts = mem_texts(alloc, &[("app.e", APP)])?;
        texts.fail(1)?;
        if !ends_so(rt, alloc, &words, &mut texts, Status::Usage, b"")? {
            return Ok(Some(i));
        }
    }
    Ok(None)
}

/// The number of the first of three reads, of a list and the files that it names, whose failure isn't told.
fn wrong_read<R: Threads + Sync>(rt: &R, alloc: Global) -> Result<Option<u64>, Fail> {
    let words = owned(alloc, &["--root", "app.make", "--list", "l.txt"], "1")?;
    for number in 1..4 {
        let mut texts = mem_texts(
            alloc,
            &[("l.txt", b"app.e\nb.e\n"), ("app.e", APP), ("b.e", b"")],
        )?;
        texts.fail(number)?;
        if !ends_so(rt, alloc, &words, &mut texts, Status::ReadFault, b"")? {
            return Ok(Some(number));
        }
    }
    Ok(None)
}

/// The first count of bytes for which a write that lets so many through isn't told as it is.
fn wrong_write<R: Threads + Sync>(rt: &R, alloc: Global) -> Result<Option<usize>, Fail> {
    let report = b"yes 1 classes\n".as_slice();
    let words = owned(alloc, &["--root", "app.make", "app.e"], "1")?;
    for k in 0..report.len() + 1 {
        let mut texts = mem_texts(alloc, &[("app.e", APP)])?;
        let mut sink = MemSink::new(alloc, 64)?;
        sink.fail(1, k)?;
        let ended = eifcheck(rt, alloc, &words, &mut texts, &mut sink, &OpenGate);
        if ended != Status::WriteFault || sink.written() != &report[..k] {
            return Ok(Some(k));
        }
    }
    Ok(None)
}

/// The number of the first status of which the program says something else.
fn wrong_complaint(rows: &[(Status, Option<&str>)]) -> Option<usize> {
    for i in 0..rows.len() {
        if complaint(rows[i].0) != rows[i].1 {
            return Some(i);
        }
    }
    None
}

#[test]
fn refusals_are_told(rt: HostRuntime) {
    assert_eq!(rt; wrong_complaint(&COMPLAINTS), None);
}

#[test]
fn systems_in_memory(rt: HostRuntime) -> Result<(), Fail> {
    let wrong = wrong_in_memory(&rt, rt.alloc(), &ROWS)?;
    assert_eq!(rt; wrong, None);
    let wrong = wrong_in_memory(&rt, rt.alloc(), &FEATURE_ROWS)?;
    assert_eq!(rt; wrong, None, "of the rules of features");
    let wrong = wrong_in_memory(&rt, rt.alloc(), &SIGNATURE_ROWS)?;
    assert_eq!(rt; wrong, None, "of the rules of signatures");
    Ok(())
}

#[test]
fn systems_without_failures(rt: HostRuntime) -> Result<(), Fail> {
    let wrong = wrong_surely(&rt, rt.alloc(), &ROWS)?;
    assert_eq!(rt; wrong, None);
    let wrong = wrong_surely(&rt, rt.alloc(), &FEATURE_ROWS)?;
    assert_eq!(rt; wrong, None, "of the rules of features");
    let wrong = wrong_surely(&rt, rt.alloc(), &SIGNATURE_ROWS)?;
    assert_eq!(rt; wrong, None, "of the rules of signatures");
    Ok(())
}

#[test]
fn systems_in_files(rt: HostRuntime) -> Result<(), Fail> {
    let wrong = wrong_over_files(&rt, rt.alloc(), &ROWS)?;
    assert_eq!(rt; wrong, None);
    let wrong = wrong_over_files(&rt, rt.alloc(), &FEATURE_ROWS)?;
    assert_eq!(rt; wrong, None, "of the rules of features");
    let wrong = wrong_over_files(&rt, rt.alloc(), &SIGNATURE_ROWS)?;
    assert_eq!(rt; wrong, None, "of the rules of signatures");
    Ok(())
}

#[test]
fn classes_that_are_not_plain(rt: HostRuntime) -> Result<(), Fail> {
    let wrong = wrong_form(&rt, rt.alloc(), &OTHER_FORMS)?;
    assert_eq!(rt; wrong, None);
    Ok(())
}

#[test]
fn texts_that_break_off(rt: HostRuntime) -> Result<(), Fail> {
    let wrong = wrong_front(&rt, rt.alloc(), &FRONTS)?;
    assert_eq!(rt; wrong, None);
    Ok(())
}

#[test]
fn trees_may_be_400_high(rt: HostRuntime) -> Result<(), Fail> {
    let alloc = rt.alloc();
    let text = nested(alloc, 398)?;
    let report = b"XYET app - app.e:1:7 -\nno 1 faults\n";
    let is_so = is_faulty(&rt, alloc, &[("app.e", &text)], report)?;
    assert!(rt; is_so);
    let text = nested(alloc, 399)?;
    let report = b"XSYN - - app.e:1:459 -\nno 1 faults\n";
    let is_so = is_faulty(&rt, alloc, &[("app.e", &text)], report)?;
    assert!(rt; is_so);
    Ok(())
}

#[test]
fn other_words_are_refused(rt: HostRuntime) -> Result<(), Fail> {
    let wrong = wrong_words(&rt, rt.alloc(), &OTHER_WORDS)?;
    assert_eq!(rt; wrong, None);
    Ok(())
}

#[test]
fn reads_and_writes_fail(rt: HostRuntime) -> Result<(), Fail> {
    let wrong = wrong_read(&rt, rt.alloc())?;
    assert_eq!(rt; wrong, None);
    let wrong = wrong_write(&rt, rt.alloc())?;
    assert_eq!(rt; wrong, None);
    Ok(())
}
