//! Which words are taken, and what they ask for.

use crate::command_line::read_words;
use crate::words::Refusal;
use eif_report::ReportForm;
use std::alloc::{AllocError, Global};
use std::test::Fail;

/// Words with blanks between them, and whether they are taken.
const LINES: [(&str, bool); 27] = [
    ("--root app.make app.e", true),
    ("--root=app.make app.e", true),
    ("app.e --root app.make b.e", true),
    ("--root APP.Make -- -x.e", true),
    ("--root app.make -", true),
    (
        "--root app.make --do check --form 2 --workers 64 --list l.txt",
        true,
    ),
    ("--root app.make --list l.txt", true),
    ("--root app.make --form 1 --workers 1 app.e", true),
    ("", false),
    ("--root app app.e", false),
    ("--root app.make", false),
    ("--root app.make --workers 65 app.e", false),
    ("--root app.make --workers 0 app.e", false),
    ("--root app.make --workers 07 app.e", false),
    ("--root app.make --workers +7 app.e", false),
    ("--root app.make --form 3 app.e", false),
    ("--root app.make --form 01 app.e", false),
    ("--root app.make --do gen app.e", false),
    ("--root app.make --do melt app.e", false),
    ("--root app.make --root app.make app.e", false),
    ("--root app.make app.e --list", false),
    ("--root app.make --roo x", false),
    ("--root do.make app.e", false),
    ("--root app.make.x app.e", false),
    ("--root app.make --nosuch app.e", false),
    ("--help", false),
    ("app.e", false),
];

fn words_in(alloc: Global, line: &str) -> Result<Vec<String>, AllocError> {
    let mut words = Vec::new(alloc);
    'words: for word in line.split_whitespace() {
        words.push(String::from_str(alloc, word)?)?;
    }
    Ok(words)
}

fn is_taken(alloc: Global, line: &str) -> Result<bool, AllocError> {
    match read_words(alloc, &words_in(alloc, line)?) {
        Ok(_) => Ok(true),
        Err(Refusal::Usage) => Ok(false),
        Err(Refusal::Memory) => Err(AllocError),
    }
}

#[test]
fn words_of_the_form_are_taken(rt: HostRuntime) -> Result<(), Fail> {
    'lines: for (line, taken) in LINES {
        assert_eq!(rt; is_taken(rt.alloc(), line)?, taken, "{line}");
    }
    Ok(())
}

#[test]
fn words_ask_for_what_they_name(rt: HostRuntime) -> Result<(), Fail> {
    let line = "a.e --root APP.Make - --workers 64 --form=2 --list l.txt b.e -- --x.e";
    let given = words_in(rt.alloc(), line)?;
    let words = read_words(rt.alloc(), &given)?;
    assert_eq!(rt; words.root.class_name.text(), b"app".as_slice());
    assert_eq!(rt; words.root.procedure_name.text(), b"make".as_slice());
    assert_eq!(rt; words.list, Some("l.txt"));
    assert_eq!(rt;
        words.files.as_slice(),
        ["a.e", "-", "b.e", "--x.e"].as_slice()
    );
    assert_eq!(rt; words.workers, 64);
    assert_eq!(rt; words.form, ReportForm::Two);
    let given = words_in(rt.alloc(), "--root app.make app.e")?;
    let words = read_words(rt.alloc(), &given)?;
    assert_eq!(rt; words.list, None);
    assert_eq!(rt; words.workers, 1);
    assert_eq!(rt; words.form, ReportForm::One);
    Ok(())
}
