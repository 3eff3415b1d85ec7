ghost use Rattle.std.specs.Prelude.{◌≤◌, length, IfOk};
ghost use Rattle.eif_base.specs.FileLists.{texts_of};
ghost use Rattle.eif_check.specs.Limits.{AreShort};

mod gate;

use crate::check_system;
use eif_base::limits::{MOST_BYTES, MOST_FILES};
use eif_base::{Code, Fault, FileList, Memory, NO_FILE, Name, OpenGate, Root};
use eif_report::Verdict;
use gate::WaitingGate;
use std::alloc::Global;
use std::process::Abort;
use std::test::Fail;
use std::thread::Threads;

/// The fault that is expected.
#[derive(Clone, Copy)]
struct Expected {
    code: Code,
    class: &'static str,
    file: u32,
    line: u32,
    column: u32,
    about: &'static str,
}

impl Expected {
    fn is(&self, fault: &Fault) -> bool {
        self.code == fault.code
            && self.class.as_bytes() == fault.class.text()
            && self.file == fault.place.file
            && self.line == fault.place.line
            && self.column == fault.place.column
            && self.about.as_bytes() == fault.about.text()
    }
}

/// Whether the verdict is Yes of so many texts where no fault is expected, and else tells of
/// exactly those faults.
fn is_expected(verdict: &Verdict, count: usize, expected: &[Expected]) -> bool {
    match verdict {
        Verdict::Yes(texts) => expected.is_empty() && *texts as usize == count,
        Verdict::Faults(list) => {
            list.count() == expected.len() && list.iter().zip(expected).all(|(f, e)| e.is(f))
        }
    }
}

const FILE_NAMES: [&str; 3] = ["a.e", "b.e", "c.e"];

/// The files of these texts.
fn files_of(rt: &impl Abort, alloc: Global, texts: &[&str]) -> Result<FileList, Memory>
    ensures few { IfOk result (λ files. length files ≤ MOST_FILES) }
    ensures short { IfOk result (λ files. AreShort (texts_of files)) }
{
    let mut files = FileList::new(alloc);
    'texts: for (name, text) in FILE_NAMES.iter().zip(texts) {
        let bytes = text.as_bytes();
        assert!(rt; files.count() < MOST_FILES);
        assert!(rt; bytes.len() as u64 <= MOST_BYTES);
        files.push(name, Vec::from_slice(alloc, bytes)?)?;
    }
    Ok(files)
}

fn app_make(alloc: Global) -> Result<Root, Memory> {
    Ok(Root {
        class_name: Name::from_bytes(alloc, b"app")?,
        procedure_name: Name::from_bytes(alloc, b"make")?,
    })
}

const APP: &str = "class APP\ncreate make\nfeature\n  make\n    do\n    end\nend\n";

const NOT_PLAIN: &str =
    "class A\nfeature\n  ok: BOOLEAN\n  put (x: detachable ANY)\n    do\n    end\nend\n";

/// A fault at that column of the first line of the text.
fn in_text(code: Code, file: u32, column: u32, about: &'static str) -> Expected {
    Expected {
        code,
        class: "",
        file,
        line: 1,
        column,
        about,
    }
}

/// A fault at the name of a class that stands first in its text.
fn of_class(code: Code, class: &'static str, file: u32, about: &'static str) -> Expected {
    Expected {
        class,
        ..in_text(code, file, 7, about)
    }
}

/// That any number of workers says of these texts what is expected.
fn assert_says<R: Abort + Threads + Sync>(
    rt: &R,
    alloc: Global,
    texts: &[&str],
    expected: &[Expected],
) -> Result<(), Memory> {
    let root = app_make(alloc)?;
    let files = files_of(rt, alloc, texts)?;
    for workers in [1, 2, 7, 64] {
        let verdict = check_system(rt, alloc, &files, &root, workers, &OpenGate)?;
        assert!(rt;
            is_expected(&verdict, texts.len(), expected),
            "by {workers}"
        );
    }
    Ok(())
}

#[test]
fn any_number_of_workers_says_the_same(rt: HostRuntime) -> Result<(), Fail> {
    let alloc = rt.alloc();
    assert_says(
        &rt,
        alloc,
        &[APP, "class B create run feature run do run end end"],
        &[],
    )?;
    assert_says(
        &rt,
        alloc,
        &[APP, APP],
        &[of_class(Code::Xdup, "app", 1, "app")],
    )?;
    let broken_texts = [
        "class APP create make feature make do make ( ) end end",
        "class S feature t: STRING = \"ab",
        "class O feature x do once end end )",
    ];
    let text_faults = [
        in_text(Code::Xsyn, 0, 46, ""),
        in_text(Code::Xlex, 1, 29, ""),
        in_text(Code::Xout, 2, 22, "once"),
    ];
    assert_says(&rt, alloc, &broken_texts, &text_faults)?;
    let no_root_class = Expected {
        code: Code::Vsrt,
        class: "app",
        file: NO_FILE,
        line: 0,
        column: 0,
        about: "app",
    };
    assert_says(&rt, alloc, &[], &[no_root_class])?;
    Ok(())
}

#[test]
fn two_pieces_meet_at_the_gate(rt: HostRuntime) -> Result<(), Fail> {
    let root = app_make(rt.alloc())?;
    let files = files_of(&rt, rt.alloc(), &[NOT_PLAIN, APP])?;
    let gate = WaitingGate::new(rt.alloc(), 2)?;
    let verdict = check_system(&rt, rt.alloc(), &files, &root, 2, &gate)?;
    assert!(rt; is_expected(&verdict, 2, &[of_class(Code::Xyet, "a", 0, "")]));
    for piece in 0..2 {
        assert_eq!(rt; gate.passes(piece), 2, "of piece {piece}");
        assert_eq!(rt; gate.meetings(piece), 2, "of piece {piece}");
    }
    Ok(())
}

/// A class of that name with an expression in 398 parentheses, the most that may be.
fn deep_class(alloc: Global, name: &str) -> Result<String, Memory> {
    let mut text = format!(in alloc; "class {name} create make feature make local b: BOOLEAN")?;
    text.push_str(" do b := ")?;
    for _ in 0..398 {
        text.push('(')?;
    }
    text.push_str("True")?;
    for _ in 0..398 {
        text.push(')')?;
    }
    text.push_str(" end end")?;
    Ok(text)
}

#[test]
fn workers_parse_the_deepest_texts(rt: HostRuntime) -> Result<(), Fail> {
    let root = app_make(rt.alloc())?;
    let app = deep_class(rt.alloc(), "APP")?;
    let other = deep_class(rt.alloc(), "B")?;
    let files = files_of(&rt, rt.alloc(), &[&app, &other])?;
    let verdict = check_system(&rt, rt.alloc(), &files, &root, 2, &OpenGate)?;
    let expected = [
        of_class(Code::Xyet, "app", 0, ""),
        of_class(Code::Xyet, "b", 1, ""),
    ];
    assert!(rt; is_expected(&verdict, 2, &expected));
    Ok(())
}
