//! The phase of features: systems with the report on each.

use super::clause_rules::CLAUSE_RULES;
use super::derivation_rules::DERIVATION_RULES;
use super::join_rules::JOIN_RULES;
use super::name_rules::NAME_RULES;
use super::result_rules::RESULT_RULES;
use super::rows::{A, APP, Row};
use super::signature_rules::SIGNATURE_RULES;
use super::version_rules::VERSION_RULES;
use super::{WORKERS, ends_so, mem_texts, owned};
use crate::Status;
use std::alloc::Global;
use std::test::Fail;
use std::thread::Threads;

const APP2: &[u8] =
    b"class APP\ncreate make\nfeature\n  make\n    do\n      run (Void)\n    end\n  run (x: detachable A)\n    do\n      x.put (Void)\n    end\nend\n";

const PERSON: &[u8] =
    b"class PERSON\ncreate make\nfeature\n  name: STRING\n  make\n    do\n      name := \"p\"\n    end\nend\n";

const Z: &[u8] = b"class Z feature f do end end";

const B: &[u8] = b"class B inherit Z end";

const C: &[u8] = b"class C inherit Z rename f as g end end";

const K: &[u8] = b"class K feature f do g end g do end end";

pub const FEATURE_ROWS: [Row; 10] = [
    Row {
        words: &["--root", "a.default_create", "a.e"],
        files: &[("a.e", b"class A feature f deferred end end")],
        status: Status::Faults,
        report: b"VCCH a - a.e:1:7 f\nno 1 faults\n",
    },
    Row {
        words: &["--root", "app.make", "app.e", "a.e", "h.e"],
        files: &[
            ("app.e", APP2),
            ("a.e", A),
            ("h.e", b"class H inherit A rename nope as no end end"),
        ],
        status: Status::Faults,
        report: b"VHRC h - h.e:1:26 nope\nno 1 faults\n",
    },
    Row {
        words: &["--root", "app.make", "app.e", "person.e"],
        files: &[
            (
                "app.e",
                b"class APP\ninherit PERSON rename make as make_person end\ncreate make\nfeature\n  title: STRING\n  make\n    do\n      make_person\n      title := \"t\"\n    end\nend\n",
            ),
            ("person.e", PERSON),
        ],
        status: Status::Faults,
        report: b"XYET app - app.e:1:7 -\nXYET person - person.e:1:7 -\nno 2 faults\n",
    },
    Row {
        words: &["--root", "app.make", "z.e", "b.e", "c.e", "app.e"],
        files: &[
            ("z.e", Z),
            ("b.e", B),
            ("c.e", C),
            (
                "app.e",
                b"class APP\ninherit\n  B\n  C\ncreate make\nfeature\n  make\n    do\n    end\nend\n",
            ),
        ],
        status: Status::Faults,
        report: b"VMRC app - app.e:1:7 f\nno 1 faults\n",
    },
    Row {
        words: &["--root", "app.make", "z.e", "b.e", "c.e", "app.e"],
        files: &[
            ("z.e", Z),
            ("b.e", B),
            ("c.e", C),
            (
                "app.e",
                b"class APP\ninherit\n  B select f end\n  C\ncreate make\nfeature\n  make\n    do\n    end\nend\n",
            ),
        ],
        status: Status::Faults,
        report: b"XYET app - app.e:1:7 -\nXYET b - b.e:1:7 -\nXYET c - c.e:1:7 -\nXYET z - z.e:1:7 -\nno 4 faults\n",
    },
    Row {
        words: &["--root", "app.make", "z.e", "b.e", "c.e", "app.e"],
        files: &[
            ("z.e", Z),
            ("b.e", B),
            ("c.e", C),
            (
                "app.e",
                b"class APP\ninherit\n  B select f end\ncreate make\nfeature\n  make\n    do\n    end\nend\n",
            ),
        ],
        status: Status::Faults,
        report: b"VMSS app - app.e:3:12 f\nno 1 faults\n",
    },
    Row {
        words: &["--root", "app.make", "app.e", "person.e"],
        files: &[
            (
                "app.e",
                b"class APP\ninherit\n  PERSON select name end\n  PERSON rename name as nick end\ncreate make\nfeature\nend\n",
            ),
            ("person.e", PERSON),
        ],
        status: Status::Faults,
        report: b"XYET app - app.e:1:7 -\nXYET person - person.e:1:7 -\nno 2 faults\n",
    },
    Row {
        words: &["--root", "app.make", "app.e", "k.e", "d.e"],
        files: &[
            ("app.e", APP),
            ("k.e", K),
            (
                "d.e",
                b"class D inherit K select f, g end K rename f as f2, g as g2 end end",
            ),
        ],
        status: Status::Faults,
        report: b"XREP d - d.e:1:7 g\nno 1 faults\n",
    },
    Row {
        words: &["--root", "app.make", "app.e", "k.e", "d.e"],
        files: &[
            ("app.e", APP),
            ("k.e", K),
            (
                "d.e",
                b"class D inherit K select f end K rename f as f2 end end",
            ),
        ],
        status: Status::Faults,
        report: b"XYET d - d.e:1:7 -\nXYET k - k.e:1:7 -\nno 2 faults\n",
    },
    Row {
        words: &["--root", "app.go", "app.e", "k.e"],
        files: &[
            ("app.e", b"class APP create make feature make do go end end"),
            (
                "k.e",
                b"class K create make feature make do end make do end end",
            ),
        ],
        status: Status::Faults,
        report: b"VMFN k make k.e:1:41 make\nno 1 faults\n",
    },
];

/// Files beside `APP`, and the report on all in form 2 from `app.make`. It tells of faults.
pub struct Case {
    pub files: &'static [(&'static str, &'static [u8])],
    pub report: &'static [u8],
}

/// The words of a check of `APP` and these files in form 2.
fn case_words(alloc: Global, case: &Case, workers: &str) -> Result<Vec<String>, Fail> {
    let mut words = owned(
        alloc,
        &["--root", "app.make", "--form", "2", "app.e"],
        workers,
    )?;
    for (name, _) in case.files {
        words.push(String::from_str(alloc, name)?)?;
    }
    Ok(words)
}

/// The first number of workers for which the case fails.
fn wrong_case<R: Threads + Sync>(
    rt: &R,
    alloc: Global,
    case: &Case,
) -> Result<Option<&'static str>, Fail> {
    for workers in WORKERS {
        let words = case_words(alloc, case, workers)?;
        let mut texts = mem_texts(alloc, case.files)?;
        texts.put("app.e", Vec::from_slice(alloc, APP)?)?;
        if !ends_so(rt, alloc, &words, &mut texts, Status::Faults, case.report)? {
            return Ok(Some(workers));
        }
    }
    Ok(None)
}

/// The number of the first case that fails.
fn wrong_of<R: Threads + Sync>(
    rt: &R,
    alloc: Global,
    cases: &[Case],
) -> Result<Option<usize>, Fail> {
    for i in 0..cases.len() {
        if wrong_case(rt, alloc, &cases[i])?.is_some() {
            return Ok(Some(i));
        }
    }
    Ok(None)
}

#[test]
fn rules_of_features(rt: HostRuntime) -> Result<(), Fail> {
    let wrong = wrong_of(&rt, rt.alloc(), &CLAUSE_RULES)?;
    assert_eq!(rt; wrong, None, "of what a clause says");
    let wrong = wrong_of(&rt, rt.alloc(), &NAME_RULES)?;
    assert_eq!(rt; wrong, None, "of names");
    let wrong = wrong_of(&rt, rt.alloc(), &VERSION_RULES)?;
    assert_eq!(rt; wrong, None, "of versions");
    Ok(())
}

#[test]
fn rules_of_derivations(rt: HostRuntime) -> Result<(), Fail> {
    let wrong = wrong_of(&rt, rt.alloc(), &DERIVATION_RULES)?;
    assert_eq!(rt; wrong, None);
    Ok(())
}

#[test]
fn rules_of_signatures(rt: HostRuntime) -> Result<(), Fail> {
    let wrong = wrong_of(&rt, rt.alloc(), &SIGNATURE_RULES)?;
    assert_eq!(rt; wrong, None, "of declared names and creators");
    let wrong = wrong_of(&rt, rt.alloc(), &RESULT_RULES)?;
    assert_eq!(rt; wrong, None, "of results");
    let wrong = wrong_of(&rt, rt.alloc(), &JOIN_RULES)?;
    assert_eq!(rt; wrong, None, "of inherited names");
    Ok(())
}
