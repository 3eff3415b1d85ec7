use crate::list_file::list_lines;
use crate::reading::{Input, read_input};
use crate::words::Words;
use eif_base::{Code, MemTexts, Memory, Name, Place, Root};
use eif_report::ReportForm;
use std::alloc::Global;
use std::test::Fail;

#[test]
fn lists_give_names(rt: HostRuntime) {
    let cases: [(&[u8], &[&str]); 5] = [
        (b"app.e\r\n\na.e\n", &["app.e", "a.e"]),
        (b"a\r", &["a\r"]),
        (b"a\r\r\n", &["a\r"]),
        (b"\r\n", &[]),
        (b"a.e\nb.e", &["a.e", "b.e"]),
    ];
    for (text, names) in cases {
        assert!(rt; text.len() < 100);
        let lines = list_lines(rt.alloc(), text).expect(&rt, "memory");
        assert!(rt; lines.faults.is_empty(), "in {text:?}");
        assert_eq!(rt; lines.names.as_slice(), names, "in {text:?}");
    }
}

#[test]
fn lists_give_faults(rt: HostRuntime) {
    let cases: [(&[u8], u32, u32); 2] = [(b"app.e\n\xff\n", 2, 6), (b"\n\n\xff", 3, 2)];
    for (text, line, offset) in cases {
        assert!(rt; text.len() < 100);
        let lines = list_lines(rt.alloc(), text).expect(&rt, "memory");
        assert_eq!(rt; lines.faults.count(), 1, "in {text:?}");
        let fault = lines.faults.at(0);
        let place = Place {
            file: 0,
            offset,
            line,
            column: 1,
        };
        assert_eq!(rt; fault.code, Code::Xlst);
        assert_eq!(rt; fault.case, 1);
        assert_eq!(rt; fault.place, place, "in {text:?}");
        for name in [&fault.class, &fault.feature, &fault.about] {
            assert_eq!(rt; name.text(), b"".as_slice());
        }
    }
}

/// Words that name the list and one file.
fn words<'w>(alloc: Global, list: Option<&'w str>, file: &'w str) -> Result<Words<'w>, Memory> {
    let mut files = Vec::new(alloc);
    files.push(file)?;
    Ok(Words {
        root: Root {
            class_name: Name::from_bytes(alloc, b"app")?,
            procedure_name: Name::from_bytes(alloc, b"make")?,
        },
        list,
        files,
        workers: 1,
        form: ReportForm::One,
    })
}

/// Lists, and files whose texts are their names.
fn texts(alloc: Global) -> Result<MemTexts, Memory> {
    let mut texts = MemTexts::new(alloc);
    texts.put("good", Vec::from_slice(alloc, b"b.e\r\n\na.e\n")?)?;
    texts.put("bad", Vec::from_slice(alloc, b"b.e\n\xff\n")?)?;
    'names: for name in ["a.e", "b.e", "c.e"] {
        texts.put(name, Vec::from_slice(alloc, name.as_bytes())?)?;
    }
    Ok(texts)
}

#[test]
fn files_are_read_in_order(rt: HostRuntime) -> Result<(), Fail> {
    let cases: [(Option<&str>, &[&str]); 2] = [
        (Some("good"), &["c.e", "b.e", "a.e"]),
        (None, &["c.e"]),
    ];
    for (list, names) in cases {
        let words = words(rt.alloc(), list, "c.e")?;
        let Ok(Input::Files(files)) = read_input(rt.alloc(), &words, &mut texts(rt.alloc())?) else {
            panic!(rt; "no files with {list:?}");
        };
        assert_eq!(rt; files.count() as usize, names.len());
        for i in 0..files.count() {
            assert_eq!(rt; files.name(i), names[i as usize]);
            assert_eq!(rt; files.text(i), names[i as usize].as_bytes());
        }
    }
    Ok(())
}

#[test]
fn a_bad_list_is_told_before_any_file_is_read(rt: HostRuntime) -> Result<(), Fail> {
    let words = words(rt.alloc(), Some("bad"), "absent.e")?;
    let Ok(Input::BadList(list, faults)) = read_input(rt.alloc(), &words, &mut texts(rt.alloc())?)
    else {
        panic!(rt; "no bad list");
    };
    assert_eq!(rt; list.count(), 1);
    assert_eq!(rt; list.name(0), "bad");
    assert_eq!(rt; faults.count(), 1);
    Ok(())
}
