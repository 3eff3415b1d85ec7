use crate::form::ReportForm;
use crate::order::sort_faults;
use crate::report::report_text;
use crate::verdict::Verdict;
use eif_base::{Code, Fault, FaultList, FileList, Memory, NO_FILE, Name, Place};
use std::alloc::Global;
use std::process::Abort;
use std::test::Fail;

#[derive(Clone, Copy)]
struct Row {
    code: Code,
    case: u8,
    names: [&'static str; 3],
    file: u32,
    offset: u32,
    line: u32,
    column: u32,
}

fn files(alloc: Global) -> Result<FileList, Memory> {
    let mut files = FileList::new(alloc);
    for name in ["b.e", "a.e", "a.e", "é.e", "app.e"] {
        if files.count() < NO_FILE {
            files.push(name, Vec::new(alloc))?;
        }
    }
    Ok(files)
}

fn faults(alloc: Global, rows: &[Row]) -> Result<FaultList, Memory> {
    let mut list = FaultList::new(alloc);
    for row in rows {
        let [class, feature, about] = row.names;
        list.push(Fault {
            code: row.code,
            case: row.case,
            class: Name::from_bytes(alloc, class.as_bytes())?,
            feature: Name::from_bytes(alloc, feature.as_bytes())?,
            place: Place {
                file: row.file,
                offset: row.offset,
                line: row.line,
                column: row.column,
            },
            about: Name::from_bytes(alloc, about.as_bytes())?,
        })?;
    }
    Ok(list)
}

fn row_at(code: Code, case: u8, names: [&'static str; 3], at: [u32; 4]) -> Row {
    let [file, offset, line, column] = at;
    Row {
        code,
        case,
        names,
        file,
        offset,
        line,
        column,
    }
}

#[test]
fn writes_yes(rt: HostRuntime) -> Result<(), Fail> {
    let files = files(rt.alloc())?;
    for (count, form, expected) in [
        (1, ReportForm::One, "yes 1 classes\n"),
        (300, ReportForm::Two, "yes 300 classes\n"),
    ] {
        let text = report_text(rt.alloc(), &files, &Verdict::Yes(count), form)?;
        assert!(rt; text.as_slice() == expected.as_bytes(), "{expected}");
    }
    Ok(())
}

/// The report of these faults is these lines.
fn assert_reported(
    rt: &impl Abort,
    alloc: Global,
    form: ReportForm,
    rows: &[Row],
    expected: &str,
) -> Result<(), Memory> {
    let files = files(alloc)?;
    let mut list = faults(alloc, rows)?;
    sort_faults(&mut list, &files);
    let text = report_text(alloc, &files, &Verdict::Faults(list), form)?;
    assert!(rt; text.as_slice() == expected.as_bytes(), "{expected}");
    Ok(())
}

#[test]
fn writes_no_file(rt: HostRuntime) -> Result<(), Fail> {
    let rows = [row_at(Code::Vsrt, 1, ["nosuch", "", "nosuch"], [NO_FILE, 0, 0, 0])];
    let one = "VSRT nosuch - -:0:0 nosuch\nno 1 faults\n";
    assert_reported(&rt, rt.alloc(), ReportForm::One, &rows, one)?;
    let two = "VSRT.1 nosuch - -:0:0 nosuch\nVSRT 1\nno 1 faults\n";
    assert_reported(&rt, rt.alloc(), ReportForm::Two, &rows, two)?;
    Ok(())
}

#[test]
fn writes_no_fault(rt: HostRuntime) -> Result<(), Fail> {
    for form in [ReportForm::One, ReportForm::Two] {
        assert_reported(&rt, rt.alloc(), form, &[], "no 0 faults\n")?;
    }
    Ok(())
}

#[test]
fn sorts_by_file_name_first(rt: HostRuntime) -> Result<(), Fail> {
    let rows = [
        row_at(Code::Veen, 1, ["C1", "F", "x"], [0, 5, 1, 6]),
        row_at(Code::Veen, 1, ["c1", "f", "y"], [2, 0, 1, 1]),
        row_at(Code::Xout, 1, ["", "", "agent"], [1, 9, 2, 3]),
        row_at(Code::Veen, 1, ["c1", "f", "z"], [1, 9, 2, 3]),
        row_at(Code::Veen, 1, ["c1", "f", "a"], [1, 10, 2, 4]),
        row_at(Code::Vsrt, 1, ["nosuch", "", "nosuch"], [NO_FILE, 0, 0, 0]),
        row_at(Code::Veen, 1, ["c1", "f", "z"], [1, 9, 2, 3]),
    ];
    let one = "VSRT nosuch - -:0:0 nosuch\n\
        VEEN c1 f a.e:2:3 z\n\
        XOUT - - a.e:2:3 agent\n\
        VEEN c1 f a.e:2:4 a\n\
        VEEN c1 f a.e:1:1 y\n\
        VEEN c1 f b.e:1:6 x\n\
        no 6 faults\n";
    assert_reported(&rt, rt.alloc(), ReportForm::One, &rows, one)?;
    let two = "VSRT.1 nosuch - -:0:0 nosuch\n\
        VEEN.1 c1 f a.e:2:3 z\n\
        XOUT.1 - - a.e:2:3 agent\n\
        VEEN.1 c1 f a.e:2:4 a\n\
        VEEN.1 c1 f a.e:1:1 y\n\
        VEEN.1 c1 f b.e:1:6 x\n\
        VEEN 4\n\
        VSRT 1\n\
        XOUT 1\n\
        no 6 faults\n";
    assert_reported(&rt, rt.alloc(), ReportForm::Two, &rows, two)?;
    Ok(())
}

#[test]
fn sorts_names_as_bytes(rt: HostRuntime) -> Result<(), Fail> {
    let rows = [
        row_at(Code::Vmfn, 1, ["c1", "f", "x"], [3, 0, 1, 1]),
        row_at(Code::Vmfn, 1, ["c2", "f", "x"], [0, 0, 1, 1]),
        row_at(Code::Vmfn, 1, ["c10", "f", "x"], [0, 0, 1, 1]),
        row_at(Code::Vmfn, 1, ["c10", "f", ""], [0, 0, 1, 1]),
        row_at(Code::Vmfn, 1, ["c10", "", "x"], [0, 0, 1, 1]),
    ];
    let expected = "VMFN c10 - b.e:1:1 x\n\
        VMFN c10 f b.e:1:1 -\n\
        VMFN c10 f b.e:1:1 x\n\
        VMFN c2 f b.e:1:1 x\n\
        VMFN c1 f é.e:1:1 x\n\
        no 5 faults\n";
    assert_reported(&rt, rt.alloc(), ReportForm::One, &rows, expected)?;
    Ok(())
}

#[test]
fn writes_cases_in_form_two(rt: HostRuntime) -> Result<(), Fail> {
    let names = ["c1", "f", "z"];
    let at = [1, 9, 2, 3];
    let rows = [
        row_at(Code::Veen, 3, names, at),
        row_at(Code::Veen, 1, names, at),
        row_at(Code::Veen, 2, names, at),
    ];
    let one = "VEEN c1 f a.e:2:3 z\nno 1 faults\n";
    assert_reported(&rt, rt.alloc(), ReportForm::One, &rows, one)?;
    let two = "VEEN.1 c1 f a.e:2:3 z\n\
        VEEN.2 c1 f a.e:2:3 z\n\
        VEEN.3 c1 f a.e:2:3 z\n\
        VEEN 3\n\
        no 3 faults\n";
    assert_reported(&rt, rt.alloc(), ReportForm::Two, &rows, two)?;
    Ok(())
}

#[test]
fn counts_codes_in_form_two(rt: HostRuntime) -> Result<(), Fail> {
    let names = ["b", "", "b"];
    let at = [0, 6, 1, 7];
    let rows = [
        row_at(Code::Xlim, 3, names, at),
        row_at(Code::Xlim, 1, names, at),
    ];
    let expected = "XLIM.1 b - b.e:1:7 b\nXLIM.3 b - b.e:1:7 b\nXLIM 2\nno 2 faults\n";
    assert_reported(&rt, rt.alloc(), ReportForm::Two, &rows, expected)?;
    let rows = [
        row_at(Code::Vuex, 2, ["app", "make", "h"], [4, 65, 1, 66]),
        row_at(Code::Vgci, 4, ["app", "make", "make"], [4, 49, 1, 50]),
    ];
    let expected = "VGCI.4 app make app.e:1:50 make\n\
        VUEX.2 app make app.e:1:66 h\n\
        VGCI 1\n\
        VUEX 1\n\
        no 2 faults\n";
    assert_reported(&rt, rt.alloc(), ReportForm::Two, &rows, expected)?;
    Ok(())
}

/// Two files have the name a.e.
#[test]
fn keeps_lines_of_files_of_one_name(rt: HostRuntime) -> Result<(), Fail> {
    let names = ["c1", "f", "z"];
    let rows = [
        row_at(Code::Veen, 1, names, [2, 9, 2, 3]),
        row_at(Code::Veen, 1, names, [1, 9, 2, 3]),
    ];
    let expected = "VEEN c1 f a.e:2:3 z\nVEEN c1 f a.e:2:3 z\nno 2 faults\n";
    assert_reported(&rt, rt.alloc(), ReportForm::One, &rows, expected)?;
    Ok(())
}
