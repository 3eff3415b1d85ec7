//! Systems at the limits.

use super::{APP, OpenGate, Status, eifcheck};
use eif_base::{MemSink, Memory, SureTexts};
use std::alloc::Global;
use std::test::Fail;
use std::thread::Threads;

/// Files that a check names, in order, with further words.
#[derive(Drop)]
struct System {
    words: Vec<String>,
    texts: SureTexts,
}

fn new_system(alloc: Global, words: &[&str]) -> Result<System, Memory> {
    let mut all = Vec::new(alloc);
    for word in words {
        all.push(String::from_str(alloc, word)?)?;
    }
    Ok(System {
        words: all,
        texts: SureTexts::new(alloc),
    })
}

/// Adds a file, padded with spaces to so many bytes.
fn add(
    alloc: Global,
    system: &mut System,
    name: String,
    text: &[u8],
    size: usize,
) -> Result<(), Memory> {
    let mut bytes = Vec::from_slice(alloc, text)?;
    if bytes.len() < size {
        bytes.resize(size, b' ')?;
    }
    system.texts.put(&name, bytes)?;
    system.words.push(name)?;
    Ok(())
}

fn app(alloc: Global, system: &mut System, size: usize) -> Result<(), Memory> {
    add(alloc, system, String::from_str(alloc, "app.e")?, APP, size)
}

/// Whether the check ends so, with exactly this written.
fn ends_so<R: Threads + Sync>(
    rt: &R,
    alloc: Global,
    system: &mut System,
    status: Status,
    report: &[u8],
) -> Result<bool, Memory> {
    let mut sink = MemSink::new(alloc, 32768)?;
    let ended = eifcheck(
        rt,
        alloc,
        &system.words,
        &mut system.texts,
        &mut sink,
        &OpenGate,
    );
    Ok(ended == status && sink.written() == report)
}

/// Whether the check finds faults, and the report on them ends with this.
fn tells_last<R: Threads + Sync>(
    rt: &R,
    alloc: Global,
    system: &mut System,
    end: &[u8],
) -> Result<bool, Memory> {
    let mut sink = MemSink::new(alloc, 32768)?;
    let ended = eifcheck(
        rt,
        alloc,
        &system.words,
        &mut system.texts,
        &mut sink,
        &OpenGate,
    );
    Ok(ended == Status::Faults && sink.written().ends_with(end))
}

#[test]
fn a_file_may_have_a_mebibyte(rt: HostRuntime) -> Result<(), Fail> {
    let alloc = rt.alloc();
    let mut system = new_system(alloc, &["--root", "app.make"])?;
    app(alloc, &mut system, 1_048_576)?;
    let is_so = ends_so(&rt, alloc, &mut system, Status::Yes, b"yes 1 classes\n")?;
    assert!(rt; is_so);
    let mut system = new_system(alloc, &["--root", "app.make"])?;
    app(alloc, &mut system, 1_048_577)?;
    let is_so = ends_so(&rt, alloc, &mut system, Status::TooLarge, b"")?;
    assert!(rt; is_so);
    Ok(())
}

/// `APP` and so many plain classes, each of which is in a file of a mebibyte.
fn mebibytes(alloc: Global, count: usize) -> Result<System, Memory> {
    let mut system = new_system(alloc, &["--root", "app.make", "--workers", "2"])?;
    app(alloc, &mut system, 1_048_576)?;
    for i in 0..count {
        let name = format!(in alloc; "k{i}.e")?;
        let text = format!(in alloc; "class K{i} create make feature make do end end")?;
        add(alloc, &mut system, name, text.as_bytes(), 1_048_576)?;
    }
    Ok(system)
}

#[test]
fn files_may_have_32_mebibytes(rt: HostRuntime) -> Result<(), Fail> {
    let alloc = rt.alloc();
    let mut system = mebibytes(alloc, 31)?;
    let is_so = ends_so(&rt, alloc, &mut system, Status::Yes, b"yes 32 classes\n")?;
    assert!(rt; is_so);
    add(alloc, &mut system, String::from_str(alloc, "l.e")?, b" ", 1)?;
    let is_so = ends_so(&rt, alloc, &mut system, Status::TooLarge, b"")?;
    assert!(rt; is_so);
    Ok(())
}

/// A chain of classes, in which so many inherit from the one before.
fn chain(alloc: Global, count: usize) -> Result<System, Memory> {
    let mut system = new_system(alloc, &["--root", "app.make"])?;
    app(alloc, &mut system, 0)?;
    add(
        alloc,
        &mut system,
        String::from_str(alloc, "p0.e")?,
        b"class P0 end",
        0,
    )?;
    for i in 0..count {
        let name = format!(in alloc; "p{}.e", i + 1)?;
        let text = format!(in alloc; "class P{} inherit P{i} end", i + 1)?;
        add(alloc, &mut system, name, text.as_bytes(), 0)?;
    }
    Ok(system)
}

#[test]
fn a_class_may_have_256_ancestors(rt: HostRuntime) -> Result<(), Fail> {
    let alloc = rt.alloc();
    let mut system = chain(alloc, 256)?;
    let report = b"XLIM p256 - p256.e:1:7 p256\nno 1 faults\n";
    let is_so = ends_so(&rt, alloc, &mut system, Status::Faults, report)?;
    assert!(rt; is_so);
    Ok(())
}

/// `APP`, a class `A` and a class with 17 formals and 65 parents.
fn many(alloc: Global, form: &str) -> Result<System, Memory> {
    let mut system = new_system(alloc, &["--root", "app.make", "--form", form])?;
    app(alloc, &mut system, 0)?;
    add(
        alloc,
        &mut system,
        String::from_str(alloc, "a.e")?,
        b"class A end",
        0,
    )?;
    let mut text = String::from_str(alloc, "class B [G1")?;
    for i in 2..18 {
        text.push_str(&format!(in alloc; ", G{i}")?)?;
    }
    text.push_str("] inherit")?;
    for _ in 0..65 {
        text.push_str(" A")?;
    }
    text.push_str(" end")?;
    add(
        alloc,
        &mut system,
        String::from_str(alloc, "b.e")?,
        text.as_bytes(),
        0,
    )?;
    Ok(system)
}

#[test]
fn a_class_may_have_16_formals_and_64_parents(rt: HostRuntime) -> Result<(), Fail> {
    let alloc = rt.alloc();
    let report = b"XLIM b - b.e:1:7 b\nno 1 faults\n";
    let is_so = ends_so(&rt, alloc, &mut many(alloc, "1")?, Status::Faults, report)?;
    assert!(rt; is_so);
    let report = b"XLIM.1 b - b.e:1:7 b\nXLIM.3 b - b.e:1:7 b\nXLIM 2\nno 2 faults\n";
    let is_so = ends_so(&rt, alloc, &mut many(alloc, "2")?, Status::Faults, report)?;
    assert!(rt; is_so);
    Ok(())
}

/// So many plain classes.
fn plain(alloc: Global, count: usize) -> Result<System, Memory> {
    let mut system = new_system(alloc, &["--root", "c0.make", "--workers", "4"])?;
    for i in 0..count {
        let name = format!(in alloc; "c{i}.e")?;
        let text = format!(in alloc; "class C{i} create make feature make do make end end")?;
        add(alloc, &mut system, name, text.as_bytes(), 0)?;
    }
    Ok(system)
}

#[test]
fn a_system_may_have_8192_files(rt: HostRuntime) -> Result<(), Fail> {
    let alloc = rt.alloc();
    let mut system = plain(alloc, 8192)?;
    let is_so = ends_so(&rt, alloc, &mut system, Status::Yes, b"yes 8192 classes\n")?;
    assert!(rt; is_so);
    let mut system = plain(alloc, 8193)?;
    let is_so = ends_so(&rt, alloc, &mut system, Status::TooLarge, b"")?;
    assert!(rt; is_so);
    Ok(())
}

/// The text of a class `M` with so many attributes.
fn wide(alloc: Global, count: usize) -> Result<String, Memory> {
    let mut text = String::from_str(alloc, "class M feature f0")?;
    for i in 1..count {
        text.push_str(&format!(in alloc; ", f{i}")?)?;
    }
    text.push_str(": INTEGER end")?;
    Ok(text)
}

/// `APP` and a class `M` with so many attributes, beside the three names of `ANY`.
fn with_wide(alloc: Global, form: &str, count: usize) -> Result<System, Memory> {
    let mut system = new_system(alloc, &["--root", "app.make", "--form", form])?;
    app(alloc, &mut system, 0)?;
    let text = wide(alloc, count)?;
    let name = String::from_str(alloc, "m.e")?;
    add(alloc, &mut system, name, text.as_bytes(), 0)?;
    Ok(system)
}

#[test]
fn a_class_may_have_2048_names(rt: HostRuntime) -> Result<(), Fail> {
    let alloc = rt.alloc();
    let mut system = with_wide(alloc, "1", 2046)?;
    let report = b"XLIM m - m.e:1:7 m\nno 1 faults\n";
    let is_so = ends_so(&rt, alloc, &mut system, Status::Faults, report)?;
    assert!(rt; is_so);
    let mut system = with_wide(alloc, "2", 2046)?;
    let report = b"XLIM.5 m - m.e:1:7 m\nXLIM 1\nno 1 faults\n";
    let is_so = ends_so(&rt, alloc, &mut system, Status::Faults, report)?;
    assert!(rt; is_so);
    let mut system = with_wide(alloc, "1", 2045)?;
    let report = b"XYET m - m.e:1:7 -\nno 1 faults\n";
    let is_so = ends_so(&rt, alloc, &mut system, Status::Faults, report)?;
    assert!(rt; is_so);
    Ok(())
}

/// A class `B` with an attribute whose type has so many names, all `B` but the last.
fn deep(alloc: Global, count: usize, last: &str) -> Result<String, Memory> {
    let mut text = String::from_str(alloc, "class B [G] feature f: detachable ")?;
    for _ in 1..count {
        text.push_str("B [")?;
    }
    text.push_str(last)?;
    for _ in 1..count {
        text.push_str("]")?;
    }
    text.push_str(" end")?;
    Ok(text)
}

/// `APP` and that class.
fn with_deep(alloc: Global, count: usize, last: &str) -> Result<System, Memory> {
    let mut system = new_system(alloc, &["--root", "app.make"])?;
    app(alloc, &mut system, 0)?;
    let text = deep(alloc, count, last)?;
    let name = String::from_str(alloc, "b.e")?;
    add(alloc, &mut system, name, text.as_bytes(), 0)?;
    Ok(system)
}

#[test]
fn a_type_may_have_100_names(rt: HostRuntime) -> Result<(), Fail> {
    let alloc = rt.alloc();
    let mut system = with_deep(alloc, 101, "ANY")?;
    let report = b"XLIM b f b.e:1:24 b\nno 1 faults\n";
    let is_so = ends_so(&rt, alloc, &mut system, Status::Faults, report)?;
    assert!(rt; is_so);
    let mut system = with_deep(alloc, 100, "ANY")?;
    let report = b"XYET b - b.e:1:7 -\nno 1 faults\n";
    let is_so = ends_so(&rt, alloc, &mut system, Status::Faults, report)?;
    assert!(rt; is_so);
    Ok(())
}

/// `APP`, the class `B` with 100 names in that type, the last of them its formal, and an heir `D`.
fn with_deep_heir(alloc: Global, heir: &[u8]) -> Result<System, Memory> {
    let mut system = with_deep(alloc, 100, "G")?;
    let name = String::from_str(alloc, "d.e")?;
    add(alloc, &mut system, name, heir, 0)?;
    Ok(system)
}

#[test]
fn an_inherited_type_may_have_100_names(rt: HostRuntime) -> Result<(), Fail> {
    let alloc = rt.alloc();
    let mut system = with_deep_heir(alloc, b"class D inherit B [ANY] end")?;
    let report = b"XYET b - b.e:1:7 -\nXYET d - d.e:1:7 -\nno 2 faults\n";
    let is_so = ends_so(&rt, alloc, &mut system, Status::Faults, report)?;
    assert!(rt; is_so);
    let mut system = with_deep_heir(alloc, b"class D inherit B [B [ANY]] end")?;
    let report = b"XLIM d - d.e:1:7 f\nno 1 faults\n";
    let is_so = ends_so(&rt, alloc, &mut system, Status::Faults, report)?;
    assert!(rt; is_so);
    Ok(())
}

/// A class `M` with 2,048 names, and a chain of so many heirs. The ancestors of the heir with the number k have
/// 2,048 names k + 1 times, and the three of `ANY`.
fn wide_chain(alloc: Global, count: usize) -> Result<System, Memory> {
    let mut system = with_wide(alloc, "2", 2045)?;
    let name = String::from_str(alloc, "q0.e")?;
    add(alloc, &mut system, name, b"class Q0 inherit M end", 0)?;
    for i in 1..count {
        let name = format!(in alloc; "q{i}.e")?;
        let text = format!(in alloc; "class Q{i} inherit Q{} end", i - 1)?;
        add(alloc, &mut system, name, text.as_bytes(), 0)?;
    }
    Ok(system)
}

#[test]
fn ancestors_may_have_65536_names(rt: HostRuntime) -> Result<(), Fail> {
    let alloc = rt.alloc();
    let mut system = wide_chain(alloc, 32)?;
    let report = b"XLIM.8 q31 - q31.e:1:7 q31\nXLIM 1\nno 1 faults\n";
    let is_so = ends_so(&rt, alloc, &mut system, Status::Faults, report)?;
    assert!(rt; is_so);
    Ok(())
}

/// `APP` and a chain of classes, in which so many inherit twice from the one before.
fn doubled_chain(alloc: Global, count: usize) -> Result<System, Memory> {
    let mut system = new_system(alloc, &["--root", "app.make"])?;
    app(alloc, &mut system, 0)?;
    let name = String::from_str(alloc, "d0.e")?;
    let text = b"class D0 feature f do end end";
    add(alloc, &mut system, name, text, 0)?;
    for i in 0..count {
        let name = format!(in alloc; "d{}.e", i + 1)?;
        let text = format!(in alloc; "class D{} inherit D{i} D{i} end", i + 1)?;
        add(alloc, &mut system, name, text.as_bytes(), 0)?;
    }
    Ok(system)
}

#[test]
fn paths_are_not_counted_out(rt: HostRuntime) -> Result<(), Fail> {
    let alloc = rt.alloc();
    let mut system = doubled_chain(alloc, 40)?;
    let end = b"XYET d9 - d9.e:1:7 -\nno 41 faults\n";
    let is_so = tells_last(&rt, alloc, &mut system, end)?;
    assert!(rt; is_so);
    Ok(())
}
