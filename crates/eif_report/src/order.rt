ghost use Rattle.std.specs.Prelude.{◌≡◌};
ghost use Rattle.std.specs.Option.{option_map};
ghost use Rattle.eif_base.specs.Appends.{In};
ghost use Rattle.eif_base.specs.FileLists.{names_of};
ghost use Rattle.eif_report.specs.Order.{file_name, file_cmp, place_cmp, line_cmp, fault_cmp, Lists};

use eif_base::{Fault, FaultList, FileList, Place};
use std::cmp::Ordering;

/// Sorts the faults into the order of a report, and lists equal ones once. This takes no memory.
pub fn sort_faults(list: &mut FaultList, files: &FileList)
    ensures { Lists (names_of files.now) list.new (In list.old) }
{
    list.sort_dedup_by(
        |a, b| compare(files, a, b),
        |a, b| compare(files, a, b).is_eq(),
    );
}

fn compare(files: &FileList, a: &Fault, b: &Fault) -> Ordering
    ensures { result ≡ fault_cmp (names_of files.now) a.now b.now }
{
    compare_lines(files, a, b).then(a.case.cmp(&b.case))
}

/// Compares faults by all but their cases.
pub fn compare_lines(files: &FileList, a: &Fault, b: &Fault) -> Ordering
    ensures { result ≡ line_cmp (names_of files.now) a.now b.now }
{
    compare_files(files, a.place.file, b.place.file)
        .then_with(|| compare_places(a.place, b.place))
        .then_with(|| a.code.text().cmp(b.code.text()))
        .then_with(|| a.class.text().cmp(b.class.text()))
        .then_with(|| a.feature.text().cmp(b.feature.text()))
        .then_with(|| a.about.text().cmp(b.about.text()))
}

fn compare_files(files: &FileList, a: u32, b: u32) -> Ordering
    ensures { result
        ≡ file_cmp (file_name (names_of files.now) a) (file_name (names_of files.now) b) }
{
    match (name_of(files, a), name_of(files, b)) {
        (None, None) => Ordering::Equal,
        (None, Some(_)) => Ordering::Less,
        (Some(_), None) => Ordering::Greater,
        (Some(a), Some(b)) => a.as_bytes().cmp(b.as_bytes()),
    }
}

fn name_of(files: &FileList, file: u32) -> Option<&str>
    ensures { option_map (λ name. name.now) result ≡ file_name (names_of files.now) file }
{
    if file < files.count() {
        Some(files.name(file))
    } else {
        None
    }
}

fn compare_places(a: Place, b: Place) -> Ordering
    ensures { result ≡ place_cmp a b }
{
    a.file
        .cmp(&b.file)
        .then(a.offset.cmp(&b.offset))
        .then(a.line.cmp(&b.line))
        .then(a.column.cmp(&b.column))
}
