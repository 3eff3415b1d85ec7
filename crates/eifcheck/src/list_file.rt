//! A file with a list of file names, one on each line.

ghost use Rattle.std.specs.Prelude.{◌≡◌, ◌+◌, ◌<◌, ◌≤◌, ◌++◌, ◌∷◌, [], length, map, ◌==◌, position, IfOk, OnOk, IfSome};
ghost use Rattle.eif_base.specs.declared.limits.TheConstants.{MOST_BYTES};
ghost use Rattle.eif_rules.specs.FaultForms.{fault_of_text};
ghost use Rattle.eifcheck.specs.ListFile as the;

use eif_base::{Code, Fault, FaultList, Memory, Name, Place};
use std::alloc::Global;
use std::str;

/// The lines of a list that are not empty: the file names, and a fault for each line that is not
/// UTF-8.
#[derive(Drop)]
pub(crate) struct Lines<'t> {
    pub names: Vec<&'t str>,
    pub faults: FaultList,
}

/// The place of the first line feed.
fn line_feed(text: &[u8]) -> Option<usize>
    ensures { result ≡ position (λ byte. byte == 10) text.now }
{
    text.iter().position(|&byte| byte == b'\n')
}

/// The line without one carriage return at its end.
#[tactic(auto, using(crate::proofs::ListLines::without_return_of))]
fn without_return(line: &[u8]) -> &[u8]
    ensures { result.now ≡ the.without_return line.now }
{
    let Some((last, rest)) = line.split_last() else {
        return line;
    };
    if *last == b'\r' { rest } else { line }
}

/// The fault of a line that is not UTF-8.
fn bad_line(alloc: Global, offset: u32, number: u32) -> Result<Fault, Memory>
    ensures { IfOk result (λ f. f ≡ fault_of_text Code.Xlst (the.line_place offset number) []) }
{
    Ok(Fault {
        code: Code::Xlst,
        case: 1,
        class: Name::from_bytes(alloc, b"")?,
        feature: Name::from_bytes(alloc, b"")?,
        place: Place {
            file: 0,
            offset,
            line: number,
            column: 1,
        },
        about: Name::from_bytes(alloc, b"")?,
    })
}

impl<'t> Lines<'t> {
    /// Adds the line, unless it is empty.
    fn add(&mut self, alloc: Global, offset: u32, number: u32, line: &'t [u8]) -> Result<(), Memory>
        ensures faults { OnOk result (self.new.faults
            ≡ self.old.faults ++ the.faults_on (the.line_of offset number line.entry.now)) }
        ensures names { OnOk result (map (λ name. name.now) self.new.names.items
            ≡ map (λ name. name.now) self.old.names.items
            ++ the.names_on (the.line_of offset number line.entry.now)) }
    {
        if line.is_empty() {
            return Ok(());
        }
        match str::from_utf8(line) {
            Ok(name) => self.names.push(name)?,
            Err(_) => self.faults.push(bad_line(alloc, offset, number)?)?,
        }
        Ok(())
    }
}

/// The lines of a list.
pub(crate) fn list_lines(alloc: Global, text: &[u8]) -> Result<Lines<'_>, Memory>
    requires { length text.now ≤ MOST_BYTES }
    ensures faults { IfOk result (λ l. l.faults ≡ the.list_faults text.now) }
    ensures names { IfOk result (λ l. the.list_faults text.now ≡ []
        → map (λ name. name.now) l.names.items ≡ the.listed_names text.now) }
{
    let mut lines = Lines {
        names: Vec::new(alloc),
        faults: FaultList::new(alloc),
    };
    let mut rest = text;
    let mut offset: u32 = 0;
    let mut number: u32 = 1;
    'lines: while let Some(end) = line_feed(rest) {
        lines.add(alloc, offset, number, without_return(&rest[..end]))?;
        offset += end as u32 + 1;
        number += 1;
        rest = &rest[end + 1..];
    }
    lines.add(alloc, offset, number, rest)?;
    Ok(lines)
}
