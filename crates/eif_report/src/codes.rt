//! The lines that say how often each code occurs.

ghost use Rattle.std.specs.Prelude.{◌≡◌, ◌++◌, IfOk, OnOk, count_by, flat_map, position};
ghost use Rattle.std.specs.Ordering.{nat_cmp, is_le};
ghost use Rattle.std.specs.Cmp.Lexicographic.{slice_cmp};
ghost use Rattle.eif_base.specs.Codes.{code_text};
ghost use Rattle.eif_report.specs.Report.{codes_of, count_line, has_code, put_code};

use crate::line::push_number;
use eif_base::{Code, Fault, FaultList, Memory};
use std::alloc::Global;

/// Adds a line for each code that occurs, in the order of their texts.
pub fn push_code_lines(alloc: Global, text: &mut Vec<u8>, list: &FaultList) -> Result<(), Memory>
    ensures { OnOk result (text.new.items
        ≡ text.old.items ++ flat_map (count_line list.now) (codes_of list.now)) }
{
    let codes = occurring_codes(alloc, list)?;
    'codes: for code in &codes {
        push_code_line(alloc, text, list, *code)?;
    }
    Ok(())
}

fn push_code_line(
    alloc: Global,
    text: &mut Vec<u8>,
    list: &FaultList,
    code: Code,
) -> Result<(), Memory>
    ensures { OnOk result (text.new.items ≡ text.old.items ++ count_line list.now code) }
{
    text.extend_from_slice(code.text())?;
    text.push(b' ')?;
    push_number(alloc, text, count_of(list, code))?;
    text.push(b'\n')?;
    Ok(())
}

/// How many faults have the code.
fn count_of(list: &FaultList, code: Code) -> usize
    ensures { result ≡ count_by (has_code code) list.now }
{
    list.iter().filter(|fault| is_of(fault, code)).count()
}

/// Whether the fault has the code.
fn is_of(fault: &Fault, code: Code) -> bool
    ensures { result ≡ has_code code fault.now }
{
    fault.code == code
}

/// The codes that occur, each once, in the order of their texts.
fn occurring_codes(alloc: Global, list: &FaultList) -> Result<Vec<Code>, Memory>
    ensures { IfOk result (λ v. v.items ≡ codes_of list.now) }
{
    let mut codes = Vec::new(alloc);
    'faults: for fault in list.iter().rev() {
        insert_code(&mut codes, fault.code)?;
    }
    Ok(codes)
}

/// Puts the code before the first that is greater, unless it is there.
fn insert_code(codes: &mut Vec<Code>, code: Code) -> Result<(), Memory>
    ensures { OnOk result (codes.new.items ≡ put_code code codes.old.items) }
{
    match place_of(codes, code) {
        None => codes.push(code)?,
        Some(i) => {
            if codes[i] != code {
                codes.insert(i, code)?;
            }
        }
    }
    Ok(())
}

/// The place of the first code that is no less.
fn place_of(codes: &[Code], code: Code) -> Option<usize>
    ensures { result ≡ position
        (λ held. is_le (slice_cmp nat_cmp (code_text code) (code_text held))) codes.now }
{
    codes
        .iter()
        .position(|held| code.text().cmp(held.text()).is_le())
}
