//! The first phase: texts are lexed and parsed, divided among workers.

ghost use Rattle.std.specs.Prelude.{◌≡◌, ◌≤◌, [], ⊤, flat_map, length, IfOk, OnOk, slice_range};
ghost use Rattle.eif_base.specs.FileLists.{texts_of};
ghost use Rattle.eif_rules.specs.FaultForms.{fault_of_text};
ghost use Rattle.eif_check.specs.Limits.{AreShort};
ghost use Rattle.eif_check.specs.Parsed.{IsParsed};
ghost use Rattle.eif_check.specs.TextFaults.{ListGives, TextGives};
ghost use Rattle.eif_check.specs.TextReads.{AddsText, Reads};

use crate::faults::no_name;
use eif_base::limits::{MOST_BYTES, MOST_WORKERS};
use eif_base::{Code, Fault, FaultList, FileList, Gate, Memory, Name, Place};
use eif_lex::{LexError, Tokens, lex};
use eif_par::{PieceWork, in_pieces};
use eif_parse::{ParseError, parse_class};
use eif_tree::ClassTree;
use std::alloc::Global;
use std::thread::Threads;

/// Why a text is no class.
#[derive(Drop)]
enum TextError {
    /// It has this fault.
    Fault(Fault),
    /// There was not enough memory.
    Memory,
}

impl From<Memory> for TextError {
    ghost use Rattle.eif_check.specs.declared.texts.TextError.TheVariants as error;

    ghost from_gives = { λ _ r. r ≡ error.Memory };

    fn from(_error: Memory) -> TextError {
        TextError::Memory
    }
}

/// A fault that is told of no class and no feature.
fn text_fault(alloc: Global, code: Code, place: Place, about: Name) -> Result<Fault, Memory>
    ensures { IfOk result (λ f. f ≡ fault_of_text code place about) }
{
    Ok(Fault {
        code,
        case: 1,
        class: no_name(alloc)?,
        feature: no_name(alloc)?,
        place,
        about,
    })
}

/// A fault that is about no name.
fn nameless_fault(alloc: Global, code: Code, place: Place) -> Result<Fault, Memory>
    ensures { IfOk result (λ f. f ≡ fault_of_text code place []) }
{
    text_fault(alloc, code, place, no_name(alloc)?)
}

/// The class that the tokens are.
fn class_of_tokens(alloc: Global, tokens: &Tokens<'_>) -> Result<ClassTree, TextError>
    ensures { Reads (ListGives tokens.now) result }
{
    match parse_class(alloc, tokens) {
        Ok(tree) => Ok(tree),
        Err(ParseError::Left(place, about)) => {
            Err(TextError::Fault(text_fault(alloc, Code::Xout, place, about)?))
        }
        Err(ParseError::Syntax(place)) => {
            Err(TextError::Fault(nameless_fault(alloc, Code::Xsyn, place)?))
        }
        Err(ParseError::Memory) => Err(TextError::Memory),
    }
}

/// The class that the text of the file with that number is.
fn class_of_text(alloc: Global, file: u32, text: &[u8]) -> Result<ClassTree, TextError>
    requires { length text.now ≤ MOST_BYTES }
    ensures { Reads (TextGives file text.now) result }
{
    match lex(alloc, file, text) {
        Ok(tokens) => class_of_tokens(alloc, &tokens),
        Err(LexError::At(place)) => {
            Err(TextError::Fault(nameless_fault(alloc, Code::Xlex, place)?))
        }
        Err(LexError::Memory) => Err(TextError::Memory),
    }
}

/// What a row of texts is read as: the classes of the texts that are classes, in order, and the
/// faults of the others, in order.
#[derive(Drop)]
pub(crate) struct Parsed {
    pub trees: Vec<ClassTree>,
    pub faults: FaultList,
}

impl Parsed {
    /// Of no text.
    fn new(alloc: Global) -> Parsed
        ensures trees { result.trees.items ≡ [] }
        ensures faults { result.faults ≡ [] }
    {
        Parsed {
            trees: Vec::new(alloc),
            faults: FaultList::new(alloc),
        }
    }

    /// Adds what the text of the file with that number is.
    fn read(&mut self, alloc: Global, file: u32, text: &[u8]) -> Result<(), Memory>
        requires { length text.now ≤ MOST_BYTES }
        ensures { OnOk result (AddsText file text.now self.old self.new) }
    {
        match class_of_text(alloc, file, text) {
            Ok(tree) => self.trees.push(tree)?,
            Err(TextError::Fault(fault)) => self.faults.push(fault)?,
            Err(TextError::Memory) => return Err(Memory),
        }
        Ok(())
    }
}

/// The lexing and parsing of files.
#[derive(Drop)]
struct Parsing<'f> {
    files: &'f FileList,
    ghost short: { AreShort (texts_of files.now) },
}

impl PieceWork for Parsing<'_> {
    type Out = Parsed;

    ghost items = { λ w. length w.files.now };

    ghost needs = { λ _. ⊤ };

    ghost gives = { λ w first past out.
        IsParsed first (slice_range (texts_of w.files.now) first past) out };

    fn run(&self, alloc: Global, first: u32, past: u32) -> Result<Parsed, Memory> {
        let mut parsed = Parsed::new(alloc);
        'files: for file in first..past {
            parsed.read(alloc, file, self.files.text(file))?;
        }
        Ok(parsed)
    }
}

/// The classes and the faults of all pieces, one piece after another.
fn joined(alloc: Global, pieces: Vec<Parsed>) -> Result<Parsed, Memory>
    ensures trees { IfOk result (λ p. p.trees.items ≡ flat_map (λ q. q.trees.items) pieces.items) }
    ensures faults { IfOk result (λ p. p.faults ≡ flat_map (λ q. q.faults) pieces.items) }
{
    let mut whole = Parsed::new(alloc);
    'pieces: for piece in pieces {
        let Parsed { mut trees, faults } = piece;
        whole.trees.append(&mut trees)?;
        whole.faults.merge(&faults)?;
    }
    Ok(whole)
}

/// What the texts of these files are read as, on so many workers.
pub(crate) fn parse_texts<R: Threads + Sync, G: Gate + Sync>(
    rt: &R,
    alloc: Global,
    files: &FileList,
    workers: u32,
    gate: &G,
) -> Result<Parsed, Memory>
    requires workers { (1 ≤ workers) × (workers ≤ MOST_WORKERS) }
    requires short { AreShort (texts_of files.now) }
    ensures { IfOk result (IsParsed 0 (texts_of files.now)) }
{
    let pieces = in_pieces(rt, alloc, workers, files.count(), gate, &Parsing { files })?;
    joined(alloc, pieces)
}
