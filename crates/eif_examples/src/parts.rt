//! The digest of what trees of all kinds share. Each function goes on from the digest of what came before.

ghost use Rattle.std.specs.Prelude.{◌≡◌, [], ◌∷◌};
ghost use Rattle.eif_examples.specs.Digest.{after, mix, reads_of};
ghost use Rattle.eif_examples.specs.Numbers as its;

use crate::places::Places;
use eif_base::Place;
use eif_tree::{Literal, Mark, NameAt, Op, RenamePair};

const MODULUS: u64 = 2_305_843_009_213_693_951;

const BASE: u64 = 1_537_228_672_809_129_301;

/// The value of a polynomial of which all coefficients but the last were read before.
#[tactic(auto, unfolding(crate::specs::Digest::mix))]
pub(crate) fn mixed(value: u64, coefficient: u64) -> u64
    ensures { result ≡ mix value coefficient }
{
    let sum = value as u128 * BASE as u128 + coefficient as u128;
    (sum % MODULUS as u128) as u64
}

pub(crate) fn flag(value: u64, flag: bool) -> u64
    ensures { result ≡ mix value (its.flag_number flag) }
{
    mixed(value, if flag { 1 } else { 0 })
}

pub(crate) fn place(places: Places, value: u64, place: Place) -> u64
    ensures { result ≡ after value (its.place_numbers (reads_of places.entry) place) }
{
    if places.reads(place) {
        let in_file = mixed(mixed(value, place.file as u64), place.offset as u64);
        mixed(mixed(in_file, place.line as u64), place.column as u64)
    } else {
        value
    }
}

pub(crate) fn text(value: u64, text: &[u8]) -> u64
    ensures { result ≡ after value (its.text_numbers text.now) }
{
    let mut so_far = mixed(value, text.len() as u64);
    'text: for byte in text {
        so_far = mixed(so_far, *byte as u64);
    }
    so_far
}

pub(crate) fn mark(value: u64, mark: Mark) -> u64
    ensures { result ≡ mix value (its.mark_number mark) }
{
    match mark {
        Mark::Plain => mixed(value, 0),
        Mark::Attached => mixed(value, 1),
        Mark::Detachable => mixed(value, 2),
    }
}

pub(crate) fn operator(value: u64, op: Op) -> u64
    ensures { result ≡ mix value (its.op_number op) }
{
    mixed(value, op as u64)
}

fn integer(value: u64, n: i64) -> u64
    ensures { result ≡ after value (its.integer_numbers n) }
{
    if n < 0 {
        mixed(mixed(value, 1), -(n + 1) as u64)
    } else {
        mixed(mixed(value, 0), n as u64)
    }
}

pub(crate) fn literal(value: u64, literal: &Literal) -> u64
    ensures { result ≡ after value (its.literal_numbers literal.now) }
{
    match literal {
        Literal::Int(n) => integer(mixed(value, 0), *n),
        Literal::Char(c) => mixed(mixed(value, 1), *c as u64),
        Literal::Text(bytes) => text(mixed(value, 2), bytes.as_slice()),
        Literal::Bool(b) => flag(mixed(value, 3), *b),
    }
}

pub(crate) fn name(places: Places, value: u64, name: &NameAt) -> u64
    ensures { result ≡ after value (its.name_numbers (reads_of places.entry) name.now) }
{
    text(place(places, value, name.place), name.name.text())
}

pub(crate) fn maybe_name(places: Places, value: u64, maybe: &Option<NameAt>) -> u64
    ensures { result
        ≡ after value (its.option_numbers (its.name_numbers (reads_of places.entry)) maybe.now) }
{
    match maybe {
        Some(written) => name(places, mixed(value, 1), written),
        None => mixed(value, 0),
    }
}

pub(crate) fn names(places: Places, value: u64, names: &[NameAt]) -> u64
    ensures { result ≡ after value (its.names_numbers (reads_of places.entry) names.now) }
{
    let mut so_far = value;
    'names: for one in names {
        so_far = name(places, mixed(so_far, 1), one);
    }
    mixed(so_far, 0)
}

fn rename(places: Places, value: u64, pair: &RenamePair) -> u64
    ensures { result ≡ after value (its.rename_numbers (reads_of places.entry) pair.now) }
{
    name(places, name(places, value, &pair.old_name), &pair.new_name)
}

pub(crate) fn renames(places: Places, value: u64, pairs: &[RenamePair]) -> u64
    ensures { result ≡ after value
        (its.list_numbers (its.rename_numbers (reads_of places.entry)) pairs.now) }
{
    let mut so_far = value;
    'pairs: for pair in pairs {
        so_far = rename(places, mixed(so_far, 1), pair);
    }
    mixed(so_far, 0)
}
