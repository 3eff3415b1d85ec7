//! The digest of instructions.

ghost use Rattle.std.specs.Prelude.{◌≡◌, map};
ghost use Rattle.eif_tree.specs.View.{branch_view, branches_from, instr_view, inss_from};
ghost use Rattle.eif_examples.specs.Digest.{after, reads_of};
ghost use Rattle.eif_examples.specs.Numbers as its;

use crate::expressions::{claims, expression, expressions, maybe_expression, maybe_type};
use crate::parts::{maybe_name, mixed, name, place};
use crate::places::Places;
use eif_tree::{Branch, Instr};

#[cycle(instructions)]
fn instruction(places: Places, value: u64, instr: &Instr) -> u64
    ensures { result ≡ after value
        (its.ins_numbers (reads_of places.entry) (instr_view instr.now)) }
{
    match instr {
        Instr::Assign {
            target,
            value: source,
        } => {
            let to = name(places, mixed(value, 0), target);
            expression(places, to, source)
        }
        Instr::Call { call } => expression(places, mixed(value, 1), call),
        Instr::Create {
            place: at,
            type_tree,
            target,
            creator,
            args,
        } => {
            let begun = place(places, mixed(value, 2), *at);
            let of = maybe_type(places, begun, type_tree);
            let by = maybe_name(places, name(places, of, target), creator);
            expressions(places, by, args)
        }
        Instr::If {
            branches: tested,
            otherwise: Some(other),
        } => {
            let chosen = branches(places, mixed(value, 3), tested);
            compound(places, mixed(chosen, 1), other)
        }
        Instr::If {
            branches: tested,
            otherwise: None,
        } => {
            let chosen = branches(places, mixed(value, 3), tested);
            mixed(chosen, 0)
        }
        Instr::Loop {
            start,
            invariants,
            exit,
            body,
            variant,
        } => {
            let begun = compound(places, mixed(value, 4), start);
            let kept = claims(places, begun, invariants);
            let done = compound(places, expression(places, kept, exit), body);
            maybe_expression(places, done, variant)
        }
        Instr::Check { claims: claimed } => claims(places, mixed(value, 5), claimed),
    }
}

#[cycle(instructions)]
pub(crate) fn compound(places: Places, value: u64, instrs: &[Instr]) -> u64
    ensures { result ≡ after value
        (its.inss_numbers (reads_of places.entry) (inss_from (map instr_view instrs.now))) }
{
    let mut so_far = value;
    'instrs: for instr in instrs {
        so_far = instruction(places, mixed(so_far, 1), instr);
    }
    mixed(so_far, 0)
}

#[cycle(instructions)]
fn branches(places: Places, value: u64, tested: &[Branch]) -> u64
    ensures { result ≡ after value
        (its.branches_numbers (reads_of places.entry)
        (branches_from (map branch_view tested.now))) }
{
    let mut so_far = value;
    'tested: for branch in tested {
        let condition = expression(places, mixed(so_far, 1), &branch.condition);
        so_far = compound(places, condition, &branch.body);
    }
    mixed(so_far, 0)
}
