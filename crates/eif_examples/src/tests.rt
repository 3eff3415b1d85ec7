use crate::binding_runs::SPARSE_BINDING_RUNS;
use crate::body_rules::BODY_RULES;
use crate::creation_flow::SPARSE_CREATION_FLOW;
use crate::creation_order::SPARSE_CREATION_ORDER;
use crate::feature_examples::SPARSE_FEATURE_EXAMPLES;
use crate::feature_rules::{FEATURE_RULES, SPARSE_FEATURE_RULES};
use crate::generic_runs::SPARSE_GENERIC_RUNS;
use crate::kernel_runs::SPARSE_KERNEL_RUNS;
use crate::local_flow::LOCAL_FLOW;
use crate::operator_runs::SPARSE_OPERATOR_RUNS;
use crate::order_runs::SPARSE_ORDER_RUNS;
use crate::rows::{Row, SparseRow};
use crate::signature_rules::{SIGNATURE_RULES, SPARSE_SIGNATURE_RULES};
use crate::type_examples::SPARSE_TYPE_EXAMPLES;
use crate::universe_rules::UNIVERSE_RULES;
use crate::wrong_runs::SPARSE_WRONG_RUNS;
use crate::{Places, class_digest};
use eif_lex::lex;
use eif_parse::{ParseError, parse_class};
use eif_tree::ClassTree;
use std::alloc::Global;

const EVERYWHERE: Places<'static> = Places {
    all: true,
    offsets: &[],
};

/// The class of a text, which is one.
fn parsed(alloc: Global, file: u32, text: &[u8]) -> Result<ClassTree, ParseError> {
    if 1048576 < text.len() {
        return Err(ParseError::Memory);
    }
    match lex(alloc, file, text) {
        Ok(tokens) => parse_class(alloc, &tokens),
        Err(_) => Err(ParseError::Memory),
    }
}

/// Whether the text is parsed to a tree with that digest.
fn is_parsed_to(alloc: Global, places: Places, digest: u64, file: u32, text: &[u8]) -> bool {
    match parsed(alloc, file, text) {
        Ok(class) => class_digest(places, &class) == digest,
        Err(_) => false,
    }
}

/// The first class text that is parsed to another tree.
fn other(alloc: Global, rows: &[Row]) -> Option<&'static [u8]> {
    for row in rows {
        if !is_parsed_to(alloc, EVERYWHERE, row.0, row.1, row.2) {
            return Some(row.2);
        }
    }
    None
}

fn other_sparse(alloc: Global, rows: &[SparseRow]) -> Option<&'static [u8]> {
    for row in rows {
        let places = Places {
            all: false,
            offsets: row.2,
        };
        if !is_parsed_to(alloc, places, row.0, row.1, row.3) {
            return Some(row.3);
        }
    }
    None
}

#[test]
fn trees_of_universe_rules(rt: HostRuntime) {
    assert_eq!(rt; other(rt.alloc(), &UNIVERSE_RULES), None);
}

#[test]
fn trees_of_feature_rules(rt: HostRuntime) {
    assert_eq!(rt; other(rt.alloc(), &FEATURE_RULES), None);
    assert_eq!(rt; other_sparse(rt.alloc(), &SPARSE_FEATURE_RULES), None);
}

#[test]
fn trees_of_signature_rules(rt: HostRuntime) {
    assert_eq!(rt; other(rt.alloc(), &SIGNATURE_RULES), None);
    assert_eq!(rt; other_sparse(rt.alloc(), &SPARSE_SIGNATURE_RULES), None);
}

#[test]
fn trees_of_body_rules(rt: HostRuntime) {
    assert_eq!(rt; other(rt.alloc(), &BODY_RULES), None);
}

#[test]
fn trees_of_local_flow(rt: HostRuntime) {
    assert_eq!(rt; other(rt.alloc(), &LOCAL_FLOW), None);
}

#[test]
fn trees_of_creation_flow(rt: HostRuntime) {
    assert_eq!(rt; other_sparse(rt.alloc(), &SPARSE_CREATION_FLOW), None);
}

#[test]
fn trees_of_creation_order(rt: HostRuntime) {
    assert_eq!(rt; other_sparse(rt.alloc(), &SPARSE_CREATION_ORDER), None);
}

#[test]
fn trees_of_type_examples(rt: HostRuntime) {
    assert_eq!(rt; other_sparse(rt.alloc(), &SPARSE_TYPE_EXAMPLES), None);
}

#[test]
fn trees_of_feature_examples(rt: HostRuntime) {
    assert_eq!(rt; other_sparse(rt.alloc(), &SPARSE_FEATURE_EXAMPLES), None);
}

#[test]
fn trees_of_generic_runs(rt: HostRuntime) {
    assert_eq!(rt; other_sparse(rt.alloc(), &SPARSE_GENERIC_RUNS), None);
}

#[test]
fn trees_of_binding_runs(rt: HostRuntime) {
    assert_eq!(rt; other_sparse(rt.alloc(), &SPARSE_BINDING_RUNS), None);
}

#[test]
fn trees_of_kernel_runs(rt: HostRuntime) {
    assert_eq!(rt; other_sparse(rt.alloc(), &SPARSE_KERNEL_RUNS), None);
}

#[test]
fn trees_of_operator_runs(rt: HostRuntime) {
    assert_eq!(rt; other_sparse(rt.alloc(), &SPARSE_OPERATOR_RUNS), None);
}

#[test]
fn trees_of_order_runs(rt: HostRuntime) {
    assert_eq!(rt; other_sparse(rt.alloc(), &SPARSE_ORDER_RUNS), None);
}

#[test]
fn trees_of_wrong_runs(rt: HostRuntime) {
    assert_eq!(rt; other_sparse(rt.alloc(), &SPARSE_WRONG_RUNS), None);
}
