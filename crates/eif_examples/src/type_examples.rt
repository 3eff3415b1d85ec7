//! The classes of the examples of ancestors, types, conformance, clients and creators.

ghost use Rattle.std.specs.Prelude.{◌≡◌, map};
ghost use Rattle.eif_examples.specs.TypeExampleTrees.{sparse_type_example_trees};
ghost use Rattle.eif_examples.specs.Compared.{sparse};

use crate::rows::SparseRow;

pub(crate) const SPARSE_TYPE_EXAMPLES: [SparseRow; 33] = [
    // AncestryExamples
    (1532926943659052478, 0, &[], b"class LINK [G] end"),
    (
        151066495557612742,
        0,
        &[],
        b"class NAMES inherit LINK [STRING] end",
    ),
    (
        1920885936701461825,
        0,
        &[],
        b"class PAIRS [G, H] inherit LINK [detachable H] end",
    ),
    (1324251860801280111, 0, &[], b"class D end"),
    (
        1828833622704026348,
        0,
        &[],
        b"class D inherit PAIRS [INTEGER, STRING] end",
    ),
    (
        1399151452646424369,
        0,
        &[],
        b"class D inherit NAMES LINK [STRING] end",
    ),
    (
        1875808442307690459,
        0,
        &[],
        b"class D inherit NAMES LINK [detachable STRING] end",
    ),
    (
        1672674596504525547,
        0,
        &[],
        b"class D inherit LINK [ARRAY [ARRAY [ARRAY [ARRAY [ARRAY [ARRAY [ARRAY [ARRAY [ARRAY [ARRAY [ARRAY [ARRAY [ARRAY [ARRAY [ARRAY [ARRAY [ARRAY [ARRAY [ARRAY [ARRAY [ARRAY [ARRAY [ARRAY [ARRAY [ARRAY [ARRAY [ARRAY [ARRAY [ARRAY [ARRAY [ARRAY [ARRAY [ARRAY [ARRAY [ARRAY [ARRAY [ARRAY [ARRAY [ARRAY [ARRAY [ARRAY [ARRAY [ARRAY [ARRAY [ARRAY [ARRAY [ARRAY [ARRAY [ARRAY [ARRAY [ARRAY [ARRAY [ARRAY [ARRAY [ARRAY [ARRAY [ARRAY [ARRAY [ARRAY [ARRAY [ARRAY [ARRAY [ARRAY [ARRAY [ARRAY [ARRAY [ARRAY [ARRAY [ARRAY [ARRAY [ARRAY [ARRAY [ARRAY [ARRAY [ARRAY [ARRAY [ARRAY [ARRAY [ARRAY [ARRAY [ARRAY [ARRAY [ARRAY [ARRAY [ARRAY [ARRAY [ARRAY [ARRAY [ARRAY [ARRAY [ARRAY [ARRAY [ARRAY [ARRAY [ARRAY [ARRAY [ARRAY [ARRAY [ANY]]]]]]]]]]]]]]]]]]]]]]]]]]]]]]]]]]]]]]]]]]]]]]]]]]]]]]]]]]]]]]]]]]]]]]]]]]]]]]]]]]]]]]]]]]]]]]]]]]] end",
    ),
    (
        503824841747437677,
        0,
        &[],
        b"class D inherit LINK [ARRAY [ARRAY [ARRAY [ARRAY [ARRAY [ARRAY [ARRAY [ARRAY [ARRAY [ARRAY [ARRAY [ARRAY [ARRAY [ARRAY [ARRAY [ARRAY [ARRAY [ARRAY [ARRAY [ARRAY [ARRAY [ARRAY [ARRAY [ARRAY [ARRAY [ARRAY [ARRAY [ARRAY [ARRAY [ARRAY [ARRAY [ARRAY [ARRAY [ARRAY [ARRAY [ARRAY [ARRAY [ARRAY [ARRAY [ARRAY [ARRAY [ARRAY [ARRAY [ARRAY [ARRAY [ARRAY [ARRAY [ARRAY [ARRAY [ARRAY [ARRAY [ARRAY [ARRAY [ARRAY [ARRAY [ARRAY [ARRAY [ARRAY [ARRAY [ARRAY [ARRAY [ARRAY [ARRAY [ARRAY [ARRAY [ARRAY [ARRAY [ARRAY [ARRAY [ARRAY [ARRAY [ARRAY [ARRAY [ARRAY [ARRAY [ARRAY [ARRAY [ARRAY [ARRAY [ARRAY [ARRAY [ARRAY [ARRAY [ARRAY [ARRAY [ARRAY [ARRAY [ARRAY [ARRAY [ARRAY [ARRAY [ARRAY [ARRAY [ARRAY [ARRAY [ARRAY [ARRAY [ARRAY [ARRAY [ANY]]]]]]]]]]]]]]]]]]]]]]]]]]]]]]]]]]]]]]]]]]]]]]]]]]]]]]]]]]]]]]]]]]]]]]]]]]]]]]]]]]]]]]]]]]]]]]]]]]]] end",
    ),
    (2171466115364148632, 0, &[], b"class E inherit D end"),
    // ConformanceExamples
    (1055394994157708114, 0, &[], b"class Z end"),
    (288029157499370740, 0, &[], b"class B inherit Z end"),
    (1532926943659052478, 0, &[], b"class LINK [G] end"),
    (
        151066495557612742,
        0,
        &[],
        b"class NAMES inherit LINK [STRING] end",
    ),
    (
        671283084626588186,
        0,
        &[],
        b"class MIXED inherit NAMES LINK [detachable STRING] end",
    ),
    (
        1630674474726739500,
        0,
        &[],
        b"class BOX [G, H -> B, K -> detachable B] end",
    ),
    // TypeExamples
    (
        707069747056214564,
        0,
        &[],
        b"class BOX [G, H -> ARRAY [STRING], K -> detachable STRING] end",
    ),
    (800028807813019312, 0, &[], b"class TALL [STRING] end"),
    // ClientExamples
    (
        2191208499612486628,
        0,
        &[],
        b"class A feature {B, C} f do end feature g do end feature {} h do end feature {NONE} i do end end",
    ),
    (1558315485879213379, 0, &[], b"class B end"),
    (379852808531289040, 0, &[], b"class BB inherit B end"),
    (1397269660405416777, 0, &[], b"class D inherit A end"),
    (
        541347020646832832,
        0,
        &[],
        b"class D inherit A export {D} f {NONE} all end end",
    ),
    (
        371849612292992678,
        0,
        &[],
        b"class D inherit A export {NONE} all {D} f {BB} f, g end end",
    ),
    (
        2044386757357530741,
        0,
        &[],
        b"class D inherit A rename f as k, g as f export {D} f end end",
    ),
    (
        583601339540240323,
        0,
        &[],
        b"class D inherit A A export {D} f end end",
    ),
    (
        1403726908124707562,
        0,
        &[],
        b"class D inherit A redefine f end feature {BB} f do end end",
    ),
    (2018067569646714217, 0, &[], b"class C create {B} make end"),
    (
        437727849286611996,
        0,
        &[],
        b"class C create {B} make create other, make end",
    ),
    (1441283673340246745, 0, &[], b"class C end"),
    (
        353767881511013145,
        0,
        &[],
        b"class C inherit ANY rename default_create as dc end end",
    ),
    (
        2104209550886397319,
        0,
        &[],
        b"class C inherit ANY rename default_create as dc select dc end ANY end",
    ),
    (
        799215307153784895,
        0,
        &[],
        b"class C inherit ANY rename default_create as dc end ANY end",
    ),
];

/// The digests are those of the trees that have none of their places.
pub fn sparse_type_examples_digests()
    ensures { map (λ r. r.0) SPARSE_TYPE_EXAMPLES ≡ map sparse sparse_type_example_trees }
{}
