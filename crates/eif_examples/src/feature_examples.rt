//! The classes of the examples of features, dynamic binding and signatures.

ghost use Rattle.std.specs.Prelude.{◌≡◌, map};
ghost use Rattle.eif_examples.specs.FeatureExampleTrees.{sparse_feature_example_trees};
ghost use Rattle.eif_examples.specs.Compared.{sparse};

use crate::rows::SparseRow;

pub(crate) const SPARSE_FEATURE_EXAMPLES: [SparseRow; 46] = [
    // BindingExamples
    (
        828817649227163188,
        0,
        &[],
        b"class PERSON create make feature name: STRING make do end end",
    ),
    (
        517777257393671939,
        0,
        &[],
        b"class APP inherit PERSON rename make as make_person end create make feature title: STRING make do end end",
    ),
    // FeatureExamples
    (
        516923230878166093,
        0,
        &[],
        b"class P feature f deferred end end",
    ),
    (1216989938532804626, 0, &[], b"class Q feature f do end end"),
    (57748929880791319, 0, &[], b"class R feature f: INTEGER end"),
    (1665237705504326108, 0, &[], b"class S inherit Q end"),
    (1460998695461670880, 0, &[], b"class D inherit P end"),
    (1636412056301356118, 0, &[], b"class D inherit P Q end"),
    (
        1444488536142105129,
        0,
        &[],
        b"class D inherit P Q undefine f end end",
    ),
    (
        430746568652907681,
        0,
        &[],
        b"class D inherit Q undefine f end R end",
    ),
    (1205973000665771273, 0, &[], b"class D inherit Q R end"),
    (
        1812513476467786445,
        0,
        &[],
        b"class D inherit Q R rename f as g end end",
    ),
    (1517667337564680740, 0, &[], b"class D inherit Q S end"),
    (
        1290277028532132751,
        0,
        &[],
        b"class D inherit R undefine f end end",
    ),
    (
        1682211252574338823,
        0,
        &[],
        b"class D inherit Q rename f as g, f as h end end",
    ),
    (
        510753343565570498,
        0,
        &[],
        b"class D inherit Q redefine f end feature f do end end",
    ),
    (
        336189511279646482,
        0,
        &[],
        b"class D inherit Q redefine f end feature f deferred end end",
    ),
    (
        2213857798253491652,
        0,
        &[],
        b"class D feature f do end f: INTEGER end",
    ),
    (
        1790286321233737826,
        0,
        &[],
        b"class D feature f: INTEGER f do end end",
    ),
    (
        1429651429758634866,
        0,
        &[],
        b"class D feature c: INTEGER = 1 end",
    ),
    (
        1926747729089153966,
        0,
        &[],
        b"class D feature fa do end f_1 do end f1 do end f do end end",
    ),
    // BindingExamples
    (474856545998310314, 0, &[], b"class Z feature f do end end"),
    (288029157499370740, 0, &[], b"class B inherit Z end"),
    (
        1086904838199699460,
        0,
        &[],
        b"class C inherit Z rename f as g end end",
    ),
    (
        658242921208698749,
        0,
        &[],
        b"class APP inherit B C create make feature make do end end",
    ),
    (
        1073974203718532778,
        0,
        &[],
        b"class APP inherit B select f end C create make feature make do end end",
    ),
    (
        1467016730095388785,
        0,
        &[],
        b"class APP inherit B select f end C select g end create make feature make do end end",
    ),
    (
        1616766565234663165,
        0,
        &[],
        b"class APP inherit B select f end create make feature make do end end",
    ),
    (
        2117007579530458276,
        0,
        &[],
        b"class APP inherit B B create make feature make do end end",
    ),
    (
        1595384188679673371,
        0,
        &[],
        b"class APP inherit C rename g as h end create make feature make do end end",
    ),
    (
        183862465215727442,
        0,
        &[],
        b"class APP inherit B rename f as h select h end C rename g as f end create make feature make do end end",
    ),
    (
        1786143159781109860,
        0,
        &[],
        b"class APP inherit PERSON select name end PERSON rename name as nick end create make end",
    ),
    // SignatureExamples
    (
        172615245284234607,
        0,
        &[],
        b"class LINK [G] create make feature item: G next: detachable LINK [G] make (v: G) do end set_next (n: detachable LINK [G]) do end end",
    ),
    (
        1645243556309720840,
        0,
        &[],
        b"class NAMES inherit LINK [STRING] rename item as name end end",
    ),
    (
        931806166877580877,
        0,
        &[],
        b"class ROWS [H] inherit LINK [ARRAY [H]] end",
    ),
    (
        2062025276941289022,
        0,
        &[],
        b"class TABLE inherit ROWS [INTEGER] end",
    ),
    (
        504028836710968545,
        0,
        &[],
        b"class BOX [G] feature same: G sure: attached G maybe: detachable G c: INTEGER = 1 end",
    ),
    (
        1840221056601092042,
        0,
        &[],
        b"class D inherit BOX [STRING] end",
    ),
    (
        11035037048664181,
        0,
        &[],
        b"class D inherit BOX [detachable STRING] end",
    ),
    (
        250895878625454573,
        0,
        &[],
        b"class P feature f: detachable ANY deferred end end",
    ),
    (
        2027652072795735635,
        0,
        &[],
        b"class Q [G] feature f: G do end end",
    ),
    (
        848778102619584020,
        0,
        &[],
        b"class D inherit P Q [STRING] redefine f end feature f: INTEGER do end end",
    ),
    (
        789013296345796467,
        0,
        &[],
        b"class D inherit Q [STRING] redefine f end Q [STRING] redefine f end feature f: INTEGER do end end",
    ),
    (
        1879459677599998470,
        0,
        &[],
        b"class D inherit P Q [STRING] end",
    ),
    (
        1624293485761587731,
        0,
        &[],
        b"class D inherit P Q [STRING] undefine f end end",
    ),
    (
        1182463017031676042,
        0,
        &[],
        b"class D inherit Q [STRING] undefine f end P end",
    ),
];

/// The digests are those of the trees that have none of their places.
pub fn sparse_feature_examples_digests()
    ensures { map (λ r. r.0) SPARSE_FEATURE_EXAMPLES ≡ map sparse sparse_feature_example_trees }
{}
