//! The classes of the examples of the rules of features and derivations.

ghost use Rattle.std.specs.Prelude.{◌≡◌, map};
ghost use Rattle.eif_examples.specs.FeatureRulesTrees.{feature_rules_trees, sparse_feature_rules_trees};
ghost use Rattle.eif_examples.specs.Compared.{exact, sparse};

use crate::rows::{Row, SparseRow};

pub(crate) const FEATURE_RULES: [Row; 107] = [
    // ClauseExamples
    (
        373392982914886631,
        1,
        b"deferred class A feature f do end g do end x: ANY h deferred end k: INTEGER = 1 end",
    ),
    (973156423184380209, 0, b"deferred class B end"),
    (
        1943807529043090884,
        0,
        b"deferred class B inherit A rename nope as n end end",
    ),
    (
        238478703640356412,
        0,
        b"deferred class B inherit A rename f as n, f as m end end",
    ),
    (
        2061662045640060725,
        0,
        b"deferred class B inherit A rename f as n, g as m end end",
    ),
    (
        719180762577282736,
        0,
        b"deferred class B inherit A rename no as n, no as m end end",
    ),
    (
        238514146873864996,
        0,
        b"deferred class B inherit A export {ANY} nope end end",
    ),
    (
        992897690609309493,
        0,
        b"deferred class B inherit A rename f as n export {ANY} f end end",
    ),
    (
        108520097988895806,
        0,
        b"deferred class B inherit A export {ANY} f {NONE} f end end",
    ),
    (
        1043603108685624207,
        0,
        b"deferred class B inherit A export {ANY} f {NONE} g end end",
    ),
    (
        66158638205493897,
        0,
        b"deferred class B inherit A export {ANY} all {NONE} all end end",
    ),
    (
        1774211588628983737,
        0,
        b"deferred class B inherit A export {ANY} all {NONE} f end end",
    ),
    (
        1271981714270387317,
        0,
        b"deferred class B inherit A export {ANY} no, no end end",
    ),
    (
        2064610943362901941,
        0,
        b"deferred class B inherit A undefine nope end end",
    ),
    (
        2196335933619981639,
        0,
        b"deferred class B inherit A undefine f, f end end",
    ),
    (
        1950980988360364717,
        0,
        b"deferred class B inherit A undefine x end end",
    ),
    (
        1037921982425724131,
        0,
        b"deferred class B inherit A undefine h end end",
    ),
    (
        1388710993035761444,
        0,
        b"deferred class B inherit A undefine f, g end end",
    ),
    (
        920890169886757497,
        0,
        b"deferred class B inherit A undefine k end end",
    ),
    (
        422628920117516899,
        0,
        b"deferred class B inherit A rename x as f undefine f end end",
    ),
    (
        794796130181374844,
        0,
        b"deferred class B inherit A undefine x, x end end",
    ),
    (
        791448936686777368,
        0,
        b"deferred class B inherit A rename x as h undefine h end end",
    ),
    (
        2275715721755765992,
        0,
        b"deferred class B inherit A rename f as h undefine h end end",
    ),
    (
        1021609527267545484,
        0,
        b"deferred class B inherit A redefine nope end end",
    ),
    (
        127589671190787524,
        0,
        b"deferred class B inherit A redefine f, f end feature f do end end",
    ),
    (
        1401025914223237968,
        0,
        b"deferred class B inherit A redefine f end feature f do end end",
    ),
    (
        274408542602158121,
        0,
        b"deferred class B inherit A select nope end end",
    ),
    (
        177204740984716646,
        0,
        b"deferred class B inherit A select f, f, x, g, h, k end A rename f as n, x as y, g as i, h as j, k as l end end",
    ),
    (
        333626941418318746,
        0,
        b"deferred class B inherit A select f, x, g, h, k end A rename f as n, x as y, g as i, h as j, k as l end end",
    ),
    (
        384482452805637467,
        0,
        b"deferred class B inherit A redefine no, no end end",
    ),
    (
        2263432898030232759,
        0,
        b"deferred class B inherit A select no, no end end",
    ),
    // CreatorRuleExamples
    (
        136582567240994335,
        1,
        b"class P create make feature make do end end",
    ),
    (941877650463755493, 0, b"class B end"),
    (
        1841901523307162620,
        0,
        b"deferred class B create make, go feature make do end go do end end",
    ),
    (
        1551428810447633629,
        0,
        b"deferred class B feature make do end end",
    ),
    (
        1497608530903568316,
        0,
        b"class B create make feature make: ANY do end end",
    ),
    (
        207582180085386037,
        0,
        b"class B create make, make feature make do end end",
    ),
    (573563323763606410, 0, b"class B inherit P create make end"),
    (
        157119068297862363,
        0,
        b"class B create make, go feature make do end go do end end",
    ),
    (189885111303651639, 0, b"class B create make end"),
    (1013751814336640695, 0, b"class B create go, go end"),
    (
        1777803527088584782,
        0,
        b"class B create go feature go do end make do end end",
    ),
    (
        1206365483433253944,
        0,
        b"class B create make feature make (x: ANY) do end end",
    ),
    (
        821150110362178997,
        0,
        b"class B create make feature make do end end",
    ),
    (1734785562515488350, 0, b"class B feature make do end end"),
    (1734785562515488350, 0, b"class B feature make do end end"),
    (
        1497608530903568316,
        0,
        b"class B create make feature make: ANY do end end",
    ),
    // DeclarationExamples
    (2111993571384607021, 1, b"class A feature f do end end"),
    (1020739374443114296, 2, b"class C feature f do end end"),
    (
        1421157401002185088,
        1,
        b"deferred class D feature f deferred end end",
    ),
    (
        1092573276980481991,
        1,
        b"class N inherit A rename nope as n end end",
    ),
    (941877650463755493, 0, b"class B end"),
    (
        1062803471427695772,
        0,
        b"class B feature f do end f do end end",
    ),
    (
        1166701583727332261,
        0,
        b"class B feature f do end g do end end",
    ),
    (
        134763659019685434,
        0,
        b"class B inherit A redefine f end feature f deferred end f do end end",
    ),
    (
        2012463529294351335,
        0,
        b"class B inherit A feature f do end end",
    ),
    (
        2297214122654903372,
        0,
        b"class B inherit A redefine f end feature f do end end",
    ),
    (
        667553288018383153,
        0,
        b"class B inherit A undefine f end feature f do end end",
    ),
    (
        489606474467275068,
        0,
        b"class B inherit D feature f do end end",
    ),
    (
        2188444768534429579,
        0,
        b"class B inherit A redefine f end end",
    ),
    (
        1597080950391564523,
        0,
        b"deferred class B inherit A feature f deferred end end",
    ),
    (
        1431113619557571859,
        0,
        b"deferred class B inherit A redefine f end feature f deferred end end",
    ),
    (
        318175935555201485,
        0,
        b"deferred class B inherit A undefine f end feature f deferred end end",
    ),
    (
        66677839514116434,
        0,
        b"class B inherit A redefine f, f end end",
    ),
    (1542508080449720836, 0, b"class B feature f: STRING = 1 end"),
    (
        1192512626394044720,
        0,
        b"class B feature f: detachable STRING = \"a\" end",
    ),
    (
        638702493788918630,
        0,
        b"class B feature f, g: ANY = True end",
    ),
    (
        2227575345656085638,
        0,
        b"class B feature f: STRING = 1 f: ANY = 1 end",
    ),
    (55339177280392370, 0, b"class B feature f: INTEGER = 1 end"),
    (
        1485136937309868119,
        0,
        b"class B feature f: attached STRING = \"a\" end",
    ),
    (504951382492220838, 0, b"class B inherit A C end"),
    (
        1393716338456621192,
        0,
        b"class B inherit A C undefine f end end",
    ),
    (816645719391130305, 0, b"class B inherit A D end"),
    (
        742308814134502993,
        0,
        b"class B inherit A undefine f end end",
    ),
    (
        2019073136620843809,
        0,
        b"deferred class B feature f deferred end end",
    ),
    (2187405717908095855, 0, b"class B inherit A A end"),
    (457903704835661992, 0, b"class B feature f deferred end end"),
    (1509619220688561183, 0, b"class B inherit D end"),
    (
        1364138682608524828,
        0,
        b"class B inherit N select nope end end",
    ),
    (1296655302087177378, 2, b"class M inherit N end"),
    (
        2106272075143019140,
        0,
        b"class B inherit M select nope end end",
    ),
    // DerivationExamples
    (116604978376305463, 1, b"class L [G] end"),
    (1646541661400208695, 1, b"class M inherit L [ANY] end"),
    (954099183038024496, 1, b"class N inherit L [STRING] end"),
    (
        919452344136563465,
        1,
        b"class X inherit L [ANY] L [STRING] end",
    ),
    (764342593975179241, 1, b"class B [G -> STRING] end"),
    (45989182734698764, 1, b"class E [G -> ANY] end"),
    (790483217859311772, 1, b"class Y [G -> L [ANY]] end"),
    (707814025385822225, 0, b"class D end"),
    (
        2094045518420932856,
        0,
        b"class D inherit L [ANY] L [STRING] end",
    ),
    (
        990368938638953525,
        0,
        b"class D inherit L [ANY] L [ANY] end",
    ),
    (1353854941692548730, 0, b"class D inherit M N end"),
    (
        876910934229975738,
        0,
        b"class D inherit L [ANY] L [detachable ANY] end",
    ),
    (1516423998201389374, 0, b"class D inherit X M end"),
    (
        903670871749599366,
        0,
        b"class D inherit K [ARRAY [ANY]] end",
    ),
    (1268032005065237729, 0, b"class D inherit K [ANY] end"),
    (
        30368019671843366,
        0,
        b"class D inherit M K [ARRAY [ANY]] end",
    ),
    (1705674432431222821, 0, b"class D feature f: B [ANY] end"),
    (186399371790820573, 0, b"class D feature f: B [STRING] end"),
    (
        1259401527807036016,
        0,
        b"class D feature f: E [detachable STRING] end",
    ),
    (
        1660787337039985477,
        0,
        b"class D feature f: L [detachable ANY] end",
    ),
    (1358346194001475962, 0, b"class D [H] feature f: E [H] end"),
    (
        1721959159786913220,
        0,
        b"class D [H -> ANY] feature f: E [H] end",
    ),
    (
        1087496689019567433,
        0,
        b"class D inherit E [detachable ANY] end",
    ),
    (855236936978147562, 0, b"class D [H -> B [ANY]] end"),
    (
        1369019948652539396,
        0,
        b"class D feature f: L [B [ANY]] end",
    ),
    (
        158227040168322994,
        0,
        b"class D inherit L [ANY] L [STRING] feature f: Y [D] end",
    ),
];

/// The digests are those of the trees.
pub fn feature_rules_digests()
    ensures { map (λ r. r.0) FEATURE_RULES ≡ map exact feature_rules_trees }
{}

pub(crate) const SPARSE_FEATURE_RULES: [SparseRow; 1] = [
    // DerivationExamples
    (
        535956298579873663,
        1,
        &[6, 9],
        b"class K [G] inherit L [ARRAY [ARRAY [ARRAY [ARRAY [ARRAY [ARRAY [ARRAY [ARRAY [ARRAY [ARRAY [ARRAY [ARRAY [ARRAY [ARRAY [ARRAY [ARRAY [ARRAY [ARRAY [ARRAY [ARRAY [ARRAY [ARRAY [ARRAY [ARRAY [ARRAY [ARRAY [ARRAY [ARRAY [ARRAY [ARRAY [ARRAY [ARRAY [ARRAY [ARRAY [ARRAY [ARRAY [ARRAY [ARRAY [ARRAY [ARRAY [ARRAY [ARRAY [ARRAY [ARRAY [ARRAY [ARRAY [ARRAY [ARRAY [ARRAY [ARRAY [ARRAY [ARRAY [ARRAY [ARRAY [ARRAY [ARRAY [ARRAY [ARRAY [ARRAY [ARRAY [ARRAY [ARRAY [ARRAY [ARRAY [ARRAY [ARRAY [ARRAY [ARRAY [ARRAY [ARRAY [ARRAY [ARRAY [ARRAY [ARRAY [ARRAY [ARRAY [ARRAY [ARRAY [ARRAY [ARRAY [ARRAY [ARRAY [ARRAY [ARRAY [ARRAY [ARRAY [ARRAY [ARRAY [ARRAY [ARRAY [ARRAY [ARRAY [ARRAY [ARRAY [ARRAY [ARRAY [ARRAY [ARRAY [G]]]]]]]]]]]]]]]]]]]]]]]]]]]]]]]]]]]]]]]]]]]]]]]]]]]]]]]]]]]]]]]]]]]]]]]]]]]]]]]]]]]]]]]]]]]]]]]]]]] end",
    ),
];

/// The digests are those of the trees that have some of their places.
pub fn sparse_feature_rules_digests()
    ensures { map (λ r. r.0) SPARSE_FEATURE_RULES ≡ map sparse sparse_feature_rules_trees }
{}
