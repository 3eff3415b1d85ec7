//! The classes of the examples of what creators set.

ghost use Rattle.std.specs.Prelude.{◌≡◌, map};
ghost use Rattle.eif_examples.specs.CreationFlowTrees.{sparse_creation_flow_trees};
ghost use Rattle.eif_examples.specs.Compared.{sparse};

use crate::rows::SparseRow;

pub(crate) const SPARSE_CREATION_FLOW: [SparseRow; 49] = [
    // CreatorExamples
    (
        947064961823309443,
        0,
        &[6],
        b"class APP feature name: STRING end",
    ),
    (
        797923914050918411,
        0,
        &[6, 17],
        b"class APP create make feature name: detachable STRING count: INTEGER make do print (name) print (count) end end",
    ),
    (
        414626429922146229,
        0,
        &[17],
        b"class APP\ncreate make\nfeature name: STRING make do if True then name := \"a\" end end end",
    ),
    (
        1200698494702724831,
        0,
        &[17],
        b"class APP\ncreate make\nfeature name: STRING make do if True then name := \"a\" else name := \"a\" end end end",
    ),
    (
        1778282275904240755,
        0,
        &[17],
        b"class APP\ncreate make\nfeature name: STRING make do if True then name := \"a\" elseif False then else name := \"a\" end end end",
    ),
    (
        490151480803636242,
        0,
        &[17],
        b"class APP\ncreate make\nfeature name: STRING make do end end",
    ),
    (11194234098933523, 0, &[], b"class A feature end"),
    (
        697155993437676186,
        0,
        &[17, 120],
        b"class APP\ncreate make\nfeature\n  name: STRING\n  make\n    local\n      other: A\n    do\n      create other\n      other.put (Current)\n      name := \"a\"\n    end\nend\n",
    ),
    (
        1655914231906627350,
        0,
        &[17, 138],
        b"class APP\ncreate make\nfeature\n  name: STRING\n  make\n    local\n      other: A\n    do\n      create other\n      name := \"a\"\n      other.put (Current)\n    end\nend\n",
    ),
    (
        79876983922265703,
        0,
        &[6, 17],
        b"class APP create make feature name: STRING make do from name := \"a\" until True loop print (name) end end fill: BOOLEAN do name := \"a\" end end",
    ),
    (
        969662541231342901,
        0,
        &[6, 17],
        b"class APP create make feature name: STRING make do from until True loop name := \"a\" end end fill: BOOLEAN do name := \"a\" end end",
    ),
    (
        1913130630688410882,
        0,
        &[6, 17, 79],
        b"class APP create make feature name: STRING make do from until fill loop print (name) end end fill: BOOLEAN do name := \"a\" end end",
    ),
    (
        333806507503745798,
        0,
        &[6, 17, 23, 79],
        b"class APP create make, other feature name: STRING title: STRING make do print (Current) name := \"a\" title := \"a\" end other do name := \"a\" end end",
    ),
    (
        327974133651908538,
        0,
        &[6],
        b"class APP inherit ANY rename default_create as start end feature name: STRING end",
    ),
    (
        183340339409606461,
        0,
        &[],
        b"class PERSON create make feature name: STRING make do name := \"a\" end end",
    ),
    (
        1540794412807058372,
        0,
        &[32],
        b"class APP\ninherit PERSON\ncreate make\nfeature\n  title: STRING\nend\n",
    ),
    (
        2092251915422775552,
        0,
        &[83],
        b"class APP\ninherit\n  PERSON select name end\n  PERSON rename name as nick end\ncreate make\nfeature\nend\n",
    ),
    // NameExamples
    (
        1682917275679173459,
        0,
        &[],
        b"class A create make feature make do end end",
    ),
    (
        725600400080560702,
        1,
        &[108],
        b"deferred class K feature b: A make local x: detachable A do create x.make if attached x as y then print (y) b.make end create b.make end end",
    ),
    (
        444899182247792336,
        0,
        &[6, 25],
        b"class D inherit K create make feature y: STRING do create b.make Result := \"a\" end end",
    ),
    (
        288884419838739514,
        0,
        &[],
        b"class P create make feature make local z: STRING do z := \"a\" print (z) end end",
    ),
    (
        989363597654142854,
        0,
        &[6, 27],
        b"class APP inherit P create make feature z: STRING end",
    ),
    (
        920351735015579094,
        0,
        &[6, 17],
        b"class APP create make feature z: STRING make local z: STRING do z := \"a\" end end",
    ),
    (
        402871481786231088,
        0,
        &[6, 17, 121],
        b"class APP create make feature y: STRING make local x: detachable STRING do if attached x as y then print (y) else print (y) end y := \"a\" end end",
    ),
    // SelfCallExamples
    (
        942786508206857800,
        0,
        &[],
        b"class APP inherit PERSON rename make as make_person end create make feature title: STRING make do make_person title := \"a\" end end",
    ),
    (
        370342663632986384,
        1,
        &[6, 15, 36],
        b"class P create make feature make do set end set do end end",
    ),
    (
        137413694074164322,
        0,
        &[6, 44, 84],
        b"class APP inherit P redefine set end create make feature name: STRING set do print (name) name := \"a\" end end",
    ),
    (
        92711439550121099,
        0,
        &[6, 50],
        b"class APP inherit PERSON redefine make end create make feature title: STRING make do end end",
    ),
    (
        1550357074031126278,
        0,
        &[6, 50, 85],
        b"class APP inherit PERSON redefine make end create make feature title: STRING make do Precursor title := \"a\" end end",
    ),
    (
        1778382618175123983,
        0,
        &[6, 50],
        b"class APP inherit PERSON redefine make end create make feature title: STRING make do title := \"a\" end end",
    ),
    (
        381392173495776145,
        1,
        &[74],
        b"class P create make feature f: STRING do Result := \"a\" end make do print (f) end end",
    ),
    (
        1153147981342633116,
        0,
        &[6, 42],
        b"class APP inherit P redefine f end create make feature f: STRING end",
    ),
    (
        1710739852287372082,
        0,
        &[],
        b"class P feature a: STRING make do a := \"a\" end end",
    ),
    (
        1605465436471091476,
        0,
        &[],
        b"class Q feature b: STRING make do b := \"a\" end end",
    ),
    (
        1937328806829930838,
        0,
        &[],
        b"class APP inherit P redefine make end Q redefine make end create make feature make do Precursor {P} end end",
    ),
    (
        1129703866245710643,
        0,
        &[],
        b"class APP inherit P redefine make end Q redefine make end create make feature make do Precursor {Q} end end",
    ),
    (
        223930222585958920,
        0,
        &[6, 17, 51, 94],
        b"class APP create make feature name: STRING make do help name := \"a\" end help do if False then help end end end",
    ),
    (
        724038023448669482,
        0,
        &[6, 17],
        b"class APP create make feature name: STRING make do name := \"a\" odd end even do odd end odd do even end end",
    ),
    (
        1523712758395096807,
        0,
        &[6, 17, 77],
        b"class APP create make feature name: STRING make do name := \"a\" if False then make end end end",
    ),
    (
        912882375763837629,
        0,
        &[6, 17, 65],
        b"class APP create make feature name: STRING make do if False then make end name := \"a\" end end",
    ),
    (
        688971560737752940,
        0,
        &[],
        b"class P feature f do g end g do end end",
    ),
    (
        105422581684003562,
        0,
        &[],
        b"class APP inherit P redefine f, g end create make feature name: STRING make do name := \"a\" f end f do Precursor end g do f end end",
    ),
    (
        319360293489866222,
        0,
        &[6, 17],
        b"class APP create make feature name: STRING = \"a\" make do print (name) end end",
    ),
    (
        1327333199428069270,
        0,
        &[6, 17],
        b"class APP create make feature name: STRING make do if True and fill then print (name) end end fill: BOOLEAN do name := \"a\" end end",
    ),
    (
        853432635362691624,
        0,
        &[6, 17, 85],
        b"class APP create make feature name: STRING make do if True and then fill then print (name) end end fill: BOOLEAN do name := \"a\" end end",
    ),
    (
        346915332831734138,
        0,
        &[6, 17],
        b"class APP create make feature name: STRING make do if True and then (fill and name.is_empty) then end name := \"a\" end fill: BOOLEAN do name := \"a\" end end",
    ),
    (
        621494510797084692,
        0,
        &[6, 17, 67],
        b"class APP create make feature name: STRING make do if True implies name.is_empty then end name := \"a\" end fill: BOOLEAN do name := \"a\" end end",
    ),
    (
        1524620179006337505,
        0,
        &[6, 17, 84],
        b"class APP create make feature name: STRING make do if True or else fill then print (name) end end fill: BOOLEAN do name := \"a\" end end",
    ),
    (
        662073348008219583,
        0,
        &[6, 17],
        b"class APP create make feature name: STRING make do if True implies fill then end end fill: BOOLEAN do name := \"a\" end end",
    ),
];

/// The digests are those of the trees that have some of their places.
pub fn sparse_creation_flow_digests()
    ensures { map (λ r. r.0) SPARSE_CREATION_FLOW ≡ map sparse sparse_creation_flow_trees }
{}
