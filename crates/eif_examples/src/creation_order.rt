//! The classes of the examples of generic classes, and those that examples of creation flow make where they are used.

ghost use Rattle.std.specs.Prelude.{◌≡◌, map};
ghost use Rattle.eif_examples.specs.CreationOrderTrees.{sparse_creation_order_trees};
ghost use Rattle.eif_examples.specs.Compared.{sparse};

use crate::rows::SparseRow;

pub(crate) const SPARSE_CREATION_ORDER: [SparseRow; 24] = [
    // CreatorExamples
    (
        708966085341700549,
        0,
        &[17],
        b"class APP\ncreate make\nfeature\n  name: STRING\n  make\n    local\n      other: A\n    do\n      create other\n    end\nend\n",
    ),
    (
        103702224781191797,
        0,
        &[6, 17],
        b"class APP create make feature name: STRING make do create name end fill: BOOLEAN do name := \"a\" end end",
    ),
    // GenericExamples
    (
        1468927063580842645,
        0,
        &[6, 22],
        b"class CELL [G] create make feature item: G make do end end",
    ),
    (
        149022971120893418,
        0,
        &[6, 44],
        b"class NUMBERS inherit CELL [INTEGER] create make feature end",
    ),
    (
        805417879497194870,
        0,
        &[6, 43],
        b"class STRINGS inherit CELL [STRING] create make feature end",
    ),
    (
        1536004375217535154,
        0,
        &[6, 22],
        b"class CELL [G] create make feature item: detachable G make do end end",
    ),
    // NameExamples
    (
        1698992882634791364,
        0,
        &[6, 17, 78],
        b"class APP create make feature y: STRING make do if attached \"a\" as y and then y.is_empty then end y := \"a\" end end",
    ),
    (
        1236629339808856893,
        0,
        &[6, 17, 77],
        b"class APP create make feature y: STRING make do if attached \"a\" as y implies y.is_empty then end y := \"a\" end end",
    ),
    (
        963242211499903860,
        0,
        &[6, 17, 81],
        b"class APP create make feature y: STRING make do if not attached \"a\" as y or else y.is_empty then end y := \"a\" end end",
    ),
    (
        944017912498015237,
        0,
        &[6, 17, 73],
        b"class APP create make feature y: STRING make do if attached \"a\" as y and y.is_empty then end y := \"a\" end end",
    ),
    (
        521645347731025797,
        0,
        &[6, 17],
        b"class APP create make feature y: STRING make do create y y := \"a\" end end",
    ),
    (
        847979506059804313,
        0,
        &[6, 17, 85, 100],
        b"class APP create make feature y: STRING make do if not attached \"a\" as y then print (y) else print (y) end y := \"a\" end end",
    ),
    (
        265702379433129967,
        0,
        &[6, 17, 93],
        b"class APP create make feature y: STRING make do from until not attached \"a\" as y loop print (y) end y := \"a\" end end",
    ),
    // OrderExamples
    (
        2169697373805248059,
        0,
        &[6, 17, 59],
        b"class APP create make feature name: STRING make do name := name end take (s: STRING) do name := s end filled: STRING do name := \"a\" Result := \"a\" end end",
    ),
    (
        874881181637619648,
        0,
        &[6, 17],
        b"class APP create make feature name: STRING make do end take (s: STRING) do name := s end filled: STRING do name := \"a\" Result := \"a\" end end",
    ),
    (
        713311574004628874,
        0,
        &[6, 17, 57],
        b"class APP create make feature name: STRING make do take (name) end take (s: STRING) do name := s end filled: STRING do name := \"a\" Result := \"a\" end end",
    ),
    (
        1096758263414550678,
        0,
        &[6, 17, 51],
        b"class APP create make feature name: STRING make do name.append (filled) end take (s: STRING) do name := s end filled: STRING do name := \"a\" Result := \"a\" end end",
    ),
    (
        851821479223857985,
        0,
        &[6, 17, 58],
        b"class APP create make feature name: STRING make do print (name + filled) end take (s: STRING) do name := s end filled: STRING do name := \"a\" Result := \"a\" end end",
    ),
    (
        551369198191098841,
        0,
        &[6, 17],
        b"class APP create make feature name: STRING make do print (filled + name) end take (s: STRING) do name := s end filled: STRING do name := \"a\" Result := \"a\" end end",
    ),
    (
        163188022542235454,
        0,
        &[6, 17],
        b"class APP create make feature name: STRING make do if fill then elseif name.is_empty then else end end fill: BOOLEAN do name := \"a\" end end",
    ),
    (
        49016136144438074,
        0,
        &[6, 17],
        b"class APP create make feature name: STRING make do check name = Current end name := \"a\" end fill: BOOLEAN do name := \"a\" end end",
    ),
    (
        2050236818650058108,
        0,
        &[6, 17],
        b"class APP create make feature name: STRING make do from invariant name.is_empty until True loop variant name.count end name := \"a\" end fill: BOOLEAN do name := \"a\" end end",
    ),
    // SelfCallExamples
    (
        759305749199362196,
        0,
        &[6, 17],
        b"class APP create make feature name: STRING make do end end",
    ),
    (
        2218901917197548917,
        0,
        &[6, 17],
        b"class APP create make feature name: STRING make do end fill: BOOLEAN do name := \"a\" end end",
    ),
];

/// The digests are those of the trees that have some of their places.
pub fn sparse_creation_order_digests()
    ensures { map (λ r. r.0) SPARSE_CREATION_ORDER ≡ map sparse sparse_creation_order_trees }
{}
