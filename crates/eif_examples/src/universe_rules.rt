//! The classes of the examples of the rules of the universe.

ghost use Rattle.std.specs.Prelude.{◌≡◌, map};
ghost use Rattle.eif_examples.specs.UniverseRulesTrees.{universe_rules_trees};
ghost use Rattle.eif_examples.specs.Compared.{exact};

use crate::rows::Row;

pub(crate) const UNIVERSE_RULES: [Row; 42] = [
    // UniverseExamples
    (941877650463755493, 0, b"class B end"),
    (846386009561724836, 0, b"class B feature f: NOPE end"),
    (661714523863590878, 0, b"class B feature f: B end"),
    (433728103736364594, 0, b"class B feature f: ARRAY end"),
    (
        1351004552127540407,
        0,
        b"class B feature f: ARRAY [ANY] end",
    ),
    (
        1897810063607247864,
        0,
        b"class B feature f: ARRAY [NOPE] end",
    ),
    (
        1987999998580037655,
        0,
        b"class B feature f: detachable INTEGER end",
    ),
    (
        409470209487459545,
        0,
        b"class B feature f: detachable STRING end",
    ),
    (
        615082541396931164,
        0,
        b"class B feature f: ARRAY [ARRAY [ARRAY [ARRAY [ARRAY [ARRAY [ARRAY [ARRAY [ARRAY [ARRAY [ARRAY [ARRAY [ARRAY [ARRAY [ARRAY [ARRAY [ARRAY [ARRAY [ARRAY [ARRAY [ARRAY [ARRAY [ARRAY [ARRAY [ARRAY [ARRAY [ARRAY [ARRAY [ARRAY [ARRAY [ARRAY [ARRAY [ARRAY [ARRAY [ARRAY [ARRAY [ARRAY [ARRAY [ARRAY [ARRAY [ARRAY [ARRAY [ARRAY [ARRAY [ARRAY [ARRAY [ARRAY [ARRAY [ARRAY [ARRAY [ARRAY [ARRAY [ARRAY [ARRAY [ARRAY [ARRAY [ARRAY [ARRAY [ARRAY [ARRAY [ARRAY [ARRAY [ARRAY [ARRAY [ARRAY [ARRAY [ARRAY [ARRAY [ARRAY [ARRAY [ARRAY [ARRAY [ARRAY [ARRAY [ARRAY [ARRAY [ARRAY [ARRAY [ARRAY [ARRAY [ARRAY [ARRAY [ARRAY [ARRAY [ARRAY [ARRAY [ARRAY [ARRAY [ARRAY [ARRAY [ARRAY [ARRAY [ARRAY [ARRAY [ARRAY [ARRAY [ARRAY [ARRAY [ARRAY [ARRAY [ANY]]]]]]]]]]]]]]]]]]]]]]]]]]]]]]]]]]]]]]]]]]]]]]]]]]]]]]]]]]]]]]]]]]]]]]]]]]]]]]]]]]]]]]]]]]]]]]]]]]]] end",
    ),
    (
        1369689309140119577,
        0,
        b"class B feature f: ARRAY [ARRAY [ARRAY [ARRAY [ARRAY [ARRAY [ARRAY [ARRAY [ARRAY [ARRAY [ARRAY [ARRAY [ARRAY [ARRAY [ARRAY [ARRAY [ARRAY [ARRAY [ARRAY [ARRAY [ARRAY [ARRAY [ARRAY [ARRAY [ARRAY [ARRAY [ARRAY [ARRAY [ARRAY [ARRAY [ARRAY [ARRAY [ARRAY [ARRAY [ARRAY [ARRAY [ARRAY [ARRAY [ARRAY [ARRAY [ARRAY [ARRAY [ARRAY [ARRAY [ARRAY [ARRAY [ARRAY [ARRAY [ARRAY [ARRAY [ARRAY [ARRAY [ARRAY [ARRAY [ARRAY [ARRAY [ARRAY [ARRAY [ARRAY [ARRAY [ARRAY [ARRAY [ARRAY [ARRAY [ARRAY [ARRAY [ARRAY [ARRAY [ARRAY [ARRAY [ARRAY [ARRAY [ARRAY [ARRAY [ARRAY [ARRAY [ARRAY [ARRAY [ARRAY [ARRAY [ARRAY [ARRAY [ARRAY [ARRAY [ARRAY [ARRAY [ARRAY [ARRAY [ARRAY [ARRAY [ARRAY [ARRAY [ARRAY [ARRAY [ARRAY [ARRAY [ARRAY [ARRAY [ARRAY [ANY]]]]]]]]]]]]]]]]]]]]]]]]]]]]]]]]]]]]]]]]]]]]]]]]]]]]]]]]]]]]]]]]]]]]]]]]]]]]]]]]]]]]]]]]]]]]]]]]]]] end",
    ),
    (1564608530660243268, 0, b"class B feature f, g: NOPE end"),
    (
        1555222011188499717,
        0,
        b"class B feature f do print (create {NOPE}) end end",
    ),
    (
        596153855665629279,
        0,
        b"class B invariant attached {NOPE} Void end",
    ),
    (1750932524973056810, 0, b"class B [ANY] end"),
    (577995995603983393, 0, b"class B [G] end"),
    (1000262540503174948, 0, b"class B [G, G] end"),
    (883230727964208314, 0, b"class B [G, H] end"),
    (521420583564353796, 0, b"class B [G, H -> G] end"),
    (408002740211045375, 0, b"class B [G -> ANY] end"),
    (96834110608692291, 0, b"class B [G -> NOPE] end"),
    (
        234096912916561533,
        0,
        b"class Z [A, B, C, D, E, F, G, H, I, J, K, L, M, N, O, P, Q] end",
    ),
    (
        503073485686180618,
        0,
        b"class Z [A, B, C, D, E, F, G, H, I, J, K, L, M, N, O, P] end",
    ),
    (
        1929360416573180456,
        0,
        b"class B [INTEGER] feature f: detachable INTEGER end",
    ),
    (811712137685458714, 1, b"class D end"),
    (833273864641561584, 1, b"class D inherit B end"),
    (886230546890742249, 0, b"class B inherit B end"),
    (1509619220688561183, 0, b"class B inherit D end"),
    (219584947947655317, 0, b"class B [G] inherit G end"),
    (1841818390598479798, 0, b"class B [G] inherit ANY end"),
    (1865519482007019152, 0, b"class B inherit STRING end"),
    (1320439307909207844, 0, b"class B inherit ANY end"),
    (
        1892424216754120524,
        0,
        b"class B [STRING] inherit STRING [ANY] end",
    ),
    (15894207263979993, 0, b"class B [ARRAY] inherit ARRAY end"),
    (
        905618452094848113,
        0,
        b"class B inherit ANY ANY ANY ANY ANY ANY ANY ANY ANY ANY ANY ANY ANY ANY ANY ANY ANY ANY ANY ANY ANY ANY ANY ANY ANY ANY ANY ANY ANY ANY ANY ANY ANY ANY ANY ANY ANY ANY ANY ANY ANY ANY ANY ANY ANY ANY ANY ANY ANY ANY ANY ANY ANY ANY ANY ANY ANY ANY ANY ANY ANY ANY ANY ANY ANY end",
    ),
    (
        2261899091440815197,
        0,
        b"class B inherit ANY ANY ANY ANY ANY ANY ANY ANY ANY ANY ANY ANY ANY ANY ANY ANY ANY ANY ANY ANY ANY ANY ANY ANY ANY ANY ANY ANY ANY ANY ANY ANY ANY ANY ANY ANY ANY ANY ANY ANY ANY ANY ANY ANY ANY ANY ANY ANY ANY ANY ANY ANY ANY ANY ANY ANY ANY ANY ANY ANY ANY ANY ANY ANY end",
    ),
    (169983047804592367, 1, b"class B feature f: NOPE end"),
    (1470141367523195141, 0, b"class ANY end"),
    (
        821150110362178997,
        0,
        b"class B create make feature make do end end",
    ),
    (973156423184380209, 0, b"deferred class B end"),
    (1925096671276717662, 0, b"deferred class B [G] end"),
    (224068359980035390, 0, b"class STRING end"),
    (577995995603983393, 0, b"class B [G] end"),
];

/// The digests are those of the trees.
pub fn universe_rules_digests()
    ensures { map (λ r. r.0) UNIVERSE_RULES ≡ map exact universe_rules_trees }
{}
