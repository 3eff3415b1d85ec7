//! The rules of derivations, and of the actuals of written types: systems with the report on each.

use super::features::Case;

const L: &[u8] = b"class L [G] end";

const OF_STRINGS: &[u8] = b"class L [G -> STRING] end";

const TWICE: &[u8] = b"class D inherit L [INTEGER] L [BOOLEAN] end";

const K: &[u8] = b"class K [G] end";

const T: &[u8] = b"class T [A, B, C, H] end";

const P: &[u8] = b"class P [G] inherit K [T [G, G, G, G]] end";

const Q: &[u8] = b"class Q [G] inherit P [T [G, G, G, G]] end";

const R: &[u8] = b"class R [G] inherit Q [T [G, G, G, G]] end";

pub const DERIVATION_RULES: [Case; 15] = [
    // the ways to an ancestor
    Case {
        files: &[("l.e", L), ("d.e", TWICE)],
        report: b"XANC.1 d - d.e:1:29 l\nXANC 1\nno 1 faults\n",
    },
    Case {
        files: &[
            ("l.e", L),
            ("d.e", TWICE),
            ("e.e", b"class E inherit D end"),
        ],
        report: b"XANC.1 d - d.e:1:29 l\nXANC 1\nno 1 faults\n",
    },
    Case {
        files: &[
            ("l.e", L),
            ("p.e", b"class P inherit L [INTEGER] end"),
            ("q.e", b"class Q inherit L [INTEGER] end"),
            ("d.e", b"class D inherit P Q end"),
        ],
        report: b"XYET.1 d - d.e:1:7 -\nXYET.1 l - l.e:1:7 -\nXYET.1 p - p.e:1:7 -\nXYET.1 q - q.e:1:7 -\nXYET 4\nno 4 faults\n",
    },
    Case {
        files: &[
            ("l.e", L),
            ("p.e", b"class P inherit L [INTEGER] end"),
            ("q.e", b"class Q inherit L [BOOLEAN] end"),
            ("d.e", b"class D inherit P Q end"),
        ],
        report: b"XANC.1 d - d.e:1:19 l\nXANC 1\nno 1 faults\n",
    },
    // the size of what they give
    Case {
        files: &[("k.e", K), ("t.e", T), ("p.e", P), ("q.e", Q), ("r.e", R)],
        report: b"XYET.1 k - k.e:1:7 -\nXYET.1 p - p.e:1:7 -\nXYET.1 q - q.e:1:7 -\nXYET.1 r - r.e:1:7 -\nXYET.1 t - t.e:1:7 -\nXYET 5\nno 5 faults\n",
    },
    Case {
        files: &[
            ("k.e", K),
            ("t.e", T),
            ("p.e", P),
            ("q.e", Q),
            ("r.e", R),
            ("d.e", b"class D inherit R [T [ANY, ANY, ANY, ANY]] end"),
        ],
        report: b"XLIM.6 d - d.e:1:17 k\nXLIM 1\nno 1 faults\n",
    },
    // actuals of written types
    Case {
        files: &[
            ("l.e", OF_STRINGS),
            ("d.e", b"class D inherit L [INTEGER] end"),
        ],
        report: b"XGEN.2 d - d.e:1:20 g\nXGEN 1\nno 1 faults\n",
    },
    Case {
        files: &[
            ("l.e", OF_STRINGS),
            ("d.e", b"class D inherit L [STRING] end"),
        ],
        report: b"XYET.1 d - d.e:1:7 -\nXYET.1 l - l.e:1:7 -\nXYET 2\nno 2 faults\n",
    },
    Case {
        files: &[
            ("l.e", OF_STRINGS),
            ("d.e", b"class D feature y: L [INTEGER] end"),
        ],
        report: b"XGEN.2 d y d.e:1:23 g\nXGEN 1\nno 1 faults\n",
    },
    Case {
        files: &[
            ("l.e", OF_STRINGS),
            ("d.e", b"class D feature y: L [detachable STRING] end"),
        ],
        report: b"XGEN.2 d y d.e:1:23 g\nXGEN 1\nno 1 faults\n",
    },
    Case {
        files: &[
            ("l.e", OF_STRINGS),
            ("d.e", b"class D feature y: ARRAY [L [INTEGER]] end"),
        ],
        report: b"XGEN.2 d y d.e:1:30 g\nXGEN 1\nno 1 faults\n",
    },
    Case {
        files: &[
            ("l.e", OF_STRINGS),
            ("d.e", b"class D [H] feature y: L [H] end"),
        ],
        report: b"XGEN.2 d y d.e:1:27 g\nXGEN 1\nno 1 faults\n",
    },
    Case {
        files: &[
            ("l.e", OF_STRINGS),
            ("d.e", b"class D [H -> STRING] feature y: L [H] end"),
        ],
        report: b"XYET.1 d - d.e:1:7 -\nXYET.1 l - l.e:1:7 -\nXYET 2\nno 2 faults\n",
    },
    // the earlier phase, and both rules
    Case {
        files: &[
            ("l.e", OF_STRINGS),
            (
                "d.e",
                b"class D inherit L [INTEGER] rename nope as no end end",
            ),
        ],
        report: b"VHRC.1 d - d.e:1:36 nope\nVHRC 1\nno 1 faults\n",
    },
    Case {
        files: &[
            ("l.e", L),
            ("d.e", TWICE),
            ("m.e", b"class M [H -> L [INTEGER]] feature y: M [D] end"),
        ],
        report: b"XANC.1 d - d.e:1:29 l\nXGEN.2 m y m.e:1:42 h\nXANC 1\nXGEN 1\nno 2 faults\n",
    },
];
