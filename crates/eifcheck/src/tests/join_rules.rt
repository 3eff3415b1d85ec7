//! Names that a class inherits without declaring them, and the size of their types:
//! systems with the report on each.

use super::features::Case;

const TAKES: &[u8] = b"class A feature f (x: STRING) do end end";

const FREE: &[u8] = b"class A feature f: detachable ANY do end end";

const BOUND: &[u8] = b"class B inherit A redefine f end feature f: INTEGER do end end";

const FOR_ANY_TOO: &[u8] = b"deferred class F feature f (y: ANY) deferred end end";

const FOR_ANY: &[u8] = b"deferred class E feature f (x: ANY) deferred end end";

const DEFERRED: &[u8] = b"deferred class Z feature f: ANY deferred end end";

const DEFERRED_HEIR: &[u8] = b"deferred class C inherit Z end";

const JOIN: &[u8] = b"deferred class D inherit B C end";

const T: &[u8] = b"class T [M, N, O] end";

const V: &[u8] = b"class V [M, N, O, Q] end";

const K: &[u8] =
    b"class K [G] feature f: detachable T [V [G, G, G, G], V [G, G, G, G], V [G, G, G, G]] g (x: ARRAY [T [V [G, G, G, G], V [G, G, G, G], V [G, G, G, G]]]) do end end";

pub const JOIN_RULES: [Case; 21] = [
    // a version that is not declared here, beside deferred and undefined entries
    Case {
        files: &[
            (
                "a.e",
                b"class A feature f (x: STRING) do end g (x: STRING) do end h (x: STRING) do end k: ANY do end end",
            ),
            (
                "e.e",
                b"deferred class E feature f deferred end g (x: ANY) deferred end h (x: STRING): INTEGER deferred end k: STRING deferred end end",
            ),
            ("d.e", b"class D inherit A E end"),
        ],
        report: b"VDRD.6 d - d.e:1:7 f\nVDRD.6 d - d.e:1:7 g\nVDRD.6 d - d.e:1:7 h\nVDRD.6 d - d.e:1:7 k\nVDRD 4\nno 4 faults\n",
    },
    Case {
        files: &[
            (
                "a.e",
                b"class A feature f (x: STRING): INTEGER do end g: INTEGER end",
            ),
            (
                "e.e",
                b"deferred class E feature f (x: STRING): ANY deferred end g: ANY deferred end end",
            ),
            ("d.e", b"class D inherit A E end"),
        ],
        report: b"XYET.1 a - a.e:1:7 -\nXYET.1 d - d.e:1:7 -\nXYET.1 e - e.e:1:16 -\nXYET 3\nno 3 faults\n",
    },
    Case {
        files: &[
            ("a.e", TAKES),
            (
                "e.e",
                b"deferred class E feature g (x: ANY) deferred end end",
            ),
            ("d.e", b"class D inherit E rename g as f end A end"),
        ],
        report: b"VDRD.6 d - d.e:1:7 f\nVDRD 1\nno 1 faults\n",
    },
    Case {
        files: &[
            ("a.e", TAKES),
            ("e.e", b"class E feature f do end end"),
            ("d.e", b"class D inherit A E undefine f end end"),
        ],
        report: b"VDRD.6 d - d.e:1:7 f\nVDRD 1\nno 1 faults\n",
    },
    Case {
        files: &[
            (
                "a.e",
                b"class A feature f (x: STRING) do end g (x: STRING) do end end",
            ),
            (
                "e.e",
                b"deferred class E [G] feature f (x: G) deferred end g (x: detachable G) deferred end end",
            ),
            ("d.e", b"class D inherit A E [STRING] end"),
        ],
        report: b"VDRD.6 d - d.e:1:7 g\nVDRD 1\nno 1 faults\n",
    },
    Case {
        files: &[
            ("a.e", FREE),
            ("b.e", BOUND),
            ("c.e", b"class C inherit A end"),
            ("d.e", b"class D inherit B C undefine f end end"),
        ],
        report: b"XYET.1 a - a.e:1:7 -\nXYET.1 b - b.e:1:7 -\nXYET.1 c - c.e:1:7 -\nXYET.1 d - d.e:1:7 -\nXYET 4\nno 4 faults\n",
    },
    Case {
        files: &[
            ("a.e", FREE),
            ("b.e", BOUND),
            ("c.e", b"class C inherit A end"),
            ("d.e", b"class D inherit B undefine f end C end"),
        ],
        report: b"VDRD.6 d - d.e:1:7 f\nVDRD 1\nno 1 faults\n",
    },
    // entries without a version
    Case {
        files: &[
            ("e.e", FOR_ANY),
            ("f.e", FOR_ANY_TOO),
            ("d.e", b"deferred class D inherit E F end"),
        ],
        report: b"XYET.1 d - d.e:1:16 -\nXYET.1 e - e.e:1:16 -\nXYET.1 f - f.e:1:16 -\nXYET 3\nno 3 faults\n",
    },
    Case {
        files: &[
            ("e.e", FOR_ANY),
            ("f.e", FOR_ANY_TOO),
            (
                "k.e",
                b"deferred class K feature f (x: STRING) deferred end end",
            ),
            ("d.e", b"deferred class D inherit E F K end"),
        ],
        report: b"VDJR.1 d - d.e:1:16 f\nVDJR 1\nno 1 faults\n",
    },
    Case {
        files: &[
            (
                "e.e",
                b"deferred class E feature f deferred end g (x: ANY) deferred end h deferred end k: ANY deferred end end",
            ),
            (
                "f.e",
                b"deferred class F feature f (x: ANY) deferred end g (x: STRING) deferred end h: ANY deferred end k: STRING deferred end end",
            ),
            ("d.e", b"deferred class D inherit E F end"),
        ],
        report: b"VDJR.1 d - d.e:1:16 f\nVDJR.1 d - d.e:1:16 g\nVDJR.1 d - d.e:1:16 h\nVDJR.1 d - d.e:1:16 k\nVDJR 4\nno 4 faults\n",
    },
    Case {
        files: &[
            ("e.e", b"deferred class E feature k: ANY deferred end end"),
            (
                "f.e",
                b"deferred class F feature k: STRING deferred end end",
            ),
            (
                "d.e",
                b"deferred class D inherit E F feature k: STRING deferred end end",
            ),
        ],
        report: b"XYET.1 d - d.e:1:16 -\nXYET.1 e - e.e:1:16 -\nXYET.1 f - f.e:1:16 -\nXYET 3\nno 3 faults\n",
    },
    Case {
        files: &[
            (
                "e.e",
                b"deferred class E [G] feature f (x: G) deferred end g (x: G) deferred end end",
            ),
            (
                "f.e",
                b"deferred class F [G, H] feature f (x: G) deferred end g (x: H) deferred end end",
            ),
            ("d.e", b"deferred class D [M, N] inherit E [M] F [M, N] end"),
        ],
        report: b"VDJR.1 d - d.e:1:16 g\nVDJR 1\nno 1 faults\n",
    },
    Case {
        files: &[
            ("a.e", TAKES),
            ("c.e", b"class C feature f do end end"),
            (
                "d.e",
                b"deferred class D inherit A undefine f end C undefine f end end",
            ),
        ],
        report: b"VDJR.1 d - d.e:1:16 f\nVDJR 1\nno 1 faults\n",
    },
    Case {
        files: &[
            (
                "e.e",
                b"deferred class E feature f deferred end g (x: ANY) deferred end end",
            ),
            ("d.e", b"deferred class D inherit E rename g as f end end"),
        ],
        report: b"VDJR.1 d - d.e:1:16 f\nVDJR 1\nno 1 faults\n",
    },
    Case {
        files: &[
            ("z.e", DEFERRED),
            ("b.e", b"deferred class B inherit Z end"),
            ("c.e", DEFERRED_HEIR),
            ("d.e", JOIN),
        ],
        report: b"XYET.1 b - b.e:1:16 -\nXYET.1 c - c.e:1:16 -\nXYET.1 d - d.e:1:16 -\nXYET.1 z - z.e:1:16 -\nXYET 4\nno 4 faults\n",
    },
    Case {
        files: &[
            ("z.e", DEFERRED),
            (
                "b.e",
                b"deferred class B inherit Z feature f: STRING deferred end end",
            ),
            ("c.e", DEFERRED_HEIR),
            ("d.e", JOIN),
            ("h.e", b"deferred class H inherit D end"),
        ],
        report: b"VDJR.1 d - d.e:1:16 f\nVDJR 1\nno 1 faults\n",
    },
    Case {
        files: &[
            (
                "a.e",
                b"deferred class A [G] feature f (x: G) deferred end end",
            ),
            ("b.e", b"deferred class B [H] inherit A [ARRAY [H]] end"),
            ("c.e", b"deferred class C [H] inherit A [H] end"),
            (
                "d.e",
                b"deferred class D inherit B [STRING] C [ARRAY [STRING]] end",
            ),
        ],
        report: b"XYET.1 a - a.e:1:16 -\nXYET.1 b - b.e:1:16 -\nXYET.1 c - c.e:1:16 -\nXYET.1 d - d.e:1:16 -\nXYET 4\nno 4 faults\n",
    },
    // an entry may have a type of 100 names, and not of 101
    Case {
        files: &[
            ("k.e", K),
            ("t.e", T),
            ("v.e", V),
            (
                "d.e",
                b"class D inherit K [ARRAY [ARRAY [V [ANY, ANY, ANY, ANY]]]] end",
            ),
        ],
        report: b"XYET.1 d - d.e:1:7 -\nXYET.1 k - k.e:1:7 -\nXYET.1 t - t.e:1:7 -\nXYET.1 v - v.e:1:7 -\nXYET 4\nno 4 faults\n",
    },
    Case {
        files: &[
            ("k.e", K),
            ("t.e", T),
            ("v.e", V),
            (
                "d.e",
                b"class D inherit K [ARRAY [ARRAY [ARRAY [V [ANY, ANY, ANY, ANY]]]]] end",
            ),
            ("e.e", b"class E inherit D rename g as h end end"),
        ],
        report: b"XLIM.9 d - d.e:1:7 g\nXLIM.9 e - e.e:1:7 h\nXLIM 2\nno 2 faults\n",
    },
    Case {
        files: &[
            ("k.e", K),
            ("t.e", T),
            ("v.e", V),
            (
                "d.e",
                b"class D inherit K [ARRAY [ARRAY [ARRAY [V [ANY, ANY, ANY, ANY]]]]] redefine f, g end feature f: INTEGER g do end end",
            ),
            ("e.e", b"class E inherit D end"),
        ],
        report: b"XLIM.9 d - d.e:1:7 g\nVDRD.4 d f d.e:1:94 k\nVDRD 1\nXLIM 1\nno 2 faults\n",
    },
    Case {
        files: &[
            ("k.e", K),
            ("t.e", T),
            ("v.e", V),
            (
                "d.e",
                b"class D inherit K [ARRAY [ARRAY [ARRAY [V [ANY, ANY, ANY, ANY]]]]] E end",
            ),
            ("e.e", b"deferred class E feature g deferred end end"),
        ],
        report: b"XLIM.9 d - d.e:1:7 g\nXLIM 1\nno 1 faults\n",
    },
];
