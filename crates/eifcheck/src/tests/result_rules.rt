//! Which results conform to inherited ones: systems with the report on each.

use super::features::Case;

const OF_Z: &[u8] =
    b"deferred class P feature q: Z deferred end r: detachable Z deferred end s: Z deferred end end";

const Z: &[u8] = b"class Z feature f do end end";

const B: &[u8] = b"class B inherit Z end";

const FORMS: &[u8] =
    b"deferred class P [G] feature a: attached G deferred end b: G deferred end c: detachable G deferred end end";

const PAIR: &[u8] = b"class PAIR [G, H] end";

const SWAP: &[u8] = b"class SWAP [G, H] inherit PAIR [H, G] end";

pub const RESULT_RULES: [Case; 14] = [
    // class types
    Case {
        files: &[
            ("z.e", Z),
            ("b.e", B),
            (
                "p.e",
                b"deferred class P feature q: Z deferred end r: detachable Z deferred end s: detachable Z deferred end t: ANY deferred end u: detachable ANY deferred end end",
            ),
            (
                "d.e",
                b"deferred class D inherit P feature q: B deferred end r: B deferred end s: detachable B deferred end t: Z deferred end u: INTEGER deferred end end",
            ),
        ],
        report: b"XYET.1 b - b.e:1:7 -\nXYET.1 d - d.e:1:16 -\nXYET.1 p - p.e:1:16 -\nXYET.1 z - z.e:1:7 -\nXYET 4\nno 4 faults\n",
    },
    Case {
        files: &[
            ("z.e", Z),
            ("b.e", B),
            (
                "p.e",
                b"deferred class P feature q: B deferred end r: Z deferred end s: Z deferred end t: STRING deferred end end",
            ),
            (
                "d.e",
                b"deferred class D inherit P feature q: Z deferred end r: detachable B deferred end s: detachable Z deferred end t: INTEGER deferred end end",
            ),
        ],
        report: b"VDRD.4 d q d.e:1:36 p\nVDRD.4 d r d.e:1:54 p\nVDRD.4 d s d.e:1:83 p\nVDRD.4 d t d.e:1:112 p\nVDRD 4\nno 4 faults\n",
    },
    // a formal to the formal, and what is put in for it
    Case {
        files: &[
            ("p.e", FORMS),
            (
                "d.e",
                b"deferred class D [H] inherit P [H] feature a: attached H deferred end b: attached H deferred end c: attached H deferred end end",
            ),
        ],
        report: b"XYET.1 d - d.e:1:16 -\nXYET.1 p - p.e:1:16 -\nXYET 2\nno 2 faults\n",
    },
    Case {
        files: &[
            ("p.e", FORMS),
            (
                "d.e",
                b"deferred class D [H] inherit P [H] feature a: H deferred end b: H deferred end c: H deferred end end",
            ),
        ],
        report: b"VDRD.4 d a d.e:1:44 p\nVDRD 1\nno 1 faults\n",
    },
    Case {
        files: &[
            ("p.e", FORMS),
            (
                "d.e",
                b"deferred class D [H] inherit P [H] feature a: detachable H deferred end b: detachable H deferred end c: detachable H deferred end end",
            ),
        ],
        report: b"VDRD.4 d a d.e:1:44 p\nVDRD.4 d b d.e:1:73 p\nVDRD 2\nno 2 faults\n",
    },
    Case {
        files: &[
            ("p.e", FORMS),
            (
                "d.e",
                b"deferred class D [H -> ANY, I] inherit P [H] feature a: H deferred end b: ANY deferred end c: attached I deferred end end",
            ),
        ],
        report: b"VDRD.4 d a d.e:1:54 p\nVDRD.4 d b d.e:1:72 p\nVDRD.4 d c d.e:1:92 p\nVDRD 3\nno 3 faults\n",
    },
    Case {
        files: &[
            ("p.e", FORMS),
            (
                "d.e",
                b"deferred class D inherit P [INTEGER] feature a: INTEGER deferred end b: attached INTEGER deferred end c: INTEGER deferred end end",
            ),
            (
                "e.e",
                b"deferred class E inherit P [detachable STRING] feature a: detachable STRING deferred end b: detachable STRING deferred end c: STRING deferred end end",
            ),
        ],
        report: b"VDRD.4 e a e.e:1:56 p\nVDRD 1\nno 1 faults\n",
    },
    // a formal to a class type
    Case {
        files: &[
            ("z.e", Z),
            ("b.e", B),
            ("p.e", OF_Z),
            (
                "d.e",
                b"deferred class D [H -> B] inherit P feature q: H deferred end r: detachable H deferred end s: detachable H deferred end end",
            ),
        ],
        report: b"VDRD.4 d s d.e:1:92 p\nVDRD 1\nno 1 faults\n",
    },
    Case {
        files: &[
            ("z.e", Z),
            ("b.e", B),
            ("p.e", OF_Z),
            (
                "d.e",
                b"deferred class D [H -> detachable B] inherit P feature q: attached H deferred end r: H deferred end s: H deferred end end",
            ),
        ],
        report: b"VDRD.4 d s d.e:1:101 p\nVDRD 1\nno 1 faults\n",
    },
    Case {
        files: &[
            (
                "p.e",
                b"deferred class P feature q: ANY deferred end r: detachable ANY deferred end s: ANY deferred end t: detachable STRING deferred end end",
            ),
            (
                "d.e",
                b"deferred class D [H] inherit P feature q: attached H deferred end r: H deferred end s: H deferred end t: attached H deferred end end",
            ),
        ],
        report: b"VDRD.4 d s d.e:1:85 p\nVDRD.4 d t d.e:1:103 p\nVDRD 2\nno 2 faults\n",
    },
    Case {
        files: &[
            ("l.e", b"class L [G] end"),
            ("t.e", b"class TEXTS inherit L [STRING] end"),
            (
                "p.e",
                b"deferred class P feature q: L [STRING] deferred end r: L [ANY] deferred end end",
            ),
            (
                "d.e",
                b"deferred class D [H -> TEXTS] inherit P feature q: H deferred end r: H deferred end end",
            ),
        ],
        report: b"VDRD.4 d r d.e:1:67 p\nVDRD 1\nno 1 faults\n",
    },
    // generic heirs
    Case {
        files: &[
            ("pair.e", PAIR),
            ("swap.e", SWAP),
            ("keyed.e", b"class KEYED [G] inherit PAIR [STRING, G] end"),
            (
                "p.e",
                b"deferred class P feature q: PAIR [STRING, ANY] deferred end r: PAIR [STRING, ANY] deferred end s: PAIR [STRING, ANY] deferred end t: PAIR [STRING, ANY] deferred end end",
            ),
            (
                "d.e",
                b"deferred class D inherit P feature q: SWAP [ANY, STRING] deferred end r: SWAP [STRING, ANY] deferred end s: KEYED [ANY] deferred end t: KEYED [STRING] deferred end end",
            ),
        ],
        report: b"VDRD.4 d r d.e:1:71 p\nVDRD.4 d t d.e:1:134 p\nVDRD 2\nno 2 faults\n",
    },
    Case {
        files: &[
            ("pair.e", PAIR),
            ("swap.e", SWAP),
            (
                "p.e",
                b"deferred class P [G, H] feature q: PAIR [G, H] deferred end r: PAIR [G, H] deferred end end",
            ),
            (
                "d.e",
                b"deferred class D [M, N] inherit P [N, M] feature q: SWAP [M, N] deferred end r: SWAP [N, M] deferred end end",
            ),
        ],
        report: b"VDRD.4 d r d.e:1:78 p\nVDRD 1\nno 1 faults\n",
    },
    Case {
        files: &[
            (
                "p.e",
                b"deferred class P feature q: ARRAY [detachable ANY] deferred end r: detachable ARRAY [STRING] deferred end end",
            ),
            (
                "d.e",
                b"deferred class D inherit P feature q: ARRAY [ANY] deferred end r: ARRAY [attached STRING] deferred end end",
            ),
        ],
        report: b"VDRD.4 d q d.e:1:36 p\nVDRD 1\nno 1 faults\n",
    },
];
