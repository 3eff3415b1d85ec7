//! A declared name beside what its class inherits, and creators: systems with the report on each.

use super::features::Case;

const TAKES: &[u8] = b"class A feature f (x: STRING) do end end";

const GENERIC: &[u8] = b"class A [G] feature f (x: G) do end g (x: G) do end end";

const TWO: &[u8] = b"class A feature f (x: STRING) do end g (x, y: STRING) do end end";

pub const SIGNATURE_RULES: [Case; 32] = [
    // how many arguments, of which types, and whether there is a result
    Case {
        files: &[
            ("a.e", TWO),
            (
                "b.e",
                b"class B inherit A redefine f, g end feature f do end g (x, y, z: STRING) do end end",
            ),
        ],
        report: b"VDRD.1 b f b.e:1:45 a\nVDRD.1 b g b.e:1:54 a\nVDRD 2\nno 2 faults\n",
    },
    Case {
        files: &[
            ("a.e", TWO),
            (
                "b.e",
                b"class B inherit A redefine f, g end feature f (x: ANY) do end g (x: STRING; y: detachable STRING) do end end",
            ),
        ],
        report: b"VDRD.2 b f b.e:1:45 a\nVDRD.2 b g b.e:1:63 a\nVDRD 2\nno 2 faults\n",
    },
    Case {
        files: &[
            ("a.e", TWO),
            (
                "b.e",
                b"class B inherit A redefine f, g end feature f (y: attached STRING) do end g (x: STRING; y: STRING) do end end",
            ),
        ],
        report: b"XYET.1 a - a.e:1:7 -\nXYET.1 b - b.e:1:7 -\nXYET 2\nno 2 faults\n",
    },
    Case {
        files: &[
            ("a.e", b"class A feature f do end g: INTEGER do end end"),
            (
                "b.e",
                b"class B inherit A redefine f, g end feature f: INTEGER do end g do end end",
            ),
        ],
        report: b"VDRD.3 b f b.e:1:45 a\nVDRD.3 b g b.e:1:63 a\nVDRD 2\nno 2 faults\n",
    },
    Case {
        files: &[
            ("a.e", b"class A feature f: INTEGER do end end"),
            (
                "b.e",
                b"class B inherit A redefine f end feature f: BOOLEAN do end end",
            ),
        ],
        report: b"VDRD.4 b f b.e:1:42 a\nVDRD 1\nno 1 faults\n",
    },
    // the first of these rules counts
    Case {
        files: &[
            (
                "a.e",
                b"class A feature f: INTEGER do end g (x: STRING) do end end",
            ),
            (
                "b.e",
                b"class B inherit A redefine f, g end feature f (x: ANY) do end g (x: ANY): INTEGER do end end",
            ),
        ],
        report: b"VDRD.1 b f b.e:1:45 a\nVDRD.2 b g b.e:1:63 a\nVDRD 2\nno 2 faults\n",
    },
    // attributes
    Case {
        files: &[
            (
                "a.e",
                b"class A feature x, y: INTEGER z: detachable ANY end",
            ),
            (
                "b.e",
                b"class B inherit A redefine x, y, z end feature x: INTEGER do end y: INTEGER = 1 z: detachable STRING end",
            ),
        ],
        report: b"VDRD.5 b x b.e:1:48 a\nVDRD.5 b y b.e:1:66 a\nVDRD.5 b z b.e:1:81 a\nVDRD 3\nno 3 faults\n",
    },
    Case {
        files: &[
            ("a.e", b"class A feature x, y, z: INTEGER end"),
            (
                "b.e",
                b"class B inherit A redefine x, y, z end feature n, x: BOOLEAN y do end z (i: INTEGER): INTEGER do end end",
            ),
        ],
        report: b"VDRD.4 b x b.e:1:51 a\nVDRD.3 b y b.e:1:62 a\nVDRD.1 b z b.e:1:71 a\nVDRD 3\nno 3 faults\n",
    },
    Case {
        files: &[
            (
                "a.e",
                b"class A feature x: INTEGER f: INTEGER do end c, e: INTEGER = 1 end",
            ),
            (
                "b.e",
                b"class B inherit A redefine x, f, c, e end feature x, f, c: INTEGER e: INTEGER do end end",
            ),
        ],
        report: b"XYET.1 a - a.e:1:7 -\nXYET.1 b - b.e:1:7 -\nXYET 2\nno 2 faults\n",
    },
    Case {
        files: &[
            ("a.e", b"class A feature f: INTEGER do end end"),
            (
                "b.e",
                b"class B inherit A redefine f end feature f: INTEGER end",
            ),
            (
                "c.e",
                b"class C inherit B redefine f end feature f: INTEGER do end end",
            ),
        ],
        report: b"VDRD.5 c f c.e:1:42 b\nVDRD 1\nno 1 faults\n",
    },
    Case {
        files: &[
            ("a.e", b"class A feature f: INTEGER end"),
            ("b.e", b"class B inherit A end"),
            (
                "c.e",
                b"class C inherit B redefine f end feature f: INTEGER do end end",
            ),
        ],
        report: b"VDRD.5 c f c.e:1:42 b\nVDRD 1\nno 1 faults\n",
    },
    // deferred, undefined and renamed entries, and those of ANY
    Case {
        files: &[
            (
                "a.e",
                b"deferred class A feature f (x: STRING) deferred end g (x: STRING) deferred end h: ANY deferred end end",
            ),
            (
                "b.e",
                b"deferred class B inherit A feature f (x: ANY) do end g deferred end h: INTEGER end",
            ),
        ],
        report: b"VDRD.2 b f b.e:1:36 a\nVDRD.1 b g b.e:1:54 a\nVDRD 2\nno 2 faults\n",
    },
    Case {
        files: &[
            ("a.e", TAKES),
            (
                "b.e",
                b"class B inherit A undefine f end feature f (x: ANY) do end end",
            ),
        ],
        report: b"VDRD.2 b f b.e:1:42 a\nVDRD 1\nno 1 faults\n",
    },
    Case {
        files: &[
            ("a.e", TAKES),
            (
                "b.e",
                b"class B inherit A rename f as g redefine g end feature f do end g (x: ANY) do end end",
            ),
        ],
        report: b"VDRD.2 b g b.e:1:65 a\nVDRD 1\nno 1 faults\n",
    },
    Case {
        files: &[(
            "b.e",
            b"class B inherit ANY redefine out, print end feature out: ANY do end print (o: ANY) do end end",
        )],
        report: b"VDRD.4 b out b.e:1:53 any\nVDRD.2 b print b.e:1:69 any\nVDRD 2\nno 2 faults\n",
    },
    // each entry is judged by itself
    Case {
        files: &[
            ("a.e", TAKES),
            ("e.e", b"class E feature f do end end"),
            (
                "b.e",
                b"class B inherit A redefine f end E redefine f end feature f (x: ANY) do end end",
            ),
        ],
        report: b"VDRD.2 b f b.e:1:59 a\nVDRD.1 b f b.e:1:59 e\nVDRD 2\nno 2 faults\n",
    },
    Case {
        files: &[
            ("a.e", TAKES),
            (
                "b.e",
                b"class B inherit A redefine f end A redefine f end feature f do end end",
            ),
        ],
        report: b"VDRD.1 b f b.e:1:59 a\nVDRD 1\nno 1 faults\n",
    },
    Case {
        files: &[
            ("a.e", b"class A feature f do end g (x: STRING) do end end"),
            (
                "b.e",
                b"class B inherit A rename g as f redefine f end feature f (x: ANY) do end end",
            ),
        ],
        report: b"VDRD.1 b f b.e:1:56 a\nVDRD.2 b f b.e:1:56 a\nVDRD 2\nno 2 faults\n",
    },
    // heirs of heirs
    Case {
        files: &[
            ("a.e", TAKES),
            (
                "b.e",
                b"class B inherit A redefine f end feature f (x: ANY) do end end",
            ),
            (
                "c.e",
                b"class C inherit B redefine f end feature f (x: STRING) do end end",
            ),
        ],
        report: b"VDRD.2 b f b.e:1:42 a\nVDRD.2 c f c.e:1:42 b\nVDRD 2\nno 2 faults\n",
    },
    Case {
        files: &[
            (
                "a.e",
                b"deferred class A feature f: ANY deferred end g: ANY deferred end end",
            ),
            (
                "b.e",
                b"deferred class B inherit A feature f: STRING deferred end g: STRING deferred end end",
            ),
            (
                "c.e",
                b"deferred class C inherit A B feature f: ANY deferred end g: attached STRING deferred end end",
            ),
        ],
        report: b"VDRD.4 c f c.e:1:38 b\nVDRD 1\nno 1 faults\n",
    },
    // the actuals of the clause are put in
    Case {
        files: &[
            ("a.e", GENERIC),
            (
                "b.e",
                b"class B inherit A [STRING] redefine f, g end feature f (x: STRING) do end g (x: STRING) do end end",
            ),
        ],
        report: b"XYET.1 a - a.e:1:7 -\nXYET.1 b - b.e:1:7 -\nXYET 2\nno 2 faults\n",
    },
    Case {
        files: &[
            ("a.e", GENERIC),
            (
                "b.e",
                b"class B inherit A [STRING] redefine f, g end feature f (x: STRING) do end g (x: ANY) do end end",
            ),
        ],
        report: b"VDRD.2 b g b.e:1:75 a\nVDRD 1\nno 1 faults\n",
    },
    Case {
        files: &[
            ("a.e", GENERIC),
            (
                "b.e",
                b"class B [H, I] inherit A [H] redefine f, g end feature f (x: H) do end g (x: I) do end end",
            ),
        ],
        report: b"VDRD.2 b g b.e:1:72 a\nVDRD 1\nno 1 faults\n",
    },
    Case {
        files: &[
            ("a.e", GENERIC),
            ("b.e", b"class B [H] inherit A [ARRAY [H]] end"),
            (
                "c.e",
                b"class C inherit B [STRING] redefine f, g end feature f (x: ARRAY [STRING]) do end g (x: ARRAY [ANY]) do end end",
            ),
        ],
        report: b"VDRD.2 c g c.e:1:83 b\nVDRD 1\nno 1 faults\n",
    },
    Case {
        files: &[
            (
                "a.e",
                b"class A [G] feature f (x: detachable G) do end g (x: attached G) do end end",
            ),
            (
                "b.e",
                b"class B inherit A [STRING] redefine f, g end feature f (x: detachable STRING) do end g (x: STRING) do end end",
            ),
            (
                "c.e",
                b"class C [H] inherit A [H] redefine f, g end feature f (x: detachable H) do end g (x: H) do end end",
            ),
            (
                "d.e",
                b"class D inherit A [INTEGER] redefine f, g end feature f (x: INTEGER) do end g (x: INTEGER) do end end",
            ),
        ],
        report: b"VDRD.2 c g c.e:1:80 a\nVDRD.2 d f d.e:1:55 a\nVDRD 2\nno 2 faults\n",
    },
    Case {
        files: &[
            ("a.e", b"class A [G] feature x, y: detachable G end"),
            (
                "b.e",
                b"class B inherit A [STRING] redefine x, y end feature x: detachable STRING y: STRING end",
            ),
        ],
        report: b"VDRD.5 b y b.e:1:75 a\nVDRD 1\nno 1 faults\n",
    },
    // creators
    Case {
        files: &[(
            "b.e",
            b"deferred class B create make, go create go2 feature make do end go do end go2 do end end",
        )],
        report: b"VGCP.1 b - b.e:1:25 make\nVGCP 1\nno 1 faults\n",
    },
    Case {
        files: &[
            ("a.e", b"class A feature x: INTEGER end"),
            (
                "b.e",
                b"class B inherit A rename x as y end create x, y, nope end",
            ),
        ],
        report: b"VGCP.2 b - b.e:1:44 x\nVGCP.3 b - b.e:1:47 y\nVGCP.2 b - b.e:1:50 nope\nVGCP 3\nno 3 faults\n",
    },
    Case {
        files: &[(
            "b.e",
            b"class B create f, c, out feature f: INTEGER do end c: INTEGER = 1 end",
        )],
        report: b"VGCP.3 b - b.e:1:16 f\nVGCP.3 b - b.e:1:19 c\nVGCP.3 b - b.e:1:22 out\nVGCP 3\nno 3 faults\n",
    },
    Case {
        files: &[(
            "b.e",
            b"class B create make, MAKE create {NONE} go, make feature make do end go do end end",
        )],
        report: b"VGCP.4 b - b.e:1:22 make\nVGCP.4 b - b.e:1:45 make\nVGCP 2\nno 2 faults\n",
    },
    Case {
        files: &[(
            "b.e",
            b"deferred class B create nope, nope create out, out end",
        )],
        report: b"VGCP.1 b - b.e:1:25 nope\nVGCP.2 b - b.e:1:25 nope\nVGCP.2 b - b.e:1:31 nope\nVGCP.4 b - b.e:1:31 nope\nVGCP.3 b - b.e:1:43 out\nVGCP.3 b - b.e:1:48 out\nVGCP.4 b - b.e:1:48 out\nVGCP 7\nno 7 faults\n",
    },
    Case {
        files: &[
            ("a.e", TAKES),
            (
                "b.e",
                b"class B inherit A create f, default_create create {NONE} go feature go (x: ANY) do end end",
            ),
        ],
        report: b"XYET.1 a - a.e:1:7 -\nXYET.1 b - b.e:1:7 -\nXYET 2\nno 2 faults\n",
    },
];
