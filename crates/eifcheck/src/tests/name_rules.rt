//! What a class may declare, and what its names are: systems with the report on each.

use super::features::Case;

const P: &[u8] = b"class P feature f do end g do end a: INTEGER c: INTEGER = 1 end";

const Q: &[u8] = b"deferred class Q feature f deferred end end";

const S: &[u8] = b"class S feature f do end end";

const Z: &[u8] = b"class Z feature f do end end";

const B: &[u8] = b"class B inherit Z end";

pub const NAME_RULES: [Case; 41] = [
    // names declared twice
    Case {
        files: &[("k.e", b"class K feature f do end F do end end")],
        report: b"VMFN.1 k f k.e:1:26 f\nVMFN 1\nno 1 faults\n",
    },
    Case {
        files: &[("k.e", b"class K feature f do end g do end end")],
        report: b"XYET.1 k - k.e:1:7 -\nXYET 1\nno 1 faults\n",
    },
    Case {
        files: &[("k.e", b"class K feature x, y, x: INTEGER end")],
        report: b"VMFN.1 k x k.e:1:23 x\nVMFN 1\nno 1 faults\n",
    },
    Case {
        files: &[("k.e", b"class K feature f do end f do end f do end end")],
        report: b"VMFN.1 k f k.e:1:26 f\nVMFN.1 k f k.e:1:35 f\nVMFN 2\nno 2 faults\n",
    },
    Case {
        files: &[
            ("p.e", P),
            (
                "h.e",
                b"class H inherit P redefine f end feature f do end f deferred end end",
            ),
        ],
        report: b"VMFN.1 h f h.e:1:51 f\nVMFN 1\nno 1 faults\n",
    },
    Case {
        files: &[("k.e", b"class K feature f do end f deferred end end")],
        report: b"VMFN.1 k f k.e:1:26 f\nVMFN 1\nno 1 faults\n",
    },
    Case {
        files: &[("k.e", b"class K feature f deferred end f do end end")],
        report: b"VCCH.1 k - k.e:1:7 f\nVMFN.1 k f k.e:1:32 f\nVCCH 1\nVMFN 1\nno 2 faults\n",
    },
    // names declared over a version
    Case {
        files: &[
            ("p.e", P),
            ("h.e", b"class H inherit P feature f do end end"),
        ],
        report: b"VMFN.2 h f h.e:1:27 f\nVMFN 1\nno 1 faults\n",
    },
    Case {
        files: &[
            ("p.e", P),
            ("h.e", b"class H inherit P feature x, f: INTEGER end"),
        ],
        report: b"VMFN.2 h f h.e:1:30 f\nVMFN 1\nno 1 faults\n",
    },
    Case {
        files: &[
            ("p.e", P),
            (
                "h.e",
                b"class H inherit P undefine f end feature f do end end",
            ),
        ],
        report: b"XYET.1 h - h.e:1:7 -\nXYET.1 p - p.e:1:7 -\nXYET 2\nno 2 faults\n",
    },
    Case {
        files: &[
            ("p.e", P),
            (
                "h.e",
                b"class H inherit P rename f as x end feature f do end end",
            ),
        ],
        report: b"XYET.1 h - h.e:1:7 -\nXYET.1 p - p.e:1:7 -\nXYET 2\nno 2 faults\n",
    },
    Case {
        files: &[
            ("p.e", P),
            ("s.e", S),
            (
                "h.e",
                b"class H inherit P redefine f end S feature f do end end",
            ),
        ],
        report: b"VMFN.2 h f h.e:1:44 f\nVMFN 1\nno 1 faults\n",
    },
    Case {
        files: &[
            ("p.e", P),
            ("s.e", S),
            (
                "h.e",
                b"class H inherit P redefine f end S undefine f end feature f do end end",
            ),
        ],
        report: b"XYET.1 h - h.e:1:7 -\nXYET.1 p - p.e:1:7 -\nXYET.1 s - s.e:1:7 -\nXYET 3\nno 3 faults\n",
    },
    Case {
        files: &[
            ("q.e", Q),
            ("h.e", b"class H inherit Q feature f do end end"),
        ],
        report: b"XYET.1 h - h.e:1:7 -\nXYET.1 q - q.e:1:16 -\nXYET 2\nno 2 faults\n",
    },
    Case {
        files: &[
            ("q.e", Q),
            (
                "h.e",
                b"class H inherit Q redefine f end feature f do end end",
            ),
        ],
        report: b"XYET.1 h - h.e:1:7 -\nXYET.1 q - q.e:1:16 -\nXYET 2\nno 2 faults\n",
    },
    // names declared deferred over a version
    Case {
        files: &[
            ("p.e", P),
            (
                "h.e",
                b"deferred class H inherit P redefine f end feature f deferred end end",
            ),
        ],
        report: b"VDRS.4 h f h.e:1:51 f\nVDRS 1\nno 1 faults\n",
    },
    Case {
        files: &[
            ("p.e", P),
            (
                "h.e",
                b"deferred class H inherit P feature f deferred end end",
            ),
        ],
        report: b"VDRS.4 h f h.e:1:36 f\nVDRS 1\nno 1 faults\n",
    },
    Case {
        files: &[
            ("p.e", P),
            (
                "h.e",
                b"deferred class H inherit P undefine f end feature f deferred end end",
            ),
        ],
        report: b"XYET.1 h - h.e:1:16 -\nXYET.1 p - p.e:1:7 -\nXYET 2\nno 2 faults\n",
    },
    Case {
        files: &[
            ("q.e", Q),
            (
                "h.e",
                b"deferred class H inherit Q redefine f end feature f deferred end end",
            ),
        ],
        report: b"XYET.1 h - h.e:1:16 -\nXYET.1 q - q.e:1:16 -\nXYET 2\nno 2 faults\n",
    },
    Case {
        files: &[
            ("p.e", P),
            (
                "h.e",
                b"deferred class H inherit P redefine f end feature f deferred end f do end end",
            ),
        ],
        report: b"VDRS.4 h f h.e:1:51 f\nVMFN.1 h f h.e:1:66 f\nVDRS 1\nVMFN 1\nno 2 faults\n",
    },
    // versions of different origins
    Case {
        files: &[("p.e", P), ("s.e", S), ("h.e", b"class H inherit P S end")],
        report: b"VMFN.3 h - h.e:1:7 f\nVMFN 1\nno 1 faults\n",
    },
    Case {
        files: &[
            ("p.e", P),
            ("s.e", S),
            ("h.e", b"class H inherit P S rename f as s end end"),
        ],
        report: b"XYET.1 h - h.e:1:7 -\nXYET.1 p - p.e:1:7 -\nXYET.1 s - s.e:1:7 -\nXYET 3\nno 3 faults\n",
    },
    Case {
        files: &[
            ("p.e", P),
            ("s.e", S),
            ("h.e", b"class H inherit P S undefine f end end"),
        ],
        report: b"XYET.1 h - h.e:1:7 -\nXYET.1 p - p.e:1:7 -\nXYET.1 s - s.e:1:7 -\nXYET 3\nno 3 faults\n",
    },
    Case {
        files: &[
            ("p.e", P),
            ("h.e", b"class H inherit P rename f as g end end"),
        ],
        report: b"VMFN.3 h - h.e:1:7 g\nVMFN 1\nno 1 faults\n",
    },
    Case {
        files: &[
            ("p.e", P),
            ("s.e", S),
            ("h.e", b"class H inherit S rename f as g end P end"),
        ],
        report: b"VMFN.3 h - h.e:1:7 g\nVMFN 1\nno 1 faults\n",
    },
    Case {
        files: &[
            ("p.e", P),
            ("s.e", S),
            (
                "h.e",
                b"class H inherit S rename f as g end P rename g as x end end",
            ),
        ],
        report: b"XYET.1 h - h.e:1:7 -\nXYET.1 p - p.e:1:7 -\nXYET.1 s - s.e:1:7 -\nXYET 3\nno 3 faults\n",
    },
    Case {
        files: &[
            ("z.e", Z),
            ("b.e", B),
            ("e.e", b"class E inherit Z end"),
            ("d.e", b"class D inherit B E end"),
        ],
        report: b"XYET.1 b - b.e:1:7 -\nXYET.1 d - d.e:1:7 -\nXYET.1 e - e.e:1:7 -\nXYET.1 z - z.e:1:7 -\nXYET 4\nno 4 faults\n",
    },
    Case {
        files: &[
            ("z.e", Z),
            ("b.e", B),
            (
                "e.e",
                b"class E inherit Z redefine f end feature f do end end",
            ),
            ("d.e", b"class D inherit B E end"),
        ],
        report: b"VMFN.3 d - d.e:1:7 f\nVMFN 1\nno 1 faults\n",
    },
    Case {
        files: &[
            ("z.e", Z),
            ("b.e", B),
            (
                "e.e",
                b"class E inherit Z redefine f end feature f do end end",
            ),
            ("d.e", b"class D inherit B undefine f end E end"),
        ],
        report: b"XYET.1 b - b.e:1:7 -\nXYET.1 d - d.e:1:7 -\nXYET.1 e - e.e:1:7 -\nXYET.1 z - z.e:1:7 -\nXYET 4\nno 4 faults\n",
    },
    // constants
    Case {
        files: &[("k.e", b"class K feature c: INTEGER = True end")],
        report: b"VFFD.1 k c k.e:1:17 c\nVFFD 1\nno 1 faults\n",
    },
    Case {
        files: &[("k.e", b"class K feature c, d: BOOLEAN = 1 end")],
        report: b"VFFD.1 k c k.e:1:17 c\nVFFD.1 k d k.e:1:20 d\nVFFD 2\nno 2 faults\n",
    },
    Case {
        files: &[("k.e", b"class K feature s: detachable STRING = \"x\" end")],
        report: b"VFFD.1 k s k.e:1:17 s\nVFFD 1\nno 1 faults\n",
    },
    Case {
        files: &[("k.e", b"class K [G] feature c: G = 1 end")],
        report: b"VFFD.1 k c k.e:1:21 c\nVFFD 1\nno 1 faults\n",
    },
    Case {
        files: &[(
            "k.e",
            b"class K feature i: INTEGER = -1 b: attached BOOLEAN = True c: CHARACTER = 'x' s: STRING = \"x\" end",
        )],
        report: b"XYET.1 k - k.e:1:7 -\nXYET 1\nno 1 faults\n",
    },
    Case {
        files: &[(
            "k.e",
            b"class K feature c: INTEGER = True c: BOOLEAN = 1 end",
        )],
        report: b"VFFD.1 k c k.e:1:17 c\nVFFD.1 k c k.e:1:35 c\nVMFN.1 k c k.e:1:35 c\nVFFD 2\nVMFN 1\nno 3 faults\n",
    },
    // deferred features
    Case {
        files: &[("k.e", b"class K feature f deferred end end")],
        report: b"VCCH.1 k - k.e:1:7 f\nVCCH 1\nno 1 faults\n",
    },
    Case {
        files: &[("q.e", Q), ("h.e", b"class H inherit Q end")],
        report: b"VCCH.1 h - h.e:1:7 f\nVCCH 1\nno 1 faults\n",
    },
    Case {
        files: &[
            ("p.e", P),
            ("h.e", b"class H inherit P undefine f, g end end"),
        ],
        report: b"VCCH.1 h - h.e:1:7 f\nVCCH.1 h - h.e:1:7 g\nVCCH 2\nno 2 faults\n",
    },
    Case {
        files: &[("q.e", Q), ("h.e", b"deferred class H inherit Q end")],
        report: b"XYET.1 h - h.e:1:16 -\nXYET.1 q - q.e:1:16 -\nXYET 2\nno 2 faults\n",
    },
    Case {
        files: &[("q.e", Q), ("p.e", P), ("h.e", b"class H inherit Q P end")],
        report: b"XYET.1 h - h.e:1:7 -\nXYET.1 p - p.e:1:7 -\nXYET.1 q - q.e:1:16 -\nXYET 3\nno 3 faults\n",
    },
    Case {
        files: &[("k.e", b"deferred class K end")],
        report: b"XYET.1 k - k.e:1:16 -\nXYET 1\nno 1 faults\n",
    },
];
