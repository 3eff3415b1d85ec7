//! What a parent clause may say: systems with the report on each.

use super::features::Case;

const P: &[u8] = b"class P feature f do end g do end a: INTEGER c: INTEGER = 1 end";

const Q: &[u8] = b"deferred class Q feature f deferred end end";

const R: &[u8] = b"deferred class R feature f deferred end a: INTEGER end";

const Z: &[u8] = b"class Z feature f do end end";

const B: &[u8] = b"class B inherit Z end";

const C: &[u8] = b"class C inherit Z rename f as g end end";

pub const CLAUSE_RULES: [Case; 43] = [
    // renamed names
    Case {
        files: &[
            ("p.e", P),
            ("h.e", b"class H inherit P rename nope as no end end"),
        ],
        report: b"VHRC.1 h - h.e:1:26 nope\nVHRC 1\nno 1 faults\n",
    },
    Case {
        files: &[
            ("p.e", P),
            ("h.e", b"class H inherit P rename f as no end end"),
        ],
        report: b"XYET.1 h - h.e:1:7 -\nXYET.1 p - p.e:1:7 -\nXYET 2\nno 2 faults\n",
    },
    Case {
        files: &[
            ("p.e", P),
            ("h.e", b"class H inherit P rename f as x, f as y end end"),
        ],
        report: b"VHRC.2 h - h.e:1:34 f\nVHRC 1\nno 1 faults\n",
    },
    Case {
        files: &[
            ("p.e", P),
            ("h.e", b"class H inherit P rename f as x, g as y end end"),
        ],
        report: b"XYET.1 h - h.e:1:7 -\nXYET.1 p - p.e:1:7 -\nXYET 2\nno 2 faults\n",
    },
    Case {
        files: &[
            ("p.e", P),
            (
                "h.e",
                b"class H inherit P rename nope as x, nope as y end end",
            ),
        ],
        report: b"VHRC.1 h - h.e:1:26 nope\nVHRC.1 h - h.e:1:37 nope\nVHRC 2\nno 2 faults\n",
    },
    Case {
        files: &[
            ("p.e", P),
            ("h.e", b"class H inherit P rename f as g, g as f end end"),
        ],
        report: b"XYET.1 h - h.e:1:7 -\nXYET.1 p - p.e:1:7 -\nXYET 2\nno 2 faults\n",
    },
    Case {
        files: &[
            ("p.e", P),
            (
                "h.e",
                b"class H inherit P rename f as g, g as h export {ANY} g, h redefine g end feature g do end end",
            ),
        ],
        report: b"XYET.1 h - h.e:1:7 -\nXYET.1 p - p.e:1:7 -\nXYET 2\nno 2 faults\n",
    },
    // exported names
    Case {
        files: &[
            ("p.e", P),
            ("h.e", b"class H inherit P export {ANY} nope end end"),
        ],
        report: b"VLEL.1 h - h.e:1:32 nope\nVLEL 1\nno 1 faults\n",
    },
    Case {
        files: &[
            ("p.e", P),
            (
                "h.e",
                b"class H inherit P rename f as x export {ANY} f end end",
            ),
        ],
        report: b"VLEL.1 h - h.e:1:46 f\nVLEL 1\nno 1 faults\n",
    },
    Case {
        files: &[
            ("p.e", P),
            (
                "h.e",
                b"class H inherit P rename f as x export {ANY} x end end",
            ),
        ],
        report: b"XYET.1 h - h.e:1:7 -\nXYET.1 p - p.e:1:7 -\nXYET 2\nno 2 faults\n",
    },
    Case {
        files: &[
            ("p.e", P),
            (
                "h.e",
                b"class H inherit P export {ANY} f {NONE} g, f end end",
            ),
        ],
        report: b"VLEL.2 h - h.e:1:44 f\nVLEL 1\nno 1 faults\n",
    },
    Case {
        files: &[
            ("p.e", P),
            ("h.e", b"class H inherit P export {ANY} f; {NONE} g end end"),
        ],
        report: b"XYET.1 h - h.e:1:7 -\nXYET.1 p - p.e:1:7 -\nXYET 2\nno 2 faults\n",
    },
    Case {
        files: &[
            ("p.e", P),
            ("h.e", b"class H inherit P export {ANY} nope, nope end end"),
        ],
        report: b"VLEL.1 h - h.e:1:32 nope\nVLEL.1 h - h.e:1:38 nope\nVLEL 2\nno 2 faults\n",
    },
    Case {
        files: &[
            ("p.e", P),
            (
                "h.e",
                b"class H inherit P export {ANY} all {NONE} f {P} all end end",
            ),
        ],
        report: b"VLEL.3 h - h.e:1:49 all\nVLEL 1\nno 1 faults\n",
    },
    Case {
        files: &[
            ("p.e", P),
            (
                "h.e",
                b"class H inherit P export {ANY} all {NONE} f, all_of_it end end",
            ),
        ],
        report: b"VLEL.1 h - h.e:1:46 all_of_it\nVLEL 1\nno 1 faults\n",
    },
    Case {
        files: &[
            ("p.e", P),
            (
                "h.e",
                b"class H inherit P export {ANY} f {NONE} all end end",
            ),
        ],
        report: b"XYET.1 h - h.e:1:7 -\nXYET.1 p - p.e:1:7 -\nXYET 2\nno 2 faults\n",
    },
    Case {
        files: &[
            ("p.e", P),
            (
                "h.e",
                b"class H inherit P export {NOPE, F} f {} all end feature {NOPE} h do end end",
            ),
        ],
        report: b"XYET.1 h - h.e:1:7 -\nXYET.1 p - p.e:1:7 -\nXYET 2\nno 2 faults\n",
    },
    // undefined names
    Case {
        files: &[
            ("p.e", P),
            ("h.e", b"deferred class H inherit P undefine nope end end"),
        ],
        report: b"VDUS.1 h - h.e:1:37 nope\nVDUS 1\nno 1 faults\n",
    },
    Case {
        files: &[
            ("p.e", P),
            (
                "h.e",
                b"deferred class H inherit P rename f as x undefine f end end",
            ),
        ],
        report: b"VDUS.1 h - h.e:1:51 f\nVDUS 1\nno 1 faults\n",
    },
    Case {
        files: &[
            ("p.e", P),
            ("h.e", b"deferred class H inherit P undefine f end end"),
        ],
        report: b"XYET.1 h - h.e:1:16 -\nXYET.1 p - p.e:1:7 -\nXYET 2\nno 2 faults\n",
    },
    Case {
        files: &[
            ("p.e", P),
            (
                "h.e",
                b"deferred class H inherit P undefine f, g, f end end",
            ),
        ],
        report: b"VDUS.2 h - h.e:1:43 f\nVDUS 1\nno 1 faults\n",
    },
    Case {
        files: &[
            ("p.e", P),
            (
                "h.e",
                b"deferred class H inherit P undefine nope, nope end end",
            ),
        ],
        report: b"VDUS.1 h - h.e:1:37 nope\nVDUS.1 h - h.e:1:43 nope\nVDUS 2\nno 2 faults\n",
    },
    Case {
        files: &[
            ("p.e", P),
            ("h.e", b"deferred class H inherit P undefine a end end"),
        ],
        report: b"VDUS.3 h - h.e:1:37 a\nVDUS 1\nno 1 faults\n",
    },
    Case {
        files: &[
            ("p.e", P),
            ("h.e", b"deferred class H inherit P undefine c end end"),
        ],
        report: b"XYET.1 h - h.e:1:16 -\nXYET.1 p - p.e:1:7 -\nXYET 2\nno 2 faults\n",
    },
    Case {
        files: &[
            ("p.e", P),
            ("h.e", b"deferred class H inherit P undefine a, a end end"),
        ],
        report: b"VDUS.3 h - h.e:1:37 a\nVDUS.2 h - h.e:1:40 a\nVDUS 2\nno 2 faults\n",
    },
    Case {
        files: &[
            ("p.e", P),
            (
                "h.e",
                b"deferred class H inherit P rename f as a undefine a end end",
            ),
        ],
        report: b"VDUS.3 h - h.e:1:51 a\nVDUS 1\nno 1 faults\n",
    },
    Case {
        files: &[
            ("r.e", R),
            (
                "h.e",
                b"deferred class H inherit R rename f as a undefine a end end",
            ),
        ],
        report: b"VDUS.3 h - h.e:1:51 a\nVDUS 1\nno 1 faults\n",
    },
    Case {
        files: &[
            ("q.e", Q),
            ("h.e", b"deferred class H inherit Q undefine f end end"),
        ],
        report: b"VDUS.4 h - h.e:1:37 f\nVDUS 1\nno 1 faults\n",
    },
    // redefined names
    Case {
        files: &[
            ("p.e", P),
            ("h.e", b"class H inherit P redefine nope end end"),
        ],
        report: b"VDRS.1 h - h.e:1:28 nope\nVDRS 1\nno 1 faults\n",
    },
    Case {
        files: &[
            ("p.e", P),
            (
                "h.e",
                b"class H inherit P redefine nope end feature nope do end end",
            ),
        ],
        report: b"VDRS.1 h - h.e:1:28 nope\nVDRS 1\nno 1 faults\n",
    },
    Case {
        files: &[
            ("p.e", P),
            (
                "h.e",
                b"class H inherit P rename f as x redefine f end feature f do end end",
            ),
        ],
        report: b"VDRS.1 h - h.e:1:42 f\nVDRS 1\nno 1 faults\n",
    },
    Case {
        files: &[
            ("p.e", P),
            (
                "h.e",
                b"class H inherit P redefine f end feature f do end end",
            ),
        ],
        report: b"XYET.1 h - h.e:1:7 -\nXYET.1 p - p.e:1:7 -\nXYET 2\nno 2 faults\n",
    },
    Case {
        files: &[
            ("p.e", P),
            (
                "h.e",
                b"class H inherit P redefine f, f end feature f do end end",
            ),
        ],
        report: b"VDRS.2 h - h.e:1:31 f\nVDRS 1\nno 1 faults\n",
    },
    Case {
        files: &[
            ("p.e", P),
            ("h.e", b"class H inherit P redefine nope, nope end end"),
        ],
        report: b"VDRS.1 h - h.e:1:28 nope\nVDRS.1 h - h.e:1:34 nope\nVDRS 2\nno 2 faults\n",
    },
    Case {
        files: &[("p.e", P), ("h.e", b"class H inherit P redefine f end end")],
        report: b"VDRS.3 h - h.e:1:28 f\nVDRS 1\nno 1 faults\n",
    },
    Case {
        files: &[
            ("p.e", P),
            ("h.e", b"class H inherit P redefine f, f end end"),
        ],
        report: b"VDRS.3 h - h.e:1:28 f\nVDRS.2 h - h.e:1:31 f\nVDRS 2\nno 2 faults\n",
    },
    // selected names
    Case {
        files: &[
            ("p.e", P),
            ("h.e", b"class H inherit P select nope end end"),
        ],
        report: b"VMSS.1 h - h.e:1:26 nope\nVMSS 1\nno 1 faults\n",
    },
    Case {
        files: &[
            ("p.e", P),
            ("h.e", b"class H inherit P select nope, nope end end"),
        ],
        report: b"VMSS.1 h - h.e:1:26 nope\nVMSS.1 h - h.e:1:32 nope\nVMSS 2\nno 2 faults\n",
    },
    Case {
        files: &[
            ("z.e", Z),
            ("b.e", B),
            ("c.e", C),
            ("d.e", b"class D inherit B select f, f end C end"),
        ],
        report: b"VMSS.2 d - d.e:1:29 f\nVMSS 1\nno 1 faults\n",
    },
    Case {
        files: &[
            ("z.e", Z),
            ("b.e", B),
            ("c.e", C),
            ("d.e", b"class D inherit B select f end C end"),
        ],
        report: b"XYET.1 b - b.e:1:7 -\nXYET.1 c - c.e:1:7 -\nXYET.1 d - d.e:1:7 -\nXYET.1 z - z.e:1:7 -\nXYET 4\nno 4 faults\n",
    },
    Case {
        files: &[("p.e", P), ("h.e", b"class H inherit P select f end end")],
        report: b"VMSS.3 h - h.e:1:26 f\nVMSS 1\nno 1 faults\n",
    },
    Case {
        files: &[
            ("p.e", P),
            ("h.e", b"class H inherit P select f, f end end"),
        ],
        report: b"VMSS.3 h - h.e:1:26 f\nVMSS.2 h - h.e:1:29 f\nVMSS 2\nno 2 faults\n",
    },
    // each list of one clause
    Case {
        files: &[
            ("p.e", P),
            (
                "h.e",
                b"deferred class H inherit P rename x as y export {ANY} x undefine x redefine x select x end end",
            ),
        ],
        report: b"VHRC.1 h - h.e:1:35 x\nVLEL.1 h - h.e:1:55 x\nVDUS.1 h - h.e:1:66 x\nVDRS.1 h - h.e:1:77 x\nVMSS.1 h - h.e:1:86 x\nVDRS 1\nVDUS 1\nVHRC 1\nVLEL 1\nVMSS 1\nno 5 faults\n",
    },
];
