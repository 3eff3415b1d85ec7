//! Which version of a feature counts where a class has several, and which classes are judged:
//! systems with the report on each.

use super::features::Case;

const Z: &[u8] = b"class Z feature f do end end";

const B: &[u8] = b"class B inherit Z end";

const C: &[u8] = b"class C inherit Z rename f as g end end";

const K: &[u8] = b"class K feature f do g end g do end end";

const TWO_F_AND_G: &[u8] = b"class D inherit K select f, g end K rename f as f2, g as g2 end end";

const TWO_F_AND_X: &[u8] = b"class D inherit K select f, x end K rename f as f2, x as x2 end end";

pub const VERSION_RULES: [Case; 35] = [
    // several versions
    Case {
        files: &[
            ("z.e", Z),
            ("b.e", B),
            ("c.e", C),
            ("d.e", b"class D inherit B C end"),
        ],
        report: b"VMRC.1 d - d.e:1:7 f\nVMRC 1\nno 1 faults\n",
    },
    Case {
        files: &[
            ("z.e", Z),
            ("b.e", B),
            ("c.e", C),
            ("d.e", b"class D inherit B C select g end end"),
        ],
        report: b"XYET.1 b - b.e:1:7 -\nXYET.1 c - c.e:1:7 -\nXYET.1 d - d.e:1:7 -\nXYET.1 z - z.e:1:7 -\nXYET 4\nno 4 faults\n",
    },
    Case {
        files: &[
            ("z.e", Z),
            ("b.e", B),
            ("c.e", C),
            ("d.e", b"class D inherit B select f end C select g end end"),
        ],
        report: b"VMRC.1 d - d.e:1:7 f\nVMRC 1\nno 1 faults\n",
    },
    Case {
        files: &[
            ("z.e", Z),
            ("b.e", B),
            ("c.e", C),
            ("d.e", b"class D inherit B C select f end end"),
        ],
        report: b"VMSS.1 d - d.e:1:28 f\nVMSS 1\nno 1 faults\n",
    },
    Case {
        files: &[
            ("z.e", Z),
            ("b.e", B),
            ("c.e", b"class C inherit Z rename f as e end end"),
            ("d.e", b"class D inherit B C end"),
        ],
        report: b"VMRC.1 d - d.e:1:7 e\nVMRC 1\nno 1 faults\n",
    },
    Case {
        files: &[
            ("z.e", Z),
            ("b.e", B),
            ("c.e", C),
            ("d.e", b"class D inherit B select f end end"),
        ],
        report: b"VMSS.3 d - d.e:1:26 f\nVMSS 1\nno 1 faults\n",
    },
    Case {
        files: &[
            ("z.e", Z),
            ("b.e", B),
            ("c.e", C),
            ("d.e", b"class D inherit B select f end C end"),
            ("e.e", b"class E inherit D end"),
        ],
        report: b"XYET.1 b - b.e:1:7 -\nXYET.1 c - c.e:1:7 -\nXYET.1 d - d.e:1:7 -\nXYET.1 e - e.e:1:7 -\nXYET.1 z - z.e:1:7 -\nXYET 5\nno 5 faults\n",
    },
    Case {
        files: &[(
            "d.e",
            b"class D inherit ANY ANY rename out as shown end end",
        )],
        report: b"VMRC.1 d - d.e:1:7 out\nVMRC 1\nno 1 faults\n",
    },
    Case {
        files: &[(
            "d.e",
            b"class D inherit ANY ANY rename out as shown select shown end end",
        )],
        report: b"XYET.1 d - d.e:1:7 -\nXYET 1\nno 1 faults\n",
    },
    // routines in several versions
    Case {
        files: &[("k.e", K), ("d.e", TWO_F_AND_G)],
        report: b"XREP.1 d - d.e:1:7 g\nXREP 1\nno 1 faults\n",
    },
    Case {
        files: &[
            ("k.e", K),
            (
                "d.e",
                b"class D inherit K select f end K rename f as f2 end end",
            ),
        ],
        report: b"XYET.1 d - d.e:1:7 -\nXYET.1 k - k.e:1:7 -\nXYET 2\nno 2 faults\n",
    },
    Case {
        files: &[
            ("k.e", K),
            (
                "d.e",
                b"class D inherit K select g end K rename g as g2 end end",
            ),
        ],
        report: b"XYET.1 d - d.e:1:7 -\nXYET.1 k - k.e:1:7 -\nXYET 2\nno 2 faults\n",
    },
    Case {
        files: &[
            ("k.e", b"class K feature f do g g end g do end end"),
            ("d.e", TWO_F_AND_G),
        ],
        report: b"XREP.1 d - d.e:1:7 g\nXREP 1\nno 1 faults\n",
    },
    Case {
        files: &[
            ("k.e", b"class K feature f do f end end"),
            (
                "d.e",
                b"class D inherit K select f end K rename f as f2 end end",
            ),
        ],
        report: b"XREP.1 d - d.e:1:7 f\nXREP 1\nno 1 faults\n",
    },
    Case {
        files: &[
            ("k.e", b"class K feature f do x := 1 end x: INTEGER end"),
            ("d.e", TWO_F_AND_X),
        ],
        report: b"XREP.1 d - d.e:1:7 x\nXREP 1\nno 1 faults\n",
    },
    Case {
        files: &[
            ("k.e", b"class K feature f do create x end x: K end"),
            ("d.e", TWO_F_AND_X),
        ],
        report: b"XREP.1 d - d.e:1:7 x\nXREP 1\nno 1 faults\n",
    },
    Case {
        files: &[
            ("k.e", b"class K feature f require x do end x: BOOLEAN end"),
            ("d.e", TWO_F_AND_X),
        ],
        report: b"XREP.1 d - d.e:1:7 x\nXREP 1\nno 1 faults\n",
    },
    Case {
        files: &[
            ("k.e", b"class K feature f do ensure x end x: BOOLEAN end"),
            ("d.e", TWO_F_AND_X),
        ],
        report: b"XREP.1 d - d.e:1:7 x\nXREP 1\nno 1 faults\n",
    },
    Case {
        files: &[
            (
                "k.e",
                b"class K feature f do check x end end x: BOOLEAN end",
            ),
            ("d.e", TWO_F_AND_X),
        ],
        report: b"XREP.1 d - d.e:1:7 x\nXREP 1\nno 1 faults\n",
    },
    Case {
        files: &[
            (
                "k.e",
                b"class K feature f local x: INTEGER do x := 1 end x: INTEGER end",
            ),
            ("d.e", TWO_F_AND_X),
        ],
        report: b"XREP.1 d - d.e:1:7 x\nXREP 1\nno 1 faults\n",
    },
    Case {
        files: &[
            (
                "k.e",
                b"class K feature f (x: ANY) do print (x) end x: INTEGER end",
            ),
            ("d.e", TWO_F_AND_X),
        ],
        report: b"XREP.1 d - d.e:1:7 x\nXREP 1\nno 1 faults\n",
    },
    Case {
        files: &[
            ("k.e", b"class K feature f do k.x end x: INTEGER k: K end"),
            ("d.e", TWO_F_AND_X),
        ],
        report: b"XYET.1 d - d.e:1:7 -\nXYET.1 k - k.e:1:7 -\nXYET 2\nno 2 faults\n",
    },
    Case {
        files: &[
            (
                "k.e",
                b"class K feature f: INTEGER do Result := x + y end x, y: INTEGER end",
            ),
            (
                "d.e",
                b"class D inherit K select f, x, y end K rename f as f2, x as x2, y as y2 end end",
            ),
        ],
        report: b"XREP.1 d - d.e:1:7 x\nXREP.1 d - d.e:1:7 y\nXREP 2\nno 2 faults\n",
    },
    Case {
        files: &[
            ("k.e", K),
            (
                "d.e",
                b"class D inherit K rename g as h select f, h end K rename f as f2, g as g2 end end",
            ),
        ],
        report: b"XREP.1 d - d.e:1:7 g\nXREP 1\nno 1 faults\n",
    },
    Case {
        files: &[
            ("k.e", K),
            ("b.e", b"class B inherit K end"),
            ("c.e", b"class C inherit K rename f as f2, g as g2 end end"),
            ("d.e", b"class D inherit B select f, g end C end"),
        ],
        report: b"XREP.1 d - d.e:1:7 g\nXREP 1\nno 1 faults\n",
    },
    // of which one is declared by another class
    Case {
        files: &[
            ("k.e", K),
            (
                "d.e",
                b"class D inherit K redefine f select f, g end K rename f as f2, g as g2 end feature f do end end",
            ),
        ],
        report: b"XYET.1 d - d.e:1:7 -\nXYET.1 k - k.e:1:7 -\nXYET 2\nno 2 faults\n",
    },
    Case {
        files: &[
            ("k.e", K),
            (
                "d.e",
                b"class D inherit K undefine f select f, g end K rename f as f2, g as g2 end feature f do end end",
            ),
        ],
        report: b"XYET.1 d - d.e:1:7 -\nXYET.1 k - k.e:1:7 -\nXYET 2\nno 2 faults\n",
    },
    Case {
        files: &[
            ("k.e", K),
            (
                "b.e",
                b"class B inherit K redefine f end feature f do end end",
            ),
            ("c.e", b"class C inherit K rename f as f2, g as g2 end end"),
            ("d.e", b"class D inherit B select f, g end C end"),
        ],
        report: b"XYET.1 b - b.e:1:7 -\nXYET.1 c - c.e:1:7 -\nXYET.1 d - d.e:1:7 -\nXYET.1 k - k.e:1:7 -\nXYET 4\nno 4 faults\n",
    },
    Case {
        files: &[
            ("k.e", K),
            (
                "d.e",
                b"class D inherit K redefine f select f, g end K rename f as f2, g as g2 end K rename f as f3, g as g3 end feature f do end end",
            ),
        ],
        report: b"XREP.1 d - d.e:1:7 g\nXREP 1\nno 1 faults\n",
    },
    Case {
        files: &[
            ("z.e", Z),
            ("k.e", b"class K inherit Z rename nope as no end end"),
            ("h.e", b"class H inherit K rename nope as no end end"),
        ],
        report: b"VHRC.1 k - k.e:1:26 nope\nVHRC 1\nno 1 faults\n",
    },
    Case {
        files: &[
            ("i.e", b"class I inherit W H select nope end end"),
            ("h.e", b"class H inherit K rename nope as no end end"),
            ("k.e", b"class K inherit Z rename nope as no end end"),
            ("w.e", b"class W inherit Z rename nope as no end end"),
            ("z.e", Z),
        ],
        report: b"VHRC.1 k - k.e:1:26 nope\nVHRC.1 w - w.e:1:26 nope\nVHRC 2\nno 2 faults\n",
    },
    Case {
        files: &[
            ("h.e", b"class H inherit K end"),
            ("k.e", b"class K feature f deferred end end"),
        ],
        report: b"VCCH.1 k - k.e:1:7 f\nVCCH 1\nno 1 faults\n",
    },
    Case {
        files: &[
            ("h.e", b"class H inherit Z K feature f do end end"),
            ("z.e", Z),
            ("k.e", b"class K feature h do end h do end end"),
        ],
        report: b"VMFN.1 k h k.e:1:26 h\nVMFN 1\nno 1 faults\n",
    },
    Case {
        files: &[
            ("h.e", b"class H inherit Z X feature f do end end"),
            ("z.e", Z),
            ("x.e", b"class X feature h do end end"),
        ],
        report: b"VMFN.2 h f h.e:1:29 f\nVMFN 1\nno 1 faults\n",
    },
    Case {
        files: &[
            ("b.e", b"class B inherit NOPE end"),
            ("k.e", b"class K inherit Z rename nope as no end end"),
            ("z.e", Z),
        ],
        report: b"VTCT.1 b - b.e:1:17 nope\nVTCT 1\nno 1 faults\n",
    },
];
