//! The phase of signatures: systems with the report on each.

use super::rows::{APP, Row};
use crate::Status;

const P: &[u8] = b"class P feature f (x: P): ANY do Result := x end end";

const TWO: &[u8] = b"class APP create make create go feature make do end go do end end";

const RENAMED: &[u8] = b"class APP inherit ANY rename default_create as make end end";

const TAKES: &[u8] = b"class A feature f (x: STRING) do end end";

const WRONG: &[u8] = b"class B inherit A redefine f end feature f (x: ANY) do end end";

const A: &[u8] = b"deferred class A feature f (x: STRING) do end g deferred end h do end end";

const E: &[u8] = b"deferred class E feature g (x: ANY) deferred end h (x: ANY) deferred end end";

const D: &[u8] =
    b"deferred class D\ninherit\n  A redefine f end\n  E\ncreate make\nfeature\n  f do end\n  make do end\nend\n";

const Z: &[u8] = b"class Z create nope, default_create, nope end";

pub const SIGNATURE_ROWS: [Row; 21] = [
    // a redeclaration
    Row {
        words: &["--root", "app.make", "p.e", "app.e"],
        files: &[
            ("p.e", P),
            (
                "app.e",
                b"class APP\ninherit P redefine f end\ncreate make\nfeature\n  make\n    do\n    end\n  f (x: APP): ANY\n    do\n      Result := x\n    end\nend\n",
            ),
        ],
        status: Status::Faults,
        report: b"VDRD app f app.e:8:3 p\nno 1 faults\n",
    },
    Row {
        words: &["--root", "app.make", "p.e", "app.e"],
        files: &[
            ("p.e", P),
            (
                "app.e",
                b"class APP\ninherit P redefine f end\ncreate make\nfeature\n  make\n    do\n    end\n  f (x: P): P\n    do\n      Result := x\n    end\nend\n",
            ),
        ],
        status: Status::Faults,
        report: b"XYET app - app.e:1:7 -\nXYET p - p.e:1:7 -\nno 2 faults\n",
    },
    Row {
        words: &["--root", "app.make", "app.e", "a.e", "b.e"],
        files: &[
            ("app.e", APP),
            ("a.e", b"class A feature f do end g (x: STRING) do end end"),
            (
                "b.e",
                b"class B inherit A rename g as f redefine f end feature f (x: ANY) do end end",
            ),
        ],
        status: Status::Faults,
        report: b"VDRD b f b.e:1:56 a\nno 1 faults\n",
    },
    // the root procedure
    Row {
        words: &["--root", "app.make", "app.e"],
        files: &[(
            "app.e",
            b"class APP create make feature make (x: ANY) do end end",
        )],
        status: Status::Faults,
        report: b"VSRP app - app.e:1:7 make\nno 1 faults\n",
    },
    Row {
        words: &["--root", "app.make", "p.e", "app.e"],
        files: &[
            ("p.e", b"class P [G] feature run (x: G) do end end"),
            (
                "app.e",
                b"class APP inherit P [ANY] rename run as make end create make end",
            ),
        ],
        status: Status::Faults,
        report: b"VSRP app - app.e:1:7 make\nno 1 faults\n",
    },
    Row {
        words: &["--root", "app.go", "app.e"],
        files: &[("app.e", TWO)],
        status: Status::Faults,
        report: b"XYET app - app.e:1:7 -\nno 1 faults\n",
    },
    Row {
        words: &["--root", "app.default_create", "app.e"],
        files: &[("app.e", TWO)],
        status: Status::Faults,
        report: b"VSRP app - app.e:1:7 default_create\nno 1 faults\n",
    },
    Row {
        words: &["--root", "app.make", "app.e"],
        files: &[(
            "app.e",
            b"class APP create {NONE} make feature make do end end",
        )],
        status: Status::Yes,
        report: b"yes 1 classes\n",
    },
    Row {
        words: &["--root", "app.default_create", "app.e"],
        files: &[("app.e", b"class APP end")],
        status: Status::Faults,
        report: b"XYET app - app.e:1:7 -\nno 1 faults\n",
    },
    Row {
        words: &["--root", "app.make", "app.e"],
        files: &[("app.e", RENAMED)],
        status: Status::Faults,
        report: b"XYET app - app.e:1:7 -\nno 1 faults\n",
    },
    Row {
        words: &["--root", "app.default_create", "app.e"],
        files: &[("app.e", RENAMED)],
        status: Status::Faults,
        report: b"VSRP app - app.e:1:7 default_create\nno 1 faults\n",
    },
    Row {
        words: &["--root", "app.make", "p.e", "app.e"],
        files: &[
            ("p.e", b"class P create make feature make do end end"),
            ("app.e", b"class APP inherit P end"),
        ],
        status: Status::Faults,
        report: b"VSRP app - app.e:1:7 make\nno 1 faults\n",
    },
    Row {
        words: &["--root", "app.make", "app.e"],
        files: &[("app.e", b"class APP create make end")],
        status: Status::Faults,
        report: b"VGCP app - app.e:1:18 make\nno 1 faults\n",
    },
    Row {
        words: &["--root", "app.make", "app.e"],
        files: &[(
            "app.e",
            b"class APP create make feature make: INTEGER do end end",
        )],
        status: Status::Faults,
        report: b"VGCP app - app.e:1:18 make\nno 1 faults\n",
    },
    Row {
        words: &["--root", "app.make", "app.e"],
        files: &[(
            "app.e",
            b"class APP create make feature make (x: ANY): INTEGER do end end",
        )],
        status: Status::Faults,
        report: b"VSRP app - app.e:1:7 make\nVGCP app - app.e:1:18 make\nno 2 faults\n",
    },
    // the earlier phases count first, and the later ones last
    Row {
        words: &["--root", "app.make", "app.e", "b.e"],
        files: &[
            ("app.e", APP),
            (
                "b.e",
                b"class B [G -> ANY] feature f: detachable B [detachable B [ANY]] end",
            ),
        ],
        status: Status::Faults,
        report: b"XGEN b f b.e:1:45 g\nno 1 faults\n",
    },
    Row {
        words: &["--root", "app.go", "app.e", "a.e", "b.e", "l.e", "d.e"],
        files: &[
            ("app.e", APP),
            ("a.e", TAKES),
            ("b.e", WRONG),
            ("l.e", b"class L [G] end"),
            ("d.e", b"class D inherit L [ANY] L [STRING] end"),
        ],
        status: Status::Faults,
        report: b"XANC d - d.e:1:25 l\nno 1 faults\n",
    },
    Row {
        words: &["--root", "app.go", "app.e", "a.e", "b.e", "h.e"],
        files: &[
            ("app.e", APP),
            ("a.e", TAKES),
            ("b.e", WRONG),
            ("h.e", b"class H inherit A rename nope as no end end"),
        ],
        status: Status::Faults,
        report: b"VHRC h - h.e:1:26 nope\nno 1 faults\n",
    },
    Row {
        words: &["--root", "app.make", "app.e", "a.e", "b.e"],
        files: &[
            ("app.e", b"class APP create make feature make do go end end"),
            ("a.e", TAKES),
            ("b.e", WRONG),
        ],
        status: Status::Faults,
        report: b"VDRD b f b.e:1:42 a\nno 1 faults\n",
    },
    // the order of lines
    Row {
        words: &["--root", "app.go", "z.e", "app.e", "e.e", "d.e", "a.e"],
        files: &[
            ("z.e", Z),
            ("app.e", APP),
            ("e.e", E),
            ("d.e", D),
            ("a.e", A),
        ],
        status: Status::Faults,
        report: b"VSRP app - app.e:1:7 go\nVDJR d - d.e:1:16 g\nVDRD d - d.e:1:16 h\nVGCP d - d.e:5:8 make\nVDRD d f d.e:7:3 a\nVGCP z - z.e:1:16 nope\nVGCP z - z.e:1:38 nope\nno 7 faults\n",
    },
    Row {
        words: &[
            "--root", "app.go", "--form", "2", "z.e", "app.e", "e.e", "d.e", "a.e",
        ],
        files: &[
            ("z.e", Z),
            ("app.e", APP),
            ("e.e", E),
            ("d.e", D),
            ("a.e", A),
        ],
        status: Status::Faults,
        report: b"VSRP.1 app - app.e:1:7 go\nVDJR.1 d - d.e:1:16 g\nVDRD.6 d - d.e:1:16 h\nVGCP.1 d - d.e:5:8 make\nVDRD.1 d f d.e:7:3 a\nVGCP.2 z - z.e:1:16 nope\nVGCP.2 z - z.e:1:38 nope\nVGCP.4 z - z.e:1:38 nope\nVDJR 1\nVDRD 2\nVGCP 4\nVSRP 1\nno 8 faults\n",
    },
];
