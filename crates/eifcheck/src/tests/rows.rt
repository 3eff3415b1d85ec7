//! Systems with the report on each.

use crate::Status;

pub const APP: &[u8] = b"class APP\ncreate make\nfeature\n  make\n    do\n    end\nend\n";

pub const A: &[u8] =
    b"class A\nfeature\n  ok: BOOLEAN\n  put (x: detachable ANY)\n    do\n    end\nend\n";

const B: &[u8] = b"class B create run feature run do run end end";

/// The words of a check, what the names hold, and how the check ends.
pub struct Row {
    pub words: &'static [&'static str],
    pub files: &'static [(&'static str, &'static [u8])],
    pub status: Status,
    pub report: &'static [u8],
}

pub const ROWS: [Row; 34] = [
    Row {
        words: &["--root", "app.make", "app.e"],
        files: &[("app.e", APP)],
        status: Status::Yes,
        report: b"yes 1 classes\n",
    },
    Row {
        words: &["--root", "APP.Make", "app.e"],
        files: &[("app.e", b"CLASS app CREATE MAKE FEATURE Make DO END END")],
        status: Status::Yes,
        report: b"yes 1 classes\n",
    },
    Row {
        words: &["--root", "app.go", "app.e"],
        files: &[("app.e", APP)],
        status: Status::Faults,
        report: b"VSRP app - app.e:1:7 go\nno 1 faults\n",
    },
    Row {
        words: &["--root", "app.make", "app.e"],
        files: &[("app.e", b"class APP create make feature make do go end end")],
        status: Status::Faults,
        report: b"VEEN app make app.e:1:39 go\nno 1 faults\n",
    },
    Row {
        words: &["--root", "app.make", "app.e"],
        files: &[(
            "app.e",
            b"class APP create make feature make do b a end a do b end end",
        )],
        status: Status::Faults,
        report: b"VEEN app make app.e:1:39 b\nVEEN app a app.e:1:52 b\nno 2 faults\n",
    },
    Row {
        words: &["--root", "app.make", "app.e"],
        files: &[(
            "app.e",
            b"class APP create make feature make do go stop end end",
        )],
        status: Status::Faults,
        report: b"VEEN app make app.e:1:39 go\nVEEN app make app.e:1:42 stop\nno 2 faults\n",
    },
    Row {
        words: &["--root", "app.make", "app.e"],
        files: &[(
            "app.e",
            b"class APP create make feature make do make end end",
        )],
        status: Status::Yes,
        report: b"yes 1 classes\n",
    },
    Row {
        words: &["--root", "app.make", "app.e"],
        files: &[(
            "app.e",
            b"class APP\ncreate make\nfeature\n  make\n    do\n      run (Void)\n    end\n  run (x: detachable A)\n    do\n      x.put (Void)\n    end\nend\n",
        )],
        status: Status::Faults,
        report: b"VTCT app run app.e:8:22 a\nno 1 faults\n",
    },
    Row {
        words: &["--root", "app.make", "app.e"],
        files: &[(
            "app.e",
            b"class APP create make feature make do end Make do end end",
        )],
        status: Status::Faults,
        report: b"VMFN app make app.e:1:43 make\nno 1 faults\n",
    },
    Row {
        words: &["--root", "nosuch.make", "app.e"],
        files: &[("app.e", APP)],
        status: Status::Faults,
        report: b"VSRT nosuch - -:0:0 nosuch\nno 1 faults\n",
    },
    Row {
        words: &["--root", "app.make", "e.e"],
        files: &[("e.e", b"")],
        status: Status::Faults,
        report: b"XSYN - - e.e:1:1 -\nno 1 faults\n",
    },
    Row {
        words: &["--root", "app.make", "s.e"],
        files: &[("s.e", b"class S feature t: STRING = \"ab")],
        status: Status::Faults,
        report: b"XLEX - - s.e:1:29 -\nno 1 faults\n",
    },
    Row {
        words: &["--root", "app.make", "o.e"],
        files: &[("o.e", b"class O feature x do once end end )")],
        status: Status::Faults,
        report: b"XOUT - - o.e:1:22 once\nno 1 faults\n",
    },
    Row {
        words: &["--root", "app.make", "app.e"],
        files: &[(
            "app.e",
            b"class APP create make feature make do make ( ) end end",
        )],
        status: Status::Faults,
        report: b"XSYN - - app.e:1:46 -\nno 1 faults\n",
    },
    Row {
        words: &["--root", "app.make", "app.e"],
        files: &[(
            "app.e",
            b"class APP create {NONE} make feature make do go end feature {NONE} go do end end",
        )],
        status: Status::Yes,
        report: b"yes 1 classes\n",
    },
    Row {
        words: &["--root", "app.make", "app.e"],
        files: &[(
            "app.e",
            b"class APP create {OUT} make feature make do end end",
        )],
        status: Status::Faults,
        report: b"XYET app - app.e:1:7 -\nno 1 faults\n",
    },
    Row {
        words: &["--root", "app.make", "app.e"],
        files: &[(
            "app.e",
            b"deferred class APP create make feature make do end end",
        )],
        status: Status::Faults,
        report: b"VSRT app - app.e:1:16 app\nno 1 faults\n",
    },
    Row {
        words: &["--root", "app.make", "app.e", "b.e"],
        files: &[("app.e", APP), ("b.e", B)],
        status: Status::Yes,
        report: b"yes 2 classes\n",
    },
    Row {
        words: &["--root", "app.make", "app.e", "a.e"],
        files: &[("app.e", APP), ("a.e", A)],
        status: Status::Faults,
        report: b"XYET a - a.e:1:7 -\nno 1 faults\n",
    },
    Row {
        words: &["--root", "app.make", "app.e", "app.e"],
        files: &[("app.e", APP)],
        status: Status::Faults,
        report: b"XDUP app - app.e:1:7 app\nno 1 faults\n",
    },
    Row {
        words: &["--root", "a.default_create", "a.e", "b.e", "s.e"],
        files: &[
            ("a.e", b"class A inherit B end"),
            ("b.e", b"class B inherit A end"),
            ("s.e", b"class S inherit S end"),
        ],
        status: Status::Faults,
        report: b"VHPR a - a.e:1:17 b\nVHPR b - b.e:1:17 a\nVHPR s - s.e:1:17 s\nno 3 faults\n",
    },
    Row {
        words: &["--root", "app.make", "app.e", "e.e", "s.e"],
        files: &[
            ("app.e", APP),
            ("e.e", b""),
            ("s.e", b"class S feature t: STRING = \"ab"),
        ],
        status: Status::Faults,
        report: b"XSYN - - e.e:1:1 -\nXLEX - - s.e:1:29 -\nno 2 faults\n",
    },
    Row {
        words: &["--root", "app.make", "app.e", "o.e"],
        files: &[
            ("app.e", APP),
            ("o.e", b"class O feature x do once end end )"),
        ],
        status: Status::Faults,
        report: b"XOUT - - o.e:1:22 once\nno 1 faults\n",
    },
    Row {
        words: &["--root", "app.make", "app.e", "b.e"],
        files: &[("app.e", APP), ("b.e", b"class B inherit STRING end")],
        status: Status::Faults,
        report: b"XKER b - b.e:1:17 string\nno 1 faults\n",
    },
    Row {
        words: &["--root", "app.make", "app.e", "b.e"],
        files: &[
            ("app.e", b"class APP create make feature make do go end end"),
            ("b.e", b"class B inherit NOPE end"),
        ],
        status: Status::Faults,
        report: b"VTCT b - b.e:1:17 nope\nno 1 faults\n",
    },
    Row {
        words: &["--root", "app.make", "b.e", "app.e"],
        files: &[
            ("app.e", b"class APP create make feature make do go end end"),
            ("b.e", b"class B create run feature run do stop end end"),
        ],
        status: Status::Faults,
        report: b"VEEN app make app.e:1:39 go\nVEEN b run b.e:1:35 stop\nno 2 faults\n",
    },
    Row {
        words: &["--root", "app.make", "--form", "2", "b.e", "app.e"],
        files: &[
            ("app.e", b"class APP create make feature make do go end end"),
            ("b.e", b"class B create run feature run do stop end end"),
        ],
        status: Status::Faults,
        report: b"VEEN.1 app make app.e:1:39 go\nVEEN.1 b run b.e:1:35 stop\nVEEN 2\nno 2 faults\n",
    },
    Row {
        words: &["--root", "b.run", "app.e", "b.e"],
        files: &[("app.e", APP), ("b.e", B)],
        status: Status::Yes,
        report: b"yes 2 classes\n",
    },
    Row {
        words: &["--root", "string.make", "app.e"],
        files: &[("app.e", APP)],
        status: Status::Faults,
        report: b"VSRT string - -:0:0 string\nno 1 faults\n",
    },
    Row {
        words: &["--root", "app.make", "--list", "l.txt"],
        files: &[("l.txt", b"app.e\r\n\nb.e\n"), ("app.e", APP), ("b.e", B)],
        status: Status::Yes,
        report: b"yes 2 classes\n",
    },
    Row {
        words: &["--root", "app.make", "--list", "l.txt", "b.e"],
        files: &[("l.txt", b"app.e"), ("app.e", APP), ("b.e", B)],
        status: Status::Yes,
        report: b"yes 2 classes\n",
    },
    Row {
        words: &["--root", "app.make", "--list", "l.txt"],
        files: &[("l.txt", b"app.e\n\xff\n")],
        status: Status::Faults,
        report: b"XLST - - l.txt:2:1 -\nno 1 faults\n",
    },
    Row {
        words: &[
            "--root", "app.make", "--list", "l.txt", "--form", "2", "b.e",
        ],
        files: &[("l.txt", b"\xff\n\napp.e\n\xfe")],
        status: Status::Faults,
        report: b"XLST.1 - - l.txt:1:1 -\nXLST.1 - - l.txt:4:1 -\nXLST 2\nno 2 faults\n",
    },
    Row {
        words: &["--root", "app.make", "--list", "l.txt"],
        files: &[("l.txt", b"")],
        status: Status::Faults,
        report: b"VSRT app - -:0:0 app\nno 1 faults\n",
    },
];
