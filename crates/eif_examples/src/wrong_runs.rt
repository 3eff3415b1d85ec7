//! The classes of the runs that go wrong.

ghost use Rattle.std.specs.Prelude.{◌≡◌, map};
ghost use Rattle.eif_examples.specs.WrongRunTrees.{sparse_wrong_run_trees};
ghost use Rattle.eif_examples.specs.Compared.{sparse};

use crate::rows::SparseRow;

pub(crate) const SPARSE_WRONG_RUNS: [SparseRow; 34] = [
    // WrongRuns
    (
        915302140955300498,
        0,
        &[],
        b"class APP create make feature make local x: detachable APP do x.put (loud) end put (s: STRING) do end loud: STRING do print (\"l\") Result := \"s\" end end",
    ),
    (
        1466757897981115759,
        0,
        &[],
        b"class APP create make feature make do print (Void.out) end end",
    ),
    (
        1479764213493803225,
        0,
        &[],
        b"class APP create make feature s: STRING make do print (s) end end",
    ),
    (
        1218929517130956042,
        0,
        &[],
        b"class APP create make feature make local s: STRING do print (s) end end",
    ),
    (
        1212988874778482044,
        0,
        &[],
        b"class APP create make feature make do print (f) end f: STRING do Result := Result end end",
    ),
    (
        1433863509371368023,
        0,
        &[],
        b"class APP create make feature make do print (f) end f: STRING do print (\"f\") end end",
    ),
    (
        2291593611921577417,
        0,
        &[],
        b"class APP create make feature make do print (nope) end end",
    ),
    (
        510271235009805046,
        0,
        &[],
        b"class APP create make feature make local i: INTEGER do print (i (1)) end end",
    ),
    (
        2017598404601601860,
        0,
        &[],
        b"class APP create make feature make do f (1) end f (i: INTEGER) do f end loud: STRING do print (\"l\") Result := \"s\" end end",
    ),
    (
        1724394500383787425,
        0,
        &[],
        b"class APP create make feature make do f (1) end f (i: INTEGER) do f (1) end loud: STRING do print (\"l\") Result := \"s\" end end",
    ),
    (
        1631796585190992449,
        0,
        &[],
        b"class APP create make feature make local s: STRING do s := 1 print (s.count) end end",
    ),
    (
        823294383060496408,
        0,
        &[],
        b"class APP create make feature make local s: NOPE do s := 1 print (s.out) end end",
    ),
    (
        1182426025696039339,
        0,
        &[],
        b"class APP create make feature make do Precursor end end",
    ),
    (
        492803268736279284,
        0,
        &[],
        b"class APP create make feature make local b: B do create {C} b b.f end end",
    ),
    (
        1762861521116521672,
        0,
        &[],
        b"deferred class B feature f deferred end end",
    ),
    (
        1009947426408852425,
        0,
        &[],
        b"class C inherit B feature end",
    ),
    (
        529753448717965182,
        0,
        &[],
        b"class APP create make feature make local b: B do create b end end",
    ),
    (1257971581694571391, 0, &[], b"deferred class B feature end"),
    (
        2074558324740744780,
        0,
        &[],
        b"class APP create make feature make do print (create {INTEGER}) end end",
    ),
    (
        616395680634322193,
        0,
        &[],
        b"class APP create make feature make do print (create {ANY}.nope) end end",
    ),
    (
        1653055649540940652,
        0,
        &[],
        b"class APP create make feature s: STRING make do print (create {APP}.s) end end",
    ),
    (
        1705364801435712849,
        0,
        &[],
        b"class APP create make feature make do print (noisy) end noisy do print (\"n\") end end",
    ),
    (
        1138242755381456079,
        0,
        &[],
        b"class APP create make feature make do if print (1) then else end end end",
    ),
    (
        1358168031434394812,
        0,
        &[],
        b"class APP create make feature make do f (1) end f (i: INTEGER) do i := loud end loud: STRING do print (\"l\") Result := \"s\" end end",
    ),
    (
        406916377770715093,
        0,
        &[],
        b"class APP create make feature make do f (1) end f (i: INTEGER) do if attached 1 as y then y := loud else end end loud: STRING do print (\"l\") Result := \"s\" end end",
    ),
    (
        1246231103226598383,
        0,
        &[],
        b"class APP create make feature make do f (1) end f (i: INTEGER) do loud := loud end loud: STRING do print (\"l\") Result := \"s\" end end",
    ),
    (
        786640584887906296,
        0,
        &[],
        b"class APP create make feature make do print (1 + True) end end",
    ),
    (
        730968632629124282,
        0,
        &[],
        b"class APP create make feature make do print (not 1) end end",
    ),
    (
        1267521644823587059,
        0,
        &[],
        b"class APP create make feature make do print (1 and then True) end end",
    ),
    (
        1871092476607814358,
        0,
        &[],
        b"class APP create make feature make do print (1 < Void) end end",
    ),
    (
        1634230319711670836,
        0,
        &[],
        b"class APP create make feature make do if 1 then else end end end",
    ),
    (
        2202261911619372584,
        0,
        &[],
        b"class APP create make feature make do from until Void loop end end end",
    ),
    (
        791424252253751869,
        0,
        &[],
        b"class APP create make feature end",
    ),
    (
        367590001383465064,
        0,
        &[],
        b"class APP create make feature make (i: INTEGER) do end end",
    ),
];

/// The digests are those of the trees that have none of their places.
pub fn sparse_wrong_runs_digests()
    ensures { map (λ r. r.0) SPARSE_WRONG_RUNS ≡ map sparse sparse_wrong_run_trees }
{}
