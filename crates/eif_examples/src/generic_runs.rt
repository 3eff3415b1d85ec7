//! The classes of the first runs, of those of generic classes, of how fields and locals begin, of branches, and of a list.

ghost use Rattle.std.specs.Prelude.{◌≡◌, map};
ghost use Rattle.eif_examples.specs.GenericRunTrees.{sparse_generic_run_trees};
ghost use Rattle.eif_examples.specs.Compared.{sparse};

use crate::rows::SparseRow;

pub(crate) const SPARSE_GENERIC_RUNS: [SparseRow; 44] = [
    // FirstRuns
    (
        1177740089930686495,
        0,
        &[],
        b"class APP create make feature make do run (Void) end run (x: detachable A) do x.put (Void) end end",
    ),
    (
        1278913139786816833,
        0,
        &[],
        b"class A feature ok: BOOLEAN put (x: detachable ANY) do end end",
    ),
    (
        2043501201114253621,
        0,
        &[],
        b"class APP create make feature name: STRING make do print (name) end end",
    ),
    (
        44937532003675624,
        0,
        &[],
        b"class APP create make feature make local a: ANY do create a a.nope end end",
    ),
    (
        1491223283397369123,
        0,
        &[],
        b"class APP create make feature make do print (1 + 2) end end",
    ),
    (
        492803268736279284,
        0,
        &[],
        b"class APP create make feature make local b: B do create {C} b b.f end end",
    ),
    (
        2183782000559991506,
        0,
        &[],
        b"class B feature f do print (1) end end",
    ),
    (
        1608931477707874978,
        0,
        &[],
        b"class C inherit B rename f as g end feature f do print (2) end end",
    ),
    // GenericRuns
    (
        1067890011808400752,
        0,
        &[],
        b"class CELL [G] feature item: G spare: detachable G make (v: G) do item := v end leave_empty do end suits (x: detachable ANY): BOOLEAN do Result := attached {G} x as y end is_alike (x: detachable ANY): BOOLEAN do Result := attached {CELL [G]} x as y end twin: CELL [G] do create Result.make (item) end end",
    ),
    (
        34404278618765072,
        0,
        &[],
        b"class NAMES inherit CELL [STRING] feature end",
    ),
    (
        2260228368216133391,
        0,
        &[],
        b"class ROWS [H] inherit CELL [ARRAY [H]] feature end",
    ),
    (
        378569569145558181,
        0,
        &[],
        b"class APP create make feature make local c: CELL [STRING] do create c.make (\"s\") print (c.suits (\"t\")) print (c.suits (1)) print (c.suits (Void)) end end",
    ),
    (
        1854495346256846591,
        0,
        &[],
        b"class APP create make feature make local c: CELL [INTEGER] do create c.make (1) print (c.suits (\"t\")) print (c.suits (1)) end end",
    ),
    (
        1617552333214422226,
        0,
        &[],
        b"class APP create make feature make local c: CELL [ANY] do create c.make (1) print (c.suits (\"t\")) print (c.suits (1)) end end",
    ),
    (
        816075304670126267,
        0,
        &[],
        b"class APP create make feature make local c: CELL [STRING] do create c.make (\"s\") print (c.twin.item) print (c.is_alike (c.twin)) end end",
    ),
    (
        1170112925366507139,
        0,
        &[],
        b"class APP create make feature make local c: CELL [STRING] do create c.make (\"s\") print (c.is_alike (create {CELL [INTEGER]}.make (1))) end end",
    ),
    (
        2118641055447601443,
        0,
        &[],
        b"class APP create make feature make local c: NAMES do create c.make (\"s\") print (c.suits (\"t\")) print (c.suits (1)) print (c.is_alike (c)) end end",
    ),
    (
        1521253019570603265,
        0,
        &[],
        b"class APP create make feature make local c: ROWS [INTEGER] do create c.make (create {ARRAY [INTEGER]}.make_filled (1, 1, 1)) print (c.suits (create {ARRAY [INTEGER]}.make_filled (2, 1, 1))) print (c.suits (create {ARRAY [STRING]}.make_filled (\"s\", 1, 1))) end end",
    ),
    (
        1391680861149231913,
        0,
        &[],
        b"class APP create make feature make local c: CELL [STRING] do create c.make (\"s\") print (c.is_alike (create {CELL [detachable STRING]}.make (\"t\"))) end end",
    ),
    (
        1462950100825430775,
        0,
        &[],
        b"class APP create make feature make local c: CELL [INTEGER] do create c.make (1) print (c.spare) end end",
    ),
    (
        569501383821385344,
        0,
        &[],
        b"class APP create make feature make local c: CELL [STRING] do create c.make (\"s\") print (create {CELL [INTEGER]}.leave_empty.item) end end",
    ),
    (
        1547486124103889804,
        0,
        &[],
        b"class APP create make feature make do print (create {BOX [COUNTED]}.make (create {COUNTED}).size) end end",
    ),
    (
        261546175605843659,
        0,
        &[],
        b"class BOX [G -> COUNTED] feature item: G make (v: G) do item := v end size: INTEGER do Result := item.size end end",
    ),
    (
        1332825408454063975,
        0,
        &[],
        b"class COUNTED feature size: INTEGER do Result := 6 end end",
    ),
    // HolderRuns
    (
        1093984349479462398,
        0,
        &[],
        b"class APP create make feature make local i: INTEGER b: BOOLEAN c: CHARACTER s: detachable STRING do print (i) print (b) print (c.code) print (s) end end",
    ),
    (
        780266539435152142,
        0,
        &[],
        b"class APP create make feature make do print (i) print (b) print (c.code) print (s) end i: INTEGER b: BOOLEAN c: CHARACTER s: detachable STRING end",
    ),
    (
        891640388805162781,
        0,
        &[],
        b"class APP create make feature make do print (f) end f: INTEGER do end end",
    ),
    (
        689017809759525944,
        0,
        &[],
        b"class APP create make feature make do print (f) end f: detachable STRING do end end",
    ),
    (
        1734814970293824596,
        0,
        &[],
        b"class CELL [G] feature item: G local_item: G local x: G do Result := x end nothing: G do end end",
    ),
    (
        2299938535418583699,
        0,
        &[],
        b"class NUMBERS inherit CELL [INTEGER] feature end",
    ),
    (
        1754459987265011023,
        0,
        &[],
        b"class APP create make feature make local n: NUMBERS do create n print (n.item) end end",
    ),
    (
        56167612452608444,
        0,
        &[],
        b"class APP create make feature make local n: NUMBERS do create n print (n.local_item) end end",
    ),
    (
        1990952315100272316,
        0,
        &[],
        b"class APP create make feature make local n: NUMBERS do create n print (n.nothing) end end",
    ),
    (
        806904213833157227,
        0,
        &[],
        b"class APP create make feature make do f f end f local i: INTEGER do i := i + 1 print (i) end end",
    ),
    (
        914564428190906443,
        0,
        &[],
        b"class APP create make feature make do f f end f do i := i + 1 print (i) end i: INTEGER end",
    ),
    (
        1383696920788623191,
        0,
        &[],
        b"class APP create make feature make local y: INTEGER do if attached \"t\" as y then print (y) else end print (y) end end",
    ),
    (
        1242151929616939080,
        0,
        &[],
        b"class APP create make feature make local y: INTEGER do if attached \"t\" as y then y := 1 else end print (y) end end",
    ),
    // InstructionRuns
    (
        109524544675845040,
        0,
        &[],
        b"class APP create make feature make do if False then print (1) elseif True then print (2) else print (3) end if False then print (1) elseif False then print (2) else print (3) end end end",
    ),
    (
        159445581188009908,
        0,
        &[],
        b"class APP create make feature make do if False then print (1) elseif 1 then print (2) else print (3) end end end",
    ),
    (
        1340153063101516079,
        0,
        &[],
        b"class APP create make feature make do if False then end print (\"k\") end end",
    ),
    (
        96160756448092790,
        0,
        &[],
        b"class APP create make feature make do check 1 // 0 = 1 end print (\"k\") end end",
    ),
    (
        1029844596504652816,
        0,
        &[],
        b"class APP create make feature make do from invariant nope until True loop variant nope end print (\"k\") end end",
    ),
    // ListRun
    (
        651010124611511480,
        0,
        &[],
        b"class LINK [G] feature item: G next: detachable LINK [G] make (v: G) do item := v end set_next (n: detachable LINK [G]) do next := n end end",
    ),
    (
        108403729978434885,
        0,
        &[],
        b"class APP create make feature head: LINK [STRING] make local i: INTEGER do create head.make (\"one\") from i := 0 until i >= 3 loop push (i.out) i := i + 1 end print (total) end push (s: STRING) local l: LINK [STRING] do create l.make (s) l.set_next (head) head := l end total: INTEGER local c: detachable LINK [STRING] do from c := head until c = Void loop if attached c as d then Result := Result + d.item.count c := d.next else c := Void end end end end",
    ),
];

/// The digests are those of the trees that have none of their places.
pub fn sparse_generic_runs_digests()
    ensures { map (λ r. r.0) SPARSE_GENERIC_RUNS ≡ map sparse sparse_generic_run_trees }
{}
