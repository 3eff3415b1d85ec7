//! The classes of the runs of the kernel, and of those whose bounds count.

ghost use Rattle.std.specs.Prelude.{◌≡◌, map};
ghost use Rattle.eif_examples.specs.KernelRunTrees.{sparse_kernel_run_trees};
ghost use Rattle.eif_examples.specs.Compared.{sparse};

use crate::rows::SparseRow;

pub(crate) const SPARSE_KERNEL_RUNS: [SparseRow; 44] = [
    // KernelRuns
    (
        1745659187652681304,
        0,
        &[],
        b"class APP create make feature make do print (120) end end",
    ),
    (
        969275653423630025,
        0,
        &[],
        b"class APP create make feature make do print (-5) end end",
    ),
    (
        1524644121969741945,
        0,
        &[],
        b"class APP create make feature make do print (True) end end",
    ),
    (
        2083093221442468616,
        0,
        &[],
        b"class APP create make feature make do print ('c') end end",
    ),
    (
        57809005595310603,
        0,
        &[],
        b"class APP create make feature make do print (\"abc\") end end",
    ),
    (
        2087147986308787359,
        0,
        &[],
        b"class APP create make feature make do print (Void) end end",
    ),
    (
        1279523045724567164,
        0,
        &[],
        b"class APP create make feature make do print (Current) end end",
    ),
    (
        1843599913909179026,
        0,
        &[],
        b"class APP create make feature make do print (7.out) end end",
    ),
    (
        1856377346319090055,
        0,
        &[],
        b"class APP create make feature make do print ('c'.code) end end",
    ),
    (
        1862615374761856214,
        0,
        &[],
        b"class APP inherit ANY redefine out end create make feature make do print (Current) print (Current.out) end out: STRING do Result := \"o\" end end",
    ),
    (
        867137303050801980,
        0,
        &[],
        b"class APP inherit ANY redefine out end create make feature make do out := \"f\" print (Current) end out: STRING end",
    ),
    (
        1832859377209923152,
        0,
        &[],
        b"class APP inherit ANY redefine out end create make feature make do print (Current) end out: STRING end",
    ),
    (
        716938184427200597,
        0,
        &[],
        b"class APP inherit ANY redefine out end create make feature make do print (Current) end out: INTEGER do Result := 1 end end",
    ),
    (
        2156065638186038347,
        0,
        &[],
        b"class APP create make feature make local s: STRING t: STRING do s := \"ab\" t := s s.append (\"c\") print (t) print (t.count) end end",
    ),
    (
        493360537196038678,
        0,
        &[],
        b"class APP create make feature make local s: STRING t: STRING do s := \"ab\" t := s s.append (s) print (s) end end",
    ),
    (
        2087631254470304977,
        0,
        &[],
        b"class APP create make feature make local s: STRING t: STRING do s := \"ab\" t := s s := s + \"c\" print (s) print (t) end end",
    ),
    (
        76538118704017021,
        0,
        &[],
        b"class APP create make feature make local s: STRING t: STRING do s := \"ab\" t := s s.make_empty print (t.is_empty) print (t) end end",
    ),
    (
        1618517188528331406,
        0,
        &[],
        b"class APP create make feature make local s: STRING t: STRING do s := \"ab\" t := s print (s.item (2)) end end",
    ),
    (
        2091899154628934156,
        0,
        &[],
        b"class APP create make feature make local s: STRING t: STRING do s := \"ab\" t := s print (s.out) print (s.out = s) end end",
    ),
    (
        1491345963152911370,
        0,
        &[],
        b"class APP create make feature make local s: STRING t: STRING do s := \"ab\" t := s s.append (1) end end",
    ),
    (
        1312671220762289334,
        0,
        &[],
        b"class APP create make feature make local s: STRING t: STRING do s := \"ab\" t := s s.append (Void) end end",
    ),
    (
        552084464865335259,
        0,
        &[],
        b"class APP create make feature make local s: STRING t: STRING do s := \"ab\" t := s print (s.item (True)) end end",
    ),
    (
        1068088188202785933,
        0,
        &[],
        b"class APP create make feature make local a: ARRAY [INTEGER] do create a.make_filled (7, 3, 5) a.put (8, 4) print (a.item (3)) print (a.item (4)) print (a.item (5)) end end",
    ),
    (
        720281399202367754,
        0,
        &[],
        b"class APP create make feature make local a: ARRAY [INTEGER] do create a.make_filled (7, 3, 5) a.put (8, 4) print (a.count) print (a.lower) print (a.upper) end end",
    ),
    (
        1291984842274642405,
        0,
        &[],
        b"class APP create make feature make local a: ARRAY [INTEGER] do create a.make_filled (7, 3, 5) a.put (8, 4) a.make_filled (9, 1, 0) print (a.count) print (a.lower) print (a.upper) end end",
    ),
    (
        693702205186703211,
        0,
        &[],
        b"class APP create make feature make local a: ARRAY [INTEGER] do create a.make_filled (7, 3, 5) a.put (8, 4) print (a) end end",
    ),
    (
        1711229320390473868,
        0,
        &[],
        b"class APP create make feature make local a: ARRAY [INTEGER] do create a print (a.count) print (a.lower) print (a.upper) end end",
    ),
    // BoundedRuns
    (
        161923471158053043,
        0,
        &[],
        b"class APP create make feature make do end end",
    ),
    (
        407350592725467720,
        0,
        &[],
        b"class APP create make feature make do make end end",
    ),
    (
        191778238114410944,
        0,
        &[],
        b"class APP create make feature make do again end again do print (\"a\") again end end",
    ),
    (
        1007620730199738567,
        0,
        &[],
        b"class APP create make feature make do print (1) end end",
    ),
    (
        580643439100522483,
        0,
        &[],
        b"class APP inherit ANY redefine out end create make feature make do print (Current) end out: STRING do Result := \"o\" end end",
    ),
    (
        867137303050801980,
        0,
        &[],
        b"class APP inherit ANY redefine out end create make feature make do out := \"f\" print (Current) end out: STRING end",
    ),
    (
        1553474310128303457,
        0,
        &[],
        b"class APP create make feature make do x := x end x: INTEGER k: INTEGER = 2 end",
    ),
    (
        1398918699844646784,
        0,
        &[],
        b"class APP create make feature make do x := k end x: INTEGER k: INTEGER = 2 end",
    ),
    (
        1497079167914617699,
        0,
        &[],
        b"class APP create make feature make local a: ANY do create a end end",
    ),
    (
        993784322493284361,
        0,
        &[],
        b"class APP inherit P redefine make end create make feature make do Precursor end end",
    ),
    (
        881012511885077027,
        0,
        &[],
        b"class P feature make do end end",
    ),
    (
        1298987847514730863,
        0,
        &[],
        b"class APP create make feature make local i: INTEGER j: INTEGER do from i := 0 until i = 3 loop print (i) i := i + 1 end end end",
    ),
    (
        2005163977901058826,
        0,
        &[],
        b"class APP create make feature make local i: INTEGER j: INTEGER do from i := 0 until i = 4 loop print (i) i := i + 1 end end end",
    ),
    (
        2285935453898595966,
        0,
        &[],
        b"class APP create make feature make local i: INTEGER j: INTEGER do from i := 0 until i = 3 loop print (i) i := i + 1 end from i := 0 until i = 3 loop print (i) i := i + 1 end end end",
    ),
    (
        1788266920724906419,
        0,
        &[],
        b"class APP create make feature make local i: INTEGER j: INTEGER do from until j = 2 loop j := j + 1 from i := 0 until i = 3 loop print (i) i := i + 1 end end end end",
    ),
    (
        1836480162616439899,
        0,
        &[],
        b"class APP create make feature make do from until True loop print (\"t\") end end end",
    ),
    (
        582942690554554160,
        0,
        &[],
        b"class APP create make feature make do from until False loop print (\"t\") end end end",
    ),
];

/// The digests are those of the trees that have none of their places.
pub fn sparse_kernel_runs_digests()
    ensures { map (λ r. r.0) SPARSE_KERNEL_RUNS ≡ map sparse sparse_kernel_run_trees }
{}
