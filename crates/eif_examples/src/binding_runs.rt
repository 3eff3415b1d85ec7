//! The classes of the runs that show which version of a feature is called.

ghost use Rattle.std.specs.Prelude.{◌≡◌, map};
ghost use Rattle.eif_examples.specs.BindingRunTrees.{sparse_binding_run_trees};
ghost use Rattle.eif_examples.specs.Compared.{sparse};

use crate::rows::SparseRow;

pub(crate) const SPARSE_BINDING_RUNS: [SparseRow; 53] = [
    // BindingRuns
    (
        492803268736279284,
        0,
        &[],
        b"class APP create make feature make local b: B do create {C} b b.f end end",
    ),
    (
        2183782000559991506,
        0,
        &[],
        b"class B feature f do print (1) end end",
    ),
    (
        1762861521116521672,
        0,
        &[],
        b"deferred class B feature f deferred end end",
    ),
    (
        1031605783105834253,
        0,
        &[],
        b"class C inherit B redefine f end feature f do print (2) end end",
    ),
    (
        1608931477707874978,
        0,
        &[],
        b"class C inherit B rename f as g end feature f do print (2) end end",
    ),
    (
        236768976229785630,
        0,
        &[],
        b"class C inherit B feature f do print (3) end end",
    ),
    (
        1189340222639086692,
        0,
        &[],
        b"class C inherit B rename f as g end feature g do print (3) end end",
    ),
    (
        1235747019295318634,
        0,
        &[],
        b"class APP inherit P rename f as one end P rename f as two redefine two select two end create make feature make do call_f one two end two do print (2) end end",
    ),
    (
        823866241559703338,
        0,
        &[],
        b"class APP inherit P rename f as one select one end P rename f as two redefine two end create make feature make do call_f one two end two do print (2) end end",
    ),
    (
        1922701256580930149,
        0,
        &[],
        b"class P feature f do print (1) end call_f do f end end",
    ),
    (
        1031166034726710462,
        0,
        &[],
        b"class APP inherit P rename f as h end P select f end create make feature make do fill print (f) print (h) end end",
    ),
    (
        749434979387273771,
        0,
        &[],
        b"class APP inherit P rename f as h select h end P create make feature make do fill print (f) print (h) end end",
    ),
    (
        784025487598002294,
        0,
        &[],
        b"class P feature f: detachable STRING fill do f := \"p\" end end",
    ),
    (
        949045970886107859,
        0,
        &[],
        b"class APP inherit P redefine f end create make feature make do f := \"a\" show_f end f: STRING end",
    ),
    (
        1866604137853363469,
        0,
        &[],
        b"class APP inherit P redefine f end create make feature make do show_f end f: STRING = \"k\" end",
    ),
    (
        1313090328490037762,
        0,
        &[],
        b"class P feature f: STRING do end show_f do print (f) end end",
    ),
    (
        732364399540270097,
        0,
        &[],
        b"class APP create make feature make local c: C do create {C} c end end",
    ),
    (
        1521863309558176188,
        0,
        &[],
        b"class C inherit ANY rename default_create as start redefine start end feature start do print (1) end default_create do print (2) end end",
    ),
    (
        2268873417723081849,
        0,
        &[],
        b"class A feature f do print (1) end call_f do f end end",
    ),
    (
        841631157327870833,
        0,
        &[],
        b"class B inherit A rename f as f1 redefine f1 end feature f1 do print (11) end end",
    ),
    (
        2180009293829286254,
        0,
        &[],
        b"class C inherit A rename f as f2 redefine f2 end feature f2 do print (22) end end",
    ),
    (
        307218785169139592,
        0,
        &[],
        b"class D inherit B select f1 end C feature end",
    ),
    (
        1973828978520784226,
        0,
        &[],
        b"class E inherit B C select f2 end feature end",
    ),
    (
        1755151095792855776,
        0,
        &[],
        b"class APP create make feature make local x: A do create {D} x x.f end end",
    ),
    (
        1507773298281357672,
        0,
        &[],
        b"class APP create make feature make local x: A do create {E} x x.f end end",
    ),
    (
        1406837762095893833,
        0,
        &[],
        b"class APP create make feature make local x: B do create {D} x x.f1 end end",
    ),
    (
        91593803235981549,
        0,
        &[],
        b"class APP create make feature make local x: C do create {D} x x.f2 end end",
    ),
    (
        555764159854163148,
        0,
        &[],
        b"class APP create make feature make local x: B do create {E} x x.f1 end end",
    ),
    (
        1761885774503505958,
        0,
        &[],
        b"class APP create make feature make local x: A do create {D} x x.call_f end end",
    ),
    (
        696065658732418793,
        0,
        &[],
        b"class APP create make feature make local x: C do create {D} x x.call_f end end",
    ),
    (
        2149919460018937867,
        0,
        &[],
        b"class APP create make feature make local x: A do create {E} x x.call_f end end",
    ),
    (
        1857874745751465151,
        0,
        &[],
        b"class APP create make feature make local x: A do create {D} x print (x) end end",
    ),
    (
        2223652076715234962,
        0,
        &[],
        b"class D inherit ANY rename out as old_out end feature out: STRING do Result := \"new\" end end",
    ),
    (
        1412066076701681379,
        0,
        &[],
        b"class APP create make feature make local x: D do create {D} x print (x) end end",
    ),
    (
        1438267027424593400,
        0,
        &[],
        b"class APP create make feature make local x: D do create {D} x print (x.old_out) end end",
    ),
    (
        388776734985714597,
        0,
        &[],
        b"class APP create make feature make local x: D do create {D} x print (x.out) end end",
    ),
    // PrecursorRuns
    (
        341445646550366630,
        0,
        &[],
        b"class APP inherit Q redefine f, g end create make feature make do print (f) end f: INTEGER do Result := Precursor + 100 end g: INTEGER do Result := 7 end end",
    ),
    (
        1012110265916084057,
        0,
        &[],
        b"class Q inherit P redefine f end feature f: INTEGER do Result := Precursor + 10 end end",
    ),
    (
        722872585261282988,
        0,
        &[],
        b"class P feature f: INTEGER do Result := g end g: INTEGER do Result := 1 end end",
    ),
    (
        2280444626678328381,
        0,
        &[],
        b"class APP inherit P redefine f end Q redefine f end create make feature make do print (f) end f: INTEGER do Result := Precursor {P} end end",
    ),
    (
        1742179517573100996,
        0,
        &[],
        b"class P feature f: INTEGER do Result := 1 end end",
    ),
    (
        2208305718814945914,
        0,
        &[],
        b"class Q feature f: INTEGER do Result := 2 end end",
    ),
    (
        1472819686094108186,
        0,
        &[],
        b"class APP inherit P redefine f end Q redefine f end create make feature make do print (f) end f: INTEGER do Result := Precursor {Q} end end",
    ),
    (
        1742179517573100996,
        0,
        &[],
        b"class P feature f: INTEGER do Result := 1 end end",
    ),
    (
        2208305718814945914,
        0,
        &[],
        b"class Q feature f: INTEGER do Result := 2 end end",
    ),
    (
        863264284151717276,
        0,
        &[],
        b"class APP inherit P redefine f end create make feature make do print (f (1)) end f (i: INTEGER): INTEGER do Result := Precursor (i + 1) end end",
    ),
    (
        913553742560942718,
        0,
        &[],
        b"class P feature f (i: INTEGER): INTEGER do Result := i * 10 end end",
    ),
    (
        968632899770060025,
        0,
        &[],
        b"class APP create make feature make local r: R do create r print (r.g) print (r.f) end end",
    ),
    (
        1742179517573100996,
        0,
        &[],
        b"class P feature f: INTEGER do Result := 1 end end",
    ),
    (
        1012110265916084057,
        0,
        &[],
        b"class Q inherit P redefine f end feature f: INTEGER do Result := Precursor + 10 end end",
    ),
    (
        1616040484224980856,
        0,
        &[],
        b"class R inherit Q rename f as g end feature f: INTEGER do Result := 5 end end",
    ),
    (
        726736834854676317,
        0,
        &[],
        b"class APP inherit P redefine f end create make feature make do print (f) end f: INTEGER do Result := Precursor end end",
    ),
    (
        1072986966432175497,
        0,
        &[],
        b"class P feature f: INTEGER end",
    ),
];

/// The digests are those of the trees that have none of their places.
pub fn sparse_binding_runs_digests()
    ensures { map (λ r. r.0) SPARSE_BINDING_RUNS ≡ map sparse sparse_binding_run_trees }
{}
