//! The classes of the examples of what conditions and instructions tell, and of whole systems.

ghost use Rattle.std.specs.Prelude.{◌≡◌, map};
ghost use Rattle.eif_examples.specs.LocalFlowTrees.{local_flow_trees};
ghost use Rattle.eif_examples.specs.Compared.{exact};

use crate::rows::Row;

pub(crate) const LOCAL_FLOW: [Row; 92] = [
    // FactExamples
    (
        720210734170927858,
        0,
        b"class B feature f (x, y: detachable STRING) do if x /= Void then print (x.count) elseif Void /= y then print (y.count) end end end",
    ),
    (
        1817753206531676452,
        0,
        b"class B feature f (x, y: detachable STRING) do if x = Void then print (x.count) elseif Void = y then else print (x.count) print (y.count) end end end",
    ),
    (
        744086823859743029,
        0,
        b"class B feature f (x, y: detachable STRING) do if attached x then print (x.count) end if attached x as z then print (x.count) print (z.count) else print (x.count) end end end",
    ),
    (
        807790730941437231,
        0,
        b"class B feature f (x, y: detachable STRING) do if not (not ((x) /= (Void))) then print (x.count) end end end",
    ),
    (
        266043349619751508,
        0,
        b"class B feature f (x, y: detachable STRING) do if x /= Void and y /= Void then print (x.count) print (y.count) else print (x.count) end end end",
    ),
    (
        1994232800629493031,
        0,
        b"class B feature f (x, y: detachable STRING) do if x = Void or y = Void then print (x.count) else print (x.count) print (y.count) end end end",
    ),
    (
        216843426512327191,
        0,
        b"class B feature f (x, y: detachable STRING) do if x /= Void implies y = Void then print (x.count) else print (x.count) print (y.count) end end end",
    ),
    (
        309612511640876942,
        0,
        b"class B feature f (x, y: detachable STRING) do if x /= Void xor False then print (x.count) end end end",
    ),
    (
        1801086207409135563,
        0,
        b"class B feature f (x, y: detachable STRING) do if x = y then print (x.count) else print (x.count) end end end",
    ),
    (
        701646251080924179,
        0,
        b"class B feature f (x, y: detachable STRING) do if g /= Void then print (g.count) end end g: detachable STRING h do end end",
    ),
    (
        1440198456827262301,
        0,
        b"class B feature f (x, y: detachable STRING) do if x /= Void and then x.is_empty then end end end",
    ),
    (
        1776700495247033961,
        0,
        b"class B feature f (x, y: detachable STRING) do if x /= Void and x.is_empty then end end end",
    ),
    (
        1174149309080473682,
        0,
        b"class B feature f (x, y: detachable STRING) do if x = Void or else x.is_empty then end end end",
    ),
    (
        1510651347500245342,
        0,
        b"class B feature f (x, y: detachable STRING) do if x = Void or x.is_empty then end end end",
    ),
    (
        564491408716015302,
        0,
        b"class B feature f (x, y: detachable STRING) do if x /= Void implies x.is_empty then end end end",
    ),
    (
        793938482026711750,
        0,
        b"class B feature f (x, y: detachable STRING) do if x /= Void or else x.is_empty then end end end",
    ),
    (
        1380006828693657156,
        0,
        b"class B feature f (x, y: detachable STRING) do if attached x as z and then z.is_empty then end if attached x as z and z.is_empty then end end end",
    ),
    (
        160783644766741913,
        0,
        b"class B feature f (x, y: detachable STRING) do print (x /= Void and then x.is_empty) print (x /= Void) print (x.count) end end",
    ),
    (
        603830668013871030,
        0,
        b"class B feature f (x, y: detachable STRING) do if x = Void then elseif x.is_empty then else print (x.count) end end end",
    ),
    (
        1371810382425653221,
        0,
        b"class B feature f (x, y: detachable STRING) do if x /= Void then end print (x.count) end end",
    ),
    (
        444942110767187975,
        0,
        b"class B feature f (x, y: detachable STRING) do from until x = Void loop print (x.count) end print (x.count) end end",
    ),
    (
        1138433797062330835,
        0,
        b"class B feature f (x, y: detachable STRING) do from invariant x.is_empty until x = Void loop variant x.count end end end",
    ),
    (
        626114942398537738,
        0,
        b"class B feature f (x, y: detachable STRING) do check x /= Void x.is_empty end end end",
    ),
    (
        1246530310371715824,
        0,
        b"class B feature f (x, y: detachable STRING) do if x /= Void then from print (x.count) until x.is_empty loop if x.is_empty then check x.is_empty end end end end end end",
    ),
    (
        517365667909234957,
        0,
        b"class B feature f (x, y: detachable STRING) do if attached x as z then print (z.count) end print (z) end end",
    ),
    (
        1754523084115087380,
        0,
        b"class B feature f (x, y: detachable STRING) do if attached {STRING} x as z and attached {ARRAY [ANY]} y as z then print (z.is_empty) end end end",
    ),
    (
        456172956753539974,
        0,
        b"class B feature f (x, y: detachable STRING) do if attached Current as g or g = Void then else print (g.count) end end g: detachable STRING end",
    ),
    // FlowExamples
    (
        191166309195348303,
        0,
        b"class B feature f do if 1 then elseif Void then end end end",
    ),
    (
        410100387583087744,
        0,
        b"class B feature f do from until 1 loop end end end",
    ),
    (
        1286902018469432012,
        0,
        b"class B feature f require 1 do check (2) end ensure 3 end invariant 4 end",
    ),
    (
        230297396716891295,
        0,
        b"class B feature f do from invariant 1 until True loop end end end",
    ),
    (
        2052776336239983144,
        0,
        b"class B feature f do if nope then end end end",
    ),
    (
        382638784781196119,
        0,
        b"class B feature f (x: BOOLEAN) require x do if not x then end ensure x = x end invariant True end",
    ),
    (
        751361729225798950,
        0,
        b"class B feature f do from until True loop variant True end end end",
    ),
    (
        980057641966842089,
        0,
        b"class B feature f do from until True loop variant 1 end end end",
    ),
    (
        1930606464849457082,
        0,
        b"class B feature f local x: STRING do print (x) end end",
    ),
    (
        398104619728388345,
        0,
        b"class B feature f local x, y: STRING do x := \"a\" create y.make_empty print (x) print (y) end end",
    ),
    (
        1780396790077162861,
        0,
        b"class B feature f local x: STRING do x := x end end",
    ),
    (
        1571516976571585888,
        0,
        b"class B feature f local x: STRING do if True then x := \"a\" end print (x) end end",
    ),
    (
        559753237280456699,
        0,
        b"class B feature f local x: STRING do if True then x := \"a\" elseif True then create x.make_empty else x := \"b\" end print (x) end end",
    ),
    (
        797635301434941964,
        0,
        b"class B feature f local x: STRING do from until True loop x := \"a\" end print (x) end end",
    ),
    (
        1985360169067323835,
        0,
        b"class B feature f local x: STRING do from x := \"a\" until x = Void loop print (x) end print (x) end end",
    ),
    (
        538303985122361384,
        0,
        b"class B feature f local x: INTEGER y: detachable STRING do print (x) print (y) end end",
    ),
    (
        1779314331315039309,
        0,
        b"class B [G] feature f local x: G do print (x) end end",
    ),
    (
        1416031337772040929,
        0,
        b"class B feature f local x: STRING do print (x.nope) end end",
    ),
    (
        2161388332819151803,
        0,
        b"class B feature f local x: STRING do x end end",
    ),
    (
        1793990806696498131,
        0,
        b"class B feature f local x: STRING do check x /= Void end end end",
    ),
    (
        1762773203354460650,
        0,
        b"class B feature f local x: STRING do if attached \"a\" as x then print (x) end end end",
    ),
    (
        124522815833041261,
        0,
        b"class B feature f local x: STRING do from invariant x /= Void until x = Void loop print (x) variant x.count end end end",
    ),
    (
        123508948013399168,
        0,
        b"class B feature f: STRING do print (Result) Result := \"a\" end end",
    ),
    (
        73399301491618965,
        0,
        b"class B feature f: STRING do ensure Result /= Void end end",
    ),
    (
        674681259002672901,
        0,
        b"class B feature f: STRING do Result := \"a\" end end",
    ),
    (
        44697399416110052,
        0,
        b"class B feature f: STRING do nope end end",
    ),
    (
        1909896972737130377,
        0,
        b"class B feature f: INTEGER do end end",
    ),
    (
        1993609622237924784,
        0,
        b"deferred class B feature f: STRING deferred end g: STRING h: STRING = \"a\" end",
    ),
    // KnownLocalExamples
    (
        420138981106265368,
        0,
        b"class APP create make feature make local x: detachable APP do if x /= Void then x.make end end end",
    ),
    (
        2086526984395295304,
        0,
        b"class APP create make feature make local x: detachable APP do x.make end end",
    ),
    (
        1006814796819910947,
        0,
        b"class APP create make feature make local x: detachable APP do if x /= Void then x := Void x.make end end end",
    ),
    (
        1637597992717355277,
        0,
        b"class APP create make feature make local x: detachable APP do from until x = Void loop x.make x := Void end end end",
    ),
    (
        24045622981255144,
        0,
        b"class APP create make feature make local x: detachable APP do if x /= Void then from until False loop x.make x := Void end end end end",
    ),
    (
        861166937554215295,
        0,
        b"class APP create make feature make local x: detachable APP do from create x.make until x.make_it loop x.make variant x.number end end end",
    ),
    (
        204150595464097199,
        0,
        b"class APP create make feature make local x: detachable APP do create x.make x.make end end",
    ),
    (
        167135382649815110,
        0,
        b"class APP create make feature make local x: detachable APP do create x.make if True then x := Void end x.make end end",
    ),
    (
        2224081953894061046,
        0,
        b"class APP create make feature make local x: detachable APP do x := Current x.make end end",
    ),
    (
        1880340497052348746,
        0,
        b"class APP create make feature make local x: detachable APP do if x /= Void then x := x x.make end end end",
    ),
    (
        2130920304104954652,
        0,
        b"class APP create make feature make local x: detachable APP do x := x.itself end end",
    ),
    (
        194930754867332725,
        0,
        b"class APP create make feature make local x: detachable APP do x := \"a\" x.make end end",
    ),
    (
        1567290276929997438,
        0,
        b"class APP create make feature make local x: detachable APP do if x /= Void then end x.make end end",
    ),
    (
        1507005800916695158,
        0,
        b"class APP create make feature make local x: detachable APP do create x.make if True then x.make else check True end end from until True loop end x.make end end",
    ),
    (
        225771205820863041,
        0,
        b"class B feature f (x: detachable ANY) local y: detachable STRING do y := \"a\" if attached x as y then y := Void end print (y.count) end end",
    ),
    (
        1496048947357182845,
        0,
        b"class B [G -> ANY, H] feature f (v: G; w: H) local x: detachable ANY do x := v print (x.out) x := w print (x.out) end end",
    ),
    (
        1078628617917263526,
        0,
        b"class APP create make feature make local x: detachable APP do from create x.make until True loop end x.make end end",
    ),
    (
        1288985123763359085,
        0,
        b"class APP create make feature make local x: detachable APP do if True then create x.make else create x.make end x.make end end",
    ),
    (
        1507786017116251723,
        0,
        b"class APP create make feature make local x: detachable APP do from until x = Void loop end x.make end end",
    ),
    // PairExamples
    (
        1832768046558644598,
        0,
        b"class LINK [G]\ncreate make\nfeature\n  item: G\n  next: detachable LINK [G]\n  make (v: G)\n    do\n      item := v\n    end\n  set_next (n: detachable LINK [G])\n    do\n      next := n\n    end\nend\n",
    ),
    (
        1709768879637401938,
        1,
        b"class APP\ncreate make\nfeature\n  head: LINK [STRING]\n  make\n    local\n      i: INTEGER\n    do\n      create head.make (\"one\")\n      from\n        i := 0\n      until\n        i >= 3\n      loop\n        push (i.out)\n        i := i + 1\n      end\n      print (total)\n    end\n  push (s: STRING)\n    local\n      l: LINK [STRING]\n    do\n      create l.make (s)\n      l.set_next (head)\n      head := l\n    end\n  total: INTEGER\n    local\n      c: detachable LINK [STRING]\n    do\n      from\n        c := head\n      until\n        c = Void\n      loop\n        if attached c as d then\n          Result := Result + d.item.count\n          c := d.next\n        else\n          c := Void\n        end\n      end\n    end\nend\n",
    ),
    (
        2050967880651633921,
        0,
        b"class C0\ncreate make\nfeature\n  next: detachable C0\n  name: STRING\n  make\n    do\n      name := \"c0\"\n    end\n  set_next (n: C0)\n    do\n      next := n\n    end\n  step: INTEGER\n    do\n      if attached next as n then\n        Result := n.step + 1\n      end\n    end\nend\n",
    ),
    (
        919928463209197265,
        1,
        b"class C1\ninherit\n  C0\n    redefine step end\ncreate make\nfeature\n  step: INTEGER\n    do\n      Result := Precursor + 1\n    end\nend\n",
    ),
    // SystemExamples
    (
        444510886601519932,
        1,
        b"class A\nfeature\n  ok: BOOLEAN\n  put (x: detachable ANY)\n    do\n    end\nend\n",
    ),
    (
        842885354093129706,
        0,
        b"class APP\ncreate make\nfeature\n  make\n    do\n      run (Void)\n    end\n  run (x: detachable A)\n    do\n      x.put (Void)\n    end\nend\n",
    ),
    (
        1269910177225836336,
        0,
        b"class APP\ncreate make\nfeature\n  make\n    do\n      run (Void)\n    end\n  run (x: detachable A)\n    do\n      if x /= Void then x.put (Void) end\n    end\nend\n",
    ),
    (
        1015026608208292159,
        0,
        b"class APP\ncreate make\nfeature\n  make\n    do\n      run (Void)\n    end\n  run (x: detachable A)\n    do\n      if x /= Void and x.ok then end\n    end\nend\n",
    ),
    (
        124399576846310825,
        0,
        b"class APP\ncreate make\nfeature\n  make\n    do\n      run (Void)\n    end\n  run (x: detachable A)\n    do\n      if x /= Void and then x.ok then end\n    end\nend\n",
    ),
    (
        756415293168289171,
        0,
        b"class APP\ncreate make\nfeature\n  make\n    do\n      run (Void)\n    end\n  run (x: detachable A)\n    do\n      if {y: A} x then y.put (Void) end\n    end\nend\n",
    ),
    (
        451306664777975702,
        0,
        b"class APP\ncreate make\nfeature\n  make\n    do\n      run (Void)\n    end\n  run (x: detachable A)\n    do\n      if attached {A} x as y then y.put (Void) end\n    end\nend\n",
    ),
    (
        8575089090037503,
        0,
        b"class APP\ncreate make\nfeature\n  make\n    do\n    end\n  f (x: ARRAY [A]; y: ARRAY [detachable A])\n    local\n      z: ARRAY [detachable A]\n    do\n      z := y\n      z := x\n    end\nend\n",
    ),
    (
        1457460572846345881,
        0,
        b"class K create {NONE} make feature make do end feature {NONE} h do end end",
    ),
    (
        491221950246434481,
        0,
        b"class B [G] feature f (x: G) do print (x.out) end end",
    ),
    (
        1055638906544733606,
        0,
        b"class B [G -> ANY] feature f (x: G) do print (x.out) end end",
    ),
    (
        2273032942189005977,
        1,
        b"class APP create make feature make local k: K do create k.make k.h end end",
    ),
    (
        1507777064830282663,
        0,
        b"class P feature f (x: P): ANY do Result := x end end",
    ),
    (
        1825594854624293119,
        1,
        b"class APP inherit P redefine f end create make feature make do end f (x: P): P do Result := x end end",
    ),
];

/// The digests are those of the trees.
pub fn local_flow_digests()
    ensures { map (λ r. r.0) LOCAL_FLOW ≡ map exact local_flow_trees }
{}
