//! The classes of the runs of the order of evaluation, and of object tests.

ghost use Rattle.std.specs.Prelude.{◌≡◌, map};
ghost use Rattle.eif_examples.specs.OrderRunTrees.{sparse_order_run_trees};
ghost use Rattle.eif_examples.specs.Compared.{sparse};

use crate::rows::SparseRow;

pub(crate) const SPARSE_ORDER_RUNS: [SparseRow; 46] = [
    // OrderRuns
    (
        948843476870483489,
        0,
        &[],
        b"class APP create make feature make local a: ANY do takes_two (say (2), say (3)) end say (i: INTEGER): INTEGER do print (i) Result := i end itself: APP do print (1) Result := Current end takes_two (i: INTEGER; j: INTEGER) do print (4) end end",
    ),
    (
        748751799687114523,
        0,
        &[],
        b"class APP create make feature make local a: ANY do itself.takes_two (say (2), say (3)) end say (i: INTEGER): INTEGER do print (i) Result := i end itself: APP do print (1) Result := Current end takes_two (i: INTEGER; j: INTEGER) do print (4) end end",
    ),
    (
        2240414448856077602,
        0,
        &[],
        b"class APP create make feature make local a: ANY do nope (say (2)) end say (i: INTEGER): INTEGER do print (i) Result := i end itself: APP do print (1) Result := Current end takes_two (i: INTEGER; j: INTEGER) do print (4) end end",
    ),
    (
        103124587244948597,
        0,
        &[],
        b"class APP create make feature make local a: ANY do Current.takes_two (say (2)) end say (i: INTEGER): INTEGER do print (i) Result := i end itself: APP do print (1) Result := Current end takes_two (i: INTEGER; j: INTEGER) do print (4) end end",
    ),
    (
        911820442595250604,
        0,
        &[],
        b"class APP create make feature make local a: ANY do create a.default_create (say (2)) end say (i: INTEGER): INTEGER do print (i) Result := i end itself: APP do print (1) Result := Current end takes_two (i: INTEGER; j: INTEGER) do print (4) end end",
    ),
    (
        1152814443072920317,
        0,
        &[],
        b"class APP create make feature make local a: ANY do print (Void.nope (say (2))) end say (i: INTEGER): INTEGER do print (i) Result := i end itself: APP do print (1) Result := Current end takes_two (i: INTEGER; j: INTEGER) do print (4) end end",
    ),
    (
        2052948892140347357,
        0,
        &[],
        b"class APP create make feature make local a: ANY do print (say (1) - say (2)) end say (i: INTEGER): INTEGER do print (i) Result := i end itself: APP do print (1) Result := Current end takes_two (i: INTEGER; j: INTEGER) do print (4) end end",
    ),
    (
        758970684178333978,
        0,
        &[],
        b"class APP create make feature make local a: ANY do print (say (1) = say (2)) end say (i: INTEGER): INTEGER do print (i) Result := i end itself: APP do print (1) Result := Current end takes_two (i: INTEGER; j: INTEGER) do print (4) end end",
    ),
    (
        1373502331928086980,
        0,
        &[],
        b"class APP create make feature make do print (False and then 1 // 0 = 1) end end",
    ),
    (
        1097264165807142586,
        0,
        &[],
        b"class APP create make feature make do print (True or else 1 // 0 = 1) end end",
    ),
    (
        619794064776120665,
        0,
        &[],
        b"class APP create make feature make do print (False implies 1 // 0 = 1) end end",
    ),
    (
        321196794776278768,
        0,
        &[],
        b"class APP create make feature make do print (True and then 1 // 0 = 1) end end",
    ),
    (
        2149569702958950798,
        0,
        &[],
        b"class APP create make feature make do print (False or else 1 // 0 = 1) end end",
    ),
    (
        1873331536838006404,
        0,
        &[],
        b"class APP create make feature make do print (True implies 1 // 0 = 1) end end",
    ),
    (
        985468646412655071,
        0,
        &[],
        b"class APP create make feature make do print (False and 1 // 0 = 1) end end",
    ),
    (
        709230480291710677,
        0,
        &[],
        b"class APP create make feature make do print (True or 1 // 0 = 1) end end",
    ),
    (
        2109684341481344588,
        0,
        &[],
        b"class APP create make feature make do print (True and then True) end end",
    ),
    (
        835269962955923685,
        0,
        &[],
        b"class APP create make feature make do print (False or else False) end end",
    ),
    (
        1682462326857795472,
        0,
        &[],
        b"class APP create make feature make do print (True implies False) end end",
    ),
    (
        343717259350389672,
        0,
        &[],
        b"class APP create make feature make do print (True and False) end end",
    ),
    (
        2065739018083916281,
        0,
        &[],
        b"class APP create make feature make do print (False or True) end end",
    ),
    (
        607088372772094117,
        0,
        &[],
        b"class APP create make feature make do print (True xor True) end end",
    ),
    (
        610526870448053284,
        0,
        &[],
        b"class APP create make feature b: detachable B say (i: INTEGER): INTEGER do print (i) Result := i end make do create b.tell (say (1), Current) print (b = Void) end end",
    ),
    (
        62690495957232722,
        0,
        &[],
        b"class B feature tell (i: INTEGER; a: APP) do print (a.b = Void) end end",
    ),
    (
        281817499269427289,
        0,
        &[],
        b"class APP create make feature make do f (create {B}) end f (b: B) do create b.tell end end",
    ),
    (
        1500504332220289009,
        0,
        &[],
        b"class B feature tell do print (5) end end",
    ),
    (
        1937030605103198686,
        0,
        &[],
        b"class APP create make feature make local a: ANY do if True then print (say (1)) else print (say (2)) end end say (i: INTEGER): INTEGER do print (i) Result := i end itself: APP do print (1) Result := Current end takes_two (i: INTEGER; j: INTEGER) do print (4) end end",
    ),
    (
        512490237375206437,
        0,
        &[],
        b"class APP create make feature make local a: ANY do if False then print (say (1)) else print (say (2)) end end say (i: INTEGER): INTEGER do print (i) Result := i end itself: APP do print (1) Result := Current end takes_two (i: INTEGER; j: INTEGER) do print (4) end end",
    ),
    // TestRuns
    (
        1906528089333330039,
        0,
        &[],
        b"class APP create make feature make do print (attached Void as y) end end",
    ),
    (
        232316767981268090,
        0,
        &[],
        b"class APP create make feature make do print (attached 1 as y) end end",
    ),
    (
        274222891260983814,
        0,
        &[],
        b"class APP create make feature make do print (attached {detachable ANY} Void as y) end end",
    ),
    (
        2062613587096264897,
        0,
        &[],
        b"class APP create make feature make do print (attached {ANY} 1 as y) end end",
    ),
    (
        796983385725115358,
        0,
        &[],
        b"class APP create make feature make do print (attached {INTEGER} 1 as y) end end",
    ),
    (
        1895950795144936529,
        0,
        &[],
        b"class APP create make feature make do print (attached {BOOLEAN} 1 as y) end end",
    ),
    (
        2155556580544570719,
        0,
        &[],
        b"class APP create make feature make local x: detachable ANY do x := create {H} print (attached {P} x as y) end end",
    ),
    (
        953086753859254377,
        0,
        &[],
        b"class P feature f: detachable ANY end",
    ),
    (86004532885755579, 0, &[], b"class H inherit P feature end"),
    (
        144521556644523696,
        0,
        &[],
        b"class APP create make feature make local x: detachable ANY do x := create {P} print (attached {H} x as y) end end",
    ),
    (
        1452058072259301090,
        0,
        &[],
        b"class APP create make feature make local x: detachable ANY do x := \"s\" if attached {STRING} x as y then print (y.count) else end end end",
    ),
    (
        2149934869005626060,
        0,
        &[],
        b"class APP create make feature make local x: detachable ANY do x := \"s\" if attached x as y then print (y.count) else end end end",
    ),
    (
        1817227424352477093,
        0,
        &[],
        b"class APP create make feature make local x: detachable ANY do x := \"s\" if attached x as y then print (y.out) else end end end",
    ),
    (
        61304036655819113,
        0,
        &[],
        b"class APP create make feature make local x: detachable ANY do x := create {H} if attached {P} x as y then print (y.f) else end end end",
    ),
    (
        1899487644579205118,
        0,
        &[],
        b"class APP create make feature make local x: detachable ANY do x := \"st\" print (attached {STRING} x as y and then y.count = 2) end end",
    ),
    (
        574232752854251571,
        0,
        &[],
        b"class APP create make feature make do print (attached {INTEGER} \"s\" as y) print (attached {INTEGER} \"s\" as y) print (y) end end",
    ),
    (
        1533126932786723369,
        0,
        &[],
        b"class APP create make feature make do print (attached {INTEGER} 1 as y) print (attached {INTEGER} \"s\" as y) print (y) end end",
    ),
    (
        1844265824642260535,
        0,
        &[],
        b"class APP create make feature make do print (attached {INTEGER} 1 as y) print (attached {INTEGER} 2 as y) print (y) end end",
    ),
];

/// The digests are those of the trees that have none of their places.
pub fn sparse_order_runs_digests()
    ensures { map (λ r. r.0) SPARSE_ORDER_RUNS ≡ map sparse sparse_order_run_trees }
{}
