//! The classes of the examples of the rules of names, calls, creations, operators and object tests.

ghost use Rattle.std.specs.Prelude.{◌≡◌, map};
ghost use Rattle.eif_examples.specs.BodyRulesTrees.{body_rules_trees};
ghost use Rattle.eif_examples.specs.Compared.{exact};

use crate::rows::Row;

pub(crate) const BODY_RULES: [Row; 147] = [
    // CallExamples
    (
        1123594395465184344,
        1,
        b"class P feature f do end g: INTEGER do end end",
    ),
    (
        485330140275641595,
        1,
        b"class C create make feature make (i: INTEGER) do end feature {NONE} h (i: INTEGER) do end end",
    ),
    (1841524953231773120, 2, b"class Q feature f do end end"),
    (426118258427484742, 2, b"class C2 feature {P} g do end end"),
    (
        1164788207688309887,
        0,
        b"class B inherit P redefine f end feature f do Precursor end end",
    ),
    (
        388567463057160258,
        0,
        b"class B inherit P feature h do Precursor end end",
    ),
    (
        1649646319611394206,
        0,
        b"class B inherit P redefine f end feature f do Precursor {ANY} end end",
    ),
    (
        1749445831788825483,
        0,
        b"class B inherit P redefine f end feature f do Precursor {P} end end",
    ),
    (
        1647143027089955233,
        0,
        b"class B inherit P redefine f end P redefine f end feature f do Precursor {P} end end",
    ),
    (
        1463750345999635516,
        0,
        b"class B inherit P redefine g end feature g: INTEGER do end invariant Precursor = 1 end",
    ),
    (
        1485138442425817700,
        0,
        b"class B feature f do Precursor (nope) end end",
    ),
    (
        280621726803946685,
        0,
        b"class B inherit P redefine f end feature f do Precursor {NOPE} end end",
    ),
    (
        1070326373365213184,
        0,
        b"class B inherit P redefine f end Q redefine f end feature f do Precursor end end",
    ),
    (
        1609453411032382224,
        0,
        b"class B inherit P redefine f end Q redefine f end feature f do Precursor {Q} end end",
    ),
    (
        1694954050708089008,
        0,
        b"class B inherit P redefine f end Q undefine f end feature f do Precursor end end",
    ),
    (1289109780724333793, 0, b"class B feature f do nope end end"),
    (
        1658012007941037067,
        0,
        b"class B feature f do nope := 1 end end",
    ),
    (
        1263560480291906584,
        0,
        b"class B feature f do create nope end end",
    ),
    (
        1124554512259294469,
        0,
        b"class B feature f (x: ANY) do print (x) f (x) end end",
    ),
    (
        1531508150927166298,
        0,
        b"class B feature f local x: INTEGER do x := 1 ensure x = 1 end end",
    ),
    (
        1151938982345828883,
        0,
        b"class B feature f do print (Result) end end",
    ),
    (
        1461457690435570955,
        0,
        b"class B feature f do Result := 1 end end",
    ),
    (
        1617871681000830615,
        0,
        b"class B feature f: INTEGER require Result = 1 do end end",
    ),
    (
        1035895205216854168,
        0,
        b"class B feature f: INTEGER do Result := 1 print (Result) ensure Result = 1 end end",
    ),
    (
        240524052632475105,
        0,
        b"class B feature f (x: detachable STRING) do print (x.count) end end",
    ),
    (
        1424514595574091579,
        0,
        b"class B feature f do print (Void.out) end end",
    ),
    (
        217204026814226571,
        0,
        b"class B feature f (x: STRING) do print (x.count) end end",
    ),
    (
        1502429918420333801,
        0,
        b"class B feature f (x: STRING) do x.nope end end",
    ),
    (
        1793885286653942269,
        0,
        b"class B feature f (x: detachable STRING) do x.nope end end",
    ),
    (
        1562399268620023921,
        0,
        b"class B feature f (x: C) do x.g end end",
    ),
    (
        877770963222617370,
        1,
        b"class C feature {NONE} g do end end",
    ),
    (
        2023294482743022516,
        0,
        b"class B feature {C} g do end f do Current.g end end",
    ),
    (928743950224425348, 1, b"class C end"),
    (
        1562399268620023921,
        0,
        b"class B feature f (x: C) do x.g end end",
    ),
    (2153300260900748707, 1, b"class C feature {B} g do end end"),
    (
        1920611525168988469,
        0,
        b"class B feature f (x: C) do x.h (\"a\") end end",
    ),
    (
        709444527395091263,
        0,
        b"class B inherit P feature f2 (x: C2) do x.g end end",
    ),
    (242695851927444633, 0, b"class B feature f do f (1) end end"),
    (
        917368318155171216,
        0,
        b"class B feature f (x: STRING) do x.append end end",
    ),
    (
        428637352209081008,
        0,
        b"class B feature f (x: STRING) do print (x (1)) end end",
    ),
    (
        2078562172686059722,
        0,
        b"class B inherit P redefine f end feature f do Precursor (1) end end",
    ),
    (
        869696555055589139,
        0,
        b"class B feature f do print (create {STRING}.make_empty (1)) end end",
    ),
    (
        1757355793125965041,
        0,
        b"class B feature f (x, y: STRING) do f (1, Void) end end",
    ),
    (
        1837630325384238604,
        0,
        b"class B feature f (x, y: STRING) do f (1) end end",
    ),
    (
        1040749038857229691,
        0,
        b"class B feature f (x, y: STRING) do f (x, \"a\") end end",
    ),
    (
        2302684334524364988,
        0,
        b"class B feature f do print (f) end end",
    ),
    (
        1845745108136343133,
        0,
        b"class B feature f (x: STRING) do print (x.append (x)) end end",
    ),
    (
        1731559606928981525,
        0,
        b"class B feature f (x: STRING) do x.count end end",
    ),
    (
        2161388332819151803,
        0,
        b"class B feature f local x: STRING do x end end",
    ),
    (
        1791430334005629128,
        0,
        b"class B feature f (x: STRING) do print (x.count) x.append (x) end end",
    ),
    (
        1016041945768746257,
        0,
        b"class B feature f do f (f) end end",
    ),
    (
        1254745047930187201,
        0,
        b"class B feature f (i: INTEGER) do print (f (\"a\")) end end",
    ),
    (
        1779516497878141444,
        0,
        b"class B inherit P redefine f end feature f do print (Precursor) end end",
    ),
    (
        1118826458731970421,
        0,
        b"class B inherit P redefine g end feature g: INTEGER do Precursor end end",
    ),
    // CreationExamples
    (
        1136003283595322702,
        1,
        b"class C create make feature make do end h do end end",
    ),
    (960022722945050064, 1, b"deferred class C end"),
    (842990910406083430, 1, b"deferred class D end"),
    (
        778787747449530980,
        1,
        b"class C3 create {NONE} make feature make do end end",
    ),
    (1640862115232783253, 1, b"class C4 end"),
    (
        571692142571573389,
        0,
        b"class B [G] feature f local x: G do create x end end",
    ),
    (
        911126000004386149,
        0,
        b"class B feature f local x: detachable ANY do create {detachable ANY} x end end",
    ),
    (
        2039672751493641358,
        0,
        b"class B feature f local x: detachable ANY do create x end end",
    ),
    (
        390956951272835563,
        0,
        b"class B feature f local x: C do create x end end",
    ),
    (
        1380003291182558104,
        0,
        b"class B feature f local x: INTEGER do create x end end",
    ),
    (
        736308423361353914,
        0,
        b"class B feature f local x: C do create x.h end end",
    ),
    (
        390956951272835563,
        0,
        b"class B feature f local x: C do create x end end",
    ),
    (
        431879650518537674,
        0,
        b"class B feature f local x: STRING do create {ANY} x end end",
    ),
    (
        505619469729794398,
        0,
        b"class B feature f local x: ANY do create {C} x.make end end",
    ),
    (
        1427822373742861852,
        0,
        b"class B feature f local x: C do create x.make (1) end end",
    ),
    (
        1210009157837285281,
        0,
        b"class B feature f local x: ARRAY [STRING] do create x.make_filled (1, 0, 0) end end",
    ),
    (
        2186133601988714356,
        0,
        b"class B feature f local x: ARRAY [INTEGER] do create x.make_filled (1, 0, 0) end end",
    ),
    (
        1423964032102363108,
        0,
        b"class B feature f local x: STRING do create {C} x.make (\"a\") end end",
    ),
    (
        163194279340767754,
        0,
        b"class B feature f local x: D do create {detachable D} x.nope end end",
    ),
    (
        2253242736464740288,
        0,
        b"class B feature f local x: D do create x.nope end end",
    ),
    (
        380427300051356104,
        0,
        b"class B feature f local x: C4 do create x end end",
    ),
    (
        953636966328018937,
        0,
        b"class B feature f do create nope.make (huh) end end",
    ),
    (
        371224533301280271,
        0,
        b"class B [G] feature f do print (create {G}) end end",
    ),
    (
        1024547715889139496,
        0,
        b"class B feature f do print (create {detachable ANY}) end end",
    ),
    (
        1598266674651436833,
        0,
        b"class B feature f do print (create {C}) end end",
    ),
    (
        1431110573595124423,
        0,
        b"class B feature f do print (create {INTEGER}) end end",
    ),
    (
        1886997230340694782,
        0,
        b"class B feature f do print (create {C}.h) end end",
    ),
    (
        1598266674651436833,
        0,
        b"class B feature f do print (create {C}) end end",
    ),
    (
        284739981700771285,
        0,
        b"class B feature f do print (create {C}.make) end end",
    ),
    (
        1911033810122746702,
        0,
        b"class B feature f do print (create {C3}.make) end end",
    ),
    // EntityExamples
    (
        1883921110385540656,
        0,
        b"class B feature f (g: ANY) do end g do end end",
    ),
    (
        735094301714322413,
        0,
        b"class B feature f local g: ANY do end g do end end",
    ),
    (
        1348395383274984459,
        0,
        b"class B feature f (out: ANY) do end end",
    ),
    (
        904432036926768827,
        0,
        b"class B feature f (x: ANY) local x: ANY do end end",
    ),
    (
        230539955599019783,
        0,
        b"class B feature f (x, x: ANY) local g: ANY do end g do end end",
    ),
    (
        53358434685038142,
        0,
        b"class B feature f (x: ANY) local y: ANY do end end",
    ),
    // LongTypeExamples
    (
        486934752024000538,
        1,
        b"class C [G] feature g: ARRAY [ARRAY [ARRAY [ARRAY [ARRAY [ARRAY [ARRAY [ARRAY [ARRAY [ARRAY [ARRAY [ARRAY [ARRAY [ARRAY [ARRAY [ARRAY [ARRAY [ARRAY [ARRAY [ARRAY [ARRAY [ARRAY [ARRAY [ARRAY [ARRAY [ARRAY [ARRAY [ARRAY [ARRAY [ARRAY [ARRAY [ARRAY [ARRAY [ARRAY [ARRAY [ARRAY [ARRAY [ARRAY [ARRAY [ARRAY [ARRAY [ARRAY [ARRAY [ARRAY [ARRAY [ARRAY [ARRAY [ARRAY [ARRAY [ARRAY [G]]]]]]]]]]]]]]]]]]]]]]]]]]]]]]]]]]]]]]]]]]]]]]]]]] h (y: ARRAY [ARRAY [ARRAY [ARRAY [ARRAY [ARRAY [ARRAY [ARRAY [ARRAY [ARRAY [ARRAY [ARRAY [ARRAY [ARRAY [ARRAY [ARRAY [ARRAY [ARRAY [ARRAY [ARRAY [ARRAY [ARRAY [ARRAY [ARRAY [ARRAY [ARRAY [ARRAY [ARRAY [ARRAY [ARRAY [ARRAY [ARRAY [ARRAY [ARRAY [ARRAY [ARRAY [ARRAY [ARRAY [ARRAY [ARRAY [ARRAY [ARRAY [ARRAY [ARRAY [ARRAY [ARRAY [ARRAY [ARRAY [ARRAY [ARRAY [G]]]]]]]]]]]]]]]]]]]]]]]]]]]]]]]]]]]]]]]]]]]]]]]]]]) do end end",
    ),
    (
        1306768629358456456,
        0,
        b"class B feature f (x: C [ARRAY [ARRAY [ARRAY [ARRAY [ARRAY [ARRAY [ARRAY [ARRAY [ARRAY [ARRAY [ARRAY [ARRAY [ARRAY [ARRAY [ARRAY [ARRAY [ARRAY [ARRAY [ARRAY [ARRAY [ARRAY [ARRAY [ARRAY [ARRAY [ARRAY [ARRAY [ARRAY [ARRAY [ARRAY [ARRAY [ARRAY [ARRAY [ARRAY [ARRAY [ARRAY [ARRAY [ARRAY [ARRAY [ARRAY [ARRAY [ARRAY [ARRAY [ARRAY [ARRAY [ARRAY [ARRAY [ARRAY [ARRAY [ARRAY [ARRAY [ANY]]]]]]]]]]]]]]]]]]]]]]]]]]]]]]]]]]]]]]]]]]]]]]]]]]]) do print (x.g) end end",
    ),
    (
        440143096114250998,
        0,
        b"class B feature f (x: C [ARRAY [ARRAY [ARRAY [ARRAY [ARRAY [ARRAY [ARRAY [ARRAY [ARRAY [ARRAY [ARRAY [ARRAY [ARRAY [ARRAY [ARRAY [ARRAY [ARRAY [ARRAY [ARRAY [ARRAY [ARRAY [ARRAY [ARRAY [ARRAY [ARRAY [ARRAY [ARRAY [ARRAY [ARRAY [ARRAY [ARRAY [ARRAY [ARRAY [ARRAY [ARRAY [ARRAY [ARRAY [ARRAY [ARRAY [ARRAY [ARRAY [ARRAY [ARRAY [ARRAY [ARRAY [ARRAY [ARRAY [ARRAY [ARRAY [ANY]]]]]]]]]]]]]]]]]]]]]]]]]]]]]]]]]]]]]]]]]]]]]]]]]]) do print (x.g) end end",
    ),
    (
        430562688338050071,
        0,
        b"class B feature f (x: C [ARRAY [ARRAY [ARRAY [ARRAY [ARRAY [ARRAY [ARRAY [ARRAY [ARRAY [ARRAY [ARRAY [ARRAY [ARRAY [ARRAY [ARRAY [ARRAY [ARRAY [ARRAY [ARRAY [ARRAY [ARRAY [ARRAY [ARRAY [ARRAY [ARRAY [ARRAY [ARRAY [ARRAY [ARRAY [ARRAY [ARRAY [ARRAY [ARRAY [ARRAY [ARRAY [ARRAY [ARRAY [ARRAY [ARRAY [ARRAY [ARRAY [ARRAY [ARRAY [ARRAY [ARRAY [ARRAY [ARRAY [ARRAY [ARRAY [ARRAY [ANY]]]]]]]]]]]]]]]]]]]]]]]]]]]]]]]]]]]]]]]]]]]]]]]]]]]) do x.h (Void) end end",
    ),
    (
        711044132561146065,
        0,
        b"class B feature f (x: C [ARRAY [ARRAY [ARRAY [ARRAY [ARRAY [ARRAY [ARRAY [ARRAY [ARRAY [ARRAY [ARRAY [ARRAY [ARRAY [ARRAY [ARRAY [ARRAY [ARRAY [ARRAY [ARRAY [ARRAY [ARRAY [ARRAY [ARRAY [ARRAY [ARRAY [ARRAY [ARRAY [ARRAY [ARRAY [ARRAY [ARRAY [ARRAY [ARRAY [ARRAY [ARRAY [ARRAY [ARRAY [ARRAY [ARRAY [ARRAY [ARRAY [ARRAY [ARRAY [ARRAY [ARRAY [ARRAY [ARRAY [ARRAY [ARRAY [ANY]]]]]]]]]]]]]]]]]]]]]]]]]]]]]]]]]]]]]]]]]]]]]]]]]]) do x.h (Void) end end",
    ),
    (
        109475656240922207,
        0,
        b"class B feature f (x: C [ARRAY [ARRAY [ARRAY [ARRAY [ARRAY [ARRAY [ARRAY [ARRAY [ARRAY [ARRAY [ARRAY [ARRAY [ARRAY [ARRAY [ARRAY [ARRAY [ARRAY [ARRAY [ARRAY [ARRAY [ARRAY [ARRAY [ARRAY [ARRAY [ARRAY [ARRAY [ARRAY [ARRAY [ARRAY [ARRAY [ARRAY [ARRAY [ARRAY [ARRAY [ARRAY [ARRAY [ARRAY [ARRAY [ARRAY [ARRAY [ARRAY [ARRAY [ARRAY [ARRAY [ARRAY [ARRAY [ARRAY [ARRAY [ARRAY [ARRAY [ANY]]]]]]]]]]]]]]]]]]]]]]]]]]]]]]]]]]]]]]]]]]]]]]]]]]]) do x.g end end",
    ),
    (
        647480887520723266,
        1,
        b"class E [G] create h feature h (y: ARRAY [ARRAY [ARRAY [ARRAY [ARRAY [ARRAY [ARRAY [ARRAY [ARRAY [ARRAY [ARRAY [ARRAY [ARRAY [ARRAY [ARRAY [ARRAY [ARRAY [ARRAY [ARRAY [ARRAY [ARRAY [ARRAY [ARRAY [ARRAY [ARRAY [ARRAY [ARRAY [ARRAY [ARRAY [ARRAY [ARRAY [ARRAY [ARRAY [ARRAY [ARRAY [ARRAY [ARRAY [ARRAY [ARRAY [ARRAY [ARRAY [ARRAY [ARRAY [ARRAY [ARRAY [ARRAY [ARRAY [ARRAY [ARRAY [ARRAY [G]]]]]]]]]]]]]]]]]]]]]]]]]]]]]]]]]]]]]]]]]]]]]]]]]]) do end end",
    ),
    (
        667012006864322591,
        0,
        b"class B feature f do print (create {E [ARRAY [ARRAY [ARRAY [ARRAY [ARRAY [ARRAY [ARRAY [ARRAY [ARRAY [ARRAY [ARRAY [ARRAY [ARRAY [ARRAY [ARRAY [ARRAY [ARRAY [ARRAY [ARRAY [ARRAY [ARRAY [ARRAY [ARRAY [ARRAY [ARRAY [ARRAY [ARRAY [ARRAY [ARRAY [ARRAY [ARRAY [ARRAY [ARRAY [ARRAY [ARRAY [ARRAY [ARRAY [ARRAY [ARRAY [ARRAY [ARRAY [ARRAY [ARRAY [ARRAY [ARRAY [ARRAY [ARRAY [ARRAY [ARRAY [ARRAY [ANY]]]]]]]]]]]]]]]]]]]]]]]]]]]]]]]]]]]]]]]]]]]]]]]]]]]}.h (Void)) end end",
    ),
    (
        1516182293942736709,
        0,
        b"class B feature f do print (create {E [ARRAY [ARRAY [ARRAY [ARRAY [ARRAY [ARRAY [ARRAY [ARRAY [ARRAY [ARRAY [ARRAY [ARRAY [ARRAY [ARRAY [ARRAY [ARRAY [ARRAY [ARRAY [ARRAY [ARRAY [ARRAY [ARRAY [ARRAY [ARRAY [ARRAY [ARRAY [ARRAY [ARRAY [ARRAY [ARRAY [ARRAY [ARRAY [ARRAY [ARRAY [ARRAY [ARRAY [ARRAY [ARRAY [ARRAY [ARRAY [ARRAY [ARRAY [ARRAY [ARRAY [ARRAY [ARRAY [ARRAY [ARRAY [ARRAY [ANY]]]]]]]]]]]]]]]]]]]]]]]]]]]]]]]]]]]]]]]]]]]]]]]]]]}.h (Void)) end end",
    ),
    // OperatorExamples
    (
        1039016090613640508,
        0,
        b"class B feature f do print (1 + True) end end",
    ),
    (
        305493201774456212,
        0,
        b"class B feature f do print (1 + 2 = 3 and \"a\" + \"b\" /= \"c\") end end",
    ),
    (
        1871232723932547330,
        0,
        b"class B feature f do print (1 \\\\ \"a\") end end",
    ),
    (
        1009379898259771569,
        0,
        b"class B feature f do print (- \"a\") end end",
    ),
    (
        340325072384445761,
        0,
        b"class B feature f do print (- 1 * 2 // 3 \\\\ 4 ^ 5 - 6) end end",
    ),
    (
        1705298536950874939,
        0,
        b"class B feature f do print (1 < 'a') end end",
    ),
    (
        1387005467672323833,
        0,
        b"class B feature f do print (1 <= 2 and 'a' > 'b') end end",
    ),
    (
        305666967693958522,
        0,
        b"class B feature f do print (1 = \"a\" or Void /= True) end end",
    ),
    (
        1611295279903269630,
        0,
        b"class B feature f do print (not 1) end end",
    ),
    (
        764301903915094525,
        0,
        b"class B feature f do print (True and then 1) end end",
    ),
    (
        422451112587440504,
        0,
        b"class B feature f do print (1 implies True) end end",
    ),
    (
        1914531499891002408,
        0,
        b"class B feature f do print (not True xor (True implies False or else True)) end end",
    ),
    (
        1367997447891928004,
        0,
        b"class B feature f do print (Void and True) end end",
    ),
    (
        2177490655173519029,
        0,
        b"class B feature f do print (nope + True) end end",
    ),
    // TargetExamples
    (
        2151805550011492123,
        0,
        b"class B feature f (x: ANY) do x := x end end",
    ),
    (
        2255476368725158222,
        0,
        b"class B feature f do g := 1 end g: INTEGER do end end",
    ),
    (
        588051208064066400,
        0,
        b"class B feature f do g := 1 end g: INTEGER = 2 end",
    ),
    (
        2276919267696802897,
        0,
        b"class B feature f do if attached Current as x then x := Current end end end",
    ),
    (
        328163281691566560,
        0,
        b"class B feature f (x: ANY) do create x end end",
    ),
    (
        69924545327844148,
        0,
        b"class B feature g: ANY f: ANY local x: ANY do x := 1 g := x Result := g end end",
    ),
    (
        196518265990505673,
        0,
        b"class B feature f (x: INTEGER) do create x end end",
    ),
    (
        1793924388524548398,
        0,
        b"class B feature f do f := 1 end end",
    ),
    (
        162549383787057793,
        0,
        b"class B feature f local x: STRING do x := 1 end end",
    ),
    (
        1449473978857185589,
        0,
        b"class B feature f (x: STRING) do x := 1 end end",
    ),
    (
        885250041098683228,
        0,
        b"class B feature g: STRING f do g := Void end end",
    ),
    (
        649460576088073448,
        0,
        b"class B feature f: INTEGER do Result := Void end end",
    ),
    (
        312523432373989088,
        0,
        b"class B feature f (x: STRING) do x := nope end end",
    ),
    (
        248414930288572608,
        0,
        b"class B feature f local x: detachable STRING do x := \"a\" x := Void end end",
    ),
    (
        1989899010665000484,
        0,
        b"class B feature f do g := \"a\" end g: INTEGER do end end",
    ),
    // TestExamples
    (
        28520213425504470,
        0,
        b"class B feature f do if attached Current as f then end end end",
    ),
    (
        1926680950599121040,
        0,
        b"class B feature f (x: ANY) do if attached x as x then end end end",
    ),
    (
        1814292295155611070,
        0,
        b"class B feature f local x: ANY do if attached Current as x then end end end",
    ),
    (
        2118514680508985565,
        0,
        b"class B feature f do if attached Current as x then if attached Current as x then end end end end",
    ),
    (
        1646471566190268078,
        0,
        b"class B feature f do if attached Current as x then end if attached Current as x then end end end",
    ),
    (
        104655670868728660,
        0,
        b"class B feature f local x: ANY do ensure attached Current as x end end",
    ),
    (
        2232749632384200192,
        0,
        b"class B feature f do check attached Current as x or attached Current as x end end end",
    ),
    (
        1521275642139873543,
        0,
        b"class B feature f do check attached (attached Current as x) as x end end end",
    ),
    (
        648147659183714302,
        0,
        b"class B feature f do check attached Current as x attached Current as x end end end",
    ),
    (
        1068477738902623861,
        0,
        b"class B feature f (x: BOOLEAN) local y: C do create y.make (attached x as z, attached x as z) end end",
    ),
    (
        2123817965877406125,
        1,
        b"class C create make feature make (a, b: BOOLEAN) do end end",
    ),
    (
        2193838980604212480,
        0,
        b"class B feature f (x, y: BOOLEAN) do f (attached x as z, attached y as z) end end",
    ),
    (
        1774781034573920637,
        0,
        b"class B feature f (y: detachable ANY) do if attached y as z and then attached y as z then end end end",
    ),
    (
        906929647648076985,
        0,
        b"class B feature f (x: BOOLEAN) do h (attached x as z).k (attached x as z) end h (b: BOOLEAN): B do create Result end k (b: BOOLEAN) do end end",
    ),
    (
        415739752890216807,
        0,
        b"class B feature f do if attached {detachable STRING} Current as x then print (x.count) end end end",
    ),
    (
        1924247900125905287,
        0,
        b"class B feature f do if attached {detachable STRING} Current as f then end end end",
    ),
    (
        502695354720903024,
        0,
        b"class B feature f do if {x: STRING} Current then print (x.count) end end end",
    ),
    (
        436161404227543797,
        0,
        b"class B feature f do if attached nope as x then print (x) end end end",
    ),
    (
        1631718010014997860,
        0,
        b"class B feature f do if attached nope as x then x end end end",
    ),
];

/// The digests are those of the trees.
pub fn body_rules_digests()
    ensures { map (λ r. r.0) BODY_RULES ≡ map exact body_rules_trees }
{}
