//! The classes of the examples of the rules of signatures and versions, and of whole systems.

ghost use Rattle.std.specs.Prelude.{◌≡◌, map};
ghost use Rattle.eif_examples.specs.SignatureRulesTrees.{signature_rules_trees, sparse_signature_rules_trees};
ghost use Rattle.eif_examples.specs.Compared.{exact, sparse};

use crate::rows::{Row, SparseRow};

pub(crate) const SIGNATURE_RULES: [Row; 76] = [
    // RedeclarationExamples
    (
        809552803071535644,
        2,
        b"class APP create make feature make do end end",
    ),
    (
        1023751494029797328,
        1,
        b"class A feature f (x: STRING) do end g: ANY do end h: ANY end",
    ),
    (
        2056355790184787045,
        1,
        b"class C feature f (x: ANY) do end end",
    ),
    (
        879311660118491654,
        1,
        b"deferred class D feature f (x: ANY) deferred end end",
    ),
    (
        35625948910363683,
        1,
        b"deferred class E feature f (x: STRING) deferred end end",
    ),
    (
        1573987912691779047,
        1,
        b"deferred class G feature g: STRING deferred end end",
    ),
    (941877650463755493, 0, b"class B end"),
    (
        2297214122654903372,
        0,
        b"class B inherit A redefine f end feature f do end end",
    ),
    (
        877775567393616943,
        0,
        b"class B inherit A redefine f end feature f (x: ANY) do end end",
    ),
    (
        1828189277604798004,
        0,
        b"class B inherit A redefine f end feature f (x: STRING): ANY do end end",
    ),
    (
        483302911256277819,
        0,
        b"class B inherit A redefine g end feature g do end end",
    ),
    (
        312921311481020415,
        0,
        b"class B inherit A redefine g end feature g: detachable ANY do end end",
    ),
    (
        1243275185196298399,
        0,
        b"class B inherit A redefine h end feature h: ANY do end end",
    ),
    (
        1079319178704491300,
        0,
        b"class B inherit A redefine h end feature h: STRING end",
    ),
    (
        639781941860960204,
        0,
        b"class B inherit A redefine h end feature h (x: ANY): detachable ANY do end end",
    ),
    (
        1635571720861183046,
        0,
        b"class B inherit A redefine f end feature f (x: STRING) do end end",
    ),
    (
        1116475032714996972,
        0,
        b"class B inherit A redefine g end feature g: STRING do end end",
    ),
    (
        1878189570430896650,
        0,
        b"class B inherit A redefine g end feature g: STRING end",
    ),
    (
        713547933548915542,
        0,
        b"class B inherit A redefine h end feature h: ANY end",
    ),
    (
        2002829492424868163,
        0,
        b"class B inherit A redefine f end C redefine f end feature f do end end",
    ),
    (
        489606474467275068,
        0,
        b"class B inherit D feature f do end end",
    ),
    (816645719391130305, 0, b"class B inherit A D end"),
    (1128340056290039772, 0, b"class B inherit A E end"),
    (
        1393716338456621192,
        0,
        b"class B inherit A C undefine f end end",
    ),
    (1751728730087858706, 0, b"class B inherit A G end"),
    (97391251832539594, 0, b"deferred class B inherit D E end"),
    (2091539924147324078, 0, b"deferred class B inherit D D end"),
    (
        1495505387086050131,
        0,
        b"deferred class B inherit A undefine f end D end",
    ),
    (314571500649928441, 0, b"class B inherit L [L [ANY]] end"),
    (
        2286115436010978733,
        0,
        b"class B inherit L [L [ANY]] redefine f end feature f do end end",
    ),
    (737976359827664608, 0, b"class B inherit L [ANY] end"),
    (1832622719544189131, 2, b"class C inherit B end"),
    // VersionExamples
    (1160663545684609807, 3, b"class Z feature f do end end"),
    (1329331610937614430, 1, b"class B inherit Z end"),
    (
        1388767510689808894,
        2,
        b"class C inherit Z rename f as g end end",
    ),
    (
        137276114386875922,
        1,
        b"class K feature f do g end g do end end",
    ),
    (
        2170908303682099850,
        1,
        b"class R feature x: BOOLEAN f require x do end end",
    ),
    (
        357763088064508292,
        1,
        b"class S feature f (x: ANY) do print (x) end x: detachable ANY end",
    ),
    (
        698440085300947801,
        1,
        b"class T feature f do x := Void end x: detachable ANY end",
    ),
    (707814025385822225, 0, b"class D end"),
    (2062639860824182384, 0, b"class D inherit B C end"),
    (
        2139053074569887696,
        0,
        b"class D inherit B select f end C end",
    ),
    (
        1087755975682963281,
        0,
        b"class D inherit B select f end C select g end end",
    ),
    (
        1474037547161605005,
        0,
        b"class D inherit B rename f as h end C end",
    ),
    (
        1268208942318678115,
        0,
        b"class D inherit B select f end end",
    ),
    (
        1588858920786331410,
        0,
        b"class D inherit B B select f end end",
    ),
    (
        941155880540507815,
        0,
        b"class D inherit B select f, f end end",
    ),
    (
        1759374290812334607,
        1,
        b"class P1 inherit ANY rename out as out1 end end",
    ),
    (460547135643332358, 0, b"class D inherit P1 ANY end"),
    (
        647583704077776713,
        0,
        b"class D inherit K select f, g end K rename f as f2, g as g2 end end",
    ),
    (
        68623459744729710,
        0,
        b"class D inherit K select f end K rename f as f2 end end",
    ),
    (
        152553115096987400,
        0,
        b"class D inherit K redefine f select f, g end K rename f as f2, g as g2 end feature f do end end",
    ),
    (
        1360283392874499386,
        0,
        b"class D inherit R select f, x end R rename f as f2, x as x2 end end",
    ),
    (
        427413535218443071,
        0,
        b"class D inherit S select f, x end S rename f as f2, x as x2 end end",
    ),
    (
        1800386686776080707,
        0,
        b"class D inherit T select f, x end T rename f as f2, x as x2 end end",
    ),
    // WorkedSystems
    (
        1507777064830282663,
        0,
        b"class P feature f (x: P): ANY do Result := x end end",
    ),
    (
        1709661563695944144,
        1,
        b"class APP\ninherit P redefine f end\ncreate make\nfeature\n  make\n    do\n    end\n  f (x: APP): ANY\n    do\n      Result := x\n    end\nend\n",
    ),
    (
        575073139134629768,
        1,
        b"class APP\ninherit P redefine f end\ncreate make\nfeature\n  make\n    do\n    end\n  f (x: P): P\n    do\n      Result := x\n    end\nend\n",
    ),
    (
        1577286553624162713,
        0,
        b"class A feature f deferred end end",
    ),
    (
        1053078385303238956,
        0,
        b"class APP\ncreate make\nfeature\n  make\n    do\n    end\nend\n",
    ),
    (
        2247382389668317452,
        1,
        b"class B [G -> ANY] feature f: detachable B [detachable B [ANY]] end",
    ),
    (
        842885354093129706,
        0,
        b"class APP\ncreate make\nfeature\n  make\n    do\n      run (Void)\n    end\n  run (x: detachable A)\n    do\n      x.put (Void)\n    end\nend\n",
    ),
    (
        444510886601519932,
        1,
        b"class A\nfeature\n  ok: BOOLEAN\n  put (x: detachable ANY)\n    do\n    end\nend\n",
    ),
    (
        1861817372298381870,
        2,
        b"class H inherit A rename nope as no end end",
    ),
    (
        137276114386875922,
        1,
        b"class K feature f do g end g do end end",
    ),
    (
        1382179219791646479,
        2,
        b"class D inherit K select f, g end K rename f as f2, g as g2 end end",
    ),
    (
        246548034972937385,
        2,
        b"class D inherit K select f end K rename f as f2 end end",
    ),
    // WorkedVersions
    (
        1081689960821572911,
        1,
        b"class PERSON\ncreate make\nfeature\n  name: STRING\n  make\n    do\n      name := \"p\"\n    end\nend\n",
    ),
    (
        2056761123651904987,
        0,
        b"class APP\ninherit PERSON rename make as make_person end\ncreate make\nfeature\n  title: STRING\n  make\n    do\n      make_person\n      title := \"t\"\n    end\nend\n",
    ),
    (2150942231174291534, 0, b"class Z feature f do end end"),
    (1329331610937614430, 1, b"class B inherit Z end"),
    (
        1388767510689808894,
        2,
        b"class C inherit Z rename f as g end end",
    ),
    (
        1851017138361783582,
        3,
        b"class APP\ninherit\n  B\n  C\ncreate make\nfeature\n  make\n    do\n    end\nend\n",
    ),
    (
        1209031106099157972,
        3,
        b"class APP\ninherit\n  B select f end\n  C\ncreate make\nfeature\n  make\n    do\n    end\nend\n",
    ),
    (
        110495142245431843,
        3,
        b"class APP\ninherit\n  B select f end\ncreate make\nfeature\n  make\n    do\n    end\nend\n",
    ),
    (
        833998146085675512,
        0,
        b"class APP\ninherit\n  PERSON select name end\n  PERSON rename name as nick end\ncreate make\nfeature\nend\n",
    ),
];

/// The digests are those of the trees.
pub fn signature_rules_digests()
    ensures { map (λ r. r.0) SIGNATURE_RULES ≡ map exact signature_rules_trees }
{}

pub(crate) const SPARSE_SIGNATURE_RULES: [SparseRow; 1] = [
    // RedeclarationExamples
    (
        2025726030067388348,
        1,
        &[6, 9, 20],
        b"class L [G] feature f: L [L [L [L [L [L [L [L [L [L [L [L [L [L [L [L [L [L [L [L [L [L [L [L [L [L [L [L [L [L [L [L [L [L [L [L [L [L [L [L [L [L [L [L [L [L [L [L [L [L [L [L [L [L [L [L [L [L [L [L [L [L [L [L [L [L [L [L [L [L [L [L [L [L [L [L [L [L [L [L [L [L [L [L [L [L [L [L [L [L [L [L [L [L [L [L [L [L [L [G]]]]]]]]]]]]]]]]]]]]]]]]]]]]]]]]]]]]]]]]]]]]]]]]]]]]]]]]]]]]]]]]]]]]]]]]]]]]]]]]]]]]]]]]]]]]]]]]]]] end",
    ),
];

/// The digests are those of the trees that have some of their places.
pub fn sparse_signature_rules_digests()
    ensures { map (λ r. r.0) SPARSE_SIGNATURE_RULES ≡ map sparse sparse_signature_rules_trees }
{}
