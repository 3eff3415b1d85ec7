//! The classes of the runs of operators, and of those that are stopped.

ghost use Rattle.std.specs.Prelude.{◌≡◌, map};
ghost use Rattle.eif_examples.specs.OperatorRunTrees.{sparse_operator_run_trees};
ghost use Rattle.eif_examples.specs.Compared.{sparse};

use crate::rows::SparseRow;

pub(crate) const SPARSE_OPERATOR_RUNS: [SparseRow; 52] = [
    // OperatorRuns
    (
        200801439367168345,
        0,
        &[],
        b"class APP create make feature make do print (9223372036854775807 + 1) end end",
    ),
    (
        727981511498468718,
        0,
        &[],
        b"class APP create make feature make do print (-9223372036854775807 - 2) end end",
    ),
    (
        1834418799277761985,
        0,
        &[],
        b"class APP create make feature make do print (4294967296 * 4294967296) end end",
    ),
    (
        267701920467118993,
        0,
        &[],
        b"class APP create make feature make do print (-7 // 2) end end",
    ),
    (
        172763963388897020,
        0,
        &[],
        b"class APP create make feature make do print ((-9223372036854775807 - 1) // -1) end end",
    ),
    (
        839393276530683944,
        0,
        &[],
        b"class APP create make feature make do print (-(-9223372036854775807 - 1)) end end",
    ),
    (
        560797648904328929,
        0,
        &[],
        b"class APP create make feature make do print ((-9223372036854775807 - 1) \\\\ -1) end end",
    ),
    (
        982687404959018128,
        0,
        &[],
        b"class APP create make feature make do print (-7 \\\\ 2) end end",
    ),
    (
        828322409241487457,
        0,
        &[],
        b"class APP create make feature make do print (7 \\\\ -2) end end",
    ),
    (
        370557387368514623,
        0,
        &[],
        b"class APP create make feature make do print (-2 ^ 3) end end",
    ),
    (
        589276716196224834,
        0,
        &[],
        b"class APP create make feature make do print (0 ^ 0) end end",
    ),
    (
        2143465955320366205,
        0,
        &[],
        b"class APP create make feature make do print (2 ^ 64) end end",
    ),
    (
        1618955825973859219,
        0,
        &[],
        b"class APP create make feature make do print (6 * 7) end end",
    ),
    (
        174784413078739975,
        0,
        &[],
        b"class APP create make feature make do print (+3) end end",
    ),
    (
        785285748125198275,
        0,
        &[],
        b"class APP create make feature make do print ((1 + 2) * 4) end end",
    ),
    (
        222804531869848222,
        0,
        &[],
        b"class APP create make feature make do print (-1 < 0) end end",
    ),
    (
        2083937570269080840,
        0,
        &[],
        b"class APP create make feature make do print (1 <= 1) end end",
    ),
    (
        1497379790755454713,
        0,
        &[],
        b"class APP create make feature make do print (0 >= 1) end end",
    ),
    (
        689390580218335856,
        0,
        &[],
        b"class APP create make feature make do print ('b' > 'a') end end",
    ),
    (
        743413895483366165,
        0,
        &[],
        b"class APP create make feature make do print (1 < 1) end end",
    ),
    (
        2098097657877571605,
        0,
        &[],
        b"class APP create make feature make do print (1 < 'b') end end",
    ),
    (
        1530240991080953961,
        0,
        &[],
        b"class APP create make feature make do print (False and True) end end",
    ),
    (
        879215286353351992,
        0,
        &[],
        b"class APP create make feature make do print (True or False) end end",
    ),
    (
        1414713313356314312,
        0,
        &[],
        b"class APP create make feature make do print (True xor False) end end",
    ),
    (
        694687829257899090,
        0,
        &[],
        b"class APP create make feature make do print (not True) end end",
    ),
    (
        1708733229911345441,
        0,
        &[],
        b"class APP create make feature make do print (1 = 1) end end",
    ),
    (
        865570059269714834,
        0,
        &[],
        b"class APP create make feature make do print (65 = 'A') end end",
    ),
    (
        568439413226879626,
        0,
        &[],
        b"class APP create make feature make do print (0 /= Void) end end",
    ),
    (
        2257873496986556959,
        0,
        &[],
        b"class APP create make feature make do print (Void /= Void) end end",
    ),
    (
        117036075138400196,
        0,
        &[],
        b"class APP create make feature make do print (\"a\" = \"a\") end end",
    ),
    (
        2146158693525822458,
        0,
        &[],
        b"class APP create make feature make local s: STRING do s := \"a\" print (s = s) end end",
    ),
    (
        826727946033562403,
        0,
        &[],
        b"class APP create make feature make do print (k = k) end k: STRING = \"k\" end",
    ),
    (
        1415017822737044817,
        0,
        &[],
        b"class APP create make feature make do print (k) end k: INTEGER = -2 end",
    ),
    // StoppedRuns
    (
        2174976238935451956,
        0,
        &[],
        b"class APP create make feature make do print (\"a\") print (1 // 0) end end",
    ),
    (
        1692316571721462318,
        0,
        &[],
        b"class APP create make feature make do print (\"a\") print (1 \\\\ 0) end end",
    ),
    (
        813369885343302921,
        0,
        &[],
        b"class APP create make feature make do print (\"a\") print (2 ^ -1) end end",
    ),
    (
        1176439828005117405,
        0,
        &[],
        b"class APP create make feature make do print (\"a\") print (\"b\".item (0)) end end",
    ),
    (
        1675845850881608657,
        0,
        &[],
        b"class APP create make feature make do print (\"a\") print (\"b\".item (1)) end end",
    ),
    (
        2175251873758099909,
        0,
        &[],
        b"class APP create make feature make do print (\"a\") print (\"b\".item (2)) end end",
    ),
    (
        1889934796016136693,
        0,
        &[],
        b"class APP create make feature make local a: ARRAY [INTEGER] do print (\"a\") create a.make_filled (7, 3, 4) print (a.item (2)) end end",
    ),
    (
        83497809678933994,
        0,
        &[],
        b"class APP create make feature make local a: ARRAY [INTEGER] do print (\"a\") create a.make_filled (7, 3, 4) print (a.item (3)) end end",
    ),
    (
        582903832555425246,
        0,
        &[],
        b"class APP create make feature make local a: ARRAY [INTEGER] do print (\"a\") create a.make_filled (7, 3, 4) print (a.item (4)) end end",
    ),
    (
        1082309855431916498,
        0,
        &[],
        b"class APP create make feature make local a: ARRAY [INTEGER] do print (\"a\") create a.make_filled (7, 3, 4) print (a.item (5)) end end",
    ),
    (
        1260904270497137524,
        0,
        &[],
        b"class APP create make feature make local a: ARRAY [INTEGER] do print (\"a\") create a.make_filled (7, 3, 4) print (a.item (-1)) end end",
    ),
    (
        1017011591270726084,
        0,
        &[],
        b"class APP create make feature make local a: ARRAY [INTEGER] do print (\"a\") create a.make_filled (7, 3, 4) a.put (8, 2) end end",
    ),
    (
        1707604719315979645,
        0,
        &[],
        b"class APP create make feature make local a: ARRAY [INTEGER] do print (\"a\") create a.make_filled (7, 3, 4) a.put (8, 4) end end",
    ),
    (
        899979778731759450,
        0,
        &[],
        b"class APP create make feature make local a: ARRAY [INTEGER] do print (\"a\") create a.make_filled (7, 3, 4) a.put (8, 5) end end",
    ),
    (
        570254810052105946,
        0,
        &[],
        b"class APP create make feature make local a: ARRAY [INTEGER] do print (\"a\") create a print (a.item (0)) end end",
    ),
    (
        1282070660312601644,
        0,
        &[],
        b"class APP create make feature make local a: ARRAY [INTEGER] do print (\"a\") create a.make_filled (7, 4, 3) print (a.count) end end",
    ),
    (
        720126806148471458,
        0,
        &[],
        b"class APP create make feature make local a: ARRAY [INTEGER] do print (\"a\") create a.make_filled (7, 5, 3) print (a.count) end end",
    ),
    (
        1357905908174343011,
        0,
        &[],
        b"class APP create make feature make local a: ARRAY [INTEGER] do print (\"a\") create a.make_filled (7, 1, 16777217) print (a.lower) end end",
    ),
    (
        1461764032362736343,
        0,
        &[],
        b"class APP create make feature make local a: ARRAY [INTEGER] do print (\"a\") create a.make_filled (7, -9223372036854775807 - 1, 9223372036854775807) print (a.count) end end",
    ),
];

/// The digests are those of the trees that have none of their places.
pub fn sparse_operator_runs_digests()
    ensures { map (λ r. r.0) SPARSE_OPERATOR_RUNS ≡ map sparse sparse_operator_run_trees }
{}
