ghost use Rattle.std.specs.Prelude.{◌<◌, ◌^◌, length, IfOk};

use crate::{
    AncestorRow, DeclarationId, Row, Version, find_name, ordered_classes, ordered_features,
    ordered_names, rows_cross,
};
use eif_base::{ClassId, FeatId, Memory, Name};
use indexmap::IndexMap;
use std::alloc::Global;
use std::test::Fail;

struct Case {
    texts: &'static [&'static str],
    ordered: &'static [&'static str],
}

// Bytes go by their numbers: digits, then the underscore, then letters, and a name before what it begins.
const CASES: [Case; 4] = [
    Case {
        texts: &[],
        ordered: &[],
    },
    Case {
        texts: &["put", "item", "put", "Item"],
        ordered: &["item", "put"],
    },
    Case {
        texts: &["ab", "a", "b", "a_b", "a1"],
        ordered: &["a", "a1", "a_b", "ab", "b"],
    },
    Case {
        texts: &["z", "y", "x"],
        ordered: &["x", "y", "z"],
    },
];

fn names_from(alloc: Global, texts: &[&str]) -> Result<Vec<Name>, Memory> {
    let mut names = Vec::new(alloc);
    for text in texts {
        names.push(Name::from_bytes(alloc, text.as_bytes())?)?;
    }
    Ok(names)
}

fn set_from(alloc: Global, texts: &[&str]) -> Result<Vec<Name>, Memory>
    ensures { IfOk result (λ ns. length ns.items < 2 ^ 32) }
{
    let names = names_from(alloc, texts)?;
    let mut borrowed = Vec::new(alloc);
    for name in names.as_slice() {
        borrowed.push(name)?;
    }
    ordered_names(alloc, borrowed)
}

#[test]
fn names_stand_in_order(rt: HostRuntime) -> Result<(), Fail> {
    let alloc = rt.alloc();
    let absent = Name::from_bytes(alloc, b"absent")?;
    for case in &CASES {
        let names = set_from(alloc, case.texts)?;
        assert_eq!(rt; names.len(), case.ordered.len());
        for (i, text) in case.ordered.iter().enumerate() {
            let name = Name::from_bytes(alloc, text.as_bytes())?;
            assert_eq!(rt; find_name(&names, &name), Some(i), "{text}");
        }
        assert_eq!(rt; find_name(&names, &absent), None);
    }
    Ok(())
}

#[test]
fn numbers_stand_in_order(rt: HostRuntime) -> Result<(), Fail> {
    let alloc = rt.alloc();
    let features = vec![in alloc; FeatId(7), FeatId(2), FeatId(7), FeatId(0)]?;
    let ordered = ordered_features(features);
    assert_eq!(rt;
        ordered.as_slice(),
        [FeatId(0), FeatId(2), FeatId(7)].as_slice()
    );
    let classes = vec![in alloc; ClassId(3), ClassId(3), ClassId(1)]?;
    let ordered = ordered_classes(classes);
    assert_eq!(rt; ordered.as_slice(), [ClassId(1), ClassId(3)].as_slice());
    Ok(())
}

// Of the three features of the class 1 the first has a name, the next two, and the last none.
fn ancestor_row(alloc: Global) -> Result<AncestorRow, Memory> {
    let mut several = IndexMap::new(alloc);
    several.insert(1, vec![in alloc; FeatId(0), FeatId(2)]?)?;
    Ok(AncestorRow {
        class_id: ClassId(1),
        bound: vec![in alloc; Some(FeatId(1)), Some(FeatId(2)), None]?,
        several,
    })
}

#[test]
fn ancestor_rows_are_read(rt: HostRuntime) -> Result<(), Fail> {
    let alloc = rt.alloc();
    let ancestor = ancestor_row(alloc)?;
    assert_eq!(rt; ancestor.bound(FeatId(0)), Some(FeatId(1)));
    assert_eq!(rt; ancestor.bound(FeatId(2)), None);
    let mut names = Vec::new(alloc);
    for feat in 0..4 {
        ancestor.push_reached(FeatId(feat), &mut names)?;
    }
    assert_eq!(rt;
        names.as_slice(),
        [FeatId(1), FeatId(0), FeatId(2)].as_slice()
    );
    Ok(())
}

fn row(alloc: Global) -> Result<Row, Memory> {
    let names = set_from(alloc, &["put", "item", "copy"])?;
    let ancestors = vec![in alloc; ancestor_row(alloc)?]?;
    Ok(Row {
        names,
        features: Vec::new(alloc),
        fields: Vec::new(alloc),
        ancestors,
    })
}

#[test]
fn rows_are_read(rt: HostRuntime) -> Result<(), Fail> {
    let alloc = rt.alloc();
    let row = row(alloc)?;
    let item = Name::from_bytes(alloc, b"item")?;
    assert_eq!(rt; row.find(&item), Some(FeatId(1)));
    let absent = Name::from_bytes(alloc, b"absent")?;
    assert_eq!(rt; row.find(&absent), None);
    assert!(rt; row.ancestor(ClassId(1)).is_some());
    assert!(rt; row.ancestor(ClassId(2)).is_none());
    rows_cross();
    Ok(())
}

#[test]
fn versions_compare_by_declarations(rt: HostRuntime) {
    let one = DeclarationId {
        class_id: ClassId(1),
        feat: FeatId(0),
    };
    let other = DeclarationId {
        class_id: ClassId(1),
        feat: FeatId(4),
    };
    let heir = DeclarationId {
        class_id: ClassId(2),
        feat: FeatId(4),
    };
    for (version, deferred, attribute, declaration) in [
        (Version::Deferred, true, false, None),
        (Version::Attribute(one), false, true, Some(one)),
        (Version::Routine(other), false, false, Some(other)),
    ] {
        assert_eq!(rt; version.is_deferred(), deferred);
        assert_eq!(rt; version.is_attribute(), attribute);
        assert_eq!(rt; version.declaration(), declaration);
        assert!(rt; version.is_same(version));
        assert!(rt; !version.is_same(Version::Routine(heir)));
    }
    assert!(rt; !Version::Routine(one).is_same(Version::Routine(other)));
}
