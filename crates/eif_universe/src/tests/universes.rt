use crate::tests::trees::class_below;
use crate::{Universe, UniverseError, kernel_trees};
use eif_base::{ClassId, Code, Memory, Name, Root};
use std::alloc::Global;
use std::test::Fail;

const ANY: ClassId = ClassId(0);

const A: ClassId = ClassId(6);

const B: ClassId = ClassId(7);

fn a_make(alloc: Global) -> Result<Root, Memory> {
    Ok(Root {
        class_name: Name::from_bytes(alloc, b"a")?,
        procedure_name: Name::from_bytes(alloc, b"make")?,
    })
}

#[test]
fn classes_have_parents_and_an_order(rt: HostRuntime) -> Result<(), Fail> {
    let alloc = rt.alloc();
    let root = a_make(alloc)?;
    let b = Name::from_bytes(alloc, b"b")?;
    let given = vec![in alloc;
        class_below(alloc, b"A", &[])?,
        class_below(alloc, b"B", &[b"A"])?,
    ]?;
    match Universe::build(alloc, kernel_trees(alloc)?, given, &root) {
        Ok(universe) => {
            assert_eq!(rt; universe.class_count(), 8);
            assert!(rt; universe.class_named(&b) == Some(B));
            assert_eq!(rt; universe.tree(B).name.text(), b"b".as_slice());
            assert!(rt; universe.parents(B) == [A].as_slice());
            assert!(rt; universe.parents(A) == [ANY].as_slice());
            assert!(rt; universe.is_descendant(B, ANY));
            assert!(rt; !universe.is_descendant(A, B));
            assert_eq!(rt; universe.order().len(), 8);
        }
        Err(_error) => assert!(rt; false, "these classes are a universe"),
    }
    Ok(())
}

#[test]
fn classes_with_faults_are_handed_back(rt: HostRuntime) -> Result<(), Fail> {
    let alloc = rt.alloc();
    let root = a_make(alloc)?;
    let given = vec![in alloc; class_below(alloc, b"A", &[b"A"])?]?;
    match Universe::build(alloc, kernel_trees(alloc)?, given, &root) {
        Ok(_universe) => assert!(rt; false, "a class inherits from itself"),
        Err(error) => match error {
            UniverseError::Faults { faults, given } => {
                assert_eq!(rt; faults.count(), 1);
                assert!(rt; faults.at(0).code == Code::Vhpr);
                assert_eq!(rt; given.len(), 1);
            }
            UniverseError::Memory { given: _given } => assert!(rt; false, "memory is ample"),
        },
    }
    Ok(())
}
