use crate::class_numbers::number_classes;
use crate::kernel_trees;
use crate::tests::trees::class_below;
use std::test::Fail;

#[test]
fn the_first_class_of_a_name_is_found(rt: HostRuntime) -> Result<(), Fail> {
    let alloc = rt.alloc();
    let trees = vec![in alloc;
        class_below(alloc, b"APP", &[])?,
        class_below(alloc, b"cat", &[])?,
        class_below(alloc, b"dog", &[])?,
        class_below(alloc, b"Cat", &[])?,
        class_below(alloc, b"app", &[])?,
    ]?;
    let numbering = number_classes(alloc, &trees)?;
    assert_eq!(rt; numbering.numbers.find(b"app"), Some(0));
    assert_eq!(rt; numbering.numbers.find(b"cat"), Some(1));
    assert_eq!(rt; numbering.numbers.find(b"dog"), Some(2));
    assert_eq!(rt; numbering.numbers.find(b"do"), None);
    let repeated: &[bool] = &[false, false, false, true, true];
    assert_eq!(rt; numbering.repeated.as_slice(), repeated);
    Ok(())
}

#[test]
fn the_kernel_has_its_names_in_order(rt: HostRuntime) -> Result<(), Fail> {
    let trees = kernel_trees(rt.alloc())?;
    let names: [&[u8]; 6] = [
        b"any",
        b"integer",
        b"boolean",
        b"character",
        b"string",
        b"array",
    ];
    assert_eq!(rt; trees.len(), names.len());
    for (tree, name) in trees.iter().zip(names) {
        assert_eq!(rt; tree.name.text(), name);
    }
    Ok(())
}
