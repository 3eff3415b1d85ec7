use crate::{Tables, tables_cross};
use eif_base::{Memory, Name, NameId};
use eif_rows::{Row, ordered_names};
use std::alloc::Global;
use std::test::Fail;

fn names_from(alloc: Global, texts: &[&str]) -> Result<Vec<Name>, Memory> {
    let mut names = Vec::new(alloc);
    for text in texts {
        names.push(Name::from_bytes(alloc, text.as_bytes())?)?;
    }
    Ok(names)
}

fn row(alloc: Global, texts: &[&str]) -> Result<Row, Memory> {
    let names = names_from(alloc, texts)?;
    let mut borrowed = Vec::new(alloc);
    for name in names.as_slice() {
        borrowed.push(name)?;
    }
    let set = ordered_names(alloc, borrowed)?;
    Ok(Row {
        names: set,
        features: Vec::new(alloc),
        fields: Vec::new(alloc),
        ancestors: Vec::new(alloc),
    })
}

#[test]
fn names_are_numbered_in_order(rt: HostRuntime) -> Result<(), Fail> {
    let alloc = rt.alloc();
    let first = row(alloc, &["put", "item"])?;
    let second = row(alloc, &["copy", "put", "Item"])?;
    let tables = Tables::of(alloc, vec![in alloc; first, second]?)?;
    let names = tables.names();
    assert_eq!(rt; names.count(), 3);
    for (i, text) in ["copy", "item", "put"].iter().enumerate() {
        assert_eq!(rt;
            names.find(text.as_bytes()),
            Some(NameId(i as u32)),
            "{text}"
        );
    }
    assert_eq!(rt; names.find(b"absent"), None);
    tables_cross();
    Ok(())
}
