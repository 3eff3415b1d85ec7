//! Types as the tables write them.

use crate::Ty;
use eif_base::{ClassId, Memory};
use eif_tree::Mark;
use std::alloc::Global;

/// A class type, by the number of the class, its mark and its actuals; a formal; or NONE.
#[derive(Clone, Copy)]
pub(crate) enum Form {
    Class(u32, Mark, &'static [Form]),
    Formal(u32, Mark),
    Nothing,
}

#[cycle(made)]
pub(crate) fn made(alloc: Global, form: &Form) -> Result<Ty, Memory> {
    match form {
        Form::Class(number, mark, forms) => Ok(Ty::Class {
            class_id: ClassId(*number),
            mark: *mark,
            actuals: all_made(alloc, forms)?,
        }),
        Form::Formal(index, mark) => Ok(Ty::Formal {
            index: *index,
            mark: *mark,
        }),
        Form::Nothing => Ok(Ty::Nothing),
    }
}

#[cycle(made)]
pub(crate) fn all_made(alloc: Global, forms: &[Form]) -> Result<Vec<Ty>, Memory> {
    let mut types = Vec::new(alloc);
    for form in forms {
        types.push(made(alloc, form)?)?;
    }
    Ok(types)
}
