ghost use Rattle.std.specs.Prelude.{◌≡◌, IfOk};
ghost use Rattle.eif_tree.specs.View.{clients_view};

use eif_base::Memory;
use eif_tree::{Clients, NameAt};
use std::alloc::Global;

fn copy_name(alloc: Global, name: &NameAt) -> Result<NameAt, Memory>
    ensures { IfOk result (λ n. n ≡ name.now) }
{
    Ok(NameAt {
        place: name.place,
        name: name.name.copy(alloc)?,
    })
}

/// The same clients once more.
pub(crate) fn copy_clients(alloc: Global, clients: &Clients) -> Result<Clients, Memory>
    ensures { IfOk result (λ c. clients_view c ≡ clients_view clients.now) }
{
    let mut names = Vec::with_capacity(alloc, clients.names.len())?;
    'names: for name in &clients.names {
        names.push(copy_name(alloc, name)?)?;
    }
    Ok(Clients {
        stated: clients.stated,
        names,
    })
}
