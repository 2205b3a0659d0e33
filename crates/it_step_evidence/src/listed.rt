//! The names of a table with its values.
ghost use Rattle.std.specs.Prelude.{◌≡◌, IfOk, map};
ghost use Rattle.std.specs.FinMap.{entries};

use it_base::table::Table;
use it_base::text::Text;
use std::alloc::{AllocError, Global};

/// The names of a table, in the order of their bytes, and its values in the order of their names.
pub(crate) fn names_and_places(
    alloc: Global,
    table: &Table<u64>,
) -> Result<(Vec<Text>, Vec<u64>), AllocError>
    ensures { IfOk result (λ listed.
        (listed.0.items ≡ map (λ entry. entry.0) (entries table.now))
        × (listed.1.items ≡ map (λ entry. entry.1) (entries table.now))) }
{
    let mut names = Vec::new(alloc);
    let mut places = Vec::new(alloc);
    for (name, place) in table.iter() {
        names.push(Text::copy(alloc, name.as_str())?)?;
        places.push(*place)?;
    }
    Ok((names, places))
}
