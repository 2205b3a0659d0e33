//! The place of a sublayout.
ghost use Rattle.std.specs.Prelude.{◌≡◌, ◌++◌, ◌∷◌, [], IfOk, map, string_bytes};
ghost use Rattle.it_sublayouts.specs.Counted.{folders_of};

use it_base::text::Text;
use it_chain::folder_name;
use std::alloc::{AllocError, Global};

/// The places down to a layout, and then one more: a step of it, and a key id.
pub(crate) fn place_below(
    alloc: Global,
    at: &[(Text, Text)],
    step: &str,
    id: &str,
) -> Result<Vec<(Text, Text)>, AllocError>
    ensures { IfOk result (λ place. place.items ≡ at.now ++ (step.now, id.now) ∷ []) }
{
    let mut place = Vec::new(alloc);
    for (outer, outer_id) in at {
        place.push(pair(alloc, outer.as_str(), outer_id.as_str())?)?;
    }
    place.push(pair(alloc, step, id)?)?;
    Ok(place)
}

/// The names of the folders, one in another, that the files of the sublayout at these places are
/// in.
pub(crate) fn folders_at(alloc: Global, place: &[(Text, Text)]) -> Result<Vec<String>, AllocError>
    ensures { IfOk result (λ folders. map string_bytes folders.items ≡ folders_of place.now) }
{
    let mut folders = Vec::with_capacity(alloc, place.len())?;
    for (step, id) in place {
        folders.push(folder_name(alloc, step.as_str(), id.as_str())?)?;
    }
    Ok(folders)
}

fn pair(alloc: Global, step: &str, id: &str) -> Result<(Text, Text), AllocError>
    ensures { IfOk result (λ pair. pair ≡ (step.now, id.now)) }
{
    Ok((Text::copy(alloc, step)?, Text::copy(alloc, id)?))
}
