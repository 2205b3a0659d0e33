//! Paths that one of two digest lists alone names.
ghost use Rattle.std.specs.Prelude.{◌≡◌, IfOk};
ghost use Rattle.std.specs.FinMap.{entries};
ghost use Rattle.std.specs.List.{filter_map};
ghost use Rattle.it_digest.specs.Listed.{AreListed};
ghost use Rattle.it_strict.specs.ListedOnce.{AreListedOnce};
ghost use Rattle.it_strict.specs.inside.OneList.{once_in, only_list};

use it_base::optional::push_some;
use it_base::text::Text;
use it_digest::artifacts::Artifacts;
use it_digest::compare::DigestSet;
use it_digest::sums::ListAlgorithm;
use it_verify::documents::Documents;
use it_verify::inputs::Inputs;
use std::alloc::{AllocError, Global};

/// A path that one of two digest lists alone names.
#[derive(Drop)]
pub struct ListedOnce {
    /// The path.
    pub path: Text,
    /// The algorithm of the list that names it.
    pub list: ListAlgorithm,
}

/// The paths that one of the two digest lists alone names, in the order of their bytes; none where
/// a list is empty.
///
/// # Errors
///
/// `AllocError` where memory was refused.
pub(crate) fn files_listed_once(
    alloc: Global,
    inputs: &Inputs,
    documents: &Documents,
) -> Result<Vec<ListedOnce>, AllocError>
    requires { AreListed inputs.now.sums inputs.now.sums512 documents.now.delivered }
    ensures { IfOk result (λ found.
        AreListedOnce inputs.now.sums inputs.now.sums512 found.items) }
{
    if inputs.sums.as_slice().is_empty() || inputs.sums512.as_slice().is_empty() {
        return Ok(Vec::new(alloc));
    }
    of_one_list(alloc, &documents.delivered)
}

/// The delivered files that have a digest of one list alone.
fn of_one_list(alloc: Global, delivered: &Artifacts) -> Result<Vec<ListedOnce>, AllocError>
    ensures { IfOk result (λ found. found.items ≡ filter_map once_in (entries delivered.now)) }
{
    let mut found = Vec::new(alloc);
    for (path, digests) in delivered.iter() {
        let once = if_once(alloc, path.as_str(), &digests.set())?;
        push_some(&mut found, once)?;
    }
    Ok(found)
}

/// The file at a path, if it has a digest of one list alone.
fn if_once(alloc: Global, path: &str, digests: &DigestSet) -> Result<Option<ListedOnce>, AllocError>
    ensures { IfOk result (λ once. once ≡ once_in (path.now, digests.now)) }
{
    match only_list(digests) {
        Some(list) => Ok(Some(ListedOnce {
            path: Text::copy(alloc, path)?,
            list,
        })),
        None => Ok(None),
    }
}

/// The list that alone gave digests.
fn only_list(digests: &DigestSet) -> Option<ListAlgorithm>
    ensures { result ≡ only_list digests.now }
{
    match (&digests.sha256, &digests.sha512) {
        (Some(_), None) => Some(ListAlgorithm::Sha256),
        (None, Some(_)) => Some(ListAlgorithm::Sha512),
        _ => None,
    }
}
