//! Where two links differ.
ghost use Rattle.std.specs.Bool.{OnFalse};
ghost use Rattle.std.specs.FinMap.{get};
ghost use Rattle.std.specs.Prelude.{◌≡◌, ◌≢◌, ◌↔◌, IfOk, IfSome, IsTrue};
ghost use Rattle.it_rule_notes.specs.Difference.{IsDifference};

use it_base::text::Text;
use it_digest::artifacts::Artifacts;
use it_digest::compare::DigestSet;
use it_docs::link::Link;
use it_docs::rule::Side;
use std::alloc::{AllocError, Global};

/// A path on one side.
#[derive(Drop)]
pub struct Difference {
    /// The side.
    pub side: Side,
    /// The path.
    pub path: Text,
}

/// A path at which two links have different digests, or only one has any: the least such path, in
/// byte order, of the materials, otherwise of the products.
pub(crate) fn difference_of(
    alloc: Global,
    one: &Link,
    other: &Link,
) -> Result<Option<Difference>, AllocError>
    ensures { IfOk result (λ found. IfSome found (IsDifference one.now other.now)) }
{
    if let Some(path) = differing_path(alloc, &one.materials, &other.materials)? {
        let side = Side::Materials;
        return Ok(Some(Difference { side, path }));
    }
    if let Some(path) = differing_path(alloc, &one.products, &other.products)? {
        let side = Side::Products;
        return Ok(Some(Difference { side, path }));
    }
    Ok(None)
}

fn differing_path(
    alloc: Global,
    one: &Artifacts,
    other: &Artifacts,
) -> Result<Option<Text>, AllocError>
    ensures { IfOk result (λ found. IfSome found
        (λ path. get one.now path ≢ get other.now path)) }
{
    match (path_in(alloc, one, other)?, path_in(alloc, other, one)?) {
        (Some(here), Some(there)) => {
            if there.as_str() < here.as_str() {
                Ok(Some(there))
            } else {
                Ok(Some(here))
            }
        }
        (Some(here), None) => Ok(Some(here)),
        (None, there) => Ok(there),
    }
}

/// The first path of a map at which another has different digests, or none.
fn path_in(
    alloc: Global,
    artifacts: &Artifacts,
    others: &Artifacts,
) -> Result<Option<Text>, AllocError>
    ensures { IfOk result (λ found. IfSome found
        (λ path. get artifacts.now path ≢ get others.now path)) }
{
    for path in artifacts.paths() {
        let path = path.as_str();
        if !are_same(artifacts.get(path), others.get(path)) {
            return Ok(Some(Text::copy(alloc, path)?));
        }
    }
    Ok(None)
}

fn are_same(one: Option<DigestSet>, other: Option<DigestSet>) -> bool
    ensures { OnFalse result (one ≢ other) }
{
    match (one, other) {
        (Some(one), Some(other)) => is_same(&one, &other),
        (None, None) => true,
        (Some(_), None) | (None, Some(_)) => false,
    }
}

fn is_same(one: &DigestSet, other: &DigestSet) -> bool
    ensures { IsTrue result ↔ (one.now ≡ other.now) }
{
    one == other
}
