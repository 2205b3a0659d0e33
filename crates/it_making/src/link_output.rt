//! `itv link`: the body of a link (in-toto 1.0, section 4.4).
ghost use Rattle.std.specs.Prelude.{◌≡◌, ◌≢◌, IfErr, IfOk, IsErrOf};
ghost use Rattle.std.specs.Io.KnownBytes.{Appends};
ghost use Rattle.serde_json.specs.View.{view};
ghost use Rattle.it_base.specs.Writing.{AppendsBeginning};
ghost use Rattle.it_digest.specs.DigestSet.{in_sha256};
ghost use Rattle.it_digest.specs.Sums.{SumsOf};
ghost use Rattle.it_docs.specs.Link.{IsLink, LinkOf};
ghost use Rattle.it_making.specs.LinkOutput.{IsLinkFault, IsLinkOutput, link_document, link_form};
ghost use Rattle.it_making.specs.inside.LinkParts.{IsLinkOfLists, IsMaterialsFault};
ghost use Rattle.it_making.specs.inside.LinkParts.{IsProductsFault};

use crate::artifact_maps::artifacts_value;
use it_base::text::Text;
use it_digest::artifacts::Artifacts;
use it_digest::sums::{SumsFault, read_sums};
use it_docs::link::Link;
use it_outcome::output::put_text;
use it_outcome::{RunFault, Status};
use serde_json::{Map, Value, put};
use std::alloc::{AllocError, Global};
use std::io::Write;

/// Writes the body of the link of a step (in-toto 1.0, section 4.4) and a line feed: compact JSON
/// with the members in the order of their bytes, `_type`, `materials`, `name` and `products`, and
/// each file with its SHA-256 in lower-case hexadecimal digits. `name` is the step's name,
/// `materials` and `products` are the bytes of digest lists; no bytes mean the empty list. What is
/// written reads back as that very link. The answer is `Good`.
///
/// # Errors
///
/// `BadMaterials` with the first bad line of the materials, and, where they are good, `BadProducts`
/// with that of the products; `OutOfMemory` where memory was refused. Nothing went out in these
/// cases. `Write` where the output could not be written; a beginning of it went out.
pub fn run_link<W: Write>(
    alloc: Global,
    name: &str,
    materials: &[u8],
    products: &[u8],
    out: &mut W,
) -> Result<Status, RunFault>
    ensures ok { IfOk result (λ status. (status ≡ Status.Good) × (text : _)
        × IsLinkOutput name.now materials.now products.now text
        × Appends (W.contents out.old) (W.contents out.new) text) }
    ensures write { IsErrOf result RunFault.Write → (text : _)
        × IsLinkOutput name.now materials.now products.now text
        × AppendsBeginning (W.contents out.old) (W.contents out.new) text }
    ensures nothing { IfErr result (λ fault. fault ≢ RunFault.Write → out.new ≡ out.old) }
    ensures faults { IfErr result (IsLinkFault materials.now products.now) }
{
    let link = link_of(alloc, name, materials, products)?;
    let text = link_text(alloc, &link)?;
    put_text(out, text.as_slice())
}

/// The link of a name and two digest lists.
fn link_of(alloc: Global, name: &str, materials: &[u8], products: &[u8]) -> Result<Link, RunFault>
    ensures ok { IfOk result (IsLinkOfLists name.now materials.now products.now) }
    ensures err { IfErr result (λ fault. (fault ≢ RunFault.Write)
        × IsLinkFault materials.now products.now fault) }
{
    let materials = materials_of(alloc, materials)?;
    let products = products_of(alloc, products)?;
    let name = Text::copy(alloc, name)?;
    Ok(Link {
        name,
        materials,
        products,
    })
}

fn materials_of(alloc: Global, bytes: &[u8]) -> Result<Artifacts, RunFault>
    ensures ok { IfOk result (SumsOf in_sha256 bytes.now) }
    ensures err { IfErr result (IsMaterialsFault bytes.now) }
{
    match read_sums(alloc, bytes) {
        Ok(sums) => Ok(sums),
        Err(SumsFault::BadSums(line)) => Err(RunFault::BadMaterials(line)),
        Err(SumsFault::OutOfMemory) => Err(RunFault::OutOfMemory),
    }
}

fn products_of(alloc: Global, bytes: &[u8]) -> Result<Artifacts, RunFault>
    ensures ok { IfOk result (SumsOf in_sha256 bytes.now) }
    ensures err { IfErr result (IsProductsFault bytes.now) }
{
    match read_sums(alloc, bytes) {
        Ok(sums) => Ok(sums),
        Err(SumsFault::BadSums(line)) => Err(RunFault::BadProducts(line)),
        Err(SumsFault::OutOfMemory) => Err(RunFault::OutOfMemory),
    }
}

/// The written form of a link.
fn link_text(alloc: Global, link: &Link) -> Result<Vec<u8>, AllocError>
    ensures form { IfOk result (λ text. text.items ≡ link_form link.now) }
    ensures reads_back { IfOk result (λ text. LinkOf text.items link.now) }
{
    let value = link_value(alloc, link)?;
    let mut text = value.to_vec(alloc)?;
    text.push(b'\n')?;
    Ok(text)
}

fn link_value(alloc: Global, link: &Link) -> Result<Value, AllocError>
    ensures document { IfOk result (λ value. view value ≡ link_document link.now) }
    ensures reads_back { IfOk result (λ _. IsLink (link_document link.now) link.now) }
{
    let mut members = Map::new(alloc);
    let kind = Value::try_from_str(alloc, "link")?;
    put(&mut members, alloc, "_type", kind)?;
    let materials = artifacts_value(alloc, &link.materials)?;
    put(&mut members, alloc, "materials", materials)?;
    let name = Value::try_from_str(alloc, link.name.as_str())?;
    put(&mut members, alloc, "name", name)?;
    let products = artifacts_value(alloc, &link.products)?;
    put(&mut members, alloc, "products", products)?;
    Ok(Value::from(members))
}
