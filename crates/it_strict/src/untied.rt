//! The delivered files that are tied to no step.
ghost use Rattle.std.specs.Prelude.{◌≡◌, IfOk, map};
ghost use Rattle.it_rules.specs.Item.{links_of};
ghost use Rattle.it_rules.specs.Rules.{NamesDiffer};
ghost use Rattle.it_ties.specs.Ties.{AreUntied};
ghost use Rattle.it_verify.specs.Delivered.{delivery};
ghost use Rattle.it_verify.specs.Evidence.{evidence_links};

use it_base::text::Text;
use it_digest::artifacts::Artifacts;
use it_rules::item::{Item, Named};
use it_ties::untied_paths;
use it_verify::documents::Documents;
use it_verify::evidence::Evidence;
use it_verify::named_links;
use std::alloc::{AllocError, Global};

/// The paths of the delivered files that are tied to no step, in the order of their bytes.
///
/// # Errors
///
/// `AllocError` where memory was refused.
pub(crate) fn untied_files(
    alloc: Global,
    documents: &Documents,
    evidence: &Evidence,
) -> Result<Vec<Text>, AllocError>
    requires { NamesDiffer (evidence_links evidence.now) }
    ensures { IfOk result (λ paths. AreUntied documents.now.layout.steps
        documents.now.policy.deliver (delivery documents.now.delivered)
        (evidence_links evidence.now) paths.items) }
{
    let links = links_in(alloc, evidence)?;
    untied_among(alloc, documents, links.as_slice())
}

/// What the `MATCH` rules of a delivery look at.
fn links_in(alloc: Global, evidence: &Evidence) -> Result<Vec<Named<'_>>, AllocError>
    ensures { IfOk result (λ links. links_of links.items ≡ evidence_links evidence.now) }
{
    let inspections = evidence.inspections.as_slice();
    named_links(alloc, evidence.steps.as_slice(), inspections)
}

/// The same where the rules look at these links.
fn untied_among(
    alloc: Global,
    documents: &Documents,
    links: &[Named],
) -> Result<Vec<Text>, AllocError>
    requires { NamesDiffer (links_of links.now) }
    ensures { IfOk result (λ paths. AreUntied documents.now.layout.steps
        documents.now.policy.deliver (delivery documents.now.delivered)
        (links_of links.now) paths.items) }
{
    let none = Artifacts::new(alloc);
    let item = Item {
        materials: &none,
        products: &documents.delivered,
    };
    let steps = documents.layout.steps.as_slice();
    let rules = documents.policy.deliver.as_slice();
    let paths = untied_paths(alloc, steps, rules, &item, links)?;
    texts_of(alloc, paths.as_slice())
}

/// Copies of texts.
#[tactic(auto, using(std::proofs::lemmas::List::map_more))]
fn texts_of(alloc: Global, paths: &[&str]) -> Result<Vec<Text>, AllocError>
    ensures { IfOk result (λ texts. texts.items ≡ map (λ path. path.now) paths.now) }
{
    let mut texts = Vec::new(alloc);
    for path in paths {
        texts.push(Text::copy(alloc, path)?)?;
    }
    Ok(texts)
}
