//! What the body of an envelope can be for a step.
ghost use Rattle.std.specs.Prelude.{◌≡◌, IfOk};
ghost use Rattle.it_base.specs.Finds.{Finds, FindsAs};
ghost use Rattle.it_docs.specs.Layout.{LayoutOf};
ghost use Rattle.it_docs.specs.Link.{LinkOf};
ghost use Rattle.it_chain.specs.Body.{as_body};
ghost use Rattle.it_chain.specs.CountedBodies.{BodyOf};

use it_borrowed::document_text::DocumentText;
use it_borrowed::parts::from_bytes;
use it_docs::layout::Layout;
use it_docs::link::Link;
use json::Scratch;
use std::alloc::{AllocError, Global};

/// What the body of an envelope can be for a step.
#[derive(Drop)]
pub enum Body {
    /// A link with the step's name.
    Link(Link),
    /// A layout.
    Layout(Layout),
}

/// Reads a payload as a body for a step (in-toto 1.0 section 5.2), or `None` where it is not one.
///
/// # Errors
///
/// `AllocError` where memory was refused.
pub fn body_in(alloc: Global, step: &str, payload: &[u8]) -> Result<Option<Body>, AllocError>
    ensures { IfOk result (FindsAs as_body (BodyOf step.now payload.now)) }
{
    let mut scratch = Scratch::new(alloc);
    let text = DocumentText::read(alloc, payload, &mut scratch)?;
    body_of(alloc, step, &text)
}

/// The same of a payload whose document was read: a link and a layout are looked for in one tree.
fn body_of(alloc: Global, step: &str, text: &DocumentText) -> Result<Option<Body>, AllocError>
    ensures { IfOk result (FindsAs as_body (BodyOf step.now text.now)) }
{
    match text.value::<Link>(alloc)? {
        Some(link) if link.name.as_str() == step => Ok(Some(Body::Link(link))),
        Some(_) => Ok(None),
        None => {
            let Some(layout) = text.value::<Layout>(alloc)? else {
                return Ok(None);
            };
            Ok(Some(Body::Layout(layout)))
        }
    }
}

/// Reads a payload as a link (in-toto 1.0 section 4.4), or `None` where it is not a link.
///
/// # Errors
///
/// `AllocError` where memory was refused.
pub fn link_in(alloc: Global, bytes: &[u8]) -> Result<Option<Link>, AllocError>
    ensures { IfOk result (Finds (LinkOf bytes.now)) }
{
    from_bytes(alloc, bytes)
}

/// Reads a payload as a layout (in-toto 1.0 section 4.3), or `None` where it is not a layout.
///
/// # Errors
///
/// `AllocError` where memory was refused.
pub fn layout_in(alloc: Global, bytes: &[u8]) -> Result<Option<Layout>, AllocError>
    ensures { IfOk result (Finds (LayoutOf bytes.now)) }
{
    from_bytes(alloc, bytes)
}
