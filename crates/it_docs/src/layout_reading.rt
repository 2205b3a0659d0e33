//! Reading layouts (in-toto 1.0 section 4.3).
ghost use Rattle.std.specs.Prelude.{◌≡◌, [], IfOk, IfErr, MatchOption, MatchResult, codes, map};
ghost use Rattle.std.specs.List.{IsDistinct};
ghost use Rattle.std.specs.Str.{bytes_eq};
ghost use Rattle.it_borrowed.specs.Tree.{as_data};
ghost use Rattle.it_base.specs.Parts.{IsPartOr};
ghost use Rattle.it_base.specs.Sequence.{IsList};
ghost use Rattle.it_docs.specs.Layout.{IsLayout, LayoutOf};
ghost use Rattle.it_docs.specs.Repeats.{IsFirstRepeat};
ghost use Rattle.it_docs.specs.Step.{IsInspection, IsStep, names_of};
ghost use Rattle.it_docs.specs.declared.layout_fault.LayoutPart.{LayoutPart as Part};
ghost use Rattle.it_docs.specs.LayoutPart.{LayoutPartOf};
ghost use Rattle.it_docs.specs.inside.LayoutFaults.{IsInspectionsFault, IsLayoutFault};
ghost use Rattle.it_docs.specs.inside.LayoutFaults.{IsStepsFault};

use crate::layout::Layout;
use crate::layout_fault::{LayoutFault, LayoutPart};
use crate::moment::moment_at;
use crate::repeats::first_repeat;
use crate::step::{Inspection, Step};
use it_base::list::ListFault;
use it_base::sequence::Sequence;
use it_base::table::Table;
use it_base::text::Text;
use it_borrowed::document::is_object;
use it_borrowed::document_text::DocumentText;
use it_borrowed::list::numbered_list;
use it_borrowed::parts::{FromBorrowed, part_or};
use it_borrowed::text::has_text;
use it_dsse::key_object::KeyObject;
use json::{Scratch, Value};
use std::alloc::{AllocError, Global};

/// Reads a layout: the body of a layout's envelope. `readme`, the commands of steps and
/// inspections, and any further members are ignored.
///
/// # Errors
///
/// `BadLayout` with the first part that fails, and `OutOfMemory` where memory was refused.
pub fn read_layout(alloc: Global, bytes: &[u8]) -> Result<Layout, LayoutFault>
    ensures ok { IfOk result (λ layout. LayoutOf bytes.now layout) }
    ensures bad { IfErr result (λ e. (part : Part) → e ≡ LayoutFault.BadLayout part
        → LayoutPartOf bytes.now part) }
{
    let mut scratch = Scratch::new(alloc);
    let text = DocumentText::read(alloc, bytes, &mut scratch)?;
    layout_in(alloc, &text)
}

/// Reads the layout that a text is, from the document that was read already.
///
/// # Errors
///
/// As those of `read_layout`.
pub fn layout_in(alloc: Global, text: &DocumentText<'_>) -> Result<Layout, LayoutFault>
    ensures ok { IfOk result (λ layout. LayoutOf text.now layout) }
    ensures bad { IfErr result (λ e. (part : Part) → e ≡ LayoutFault.BadLayout part
        → LayoutPartOf text.now part) }
{
    match text.document() {
        Some(document) => layout_of(alloc, document),
        None => Err(LayoutFault::BadLayout(LayoutPart::Json)),
    }
}

impl FromBorrowed for Layout {
    ghost is_of = { IsLayout };

    /// The layout, where no part of it fails.
    fn from_borrowed(alloc: Global, value: &Value<'_>) -> Result<Option<Layout>, AllocError> {
        match layout_of(alloc, value) {
            Ok(layout) => Ok(Some(layout)),
            Err(LayoutFault::BadLayout(_)) => Ok(None),
            Err(LayoutFault::OutOfMemory) => Err(AllocError),
        }
    }
}

fn layout_of(alloc: Global, document: &Value<'_>) -> Result<Layout, LayoutFault>
    ensures { MatchResult result (IsLayout (as_data document.now))
        (IsLayoutFault (as_data document.now)) }
{
    if !is_object(document) {
        return Err(LayoutFault::BadLayout(LayoutPart::Json));
    }
    if !has_text(document, "_type", "layout") {
        return Err(LayoutFault::BadLayout(LayoutPart::WrongType));
    }
    let Some(expires) = moment_at(document, "expires") else {
        return Err(LayoutFault::BadLayout(LayoutPart::Expires));
    };
    let no_keys = Table::<KeyObject>::new(alloc);
    let Some(keys) = part_or(alloc, document, "keys", no_keys)? else {
        return Err(LayoutFault::BadLayout(LayoutPart::Keys));
    };
    let steps = steps_of(alloc, document)?;
    let inspections = inspections_of(alloc, document)?;
    if let Some(name) = repeated_name(alloc, steps.as_slice(), inspections.as_slice())? {
        return Err(LayoutFault::BadLayout(LayoutPart::DuplicateName(name)));
    }
    Ok(Layout {
        expires,
        keys,
        steps,
        inspections,
    })
}

fn steps_of(alloc: Global, document: &Value<'_>) -> Result<Sequence<Step>, LayoutFault>
    ensures { MatchResult result
        (IsPartOr (IsList IsStep) [] (codes "steps") (as_data document.now))
        (IsStepsFault (as_data document.now)) }
{
    match numbered_list(alloc, document, "steps") {
        Ok(steps) => Ok(steps),
        Err(ListFault::NoList) => Err(LayoutFault::BadLayout(LayoutPart::Steps)),
        Err(ListFault::NoItem(n)) => Err(LayoutFault::BadLayout(LayoutPart::Step(n))),
        Err(ListFault::OutOfMemory) => Err(LayoutFault::OutOfMemory),
    }
}

fn inspections_of(alloc: Global, document: &Value<'_>) -> Result<Sequence<Inspection>, LayoutFault>
    ensures { MatchResult result
        (IsPartOr (IsList IsInspection) [] (codes "inspect") (as_data document.now))
        (IsInspectionsFault (as_data document.now)) }
{
    match numbered_list(alloc, document, "inspect") {
        Ok(inspections) => Ok(inspections),
        Err(ListFault::NoList) => Err(LayoutFault::BadLayout(LayoutPart::Inspects)),
        Err(ListFault::NoItem(n)) => Err(LayoutFault::BadLayout(LayoutPart::Inspect(n))),
        Err(ListFault::OutOfMemory) => Err(LayoutFault::OutOfMemory),
    }
}

/// A copy of the first name that equals an earlier one, steps before inspections.
fn repeated_name(
    alloc: Global,
    steps: &[Step],
    inspections: &[Inspection],
) -> Result<Option<Text>, AllocError>
    ensures { IfOk result (λ found. MatchOption found
        (IsDistinct bytes_eq (names_of steps.now inspections.now))
        (IsFirstRepeat (names_of steps.now inspections.now))) }
{
    let names = names_in_order(alloc, steps, inspections)?;
    match first_repeat(alloc, names.as_slice())? {
        None => Ok(None),
        Some(name) => Ok(Some(Text::copy(alloc, name)?)),
    }
}

fn names_in_order<'l>(
    alloc: Global,
    steps: &'l [Step],
    inspections: &'l [Inspection],
) -> Result<Vec<&'l str>, AllocError>
    ensures { IfOk result (λ names.
        map (λ n. n.now) names.items ≡ names_of steps.now inspections.now) }
{
    let mut names = Vec::new(alloc);
    for step in steps {
        names.push(step.name.as_str())?;
    }
    for inspection in inspections {
        names.push(inspection.name.as_str())?;
    }
    Ok(names)
}
