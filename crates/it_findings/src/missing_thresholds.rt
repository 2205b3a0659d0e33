//! Steps of a layout without a threshold.
ghost use Rattle.std.specs.Prelude.{◌≡◌, ◌↔◌, ◌∷◌, [], None, IfOk, IsTrue, codes};
ghost use Rattle.json.specs.Value.{items_view};
ghost use Rattle.it_borrowed.specs.Tree.{as_data, data_of_items};
ghost use Rattle.it_base.specs.Document.{member_at};
ghost use Rattle.it_findings.specs.Joined.{Joined};
ghost use Rattle.it_findings.specs.NoThresholds.{NoThreshold, NoThresholds, NoThresholdsOf};
ghost use Rattle.it_findings.specs.NullKeys.{listed};

use crate::null_keys::items_at;
use it_borrowed::document::member;
use it_borrowed::document_text::DocumentText;
use json::Value;
use std::alloc::{AllocError, Global};

/// The places of the steps without a threshold in the document that is the body of a layout. There
/// are none where the text is no document.
///
/// # Errors
///
/// `AllocError` where memory was refused.
pub fn no_thresholds(alloc: Global, text: &DocumentText<'_>) -> Result<Vec<usize>, AllocError>
    ensures { IfOk result (λ places. NoThresholdsOf text.now places.items) }
{
    match text.document() {
        Some(document) => places_in(alloc, document),
        None => Ok(Vec::new(alloc)),
    }
}

fn places_in(alloc: Global, document: &Value<'_>) -> Result<Vec<usize>, AllocError>
    ensures { IfOk result (λ places. NoThresholds (as_data document.now) places.items) }
{
    match items_at(document, "steps") {
        Some(steps) => each_step(alloc, steps),
        None => Ok(Vec::new(alloc)),
    }
}

fn each_step(alloc: Global, steps: &Vec<Value<'_>>) -> Result<Vec<usize>, AllocError>
    ensures { IfOk result (λ places.
        Joined NoThreshold (listed (data_of_items (items_view steps.now.items))) places.items) }
{
    let mut places = Vec::new(alloc);
    for (place, step) in steps.iter().enumerate() {
        let mut here = no_threshold(alloc, place, step)?;
        places.append(&mut here)?;
    }
    Ok(places)
}

fn no_threshold(alloc: Global, place: usize, step: &Value<'_>) -> Result<Vec<usize>, AllocError>
    ensures { IfOk result (λ found. NoThreshold place (as_data step.now) found.items) }
{
    if !has_no_threshold(step) {
        return Ok(Vec::new(alloc));
    }
    one_place(alloc, place)
}

fn has_no_threshold(step: &Value<'_>) -> bool
    ensures { IsTrue result ↔ (member_at (codes "threshold") (as_data step.now) ≡ None) }
{
    match member(step, "threshold") {
        Some(_) => false,
        None => true,
    }
}

fn one_place(alloc: Global, place: usize) -> Result<Vec<usize>, AllocError>
    ensures { IfOk result (λ places. places.items ≡ place ∷ []) }
{
    let mut places = Vec::new(alloc);
    places.push(place)?;
    Ok(places)
}
