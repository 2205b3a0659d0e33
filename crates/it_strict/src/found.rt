//! What is found where a delivery is accepted.
ghost use Rattle.std.specs.Prelude.{◌≡◌, ◌↔◌, ◌++◌, ◌≤◌, [], All, IfOk, IsTrue, OnOk};
ghost use Rattle.it_verify.specs.Made.{IsMadeBy};
ghost use Rattle.it_strict.specs.Counting.{LayoutCounting};
ghost use Rattle.it_strict.specs.Found.{AreFound, IsNothing, PolicyFound};
ghost use Rattle.it_strict.specs.FoundText.{found_text};

use crate::below::{FoundBelow, counted_below, found_in_each};
use crate::below_lines::push_all_below;
use crate::counting::counting_findings;
use crate::listed_once::{ListedOnce, files_listed_once};
use crate::listed_once_lines::push_listed_once;
use crate::nonce_lines::push_shared_nonces;
use crate::nonces::nonces_shared;
use crate::untied::untied_files;
use crate::untied_lines::push_untied;
use crate::unused::unused_findings;
use it_base::sequence::Sequence;
use it_base::text::Text;
use it_borrowed::document_text::DocumentText;
use it_check::{findings_in_policy, push_findings};
use it_dsse::checks::Checks;
use it_findings::finding::Finding;
use it_findings::{policy_members, policy_nulls};
use it_nonces::SharedNonce;
use it_verify::documents::Documents;
use it_verify::evidence::Evidence;
use it_verify::grounds::Grounds;
use it_verify::opened::Opened;
use std::alloc::{AllocError, Global};

/// What is found where a delivery is accepted.
#[derive(Drop)]
pub struct Found {
    /// What is found in the policy.
    pub of_policy: Sequence<Finding>,
    /// What is found in the layout and counts: that a side of a step has no rules counts only where
    /// the step recorded some path on that side.
    pub of_layout: Sequence<Finding>,
    /// What is found in each sublayout that counts, and counts there as in the layout: one for
    /// each, once over a folder, in the order of the steps and of their key ids, and after each
    /// those below it.
    pub of_sublayouts: Sequence<FoundBelow>,
    /// The paths of the delivered files that are tied to no step, in the order of their bytes.
    pub untied: Sequence<Text>,
    /// The paths that one of two digest lists alone names, each with that list, in the order of
    /// their bytes; none where a list is empty.
    pub listed_once: Sequence<ListedOnce>,
    /// The signatures by ECDSA over P-256 that count and whose number r is that of an earlier one
    /// by a different key, each with the first of all that have this r: in the order of owners,
    /// then of the layout's steps, of their key ids and of the files, then of the sublayouts.
    pub shared_nonces: Sequence<SharedNonce>,
}

/// All that is found where a delivery of the opened inputs is accepted on these grounds by the
/// `checks`.
///
/// # Errors
///
/// `AllocError` where memory was refused, or where the checks refuse to check more signatures.
pub fn found_in<C: Checks>(
    alloc: Global,
    opened: &Opened<'_>,
    grounds: &Grounds,
    checks: &C,
) -> Result<Found, AllocError>
    requires shallow { opened.now.inputs.now.depth ≤ 8 }
    requires made { IsMadeBy (C.panel checks.now) opened.now.inputs.now grounds.now.documents
        grounds.now.evidence }
    ensures { IfOk result (λ found. AreFound (C.panel checks.now) opened.now.inputs.now
        grounds.now.documents grounds.now.evidence found) }
{
    let inputs = opened.inputs;
    let documents = &grounds.documents;
    let evidence = &grounds.evidence;
    let of_policy = found_in_policy(alloc, &opened.policy, documents)?;
    let of_layout = found_in_layout(alloc, documents, evidence)?;
    let untied = untied_files(alloc, documents, evidence)?;
    let listed_once = files_listed_once(alloc, inputs, documents)?;
    let sublayouts = counted_below(alloc, inputs, documents, checks)?;
    let shared_nonces = nonces_shared(alloc, inputs, documents, sublayouts.as_slice(), checks)?;
    let of_sublayouts = found_in_each(alloc, sublayouts)?;
    Ok(Found {
        of_policy: Sequence::from(of_policy),
        of_layout: Sequence::from(of_layout),
        of_sublayouts: Sequence::from(of_sublayouts),
        untied: Sequence::from(untied),
        listed_once: Sequence::from(listed_once),
        shared_nonces: Sequence::from(shared_nonces),
    })
}

/// What is found in the policy, which is read from this text: what `findings_in_policy` finds, and
/// then the expectations that are unused for the delivered files of the documents.
///
/// # Errors
///
/// `AllocError` where memory was refused.
pub fn found_in_policy(
    alloc: Global,
    text: &DocumentText<'_>,
    documents: &Documents,
) -> Result<Vec<Finding>, AllocError>
    ensures { IfOk result (λ found. PolicyFound text.now documents.now found.items) }
{
    let members = policy_members(alloc, text)?;
    let nulls = policy_nulls(alloc, text)?;
    let (members, nulls) = (members.as_slice(), nulls.as_slice());
    let layout = Some(&documents.layout);
    let mut found = findings_in_policy(alloc, layout, &documents.policy, members, nulls)?;
    let mut unused = unused_findings(alloc, documents)?;
    found.append(&mut unused)?;
    Ok(found)
}

/// What is found in the layout, and counts where its steps have the records of the evidence.
///
/// # Errors
///
/// `AllocError` where memory was refused.
pub fn found_in_layout(
    alloc: Global,
    documents: &Documents,
    evidence: &Evidence,
) -> Result<Vec<Finding>, AllocError>
    ensures { IfOk result (λ counting. LayoutCounting documents.now.envelope.payload
        documents.now.layout evidence.now.steps counting.items) }
{
    let payload = documents.envelope.payload.as_slice();
    counting_findings(alloc, payload, &documents.layout, evidence.steps.as_slice())
}

impl Found {
    /// Whether nothing is found. Takes no memory.
    pub fn is_nothing(&self) -> bool
        ensures { IsTrue result ↔ IsNothing self.now }
    {
        self.of_policy.as_slice().is_empty()
            && self.of_layout.as_slice().is_empty()
            && is_nothing_below(self.of_sublayouts.as_slice())
            && self.untied.as_slice().is_empty()
            && self.listed_once.as_slice().is_empty()
            && self.shared_nonces.as_slice().is_empty()
    }

    /// Appends the lines of what is found, each of which ends with a line feed: those of the policy
    /// and those of the layout as `push_findings` writes them, those of each sublayout with its
    /// place, then those of the first 40 files that are tied to no step, and how many there are
    /// where there are more, then the same of paths that one digest list alone names, and last of
    /// shared nonces.
    ///
    /// # Errors
    ///
    /// `AllocError` where memory was refused; a part of the lines may have been appended then.
    #[tactic(auto, unfolding(crate::specs::FoundText::found_text))]
    pub fn push_lines(&self, text: &mut Vec<u8>) -> Result<(), AllocError>
        ensures { OnOk result (text.new.items ≡ text.old.items ++ found_text self.now) }
    {
        push_findings(text, "policy", self.of_policy.as_slice())?;
        push_findings(text, "layout", self.of_layout.as_slice())?;
        push_all_below(text, self.of_sublayouts.as_slice())?;
        push_untied(text, self.untied.as_slice())?;
        push_listed_once(text, self.listed_once.as_slice())?;
        push_shared_nonces(text, self.shared_nonces.as_slice())
    }
}

/// Whether nothing is found in any sublayout.
fn is_nothing_below(all: &[FoundBelow]) -> bool
    ensures { IsTrue result ↔ All (λ below. below.findings ≡ []) all.now }
{
    all.iter().all(|below| below.findings.as_slice().is_empty())
}
