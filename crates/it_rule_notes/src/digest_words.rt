//! Digest sets as words for people.
ghost use Rattle.std.specs.Prelude.{◌≡◌, ◌++◌, OnOk};
ghost use Rattle.it_rule_notes.specs.DigestWords.{algorithm_form, algorithms_form};
ghost use Rattle.it_rule_notes.specs.DigestWords.{digest_form, digests_form};

use crate::line::push_text;
use it_digest::compare::DigestSet;
use std::alloc::AllocError;

/// Appends all digests of a set, each after a space and its algorithm.
#[tactic(auto, unfolding(crate::specs::DigestWords::digests_form))]
pub(crate) fn push_digests(text: &mut Vec<u8>, set: &DigestSet) -> Result<(), AllocError>
    ensures { OnOk result (text.new.items ≡ text.old.items ++ digests_form set.now) }
{
    push_digest(text, "sha256", &set.sha256)?;
    push_digest(text, "sha384", &set.sha384)?;
    push_digest(text, "sha512", &set.sha512)
}

fn push_digest<const N: usize>(
    text: &mut Vec<u8>,
    name: &str,
    digest: &Option<[u8; N]>,
) -> Result<(), AllocError>
    ensures { OnOk result (text.new.items ≡ text.old.items ++ digest_form name.now digest.now) }
{
    match digest {
        None => Ok(()),
        Some(bytes) => {
            let alloc = *text.allocator();
            let digits = hex::encode(alloc, bytes.as_slice())?;
            push_text(text, " ")?;
            push_text(text, name)?;
            push_text(text, " ")?;
            push_text(text, digits.as_str())
        }
    }
}

/// Appends the names of a set's algorithms, each after a space.
#[tactic(auto, unfolding(crate::specs::DigestWords::algorithms_form))]
pub(crate) fn push_algorithms(text: &mut Vec<u8>, set: &DigestSet) -> Result<(), AllocError>
    ensures { OnOk result (text.new.items ≡ text.old.items ++ algorithms_form set.now) }
{
    push_algorithm(text, "sha256", &set.sha256)?;
    push_algorithm(text, "sha384", &set.sha384)?;
    push_algorithm(text, "sha512", &set.sha512)
}

fn push_algorithm<const N: usize>(
    text: &mut Vec<u8>,
    name: &str,
    digest: &Option<[u8; N]>,
) -> Result<(), AllocError>
    ensures { OnOk result (text.new.items ≡ text.old.items ++ algorithm_form name.now digest.now) }
{
    match digest {
        None => Ok(()),
        Some(_) => {
            push_text(text, " ")?;
            push_text(text, name)
        }
    }
}
