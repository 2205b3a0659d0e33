//! Why a bundle vouches for nobody.
ghost use Rattle.std.specs.Prelude.{◌≡◌, ◌++◌, OnOk};
ghost use Rattle.it_vouches.specs.Phrases.{phrase_of};

use crate::issuer_shortfall::IssuerShortfall;
use crate::leaf_phrases::push_leaf_phrase;
use crate::phrases::{certificate_phrase, entry_phrase, issuer_phrase};
use it_bundle::NoCertificate;
use it_certificate::LeafShortfall;
use it_log_entry::EntryShortfall;
use std::alloc::AllocError;

/// The condition that a bundle misses where it vouches for nobody: the first of these that is true.
#[derive(Clone, Copy, Debug, PartialEq, Eq)]
pub enum Shortfall {
    /// Its envelope has this many signatures, and not one.
    Signatures(usize),
    /// It has no verification material.
    Material,
    /// It has no certificate, for this reason.
    Certificate(NoCertificate),
    /// It has no entry of a transparency log.
    NoEntry,
    /// It has more than 8 entries.
    ManyEntries,
    /// Its certificate is no leaf, for this reason.
    Leaf(LeafShortfall),
    /// The name or the issuer in its certificate is empty or has more than 512 bytes.
    Identity,
    /// None of its entries reads.
    Entry,
    /// None of its entries is about its signature and by a log of the trusted root. Of all entries
    /// and logs, this is the furthest condition that is missed.
    Log(EntryShortfall),
    /// Some of its entries are about its signature and by a log of the trusted root, but at none of
    /// their times an authority of the trusted root issued its certificate and was promised by a
    /// certificate log that it is logged. Of all these entries and all authorities, this is the
    /// furthest condition that is missed.
    Issuer(IssuerShortfall),
    /// The certificate's key did not sign the envelope.
    Signature,
}

impl Shortfall {
    /// Appends the end of a sentence about the bundle, such as "it has no certificate".
    ///
    /// # Errors
    ///
    /// `AllocError` where memory was refused; a part of it may have been appended then.
    pub fn push_phrase(&self, text: &mut Vec<u8>) -> Result<(), AllocError>
        ensures { OnOk result (text.new.items ≡ text.old.items ++ phrase_of self.now) }
    {
        match self {
            Shortfall::Signatures(count) => push_count(text, *count),
            Shortfall::Material => push(text, "it has no verificationMaterial"),
            Shortfall::Certificate(reason) => push(text, certificate_phrase(*reason)),
            Shortfall::NoEntry => push(text, "it has no entry of a transparency log"),
            Shortfall::ManyEntries => push(text, "it has more than 8 entries"),
            Shortfall::Leaf(missed) => push_leaf_phrase(text, *missed),
            Shortfall::Identity => push(
                text,
                "its certificate's name or issuer is empty or has more than 512 bytes",
            ),
            Shortfall::Entry => push(
                text,
                "its entry has a member that is missing or of another form",
            ),
            Shortfall::Log(missed) => push(text, entry_phrase(*missed)),
            Shortfall::Issuer(missed) => push(text, issuer_phrase(*missed)),
            Shortfall::Signature => push(text, "the certificate's key did not sign the envelope"),
        }
    }
}

fn push_count(text: &mut Vec<u8>, count: usize) -> Result<(), AllocError>
    ensures { OnOk result
        (text.new.items ≡ text.old.items ++ phrase_of (Shortfall.Signatures count)) }
{
    let alloc = *text.allocator();
    let words = format!(in alloc;
        "its envelope has {count} signatures, and a bundle's must have one"
    )?;
    push(text, words.as_str())
}

fn push(text: &mut Vec<u8>, words: &str) -> Result<(), AllocError>
    ensures { OnOk result (text.new.items ≡ text.old.items ++ words.now) }
{
    text.extend_from_slice(words.as_bytes())
}
