//! The values of a command as a row writes them.
use it_base::text::Text;
use it_words::words::Words;
use it_words::words::checking::CheckWords;
use it_words::words::digesting::DigestWords;
use it_words::words::form::{AskedOutput, Form};
use it_words::words::keys::{KeySource, KeyWords};
use it_words::words::linking::LinkWords;
use it_words::words::signed::{SignedBy, SignedWords};
use it_words::words::signing::{SignBy, SignWords};
use it_words::words::stating::StatementWords;
use it_words::words::verifying::VerifyWords;
use std::alloc::{AllocError, Global};

/// The words, separated by spaces.
fn spaced(alloc: Global, words: &[&str]) -> Result<String, AllocError> {
    words.join(alloc, " ")
}

/// The texts, separated by plus signs.
fn joined(alloc: Global, texts: &[Text]) -> Result<String, AllocError> {
    let mut joined = String::new(alloc);
    for (index, text) in texts.iter().enumerate() {
        if index > 0 {
            joined.push('+')?;
        }
        joined.push_str(text.as_str())?;
    }
    Ok(joined)
}

/// The text, or `none`.
fn shown_or_none(text: &Option<Text>) -> &str {
    match text {
        Some(text) => text.as_str(),
        None => "none",
    }
}

/// The rings, with a star if public keys are checked too, the trusted root behind an at sign if
/// there is one, a question mark if the report is to be JSON, two if it is also to have what is
/// found and noted, the verifier and the resource between parentheses if it is to be a summary, and
/// an exclamation mark if nothing may be found.
fn shown_checks(alloc: Global, words: &VerifyWords) -> Result<String, AllocError> {
    let mut checks = joined(alloc, words.rings.as_slice())?;
    if words.public_keys {
        checks.push('*')?;
    }
    if let Some(root) = &words.trusted_root {
        checks.push('@')?;
        checks.push_str(root.as_str())?;
    }
    match &words.output {
        AskedOutput::Report(Form::Lines) => {}
        AskedOutput::Report(Form::Json) => checks.push('?')?,
        AskedOutput::Report(Form::Full) => checks.push_str("??")?,
        AskedOutput::Summary(names) => {
            let (verifier, resource) = (names.verifier.as_str(), names.resource.as_str());
            checks.push_str(format!(in alloc; "({verifier} {resource})")?.as_str())?;
        }
    }
    if words.strict {
        checks.push('!')?;
    }
    Ok(checks)
}

/// The depth, and behind it how many signatures may be checked, if it is not 20,000.
fn shown_limits(alloc: Global, words: &VerifyWords) -> Result<String, AllocError> {
    if words.most_checks == 20_000 {
        return format!(in alloc; "{}", words.depth);
    }
    format!(in alloc; "{} {}", words.depth, words.most_checks)
}

/// The digest list by SHA-256, and that by SHA-512 behind a number sign, each if it is given.
fn shown_lists(alloc: Global, words: &VerifyWords) -> Result<String, AllocError> {
    let mut lists = String::new(alloc);
    if let Some(sums) = &words.sums {
        lists.push_str(sums.as_str())?;
    }
    if let Some(sums512) = &words.sums512 {
        lists.push('#')?;
        lists.push_str(sums512.as_str())?;
    }
    Ok(lists)
}

fn shown_verify(alloc: Global, words: &VerifyWords) -> Result<String, AllocError> {
    let lists = shown_lists(alloc, words)?;
    let checks = shown_checks(alloc, words)?;
    let limits = shown_limits(alloc, words)?;
    let all = [
        "verify",
        words.policy.as_str(),
        words.layout.as_str(),
        words.links.as_str(),
        lists.as_str(),
        words.at.as_str(),
        checks.as_str(),
        shown_or_none(&words.provenance),
        shown_or_none(&words.records),
        limits.as_str(),
    ];
    spaced(alloc, &all)
}

fn shown_signed(alloc: Global, words: &SignedWords) -> Result<String, AllocError> {
    let envelope = words.envelope.as_str();
    match &words.by {
        SignedBy::Ring(ring) => spaced(alloc, &["signed", envelope, ring.as_str()]),
        SignedBy::Keys(keys) => spaced(alloc, &["signed", envelope, "by", keys.as_str()]),
        SignedBy::Trusted(paths) => {
            let (keys, root) = (paths.keys.as_str(), paths.root.as_str());
            spaced(alloc, &["signed", envelope, "by", keys, "and", root])
        }
    }
}

/// The ring, or the signature with the keys.
fn shown_by(alloc: Global, by: &SignBy) -> Result<String, AllocError> {
    match by {
        SignBy::Ring(ring) => String::from_str(alloc, ring.as_str()),
        SignBy::Made(made) => spaced(alloc, &[made.signature.as_str(), "by", made.keys.as_str()]),
    }
}

fn shown_sign(alloc: Global, words: &SignWords) -> Result<String, AllocError> {
    let by = shown_by(alloc, &words.by)?;
    let all = [
        "sign",
        words.body.as_str(),
        by.as_str(),
        words.key.as_str(),
        words.kind.as_str(),
        shown_or_none(&words.onto),
    ];
    spaced(alloc, &all)
}

fn shown_link(alloc: Global, words: &LinkWords) -> Result<String, AllocError> {
    let all = [
        "link",
        words.name.as_str(),
        shown_or_none(&words.materials),
        shown_or_none(&words.products),
    ];
    spaced(alloc, &all)
}

fn shown_statement(alloc: Global, words: &StatementWords) -> Result<String, AllocError> {
    let all = [
        "statement",
        words.sums.as_str(),
        words.builder.as_str(),
        words.build_type.as_str(),
        shown_or_none(&words.parameters),
    ];
    spaced(alloc, &all)
}

fn shown_digest(alloc: Global, words: &DigestWords) -> Result<String, AllocError> {
    let paths = joined(alloc, words.paths.as_slice())?;
    spaced(alloc, &[digest_name(words), paths.as_str()])
}

fn digest_name(words: &DigestWords) -> &'static str {
    match (words.recursive, words.sha512) {
        (false, false) => "digest",
        (false, true) => "digest#",
        (true, false) => "below",
        (true, true) => "below#",
    }
}

fn shown_check(alloc: Global, words: &CheckWords) -> Result<String, AllocError> {
    let all = [
        "check",
        shown_or_none(&words.policy),
        shown_or_none(&words.layout),
    ];
    spaced(alloc, &all)
}

/// The files, or the name and the issuer of an identity.
fn shown_source(alloc: Global, source: &KeySource) -> Result<String, AllocError> {
    match source {
        KeySource::Files(files) => joined(alloc, files.as_slice()),
        KeySource::Identity(of) => spaced(alloc, &[of.name.as_str(), "by", of.issuer.as_str()]),
    }
}

fn shown_key(alloc: Global, words: &KeyWords) -> Result<String, AllocError> {
    let source = shown_source(alloc, &words.source)?;
    spaced(alloc, &["key", source.as_str(), shown_or_none(&words.name)])
}

/// The name of a command and its values in the order of its type's fields, separated by spaces.
/// Plus signs separate several paths, and a value that is missing is `none`. Keys come after `by`,
/// as the issuer of an identity does, and `digest --recursive` is `below`. A number sign stands for
/// SHA-512.
///
/// # Errors
///
/// `AllocError` where memory was refused.
pub(crate) fn shown(alloc: Global, words: &Words) -> Result<String, AllocError> {
    match words {
        Words::Signed(words) => shown_signed(alloc, words),
        Words::Match(words) => {
            spaced(
                alloc,
                &["match", words.pattern.as_str(), words.path.as_str()],
            )
        }
        Words::Pae(words) => spaced(alloc, &["pae", words.body.as_str(), words.kind.as_str()]),
        Words::Sign(words) => shown_sign(alloc, words),
        Words::Digest(words) => shown_digest(alloc, words),
        Words::Link(words) => shown_link(alloc, words),
        Words::Statement(words) => shown_statement(alloc, words),
        Words::Payload(words) => spaced(alloc, &["payload", words.envelope.as_str()]),
        Words::Key(words) => shown_key(alloc, words),
        Words::Check(words) => shown_check(alloc, words),
        Words::Verify(words) => shown_verify(alloc, words),
    }
}
