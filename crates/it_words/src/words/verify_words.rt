//! The words of `itv verify`.
ghost use Rattle.std.specs.Prelude.{◌≤◌, ◌↔◌, IfErr, IfOk, IsTrue, length};
ghost use Rattle.it_words.specs.Values.{HasCheck, IsAsked, IsReport, IsSummary, IsVerify};
ghost use Rattle.it_words.specs.inside.Unfit.{FitsNone};

use super::form::{AskedOutput, Form, SummaryWords};
use super::values::{Values, ValuesFault, has_either};
use clap::ArgMatches;
use it_base::sequence::Sequence;
use it_base::text::Text;

/// How many rings may be given.
const MOST_RINGS: usize = 8;

/// The values of `itv verify`.
#[derive(Drop)]
pub struct VerifyWords {
    /// The path of the policy's file.
    pub policy: Text,
    /// The path of the layout's file.
    pub layout: Text,
    /// The path of the folder that the links are in.
    pub links: Text,
    /// The path of the file of the digest list by SHA-256, where there is one.
    pub sums: Option<Text>,
    /// The path of the file of the digest list by SHA-512, where there is one; at least one of the
    /// two lists is there.
    pub sums512: Option<Text>,
    /// The moment at which no layout may have expired.
    pub at: Text,
    /// The paths of the rings' files, in the order of the words; there are at most 8, and none only
    /// where public keys are checked or there is a trusted root.
    pub rings: Sequence<Text>,
    /// Whether signatures are checked by public keys too.
    pub public_keys: bool,
    /// The path of the file of the trusted root, by which bundles are checked, where there is one.
    pub trusted_root: Option<Text>,
    /// What is asked for on standard output.
    pub output: AskedOutput,
    /// Whether nothing is accepted against which findings stand, as it is where a summary is asked
    /// for.
    pub strict: bool,
    /// The path of the provenance's file, where there is one.
    pub provenance: Option<Text>,
    /// The path of the folder that the records of inspections are in, where there is one.
    pub records: Option<Text>,
    /// How deep sublayouts may lie, at most 8.
    pub depth: u8,
    /// How many signatures public keys may check.
    pub most_checks: u64,
}

/// The command's values, or `Unfit` where one is missing, there is no digest list, there are more
/// than 8 rings, there is no ring, no public keys and no trusted root, or the words of a summary do
/// not fit together.
pub(super) fn read(values: &Values<'_, '_>) -> Result<VerifyWords, ValuesFault>
    ensures found { IfOk result (IsVerify values.now) }
    ensures unfit { IfErr result (FitsNone (IsVerify values.now)) }
{
    let sums = values.optional("sums")?;
    let sums512 = values.optional("sums512")?;
    let rings = values.any("ring")?;
    let public_keys = values.is_given("public-keys");
    let trusted_root = values.optional("trusted-root")?;
    if !has_either(&sums, &sums512) || !are_checks(rings.as_slice(), public_keys, &trusted_root) {
        return Err(ValuesFault::Unfit);
    }
    Ok(VerifyWords {
        policy: values.needed("policy")?,
        layout: values.needed("layout")?,
        links: values.needed("links")?,
        sums,
        sums512,
        at: values.needed("at")?,
        rings,
        public_keys,
        trusted_root,
        output: asked(values)?,
        strict: values.is_given("strict") || values.is_given("summary"),
        provenance: values.optional("provenance")?,
        records: values.optional("records")?,
        depth: values.depth()?,
        most_checks: values.most_checks()?,
    })
}

/// Whether a digest list is among the values that the parser found.
pub(super) fn has_list(found: &ArgMatches<'_>) -> bool {
    found.get_str("sums").is_some() || found.get_str("sums512").is_some()
}

/// Whether there are at most 8 rings, and at least one where public keys are not checked and there
/// is no trusted root.
fn are_checks(rings: &[Text], public_keys: bool, root: &Option<Text>) -> bool
    ensures { IsTrue result ↔ ((length rings.now ≤ 8) × HasCheck rings.now public_keys root.now) }
{
    rings.len() <= MOST_RINGS && (!rings.is_empty() || public_keys || root.is_some())
}

/// What is asked for on standard output, or `Unfit` where a word of a summary is missing, or stands
/// without `--summary` or beside `--json`.
fn asked(values: &Values<'_, '_>) -> Result<AskedOutput, ValuesFault>
    ensures found { IfOk result (IsAsked values.now) }
    ensures unfit { IfErr result (FitsNone (IsAsked values.now)) }
{
    if values.is_given("summary") {
        Ok(AskedOutput::Summary(summary(values)?))
    } else {
        Ok(AskedOutput::Report(report(values)?))
    }
}

/// The words of a summary, or `Unfit` where one is missing, or a form of the report is given.
fn summary(values: &Values<'_, '_>) -> Result<SummaryWords, ValuesFault>
    ensures found { IfOk result (IsSummary values.now) }
    ensures unfit { IfErr result (FitsNone (IsSummary values.now)) }
{
    if values.form()? != Form::Lines {
        return Err(ValuesFault::Unfit);
    }
    Ok(SummaryWords {
        verifier: values.needed("verifier")?,
        resource: values.needed("resource")?,
    })
}

/// The form of the report, or `Unfit` where it is none, or a word of a summary is given.
fn report(values: &Values<'_, '_>) -> Result<Form, ValuesFault>
    ensures found { IfOk result (IsReport values.now) }
    ensures unfit { IfErr result (FitsNone (IsReport values.now)) }
{
    values.absent("verifier")?;
    values.absent("resource")?;
    values.form()
}
