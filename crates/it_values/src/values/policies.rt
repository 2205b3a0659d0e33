//! How policies are read.
use crate::values::layouts::keys_told;
use crate::values::parts::texts_told;
use crate::values::rules;
use crate::values::trees::members_told;
use it_docs::policy::{Builder, Expectation, Policy};
use it_docs::policy_reading::read_policy;
use it_tables::RowFault;
use it_tables::row::member_in;
use serde_json::Value;
use std::alloc::{AllocError, Global};

/// What a call on the policy in the document of a row answers.
pub(crate) fn answer(alloc: Global, call: &str, row: &Value) -> Result<String, RowFault> {
    let text = member_in(row, "document")?.to_string(alloc)?;
    match call {
        "read" => read(alloc, text.as_bytes()),
        _ => Err(RowFault::UnknownCall),
    }
}

fn read(alloc: Global, bytes: &[u8]) -> Result<String, RowFault> {
    match read_policy(alloc, bytes) {
        Ok(policy) => Ok(told(alloc, &policy)?),
        Err(fault) => Ok(format!(in alloc; "{fault:?}")?),
    }
}

/// The owners, the deliver rules and the expectations of a policy.
fn told(alloc: Global, policy: &Policy) -> Result<String, AllocError> {
    let owners = keys_told(alloc, &policy.owners)?;
    let deliver = rules::told(alloc, policy.deliver.as_slice())?;
    let expectations = expectations_told(alloc, policy.expectations.as_slice())?;
    format!(in alloc; "owners ({owners}) deliver ({deliver}) expect ({expectations})")
}

fn expectations_told(alloc: Global, expectations: &[Expectation]) -> Result<String, AllocError> {
    let mut text = String::new(alloc);
    for expectation in expectations {
        write!(text, "{};", expectation_told(alloc, expectation)?)?;
    }
    Ok(text)
}

/// The files, the level, the build and the builders of an expectation.
fn expectation_told(alloc: Global, expectation: &Expectation) -> Result<String, AllocError> {
    let files = expectation.files.text();
    let level = expectation.level;
    let build = build_told(alloc, expectation)?;
    let builders = builders_told(alloc, expectation.builders.as_slice())?;
    format!(in alloc; "{files} at {level} built as {build} by ({builders})")
}

/// The kind of build, its parameters, and the names of those that are ignored.
fn build_told(alloc: Global, expectation: &Expectation) -> Result<String, AllocError> {
    let kind = expectation.build_type.as_str();
    let parameters = members_told(alloc, &expectation.parameters)?;
    let ignored = texts_told(alloc, expectation.ignore.as_slice())?;
    format!(in alloc; "{kind} with ({parameters}) but for ({ignored})")
}

fn builders_told(alloc: Global, builders: &[Builder]) -> Result<String, AllocError> {
    let mut text = String::new(alloc);
    for builder in builders {
        write!(text, "{};", builder_told(alloc, builder)?)?;
    }
    Ok(text)
}

/// The id of a builder, its level, and its keys.
fn builder_told(alloc: Global, builder: &Builder) -> Result<String, AllocError> {
    let id = builder.id.as_str();
    let level = builder.level;
    let keys = keys_told(alloc, &builder.keys)?;
    format!(in alloc; "{id} at {level} keys ({keys})")
}
