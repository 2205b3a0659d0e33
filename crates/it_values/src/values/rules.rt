//! Artifact rules: how they are read, and their words.
use crate::values::told::text_or_none;
use it_docs::rule::{Rule, Side, read_rule};
use it_tables::RowFault;
use it_tables::devices::words;
use it_tables::row::text_in;
use serde_json::Value;
use std::alloc::{AllocError, Global};

/// What a call on artifact rules answers.
pub(crate) fn answer(alloc: Global, call: &str, row: &Value) -> Result<String, RowFault> {
    match call {
        "read" => read(alloc, row),
        _ => Err(RowFault::UnknownCall),
    }
}

/// The rule in the words of a row.
fn read(alloc: Global, row: &Value) -> Result<String, RowFault> {
    let words = words(alloc, text_in(row, "words")?)?;
    match read_rule(alloc, words.as_slice())? {
        Some(rule) => Ok(rule_told(alloc, &rule)?),
        None => text_or_none(alloc, None),
    }
}

/// Rules as texts, each followed by a semicolon.
///
/// # Errors
///
/// Memory was refused.
pub(crate) fn told(alloc: Global, rules: &[Rule]) -> Result<String, AllocError> {
    let mut all = String::new(alloc);
    for rule in rules {
        write!(all, "{};", rule_told(alloc, rule)?)?;
    }
    Ok(all)
}

/// A rule as a text, with the prefixes of a MATCH in brackets.
fn rule_told(alloc: Global, rule: &Rule) -> Result<String, AllocError> {
    let (name, text) = match rule {
        Rule::Match {
            pattern,
            source_prefix,
            side,
            target_prefix,
            from,
        } => {
            return format!(in alloc;
                "match {} [{}] {} [{}] {}",
                pattern.text(),
                source_prefix.as_str(),
                side_told(*side),
                target_prefix.as_str(),
                from.as_str()
            );
        }
        Rule::Create(pattern) => ("create", pattern.text()),
        Rule::Delete(pattern) => ("delete", pattern.text()),
        Rule::Modify(pattern) => ("modify", pattern.text()),
        Rule::Allow(pattern) => ("allow", pattern.text()),
        Rule::Disallow(pattern) => ("disallow", pattern.text()),
        Rule::Require(path) => ("require", path.as_str()),
    };
    format!(in alloc; "{name} {text}")
}

fn side_told(side: Side) -> &'static str {
    match side {
        Side::Materials => "materials",
        Side::Products => "products",
    }
}
