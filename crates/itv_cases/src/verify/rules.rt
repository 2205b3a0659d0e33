//! Artifact rules: the first that fails, and its path.
use it_base::document::member;
use it_digest::artifacts::Artifacts;
use it_digest::compare::DigestSet;
use it_docs::rule::{Rule, Side, read_rule};
use it_rules::item::{Item, Named};
use it_rules::ranges::front_range;
use it_rules::rules::{RuleFault, run_rules};
use it_tables::RowFault;
use it_tables::devices::words;
use it_tables::row::{list_in, member_in, text_in};
use serde_json::Value;
use std::alloc::{AllocError, Global};

// Three digests; what they are digests of plays no part.
const ONE: [u8; 32] = [1; 32];

const OTHER: [u8; 32] = [2; 32];

const LONG: [u8; 64] = [3; 64];

/// The range of the paths of a row that begin with its front. The paths are one of two lists, which
/// are in order.
pub(crate) fn front(alloc: Global, row: &Value) -> Result<String, RowFault> {
    let front = text_in(row, "front")?;
    let (start, end) = match text_in(row, "paths")? {
        "" => front_range(&[], front),
        "a a/b a0 b" => front_range(&["a", "a/b", "a0", "b"], front),
        _ => return Err(RowFault::BadMember("paths")),
    };
    Ok(format!(in alloc; "{start} {end}")?)
}

/// What an item or a link recorded.
#[derive(Drop)]
struct Recorded {
    materials: Artifacts,
    products: Artifacts,
}

impl Recorded {
    /// What the members of a row, or of one of its links, give.
    fn read(alloc: Global, value: &Value) -> Result<Recorded, RowFault> {
        Ok(Recorded {
            materials: artifacts(alloc, text_in(value, "materials")?)?,
            products: artifacts(alloc, text_in(value, "products")?)?,
        })
    }

    fn item(&self) -> Item<'_> {
        Item {
            materials: &self.materials,
            products: &self.products,
        }
    }
}

/// Artifacts, written as words `path=digests`.
fn artifacts(alloc: Global, words: &str) -> Result<Artifacts, RowFault> {
    let mut artifacts = Artifacts::new(alloc);
    for word in words.split_whitespace() {
        let (path, digests) = word
            .split_once("=")
            .ok_or(RowFault::BadMember("materials"))?;
        artifacts.insert(String::from_str(alloc, path)?, digest_set(digests))?;
    }
    Ok(artifacts)
}

/// The digests that a word means: A and B differ in their SHA-256, S has a SHA-512 alone, and
/// AS both.
fn digest_set(word: &str) -> DigestSet {
    let (sha256, sha512) = match word {
        "A" => (Some(ONE), None),
        "B" => (Some(OTHER), None),
        "S" => (None, Some(LONG)),
        "AS" => (Some(ONE), Some(LONG)),
        _ => (None, None),
    };
    DigestSet {
        sha256,
        sha384: None,
        sha512,
    }
}

/// The rules of a row, each written as its texts, separated by spaces.
fn rules_in(alloc: Global, row: &Value) -> Result<Vec<Rule>, RowFault> {
    let mut rules = Vec::new(alloc);
    for line in list_in(row, "rules")? {
        rules.push(rule(alloc, line)?)?;
    }
    Ok(rules)
}

fn rule(alloc: Global, line: &Value) -> Result<Rule, RowFault> {
    let line = line.as_str().ok_or(RowFault::BadMember("rules"))?;
    let texts = words(alloc, line)?;
    read_rule(alloc, texts.as_slice())?.ok_or(RowFault::BadMember("rules"))
}

/// The side that the rules of a row judge.
fn side_in(row: &Value) -> Result<Side, RowFault> {
    match text_in(row, "side")? {
        "MATERIALS" => Ok(Side::Materials),
        "PRODUCTS" => Ok(Side::Products),
        _ => Err(RowFault::BadMember("side")),
    }
}

/// The first rule of a row that fails, counted from 0, and its path; `none` if none does.
pub(crate) fn first_fault(alloc: Global, row: &Value) -> Result<String, RowFault> {
    match fault_in(alloc, row)? {
        None => Ok(String::from_str(alloc, "none")?),
        Some(fault) => {
            let (index, path) = (fault.index, fault.path.as_str());
            Ok(format!(in alloc; "{index} {path}")?)
        }
    }
}

/// The outcome of the rules of a row, over the link `build` and, where there is one, `test`.
fn fault_in(alloc: Global, row: &Value) -> Result<Option<RuleFault>, RowFault> {
    let rules = rules_in(alloc, row)?;
    let side = side_in(row)?;
    let recorded = Recorded::read(alloc, row)?;
    let build = Recorded::read(alloc, member_in(row, "build")?)?;
    match member(row, "test") {
        None => Ok(by_one(alloc, side, &rules, &recorded, &build)?),
        Some(test) => {
            let test = Recorded::read(alloc, test)?;
            Ok(by_two(alloc, side, &rules, &recorded, [&build, &test])?)
        }
    }
}

fn by_one(
    alloc: Global,
    side: Side,
    rules: &[Rule],
    recorded: &Recorded,
    build: &Recorded,
) -> Result<Option<RuleFault>, AllocError> {
    let build = Named {
        name: "build",
        item: build.item(),
    };
    run_rules(alloc, side, rules, &recorded.item(), &[build])
}

fn by_two(
    alloc: Global,
    side: Side,
    rules: &[Rule],
    recorded: &Recorded,
    [build, test]: [&Recorded; 2],
) -> Result<Option<RuleFault>, AllocError> {
    let build = Named {
        name: "build",
        item: build.item(),
    };
    let test = Named {
        name: "test",
        item: test.item(),
    };
    run_rules(alloc, side, rules, &recorded.item(), &[build, test])
}
