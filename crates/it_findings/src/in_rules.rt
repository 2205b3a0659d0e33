//! What is found in a list of artifact rules.
ghost use Rattle.std.specs.Prelude.{◌≡◌, ◌↔◌, IfOk, IsTrue};
ghost use Rattle.std.specs.Option.{option_copied};
ghost use Rattle.it_findings.specs.Joined.{Joined, Said};
ghost use Rattle.it_findings.specs.Parameters.{NamesParameter};
ghost use Rattle.it_findings.specs.RuleFindings.{FromFindings, IsUnknown, ListFindings};
ghost use Rattle.it_findings.specs.RuleFindings.{HasInspection, HasStep};
ghost use Rattle.it_findings.specs.RuleFindings.{OneFindings, WholeFindings};

use crate::closed::is_closed;
use crate::finding::{Finding, RuleList};
use crate::one::one;
use crate::parameter::names_parameter;
use it_base::text::Text;
use it_docs::layout::Layout;
use it_docs::rule::Rule;
use it_docs::step::step_named;
use std::alloc::{AllocError, Global};

/// What is found in a list of rules: in the whole, and then in each rule in order. `MATCH` may take
/// from what the `layout` has; where there is none, nothing is said of where it takes from.
///
/// # Errors
///
/// `AllocError` where memory was refused.
pub(crate) fn list_findings(
    alloc: Global,
    layout: Option<&Layout>,
    list: &RuleList,
    rules: &[Rule],
) -> Result<Vec<Finding>, AllocError>
    ensures { IfOk result (λ found.
        ListFindings (option_copied layout.entry) list.now rules.now found.items) }
{
    let mut found = whole_findings(alloc, list, rules)?;
    let mut each = each_findings(alloc, layout, list, rules)?;
    found.append(&mut each)?;
    Ok(found)
}

/// What is found in the list as a whole.
fn whole_findings(
    alloc: Global,
    list: &RuleList,
    rules: &[Rule],
) -> Result<Vec<Finding>, AllocError>
    ensures { IfOk result (λ found. WholeFindings list.now rules.now found.items) }
{
    if rules.is_empty() {
        return one(alloc, Finding::NoRules(list.copy(alloc)?));
    }
    if is_closed(list, rules) {
        return Ok(Vec::new(alloc));
    }
    one(alloc, Finding::OpenRules(list.copy(alloc)?))
}

/// What is found in each rule, in order.
fn each_findings(
    alloc: Global,
    layout: Option<&Layout>,
    list: &RuleList,
    rules: &[Rule],
) -> Result<Vec<Finding>, AllocError>
    ensures { IfOk result (λ found.
        Joined (OneFindings (option_copied layout.entry) list.now) rules.now found.items) }
{
    let mut found = Vec::new(alloc);
    for (place, rule) in rules.iter().enumerate() {
        let mut here = one_findings(alloc, layout, list, place, rule)?;
        found.append(&mut here)?;
    }
    Ok(found)
}

/// What is found in the rule at a place.
fn one_findings(
    alloc: Global,
    layout: Option<&Layout>,
    list: &RuleList,
    place: usize,
    rule: &Rule,
) -> Result<Vec<Finding>, AllocError>
    ensures { IfOk result (λ found.
        OneFindings (option_copied layout.entry) list.now place rule.now found.items) }
{
    let mut found = from_findings(alloc, layout, list, place, rule)?;
    let mut paths = path_findings(alloc, list, place, rule)?;
    found.append(&mut paths)?;
    Ok(found)
}

/// What is found in where the rule at a place takes from.
fn from_findings(
    alloc: Global,
    layout: Option<&Layout>,
    list: &RuleList,
    place: usize,
    rule: &Rule,
) -> Result<Vec<Finding>, AllocError>
    ensures { IfOk result (λ found.
        FromFindings (option_copied layout.entry) list.now place rule.now found.items) }
{
    match rule {
        Rule::Match { from, .. } => name_findings(alloc, layout, list, place, from),
        Rule::Create(_)
        | Rule::Delete(_)
        | Rule::Modify(_)
        | Rule::Allow(_)
        | Rule::Disallow(_)
        | Rule::Require(_) => Ok(Vec::new(alloc)),
    }
}

/// What is found in the name from which the rule at a place takes.
fn name_findings(
    alloc: Global,
    layout: Option<&Layout>,
    list: &RuleList,
    place: usize,
    name: &Text,
) -> Result<Vec<Finding>, AllocError>
    ensures { IfOk result (λ found. Said (IsUnknown (option_copied layout.entry) name.now)
        (Finding.UnknownItem list.now place name.now) found.items) }
{
    if !is_unknown(layout, name) {
        return Ok(Vec::new(alloc));
    }
    one(alloc, unknown_item(alloc, list, place, name)?)
}

fn unknown_item(
    alloc: Global,
    list: &RuleList,
    place: usize,
    name: &Text,
) -> Result<Finding, AllocError>
    ensures { IfOk result (λ finding. finding ≡ Finding.UnknownItem list.now place name.now) }
{
    Ok(Finding::UnknownItem {
        list: list.copy(alloc)?,
        place,
        name: Text::copy(alloc, name.as_str())?,
    })
}

/// What is found in the texts of the rule at a place.
fn path_findings(
    alloc: Global,
    list: &RuleList,
    place: usize,
    rule: &Rule,
) -> Result<Vec<Finding>, AllocError>
    ensures { IfOk result (λ found.
        Said (NamesParameter rule.now) (Finding.Parameter list.now place) found.items) }
{
    if !names_parameter(rule) {
        return Ok(Vec::new(alloc));
    }
    let list = list.copy(alloc)?;
    one(alloc, Finding::Parameter { list, place })
}

/// Whether there is a layout, and no step or inspection of it has the name.
fn is_unknown(layout: Option<&Layout>, name: &Text) -> bool
    ensures { IsTrue result ↔ IsUnknown (option_copied layout.entry) name.now }
{
    match layout {
        Some(layout) => !has_step(layout, name) && !has_inspection(layout, name),
        None => false,
    }
}

fn has_step(layout: &Layout, name: &Text) -> bool
    ensures { IsTrue result ↔ HasStep layout.now name.now }
{
    match step_named(layout.steps.as_slice(), name.as_str()) {
        Some(_) => true,
        None => false,
    }
}

fn has_inspection(layout: &Layout, name: &Text) -> bool
    ensures { IsTrue result ↔ HasInspection layout.now name.now }
{
    let mut inspections = layout.inspections.as_slice().iter();
    inspections.any(|inspection| inspection.name.as_str() == name.as_str())
}
