//! Whether a rule ties what it claims to a step.
ghost use Rattle.std.specs.Prelude.{◌↔◌, IsTrue};
ghost use Rattle.it_ties.specs.Ties.{NamesStep, Ties};

use it_docs::rule::{Rule, Side};
use it_docs::step::{Step, step_named};

/// Whether the rule ties what it claims to one of the `steps`: `MATCH` with the products of a step.
/// Takes no memory.
pub(crate) fn ties(steps: &[Step], rule: &Rule) -> bool
    ensures { IsTrue result ↔ Ties steps.now rule.now }
{
    match rule {
        Rule::Match { side, from, .. } => match side {
            Side::Products => names_step(steps, from.as_str()),
            Side::Materials => false,
        },
        _ => false,
    }
}

/// Whether one of the `steps` has the name.
fn names_step(steps: &[Step], name: &str) -> bool
    ensures { IsTrue result ↔ NamesStep steps.now name.now }
{
    match step_named(steps, name) {
        Some(_) => true,
        None => false,
    }
}
