//! Whether the parameters of a build are those that are expected.
ghost use Rattle.std.specs.Prelude.{◌≡◌, ◌↔◌, IfOk, IsTrue};
ghost use Rattle.it_prov.specs.Ignored.{AreIgnored};
ghost use Rattle.it_prov.specs.inside.Judged.{HasNames, IsMet, MayStand, OfEachName};
ghost use Rattle.it_prov.specs.Meets.{ParametersMeet};

use it_base::text::Text;
use it_docs::policy::Expectation;
use it_docs::tree::Members;
use std::alloc::{AllocError, Global};
use std::collections::BTreeSet;

/// For each expectation, the names that it allows to be ignored, as a set.
pub(crate) fn ignored_by<'a>(
    alloc: Global,
    expectations: &'a [Expectation],
) -> Result<Vec<BTreeSet<&'a str>>, AllocError>
    ensures { IfOk result (λ sets. AreIgnored expectations.now sets.items) }
{
    let mut sets = Vec::with_capacity(alloc, expectations.len())?;
    for expectation in expectations {
        sets.push(set_of(alloc, expectation.ignore.as_slice())?)?;
    }
    Ok(sets)
}

/// The names, as a set.
fn set_of(alloc: Global, names: &[Text]) -> Result<BTreeSet<&str>, AllocError>
    ensures { IfOk result (HasNames names.now) }
{
    let mut set = BTreeSet::new(alloc);
    for name in names {
        set.insert(name.as_str())?;
    }
    Ok(set)
}

/// Whether the parameters include the expected ones, and every other name may be ignored.
pub(crate) fn parameters_meet(
    expectation: &Expectation,
    ignored: &BTreeSet<&str>,
    given: &Members,
) -> bool
    requires { HasNames expectation.now.ignore ignored.now }
    ensures { IsTrue result ↔ ParametersMeet expectation.now given.now }
{
    all_are_met(&expectation.parameters, given) && all_may_stand(expectation, ignored, given)
}

fn all_are_met(expected: &Members, given: &Members) -> bool
    ensures { IsTrue result ↔ OfEachName (IsMet expected.now given.now) expected.now }
{
    expected
        .iter()
        .all(|(name, _)| is_met(expected, given, name.as_str()))
}

fn all_may_stand(expectation: &Expectation, ignored: &BTreeSet<&str>, given: &Members) -> bool
    requires { HasNames expectation.now.ignore ignored.now }
    ensures { IsTrue result ↔ OfEachName (MayStand expectation.now) given.now }
{
    given
        .iter()
        .all(|(name, _)| may_stand(expectation, ignored, name.as_str()))
}

/// Whether the tree expected under a name, if any, is there.
fn is_met(expected: &Members, given: &Members, name: &str) -> bool
    ensures { IsTrue result ↔ IsMet expected.now given.now name.now }
{
    match (expected.get(name), given.get(name)) {
        (Some(expected), Some(given)) => given.equals(expected),
        (Some(_), None) => false,
        (None, _) => true,
    }
}

/// Whether a parameter may stand under a name.
fn may_stand(expectation: &Expectation, ignored: &BTreeSet<&str>, name: &str) -> bool
    requires { HasNames expectation.now.ignore ignored.now }
    ensures { IsTrue result ↔ MayStand expectation.now name.now }
{
    expectation.parameters.get(name).is_some() || ignored.contains(name)
}
