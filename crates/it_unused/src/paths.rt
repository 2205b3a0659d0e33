//! Whether an expectation speaks of one of some paths.
ghost use Rattle.std.specs.Prelude.{◌↔◌, Any, IsTrue};
ghost use Rattle.it_glob.specs.Pattern.{Matches, items_of};
ghost use Rattle.it_prov.specs.Fits.{SpeaksOf};
ghost use Rattle.it_rules.specs.Paths.{ArePaths};

use it_docs::policy::Expectation;
use it_glob::Pattern;
use it_rules::ranges::front_range;

/// Whether the expectation speaks of one of the paths.
pub(crate) fn speaks_of_some(expectation: &Expectation, paths: &[&str]) -> bool
    requires { ArePaths paths.now }
    ensures { IsTrue result ↔ Any (λ path. SpeaksOf path.now expectation.now) paths.now }
{
    let (start, end) = front_range(paths, expectation.files.literal_front());
    matches_some(&expectation.files, &paths[start..end])
}

fn matches_some(pattern: &Pattern, paths: &[&str]) -> bool
    ensures { IsTrue result ↔ Any (λ path. Matches (items_of pattern.now) path.now) paths.now }
{
    paths.iter().any(|path| pattern.matches(path))
}
