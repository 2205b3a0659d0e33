//! What came of the rows that were tried.
ghost use Rattle.std.specs.Prelude.{◌≡◌, ◌↔◌, All, IsTrue, count_by};
ghost use Rattle.it_tables.specs.Outcome.{agrees as is_agreement};

use std::io;
use std::io::Write;

/// What came of a row.
#[derive(Drop)]
pub(crate) enum Outcome {
    /// The answer is the one that is wanted.
    Agrees,
    /// It is not; a line for people gives the place of the row and both answers.
    Differs(String),
}

impl Outcome {
    fn agrees(&self) -> bool
        ensures { result ≡ is_agreement self.now }
    {
        matches!(self, Outcome::Agrees)
    }
}

/// How many agree.
fn agreed_count(outcomes: &[Outcome]) -> usize
    ensures { result ≡ count_by is_agreement outcomes.now }
{
    outcomes.iter().filter(|outcome| outcome.agrees()).count()
}

/// Whether all agree.
pub(crate) fn all_agree(outcomes: &[Outcome]) -> bool
    ensures { IsTrue result ↔ All (λ outcome. IsTrue (is_agreement outcome)) outcomes.now }
{
    outcomes.iter().all(|outcome| outcome.agrees())
}

/// Writes a line for each row that does not agree, and how many do.
pub(crate) fn write_summary<W: Write>(out: &mut W, outcomes: &[Outcome]) -> io::Result<()> {
    for outcome in outcomes {
        if let Outcome::Differs(line) = outcome {
            writeln!(out, "{}", line.as_str())?;
        }
    }
    let agreed = agreed_count(outcomes);
    let count = outcomes.len();
    writeln!(out, "{agreed} of {count} agree")
}
