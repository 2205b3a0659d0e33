//! Labels of PEM texts.
ghost use Rattle.std.specs.Prelude.{◌≡◌, ℕ, List, ◌++◌, codes};
ghost use Rattle.it_base.specs.Finds.{FindsAs};
ghost use Rattle.it_pem.specs.Label.{HasLabel, begin_line};

/// The label in the first line of a text, such as `CERTIFICATE` in `-----BEGIN CERTIFICATE-----`
/// (RFC 7468, section 2), or `None` where that line has none. The lines after it are not looked at.
/// Takes no memory.
pub fn label_of(text: &str) -> Option<&str>
    ensures { FindsAs (λ label. label.now) (HasLabel text.now) result }
{
    match text.lines().next() {
        Some(line) => label_in(line),
        None => None,
    }
}

/// The label that a line names.
fn label_in(line: &str) -> Option<&str>
    ensures { FindsAs (λ label. label.now) (λ label. line.now ≡ begin_line label) result }
{
    let rest = line.strip_prefix("-----BEGIN ")?;
    rest.strip_suffix("-----")
}
