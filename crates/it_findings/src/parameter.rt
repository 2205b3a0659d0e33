//! Whether the texts of an artifact rule have parameters of in-toto.
ghost use Rattle.std.specs.Prelude.{◌≡◌, ◌↔◌, ◌⊎◌, IsTrue};
ghost use Rattle.std.specs.Str.{byte};
ghost use Rattle.it_findings.specs.Parameters.{BeginsName, EndsName, HasParameter};
ghost use Rattle.it_findings.specs.Parameters.{IsNameByte, NamesParameter};

use it_docs::rule::Rule;

/// Whether the pattern or the path of a rule, or a prefix of `MATCH`, has a parameter of in-toto: a
/// name in braces, of letters, digits, `_` and `-`. Takes no memory.
pub(crate) fn names_parameter(rule: &Rule) -> bool
    ensures { IsTrue result ↔ NamesParameter rule.now }
{
    match rule {
        Rule::Match {
            pattern,
            source_prefix,
            target_prefix,
            ..
        } => has_parameters(
            pattern.text(),
            source_prefix.as_str(),
            target_prefix.as_str(),
        ),
        Rule::Create(pattern) => has_parameter(pattern.text()),
        Rule::Delete(pattern) => has_parameter(pattern.text()),
        Rule::Modify(pattern) => has_parameter(pattern.text()),
        Rule::Allow(pattern) => has_parameter(pattern.text()),
        Rule::Disallow(pattern) => has_parameter(pattern.text()),
        Rule::Require(path) => has_parameter(path.as_str()),
    }
}

/// Whether one of the texts of `MATCH` has a parameter.
fn has_parameters(pattern: &str, source: &str, target: &str) -> bool
    ensures { IsTrue result
        ↔ (HasParameter pattern.now ⊎ HasParameter source.now ⊎ HasParameter target.now) }
{
    has_parameter(pattern) || has_parameter(source) || has_parameter(target)
}

fn has_parameter(text: &str) -> bool
    ensures { IsTrue result ↔ HasParameter text.now }
{
    let mut rest = text.as_bytes();
    while let Some((first, after)) = rest.split_first() {
        if begins_parameter(*first, after) {
            return true;
        }
        rest = after;
    }
    false
}

/// Whether a byte and the text after it begin with a parameter.
fn begins_parameter(first: u8, after: &[u8]) -> bool
    ensures { IsTrue result ↔ ((first ≡ byte "{") × BeginsName after.now) }
{
    first == b'{' && begins_name(after)
}

/// Whether the text begins with a name of at least one byte, and the brace behind it.
fn begins_name(text: &[u8]) -> bool
    ensures { IsTrue result ↔ BeginsName text.now }
{
    match text.split_first() {
        Some((first, after)) => is_name_byte(*first) && ends_name(after),
        None => false,
    }
}

/// Whether the text goes on with a name, which may have ended, and the brace behind it.
fn ends_name(text: &[u8]) -> bool
    ensures { IsTrue result ↔ EndsName text.now }
{
    let mut rest = text;
    while let Some((first, after)) = rest.split_first() {
        if *first == b'}' {
            return true;
        }
        if !is_name_byte(*first) {
            return false;
        }
        rest = after;
    }
    false
}

fn is_name_byte(byte: u8) -> bool
    ensures { IsTrue result ↔ IsNameByte byte }
{
    byte.is_ascii_alphanumeric() || byte == b'_' || byte == b'-'
}
