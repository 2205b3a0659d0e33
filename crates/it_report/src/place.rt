//! Which layout a refusal, or something that is found, is about.
ghost use Rattle.std.specs.Prelude.{◌≡◌, ◌++◌, OnOk, codes};
ghost use Rattle.std.specs.List.{flat_map};
ghost use Rattle.it_report.specs.Report.{line, pair_form, place_form};

use crate::name::push_inner_name;
use it_base::text::Text;
use std::alloc::AllocError;

/// Appends the line of a report that says which layout a refusal is about.
pub(super) fn push_place_line(text: &mut Vec<u8>, at: &[(Text, Text)]) -> Result<(), AllocError>
    ensures { OnOk result (text.new.items
        ≡ text.old.items ++ line (codes "at") (place_form at.now)) }
{
    text.extend_from_slice(b"at ")?;
    push_place(text, at)?;
    text.push(b'\n')?;
    Ok(())
}

/// Appends the sublayouts down to a layout, outermost first: of each the step and the key id, as
/// `push_name` writes names, but with `/` as `\x2f`, and a `/` between all of these. The outermost
/// layout is `-`.
///
/// # Errors
///
/// `AllocError` where memory was refused; a part of the form may have been appended then.
pub fn push_place(text: &mut Vec<u8>, at: &[(Text, Text)]) -> Result<(), AllocError>
    ensures { OnOk result (text.new.items ≡ text.old.items ++ place_form at.now) }
{
    let Some((first, rest)) = at.split_first() else {
        text.push(b'-')?;
        return Ok(());
    };
    push_pair(text, first)?;
    push_further_pairs(text, rest)
}

fn push_further_pairs(text: &mut Vec<u8>, pairs: &[(Text, Text)]) -> Result<(), AllocError>
    ensures { OnOk result (text.new.items
        ≡ text.old.items ++ flat_map (λ further. codes "/" ++ pair_form further) pairs.now) }
{
    for pair in pairs {
        text.push(b'/')?;
        push_pair(text, pair)?;
    }
    Ok(())
}

fn push_pair(text: &mut Vec<u8>, pair: &(Text, Text)) -> Result<(), AllocError>
    ensures { OnOk result (text.new.items ≡ text.old.items ++ pair_form pair.now) }
{
    push_inner_name(text, pair.0.as_str().as_bytes())?;
    text.push(b'/')?;
    push_inner_name(text, pair.1.as_str().as_bytes())
}
