//! Windows of time in documents.
ghost use Rattle.std.specs.Prelude.{codes};
ghost use Rattle.it_borrowed.specs.Tree.{as_data};
ghost use Rattle.it_base.specs.Document.{member_at};
ghost use Rattle.it_base.specs.Finds.{Finds};
ghost use Rattle.it_base.specs.Parts.{IsPart};
ghost use Rattle.it_base.specs.Table.{Stands};
ghost use Rattle.it_trust_root.specs.Time.{IsTime};
ghost use Rattle.it_trust_root.specs.Window.{IsWindow};

use crate::time::time_in;
use it_borrowed::document::member;
use it_log::Window;
use json::Value;

/// The window in the member `validFor`; `None` where it is missing or no window. Takes no memory.
pub(crate) fn window_of(value: &Value<'_>) -> Option<Window>
    ensures { Finds (IsPart IsWindow (codes "validFor") (as_data value.now)) result }
{
    window_in(member(value, "validFor")?)
}

fn window_in(value: &Value<'_>) -> Option<Window>
    ensures { Finds (IsWindow (as_data value.now)) result }
{
    let start = start_of(value)?;
    let end = end_of(value)?;
    Some(Window { start, end })
}

fn start_of(value: &Value<'_>) -> Option<i128>
    ensures { Finds (IsPart IsTime (codes "start") (as_data value.now)) result }
{
    time_in(member(value, "start")?)
}

/// The end, or that there is none; `None` where there is one that does not read.
fn end_of(value: &Value<'_>) -> Option<Option<i128>>
    ensures { Finds (Stands IsTime (member_at (codes "end") (as_data value.now))) result }
{
    let Some(found) = member(value, "end") else {
        return Some(None);
    };
    Some(Some(time_in(found)?))
}
