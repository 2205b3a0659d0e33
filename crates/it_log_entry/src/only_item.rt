//! Lists of one item.
ghost use Rattle.std.specs.Prelude.{◌≡◌, [], ◌∷◌};
ghost use Rattle.json.specs.Value.{items_view};
ghost use Rattle.it_borrowed.specs.Tree.{as_data, data_of_items};
ghost use Rattle.it_base.specs.Finds.{FindsAs};
ghost use Rattle.it_base.specs.Sequence.{AreEach, IsList};
ghost use Rattle.it_log_entry.specs.OnlyItem.{IsOnlyItem};

use it_borrowed::document::member;
use it_borrowed::items::items_of;
use json::Value;

/// The item of the list in the member of this name, where it has one item alone.
pub(crate) fn only_item<'v, 't>(value: &'v Value<'t>, name: &str) -> Option<&'v Value<'t>>
    ensures { FindsAs (λ item. as_data item.now) (IsOnlyItem name.now (as_data value.now)) result }
{
    only_in(member(value, name)?)
}

fn only_in<'v, 't>(value: &'v Value<'t>) -> Option<&'v Value<'t>>
    ensures { FindsAs (λ item. as_data item.now)
        (λ only. IsList (λ item x. item ≡ x) (as_data value.now) (only ∷ [])) result }
{
    only_of(items_of(value)?)
}

fn only_of<'v, 't>(items: &'v Vec<Value<'t>>) -> Option<&'v Value<'t>>
    ensures { FindsAs (λ item. as_data item.now)
        (λ only. AreEach (λ item x. item ≡ x) (data_of_items (items_view items.now.items))
        (only ∷ [])) result }
{
    if items.len() != 1 {
        return None;
    }
    items.first()
}
