//! Maps from texts to values, which contracts see as finite maps.
ghost use Rattle.std.specs.Prelude.{◌≡◌, ◌↔◌, IsTrue, IfOk, OnOk, OnErr, MatchOption, None, Some};
ghost use Rattle.std.specs.Prelude.{option_map, string_bytes};
ghost use Rattle.std.specs.BTreeMap.{IsFromIterResult};
ghost use Rattle.std.specs.FinMap as finite;
ghost use Rattle.std.specs.List.Sorted.{IsStrictlySortedBy};
ghost use Rattle.std.specs.Map.{keys_of};
ghost use Rattle.std.specs.String.{string_cmp};
ghost use Rattle.serde_json.specs.View.{view, members_view};
ghost use Rattle.it_base.specs.Finds.{Finds};
ghost use Rattle.it_base.specs.Table.{AreMembers, IsTable, named_entries};

use crate::parts::FromDocument;
use serde_json::{Map, Value};
use std::alloc::{AllocError, Global};
use std::collections::BTreeMap;
use std::collections::btree_map::Iter;
use std::marker::Model;

/// A map from text to value. Texts are compared by their bytes.
#[derive(Drop)]
pub struct Table<V> {
    by_name: BTreeMap<String, V>,
}

impl<V> Model for Table<V> {
    ghost use Rattle.std.specs.Prelude.{map};
    ghost use Rattle.std.specs.List.Sorted.{IsStrictlySortedBy};
    ghost use Rattle.std.specs.Coded.{coded_ℕ, coded_list};
    ghost use Rattle.std.specs.String.{string_cmp};
    ghost use Rattle.std.specs.FinMap as finite;
    ghost use Rattle.it_base.specs.Table.{Named, named_entries};

    ghost Value = { Named V };

    ghost coded = { finite.code (coded_list coded_ℕ) V.code };

    ghost view = { λ t. finite.from_entries (named_entries t.by_name.entries) };

    ghost invariant = { λ t. IsStrictlySortedBy string_cmp (map (λ e. e.0) t.by_name.entries) };
}

impl<V> From<BTreeMap<String, V>> for Table<V> {
    ghost from_gives = { λ m t. t ≡ finite.from_entries (named_entries m.entries) };

    /// The map, unchanged. Takes no memory.
    fn from(by_name: BTreeMap<String, V>) -> Table<V> {
        // The contract of `len` says that the names are in order.
        let _len = by_name.len();
        Table { by_name }
    }
}

impl<V> Table<V> {
    /// The empty map. It takes no memory; `alloc` is kept for later calls of `insert`.
    pub fn new(alloc: Global) -> Table<V>
        ensures { result ≡ finite.empty }
    {
        Table {
            by_name: BTreeMap::new(alloc),
        }
    }

    /// Lends the map, whose names are in the order of their bytes. Takes no memory.
    pub fn as_map(&self) -> &BTreeMap<String, V>
        ensures is { finite.from_entries (named_entries result.now.entries) ≡ self.now }
        ensures ordered { IsStrictlySortedBy string_cmp (keys_of result.now.entries) }
    {
        &self.by_name
    }

    /// The value of a name, if the map has the name. Takes no memory.
    pub fn get(&self, name: &str) -> Option<&V>
        ensures { option_map (λ v. v.now) result ≡ finite.get self.now name.now }
    {
        self.by_name.get(name)
    }

    /// The names with their values, each name once, in the order of their bytes. Takes no memory.
    pub fn iter(&self) -> Iter<'_, String, V>
        ensures { named_entries result ≡ finite.entries self.now }
    {
        self.by_name.iter()
    }

    /// Whether the map is empty. Takes no memory.
    pub fn is_empty(&self) -> bool
        ensures { IsTrue result ↔ (self.now ≡ finite.empty) }
    {
        self.by_name.is_empty()
    }
}

impl<V: Drop> Table<V> {
    /// Sets the value of a name, and returns the value that it had before, if any.
    ///
    /// # Errors
    ///
    /// `AllocError` where memory is refused; the map is then as it was.
    pub fn insert(&mut self, name: String, value: V) -> Result<Option<V>, AllocError>
        ensures old { IfOk result (λ before. before ≡ finite.get self.old (string_bytes name)) }
        ensures ok { OnOk result (self.new ≡ finite.insert self.old (string_bytes name) value) }
        ensures err { OnErr result (self.new ≡ self.old) }
    {
        let before = self.by_name.insert(name, value)?;
        Ok(before)
    }
}

impl<V: FromDocument> FromDocument for Table<V> {
    ghost is_of = { IsTable V.is_of };

    /// The values of a JSON object's members, where the part is an object and each member is such a
    /// value. A member whose value is null counts as missing.
    fn from_document(alloc: Global, value: &Value) -> Result<Option<Table<V>>, AllocError> {
        match value.as_object() {
            None => Ok(None),
            Some(members) => read_members(alloc, members),
        }
    }
}

/// Reads the members one by one, and builds the map from all of them at once, since their names are
/// already in order.
fn read_members<V: FromDocument>(
    alloc: Global,
    members: &Map<String, Value>,
) -> Result<Option<Table<V>>, AllocError>
    ensures { IfOk result (Finds (AreMembers V.is_of (members_view members.now.entries))) }
{
    let mut named = Vec::new(alloc);
    for (name, member) in members.iter() {
        if member.is_null() {
            continue;
        }
        let Some(value) = V::from_document(alloc, member)? else {
            return Ok(None);
        };
        named.push((name.clone()?, value))?;
    }
    Ok(Some(Table::from(map_of(alloc, named)?)))
}

/// The map from these names to their values.
fn map_of<V: Drop>(
    alloc: Global,
    named: Vec<(String, V)>,
) -> Result<BTreeMap<String, V>, AllocError>
    ensures { IfOk result (IsFromIterResult string_cmp named.items) }
{
    named.into_iter().collect(alloc)
}
