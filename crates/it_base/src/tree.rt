//! Trees of parameters (SLSA Provenance v1, `externalParameters`; a policy's `parameters`).
ghost use Rattle.std.specs.Prelude.{◌≡◌, option_map};
ghost use Rattle.it_base.specs.Equal.{equal, equal_fields, equal_items};
ghost use Rattle.it_base.specs.Json.{no_fields};
ghost use Rattle.it_base.specs.JsonView.{fields_view, items_view, json_of};
ghost use Rattle.it_base.specs.TreeOf.{field_at};

use crate::text::Text;
use std::alloc::Global;
use std::collections::BTreeMap;
use std::collections::btree_map::Iter;
use std::marker::Model;

/// A JSON value, in the form in which parameters are compared.
#[cycle(tree)]
#[derive(Drop)]
pub enum Tree {
    /// `null`, which is a value here.
    Null,
    /// `true` or `false`.
    Flag(bool),
    /// A whole number that fits 64 bits, unsigned or signed.
    Whole(i128),
    /// A text.
    Text(Text),
    /// A list.
    Items(Trees),
    /// An object.
    Members(Members),
    /// Any other number, such as `1.0`. It equals nothing, not even itself.
    Other,
}

/// Trees in order. A contract sees the list of them.
#[cycle(tree)]
#[derive(Drop)]
pub struct Trees {
    list: Vec<Tree>,
}

/// Trees under names. A contract sees the names with their trees, in the order of the names' bytes.
#[cycle(tree)]
#[derive(Drop)]
pub struct Members {
    by_name: BTreeMap<String, Tree>,
}

impl Model for Trees {
    ghost use Rattle.it_base.specs.Json.{Items};
    ghost use Rattle.it_base.specs.JsonCode.{items_code};

    ghost Value = { Items };

    ghost coded = { items_code };

    ghost use Rattle.it_base.specs.JsonView.{items_view};
    ghost use Rattle.it_base.specs.Json.{items_size};

    ghost view = { λ a. items_view a.list.items };

    ghost size = { items_size };

    ghost use Rattle.std.proofs.Common.{arith};
    ghost use Rattle.it_base.specs.JsonFalls.{most-le-items_size};

    ghost size_decreases = { λ a h. omega (arith, most-le-items_size a.list.items) };
}

impl Model for Members {
    ghost use Rattle.it_base.specs.Json.{Fields};
    ghost use Rattle.it_base.specs.JsonCode.{fields_code};

    ghost Value = { Fields };

    ghost coded = { fields_code };

    ghost use Rattle.it_base.specs.JsonView.{fields_view};
    ghost use Rattle.it_base.specs.Json.{fields_size};

    ghost view = { λ a. fields_view a.by_name.entries };

    ghost size = { fields_size };

    ghost use Rattle.std.proofs.Common.{arith};
    ghost use Rattle.it_base.specs.JsonFalls.{most-le-fields_size};

    ghost size_decreases = { λ a h. omega (arith, most-le-fields_size a.by_name.entries) };
}

impl Tree {
    /// Whether the trees are equal part by part; `Other` equals nothing, not even itself. Takes no
    /// memory.
    #[cycle(equals)]
    pub fn equals(&self, other: &Tree) -> bool
        ensures { result ≡ equal (json_of self.now) (json_of other.now) }
    {
        match self {
            Tree::Null => matches!(other, Tree::Null),
            Tree::Flag(a) => match other {
                Tree::Flag(b) => *a == *b,
                _ => false,
            },
            Tree::Whole(a) => match other {
                Tree::Whole(b) => *a == *b,
                _ => false,
            },
            Tree::Text(a) => match other {
                Tree::Text(b) => a.as_str() == b.as_str(),
                _ => false,
            },
            Tree::Items(a) => match other {
                Tree::Items(b) => a.equals(b),
                _ => false,
            },
            Tree::Members(a) => match other {
                Tree::Members(b) => a.equals(b),
                _ => false,
            },
            Tree::Other => false,
        }
    }
}

impl From<Vec<Tree>> for Trees {
    ghost from_gives = { λ v ts. ts ≡ items_view v.items };

    /// The trees of a vector. Takes no memory.
    fn from(list: Vec<Tree>) -> Trees {
        Trees { list }
    }
}

impl From<BTreeMap<String, Tree>> for Members {
    ghost from_gives = { λ m ms. ms ≡ fields_view m.entries };

    /// The map, unchanged. Takes no memory.
    fn from(by_name: BTreeMap<String, Tree>) -> Members {
        Members { by_name }
    }
}

impl Trees {
    /// Lends the trees. Takes no memory.
    pub fn as_slice(&self) -> &[Tree]
        ensures { items_view result.now ≡ self.now }
    {
        self.list.as_slice()
    }

    #[cycle(equals)]
    fn equals(&self, other: &Trees) -> bool
        ensures { result ≡ equal_items self.now other.now }
    {
        if self.list.len() != other.list.len() {
            return false;
        }
        for (x, y) in self.list.iter().zip(&other.list) {
            if !x.equals(y) {
                return false;
            }
        }
        true
    }
}

impl Members {
    /// No trees. Takes no memory.
    pub fn new(alloc: Global) -> Members
        ensures { result ≡ no_fields }
    {
        Members {
            by_name: BTreeMap::new(alloc),
        }
    }

    /// Lends the map. Takes no memory.
    pub fn as_map(&self) -> &BTreeMap<String, Tree>
        ensures { fields_view result.now.entries ≡ self.now }
    {
        &self.by_name
    }

    /// The tree of a name, if there is one. Takes no memory.
    pub fn get(&self, name: &str) -> Option<&Tree>
        ensures { option_map (λ t. json_of t.now) result ≡ field_at name.now self.now }
    {
        self.by_name.get(name)
    }

    /// The names with their trees, each name once, in the order of their bytes. Takes no memory.
    pub fn iter(&self) -> Iter<'_, String, Tree>
        ensures { fields_view result ≡ self.now }
    {
        self.by_name.iter()
    }

    #[cycle(equals)]
    fn equals(&self, other: &Members) -> bool
        ensures { result ≡ equal_fields self.now other.now }
    {
        if self.by_name.len() != other.by_name.len() {
            return false;
        }
        for ((k, x), (l, y)) in self.by_name.iter().zip(&other.by_name) {
            if k.as_str() != l.as_str() || !x.equals(y) {
                return false;
            }
        }
        true
    }
}
