//! Notes on a list of artifact rules.

use it_base::text::Text;

/// Something about a list of artifact rules that may not be what its author meant. Places count
/// from 0.
#[derive(Drop)]
pub enum RuleListNote {
    /// A `MATCH` rule takes from a name that no step and no inspection of the layout has.
    MatchFromNoStep {
        /// The rule's place in the list.
        rule: usize,
        /// The name.
        name: Text,
    },
    /// The list ends with a rule that is not a `DISALLOW`.
    NoDisallowAtEnd,
}
