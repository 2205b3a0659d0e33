//! Where sublayouts are looked for.
use it_base::text::Text;
use it_chain::bundle::Bundle;
use it_chain::held_file::HeldFile;
use it_docs::layout::Layout;
use it_docs::step::Step;

/// A layout over a bundle.
#[derive(Drop)]
pub struct Level<'a> {
    /// The sublayouts down to this layout, the outermost first, each by the name of its step and
    /// the key id that signed it. Empty for the outermost layout.
    pub at: &'a [(Text, Text)],
    /// The layout.
    pub layout: &'a Layout,
    /// The files and folders that it is checked against: for a sublayout those of its folder.
    pub links: &'a Bundle,
    /// The moment of the verification, in seconds from 1970-01-01T00:00:00Z.
    pub moment: i64,
    /// How deep sublayouts may be nested in it.
    pub depth: u8,
}

/// A step of a layout over a bundle.
#[derive(Drop)]
pub(crate) struct StepAt<'l, 'f, 'a> {
    /// The layout over its bundle.
    pub level: &'l Level<'a>,
    /// Those files of the bundle that are layouts.
    pub files: &'f [&'a HeldFile],
    /// The step.
    pub step: &'a Step,
}
