//! A step, with its layout and bundle.
use it_chain::bundle::Bundle;
use it_docs::layout::Layout;
use it_docs::step::Step;

/// A step of a layout over a bundle.
#[derive(Drop)]
pub(crate) struct StepAt<'a> {
    /// The layout.
    pub layout: &'a Layout,
    /// The files and folders that the layout is checked against.
    pub bundle: &'a Bundle,
    /// The step.
    pub step: &'a Step,
}
