//! A layout with the names that `MATCH` rules may take from.
ghost use Rattle.std.specs.FinMap as finite;
ghost use Rattle.std.specs.Prelude.{◌≡◌, All, IfOk, OnOk};
ghost use Rattle.it_member_notes.specs.inside.NamedLayout.{AreNamesOf, HasName, HasNamesOf};

use it_base::table::Table;
use it_base::text::Text;
use it_docs::layout::Layout;
use it_docs::step::{Inspection, Step};
use std::alloc::{AllocError, Global};

/// A layout, with the names of its steps and of its inspections in order, so that a name is found
/// without comparing it with all of them.
#[derive(Drop)]
pub(crate) struct NamedLayout<'l> {
    /// The layout.
    pub layout: &'l Layout,
    /// The names.
    pub names: Table<()>,
}

impl<'l> NamedLayout<'l> {
    /// The layout, with its names.
    pub fn of(alloc: Global, layout: &'l Layout) -> Result<NamedLayout<'l>, AllocError>
        ensures layout { IfOk result (λ named. named.layout.now ≡ layout.now) }
        ensures names { IfOk result (λ named. AreNamesOf layout.now named.names) }
    {
        let mut names = Table::new(alloc);
        add_steps(alloc, layout.steps.as_slice(), &mut names)?;
        add_inspections(alloc, layout.inspections.as_slice(), &mut names)?;
        Ok(NamedLayout { layout, names })
    }
}

fn add_steps(alloc: Global, steps: &[Step], names: &mut Table<()>) -> Result<(), AllocError>
    ensures { OnOk result (All (λ step. HasName names.new step.name) steps.now) }
{
    for step in steps {
        add(alloc, &step.name, names)?;
    }
    Ok(())
}

fn add_inspections(
    alloc: Global,
    inspections: &[Inspection],
    names: &mut Table<()>,
) -> Result<(), AllocError>
    ensures all { OnOk result
        (All (λ inspection. HasName names.new inspection.name) inspections.now) }
    ensures kept { OnOk result (HasNamesOf names.old names.new) }
{
    for inspection in inspections {
        add(alloc, &inspection.name, names)?;
    }
    Ok(())
}

fn add(alloc: Global, name: &Text, names: &mut Table<()>) -> Result<(), AllocError>
    ensures has { OnOk result (HasName names.new name.now) }
    ensures kept { OnOk result (HasNamesOf names.old names.new) }
{
    names.insert(String::from_str(alloc, name.as_str())?, ())?;
    Ok(())
}
