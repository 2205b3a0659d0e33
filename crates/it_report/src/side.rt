//! How a report writes a side of a step.
ghost use Rattle.std.specs.Prelude.{◌≡◌};
ghost use Rattle.it_report.specs.Report.{side_form};

use it_docs::rule::Side;

/// The word of a report for a side. Takes no memory.
pub fn side_text(side: Side) -> &'static str
    ensures { result.now ≡ side_form side }
{
    match side {
        Side::Materials => "materials",
        Side::Products => "products",
    }
}
