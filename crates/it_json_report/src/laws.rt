//! Laws about reports as JSON: functions that do nothing, and whose contracts say what is true of
//! every verdict.
ghost use Rattle.it_json_report.specs.JsonLaws.{JsonFirst, JsonIsLine, JsonNamesDiffer, JsonTells};

/// Equal reports as JSON have equal verdicts: whoever reads one knows the whole verdict.
pub fn json_tells()
    ensures { JsonTells }
{}

/// The first member of the object, `verdict`, says by its value alone whether the verdict accepts.
pub fn json_first()
    ensures { JsonFirst }
{}

/// The JSON of a verdict is one line: it has no byte below 0x20 but the line feed at its end.
pub fn json_is_line()
    ensures { JsonIsLine }
{}

/// No two members of the object have the same name (RFC 8259, section 4).
pub fn json_names_differ()
    ensures { JsonNamesDiffer }
{}
