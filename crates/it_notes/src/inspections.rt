//! Why an inspection has no record that counts.
ghost use Rattle.std.specs.Prelude.{◌≡◌, Contains, IfOk, IfSome, map, take};
ghost use Rattle.it_dsse.specs.Panel.{Panel};
ghost use Rattle.it_report.specs.declared.refusal.Fault.TheVariants.{BadRecord, RecordMissing};
ghost use Rattle.it_notes.specs.RefusalNotes.{TellsInputs};

use crate::notes::RefusalNotes;
use crate::record_note::{RecordFlaw, RecordNote};
use it_base::sequence::Sequence;
use it_base::text::Text;
use it_chain::envelope_in;
use it_verify::inputs::Inputs;
use std::alloc::{AllocError, Global};

/// How many names of records are given.
const MOST_NAMES: usize = 10;

/// Which records were given, where that of an inspection is missing.
pub(crate) fn missing_told(
    alloc: Global,
    inputs: &Inputs,
    name: &str,
) -> Result<RefusalNotes, AllocError>
    ensures { IfOk result (λ told. (panel : Panel)
        → TellsInputs panel inputs.now (RecordMissing name.now) told) }
{
    let records = inputs.records.as_slice();
    let name = Text::copy(alloc, name)?;
    if records.is_empty() {
        let flaw = RecordFlaw::NoRecords;
        return Ok(RefusalNotes::Record(RecordNote { name, flaw }));
    }
    let flaw = RecordFlaw::OtherNames {
        names: Sequence::from(names_of(alloc, front_of(records))?),
        others: records.len() > MOST_NAMES,
    };
    Ok(RefusalNotes::Record(RecordNote { name, flaw }))
}

/// The records whose names are given.
fn front_of(records: &[(Text, Sequence<u8>)]) -> &[(Text, Sequence<u8>)]
    ensures { result.now ≡ take 10 records.now }
{
    if records.len() <= MOST_NAMES {
        return records;
    }
    &records[..MOST_NAMES]
}

/// The names of records.
fn names_of(alloc: Global, records: &[(Text, Sequence<u8>)]) -> Result<Vec<Text>, AllocError>
    ensures { IfOk result (λ names. names.items ≡ map (λ given. given.0) records.now) }
{
    let mut names = Vec::new(alloc);
    for given in records {
        names.push(Text::copy(alloc, given.0.as_str())?)?;
    }
    Ok(names)
}

/// Whether the record of an inspection, which is no link of its name, is an envelope.
pub(crate) fn bad_told(
    alloc: Global,
    inputs: &Inputs,
    name: &str,
) -> Result<RefusalNotes, AllocError>
    ensures { IfOk result (λ told. (panel : Panel)
        → TellsInputs panel inputs.now (BadRecord name.now) told) }
{
    let Some(given) = record_named(inputs.records.as_slice(), name) else {
        return Ok(RefusalNotes::Nothing);
    };
    let Some(_) = envelope_in(alloc, given.1.as_slice())? else {
        return Ok(RefusalNotes::Nothing);
    };
    let name = Text::copy(alloc, name)?;
    let flaw = RecordFlaw::InEnvelope;
    Ok(RefusalNotes::Record(RecordNote { name, flaw }))
}

/// The first record of this name.
fn record_named<'a>(
    records: &'a [(Text, Sequence<u8>)],
    name: &str,
) -> Option<&'a (Text, Sequence<u8>)>
    ensures { IfSome result
        (λ found. Contains records.now found.now × (found.now.0 ≡ name.now)) }
{
    for given in records {
        if given.0.as_str() == name {
            return Some(given);
        }
    }
    None
}
