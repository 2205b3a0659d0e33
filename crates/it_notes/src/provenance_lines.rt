//! The lines on provenance, expectations and records that are not there.
ghost use Rattle.it_prov_notes.specs.ProvenanceLines.{patterns_line};
ghost use Rattle.it_notes.specs.NoteLines.{empty_provenance_line, laid_out_line, record_line};

use crate::lines::Line;
use crate::record_note::{RecordNote, push_words};
use it_prov_notes::patterns::PatternsNote;
use std::alloc::AllocError;

/// That the provenance is one envelope over several lines.
#[derive(Drop)]
pub(crate) struct LaidOut;

/// What is said of it.
const LAID_OUT: &str =
    "provenance: one envelope over several lines, where each line is to be one\n";

impl Line for LaidOut {
    ghost line = { λ note. laid_out_line };

    fn push_line(&self, text: &mut Vec<u8>) -> Result<(), AllocError> {
        push_words(text, LAID_OUT)
    }
}

/// That the provenance is empty.
#[derive(Drop)]
pub(crate) struct EmptyProvenance;

impl Line for EmptyProvenance {
    ghost line = { λ note. empty_provenance_line };

    fn push_line(&self, text: &mut Vec<u8>) -> Result<(), AllocError> {
        push_words(text, "no provenance was given\n")
    }
}

impl Line for PatternsNote {
    ghost line = { patterns_line };

    fn push_line(&self, text: &mut Vec<u8>) -> Result<(), AllocError> {
        PatternsNote::push_line(self, text)
    }
}

impl Line for RecordNote {
    ghost line = { record_line };

    fn push_line(&self, text: &mut Vec<u8>) -> Result<(), AllocError> {
        RecordNote::push_line(self, text)
    }
}
