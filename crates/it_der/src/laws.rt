//! Laws about elements: functions that do nothing, and whose contracts say what is true of all
//! bytes and their elements.
ghost use Rattle.it_der.specs.Laws.{OneFirst, OneReading};

/// Bytes begin with an element in at most one way.
pub fn one_first()
    ensures { OneFirst }
{}

/// Bytes are elements, one after another, in at most one way.
pub fn one_reading()
    ensures { OneReading }
{}
