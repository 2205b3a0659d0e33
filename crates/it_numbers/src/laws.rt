//! Laws about numbers and their bytes: functions that do nothing, and whose contracts say what is
//! true of every number and all bytes.
ghost use Rattle.it_numbers.specs.Laws.{LittleOfBytes, BytesOfLittle, BigOfBytes, BytesOfBig};

/// A number below 256 ^ `count` is the number of its `count` lowest bytes, lowest first.
pub fn little_of_bytes()
    ensures { LittleOfBytes }
{}

/// Bytes are those of the number that they encode, lowest first.
pub fn bytes_of_little()
    ensures { BytesOfLittle }
{}

/// A number below 256 ^ `count` is the number of its `count` lowest bytes, highest first.
pub fn big_of_bytes()
    ensures { BigOfBytes }
{}

/// Bytes are those of the number that they encode, highest first.
pub fn bytes_of_big()
    ensures { BytesOfBig }
{}
