//! `itv` for other programs: each of its commands, over files in memory.
//!
//! `include/itv.h` declares for C what is exported here. Nothing is kept between two calls, and no
//! file, clock, environment or network is reached.
#![tactic(auto)]

ghost use Rattle.std.specs.Prelude.{◌≡◌, ◌≤◌, length};
ghost use Rattle.it_library.specs.Answer.{Answers, IsShown};
ghost use Rattle.it_library.specs.Version.{version_text};

mod handed;
mod run;
mod texts;
mod version;

use handed::Handed;
use run::answer;
use std::alloc::Global;
use version::VERSION;

/// How long the texts are that a run gives.
#[repr(C)]
pub struct Lengths {
    /// How many bytes the output has.
    pub output: usize,
    /// How many bytes the notes have.
    pub notes: usize,
}

/// Runs a command over files in memory, and returns the exit status that the program would have.
///
/// `words` are the words of the command, without the program's name, and `paths` the paths of the
/// files, each word and path ended by a zero byte. `sizes` are how many bytes each file has, in the
/// order of the paths, and `contents` these bytes, file after file.
///
/// The output and the notes are written to `output` and `notes` as far as they have room: what has
/// none is left out at the end. `lengths` tells how long each is with that.
#[unsafe(no_mangle)]
pub extern "C" fn itv_run(
    alloc: Global,
    words: &[u8],
    paths: &[u8],
    sizes: &[usize],
    contents: &[u8],
    output: &mut [u8],
    notes: &mut [u8],
    lengths: &mut Lengths,
) -> u8
    ensures answers { Answers words.now paths.now sizes.now contents.now output.old output.new
        lengths.new.output result }
    ensures noted { (text : _) × IsShown text notes.old notes.new
        × (lengths.new.notes ≡ length text) }
    ensures most { result ≤ 3 }
{
    let handed = Handed {
        words,
        paths,
        sizes,
        contents,
    };
    let ran = answer(alloc, &handed);
    lengths.output = fill(output, ran.output.as_slice());
    lengths.notes = fill(notes, ran.notes.as_slice());
    ran.status
}

/// The program with its version, as in `itv 1.1.0`: writes it to `output` as far as that has room,
/// and returns how many bytes it has.
#[unsafe(no_mangle)]
pub extern "C" fn itv_version(output: &mut [u8]) -> usize
    ensures shown { IsShown version_text output.old output.new }
    ensures told { result ≡ length version_text }
{
    fill(output, VERSION.as_bytes())
}

/// Copies as many of the bytes as there is room for, and tells how many there are.
fn fill(room: &mut [u8], bytes: &[u8]) -> usize
    ensures shown { IsShown bytes.now room.old room.new }
    ensures told { result ≡ length bytes.now }
{
    let count = room.len().min(bytes.len());
    room[..count].copy_from_slice(&bytes[..count]);
    bytes.len()
}
