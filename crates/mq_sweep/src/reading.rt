// The files that the arguments name.
ghost use Rattle.std.specs.Prelude.{◌≡◌, ◌≤◌, ℕ, [], ◌∷◌, length, map, take, IfOk, IfErr, IfSome, OnOk};
ghost use Rattle.mq_base.specs.Text.{texts};
ghost use Rattle.mq_outside.specs.Reading.{IsReadCount, ReadsNames, is_unread};
ghost use Rattle.mq_sweep.specs.Ends.{AreRead, AreShort, RefusesRead, RefusesReading, stage_reading};
ghost use Rattle.mq_sweep.specs.Sweep.{limit_of, refuses_words as refuses_words_of};

use crate::SweepOutcome;
use mq_base::{List, any_begins_with_dash};
use mq_outside::{FileFault, Files};
use std::alloc::Global;

// The most bytes in the text of a trace.
const TRACE_LIMIT: u64 = 134_217_728;

// The most bytes in the text of a model.
const MODEL_LIMIT: u64 = 65_536;

// The most arguments: a trace and 64 models.
const MOST_WORDS: usize = 65;

/// Returns whether the arguments are invalid: there aren't 2 to 65, or one begins with a dash.
pub fn refuses_words(words: &[&str]) -> bool
    ensures { result ≡ refuses_words_of (texts words.now) }
{
    words.len() < 2 || words.len() > MOST_WORDS || any_begins_with_dash(words)
}

// Reads the file that an argument names. Arguments count from 1.
fn read_one<F: Files>(
    alloc: Global,
    word: u32,
    name: &str,
    files: &mut F,
) -> Result<List<u8>, SweepOutcome>
    ensures reads { ReadsNames F.told F.is_sure F.reads F.faults files.old files.new (name.now ∷ []) (is_unread (stage_reading result)) }
    ensures read { IfOk result (λ bytes. IfSome (F.told files.old name.now) (λ told. (bytes ≡ told) × (length told ≤ limit_of word))) }
    ensures refused { IfErr result (λ outcome. RefusesRead word (F.told files.old name.now) outcome) }
{
    let limit = if word == 1 { TRACE_LIMIT } else { MODEL_LIMIT };
    let mut bytes = Vec::new(alloc);
    match files.read(name, limit, &mut bytes) {
        Ok(()) => Ok(List::from_vec(bytes)),
        Err(FileFault::Failed) => Err(SweepOutcome::ReadFault { word }),
        Err(FileFault::TooLong) => Err(SweepOutcome::TooLong { word }),
        Err(FileFault::Memory) => Err(SweepOutcome::Memory),
    }
}

/// Reads the files of all arguments, in order. The error is that of the first file that can't be read, is
/// too long or finds no memory.
pub fn read_files<F: Files>(
    alloc: Global,
    words: &[&str],
    files: &mut F,
) -> Result<List<List<u8>>, SweepOutcome>
    requires { length words.now ≤ 65 }
    ensures len { IfOk result (λ contents. length contents ≡ length words.now) }
    ensures read { IfOk result (λ contents. AreRead (length words.now) (map (F.told files.old) (texts words.now)) contents) }
    ensures short { OnOk result (AreShort (length words.now) (map (F.told files.old) (texts words.now))) }
    ensures refused { IfErr result (RefusesReading (length words.now) (map (F.told files.old) (texts words.now))) }
    ensures reads { (n : ℕ) × IsReadCount (stage_reading result) (length words.now) n × ReadsNames F.told F.is_sure F.reads F.faults files.old files.new (take n (texts words.now)) (is_unread (stage_reading result)) }
{
    let mut contents = List::new(alloc);
    'words: for (index, name) in words.iter().enumerate() {
        let bytes = match read_one(alloc, index as u32 + 1, name, files) {
            Ok(bytes) => bytes,
            Err(outcome) => return Err(outcome),
        };
        if contents.push(bytes).is_err() {
            return Err(SweepOutcome::Memory);
        }
    }
    Ok(contents)
}
