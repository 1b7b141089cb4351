// The text of a sweep, from the entries of a book.
ghost use Rattle.std.specs.Prelude.{◌≡◌, ◌==◌, ◌&&◌, ◌+◌, ◌-◌, ◌^◌, ◌<◌, ◌++◌, All, Contains, length, IfOk, IfSome, OnOk};
ghost use Rattle.mq_sweep.specs.Book.{IsEntryOf};
ghost use Rattle.mq_sweep.specs.Scenario.{scenario_status};
ghost use Rattle.mq_sweep.specs.Sweep.{all_done, headed, scenario_lines, sweep_text};

use crate::scenario::run_scenario;
use crate::{Book, Entry};
use itoa::Buffer;
use mq_base::{List, OutOfMemory};
use std::alloc::Global;
use std::thread::Threads;

/// What a sweep writes, and whether the status of each run is 0.
#[derive(Drop)]
pub struct Scenarios {
    pub text: Vec<u8>,
    pub done: bool,
}

// Returns the entries of a book of this trace, or none if the book is of another trace.
fn entries_of<'b>(book: &'b Book, trace: &[u8]) -> &'b [Entry]
    ensures { All (IsEntryOf trace.now) result.now }
{
    if book.trace() != trace {
        return &[];
    }
    book.entries().as_slice()
}

// Returns an entry with this number and this model, if there is one.
fn find_entry<'b>(entries: &'b [Entry], number: u32, model: &[u8]) -> Option<&'b Entry>
    ensures there { IfSome result (λ entry. Contains entries.now entry.now) }
    ensures model { IfSome result (λ entry. entry.now.model ≡ model.now) }
{
    'entries: for entry in entries {
        if entry.number == number && entry.model.as_slice() == model {
            return Some(entry);
        }
    }
    None
}

// Adds the lines of a scenario: its first line, and what its run wrote.
fn add_lines(number: u32, status: u8, wrote: &[u8], text: &mut Vec<u8>) -> Result<(), OutOfMemory>
    requires { number + 1 < 2 ^ 32 }
    ensures { OnOk result (text.new.items ≡ text.old.items ++ headed number status wrote.now) }
{
    let mut digits = Buffer::new();
    text.extend_from_slice(b"scenario ")?;
    text.extend_from_slice(digits.format(number + 1).as_bytes())?;
    text.extend_from_slice(b" status ")?;
    text.extend_from_slice(digits.format(status).as_bytes())?;
    text.extend_from_slice(b"\n")?;
    text.extend_from_slice(wrote)?;
    Ok(())
}

// Returns whether all runs so far and this one have status 0.
fn is_done(done: bool, status: u8) -> bool
    ensures { result ≡ (done && (status == 0)) }
{
    done && status == 0
}

// Adds the lines of the scenario of this model, and returns its status. It uses the model's entry or, if no worker put one, runs
// the model itself.
fn add_scenario<R: Threads + Sync>(
    rt: &R,
    alloc: Global,
    trace: &[u8],
    number: u32,
    model: &[u8],
    entries: &[Entry],
    text: &mut Vec<u8>,
) -> Result<u8, OutOfMemory>
    requires right { All (IsEntryOf trace.now) entries.now }
    requires room { number + 1 < 2 ^ 32 }
    ensures text { OnOk result (text.new.items ≡ text.old.items ++ scenario_lines trace.now number model.now) }
    ensures status { IfOk result (λ status. status ≡ scenario_status trace.now model.now) }
{
    if let Some(entry) = find_entry(entries, number, model) {
        add_lines(number, entry.status, entry.text.as_slice(), text)?;
        return Ok(entry.status);
    }
    let entry = run_scenario(rt, alloc, number, model, trace)?;
    add_lines(number, entry.status, entry.text.as_slice(), text)?;
    Ok(entry.status)
}

/// Returns the text of the sweep of these models, in their order. It uses the entries of a book, and runs the models that have
/// none. The only error is out of memory.
pub fn scenarios_of<R: Threads + Sync>(
    rt: &R,
    alloc: Global,
    trace: &[u8],
    models: &[List<u8>],
    book: &Book,
) -> Result<Scenarios, OutOfMemory>
    requires { length models.now < 2 ^ 32 - 1 }
    ensures text { IfOk result (λ scenarios. scenarios.text.items ≡ sweep_text trace.now models.now) }
    ensures done { IfOk result (λ scenarios. scenarios.done ≡ all_done trace.now models.now) }
{
    let entries = entries_of(book, trace);
    let mut text = Vec::new(alloc);
    let mut done = true;
    'models: for (number, model) in models.iter().enumerate() {
        let status = add_scenario(
            rt,
            alloc,
            trace,
            number as u32,
            model.as_slice(),
            entries,
            &mut text,
        )?;
        done = is_done(done, status);
    }
    Ok(Scenarios { text, done })
}
