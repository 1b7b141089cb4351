// Workers that take the numbers of the models from the queue, and run the models.
ghost use Rattle.std.specs.Prelude.{◌≡◌, ◌⊎◌, ◌+◌, ◌≤◌, ◌<◌, ◌^◌, [], ◌∷◌, ◌++◌, length, List as Items, ℕ, IfOk};
ghost use Rattle.std.specs.Thread.{IsSync};
ghost use Rattle.std.specs.List.{range_with_len};
ghost use Rattle.mq_sweep.specs.Book.{IsEntryOf};
ghost use Rattle.mq_sweep.specs.QueueRule.{IsCrewSeat, IsTakenOrLeft, OnlyTook};

use crate::queue::{NumberQueue, QueueSeat};
use crate::scenario::run_scenario;
use crate::{Book, Entry, SweepGate};
use mq_base::{List, OutOfMemory};
use std::alloc::Global;
use std::marker::Sync;
use std::sync::{Mutex, Wait};
use std::thread::{Threads, join};

// Puts an entry into a book of the same trace. The book is unchanged if the traces differ or memory runs out.
fn put_entry(book: &mut Book, trace: &[u8], entry: Entry)
    requires { IsEntryOf trace.now entry }
    ensures { (book.new ≡ book.old) ⊎ ((book.old.trace ≡ trace.now) × (book.new ≡ record book.old { entries = book.old.entries ++ entry ∷ [] })) }
{
    if book.trace() == trace {
        let _ = book.put(entry);
    }
}

// What a worker does with each number that it takes. It is a trait so that the closure of a thread captures few things.
trait Task: Sync {
    fn run<R: Threads + Wait + Sync>(&self, rt: &R, worker: u32, number: u32)
        requires { IsSync R.row };
}

// The run of the model with each number over one trace, into one book.
#[derive(Drop)]
struct ModelRuns<'a, 't, G> {
    alloc: Global,
    trace: &'a [u8],
    models: &'a [List<u8>],
    book: &'a Mutex<Book<'t>>,
    gate: &'a G,
}

impl<'a, 't, G: SweepGate> Task for ModelRuns<'a, 't, G> {
    // Enters the gate, runs the model, and puts the result into the book. If memory runs out, the book gets no entry.
    fn run<R: Threads + Wait + Sync>(&self, rt: &R, worker: u32, number: u32) {
        self.gate.enter(worker, number);
        let Some(model) = self.models.get(number as usize) else {
            return;
        };
        if let Ok(entry) = run_scenario(rt, self.alloc, number, model.as_slice(), self.trace) {
            let mut book = self.book.lock(rt);
            put_entry(&mut book, self.trace, entry);
        }
    }
}

// Takes numbers as one worker until it finds the queue empty, and does the task with each.
fn work<T: Task, R: Threads + Wait + Sync>(
    rt: &R,
    queue: &NumberQueue,
    task: &T,
    mut seat: QueueSeat,
    worker: u32,
) -> QueueSeat
    requires own { seat.table ≡ queue.now }
    requires right { 1 ≤ seat.right }
    ensures { OnlyTook seat result }
{
    'takes: for _ in rt.forever() {
        let Some(number) = queue.take(rt, &mut seat) else {
            break;
        };
        task.run(rt, worker, number);
    }
    seat
}

// Gives half of the workers to a new thread at each step, until one is left.
#[cycle(crew)]
fn crew<T: Task, R: Threads + Wait + Sync>(
    rt: &R,
    queue: &NumberQueue,
    task: &T,
    mut seat: QueueSeat,
    first: u32,
    workers: u32,
) -> QueueSeat
    requires { IsCrewSeat queue.now seat first workers }
    ensures { OnlyTook seat result }
{
    if workers == 1 {
        return work(rt, queue, task, seat, first);
    }
    let high = workers / 2;
    let low = workers - high;
    let second = first + low;
    let other = queue.split(&mut seat);
    let front = move || -> QueueSeat
        requires { IsSync R.row × IsSync T.row × IsCrewSeat queue.now seat first low }
        ensures { OnlyTook seat result }
    { crew(rt, queue, task, seat, first, low) };
    let back = move || -> QueueSeat
        requires { IsSync R.row × IsSync T.row × IsCrewSeat queue.now other second high }
        ensures { OnlyTook other result }
    { crew(rt, queue, task, other, second, high) };
    let (mut mine, its) = join(rt, front, back);
    queue.join(&mut mine, its);
    mine
}

/// Runs the models over the trace with 1 to 64 workers, which take the numbers of the models from one queue and enter the gate
/// with each. The book may have an entry for each model; if memory ran out in a run, its entry is missing. Each entry is right
/// for its model and the book's trace. The seat holds what all workers took together: each number was taken by one of them, or
/// is left. The only error is out of memory.
pub fn by_workers<'t, R: Threads + Wait + Sync, G: SweepGate>(
    rt: &R,
    alloc: Global,
    workers: u32,
    trace: &'t [u8],
    models: &[List<u8>],
    gate: &G,
) -> Result<(Book<'t>, QueueSeat), OutOfMemory>
    requires some { 1 ≤ workers }
    requires most { workers ≤ 64 }
    requires models { 1 ≤ length models.now }
    requires few { length models.now < 2 ^ 32 }
    ensures { IfOk result (λ r. (left : Items ℕ) × IsTakenOrLeft (range_with_len 0 (length models.now)) r.1.taken left) }
{
    let (queue, seat) = NumberQueue::filled(rt, alloc, models.len() as u32)?;
    let book = Mutex::new(Book::new(alloc, trace));
    let task = ModelRuns {
        alloc,
        trace,
        models,
        book: &book,
        gate,
    };
    let mut seat = crew(rt, &queue, &task, seat, 0, workers);
    queue.learn(&mut seat);
    Ok((book.into_inner(), seat))
}
