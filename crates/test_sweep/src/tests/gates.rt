// Two threads run the models of one sweep.
use super::files_with;
use mq_base::OutOfMemory;
use mq_outside::MemSink;
use mq_sweep::{SweepGate, SweepOutcome, sweep};
use std::alloc::Global;
use std::sync::Wait;
use std::sync::atomic::AtomicU64;
use std::sync::atomic::Ordering::SeqCst;
use std::test::Fail;
use std::thread::Threads;

// How many times a held entry checks whether the other has come.
const TURNS: u64 = 2_000_000_000;

// The entries with the models 0 and 1, each held until the other has come.
#[derive(Drop)]
struct Held {
    came: [AtomicU64; 2],
    run_out: AtomicU64,
}

impl SweepGate for Held {
    fn enter(&self, _worker: u32, number: u32) {
        if number > 1 {
            return;
        }
        let here = number as usize;
        self.came[here].fetch_add(1, SeqCst);
        for _ in 0..TURNS {
            if self.came[1 - here].load(SeqCst) > 0 {
                return;
            }
        }
        self.run_out.fetch_add(1, SeqCst);
    }
}

// Returns whether a sweep of two models with two workers is done, each model came once, and no hold ran
// out.
fn both_come<R: Threads + Wait + Sync>(rt: &R, alloc: Global) -> Result<bool, OutOfMemory> {
    let gate = Held {
        came: [AtomicU64::new(0), AtomicU64::new(0)],
        run_out: AtomicU64::new(0),
    };
    let mut files = files_with(alloc, Vec::new(alloc), 0)?;
    let mut out = MemSink::new(alloc, 1024, Vec::new(alloc));
    let mut err = MemSink::new(alloc, 1024, Vec::new(alloc));
    let words = &["t", "m", "m"];
    let outcome = sweep(rt, alloc, words, 2, &mut files, &mut out, &mut err, &gate);
    Ok(
        outcome == SweepOutcome::Done
            && gate.came[0].load(SeqCst) == 1
            && gate.came[1].load(SeqCst) == 1
            && gate.run_out.load(SeqCst) == 0,
    )
}

#[test]
fn two_threads_enter_the_gate(rt: HostRuntime) -> Result<(), Fail> {
    assert!(rt; both_come(&rt, rt.alloc())?);
    Ok(())
}
