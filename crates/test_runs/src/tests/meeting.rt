// Five workers that wait for one another at a gate.
use std::sync::atomic::AtomicU64;
use std::sync::atomic::Ordering::SeqCst;

// How many times a held entry checks whether the others have come.
const TURNS: u64 = 2_000_000_000;

// The entries with the numbers 0 to 4, each held until all five have come. They are counted by number and by worker.
#[derive(Drop)]
pub struct Meeting {
    numbers: [AtomicU64; 5],
    workers: [AtomicU64; 5],
    came: AtomicU64,
    alone: AtomicU64,
}

fn none() -> [AtomicU64; 5] {
    [
        AtomicU64::new(0),
        AtomicU64::new(0),
        AtomicU64::new(0),
        AtomicU64::new(0),
        AtomicU64::new(0),
    ]
}

// Returns whether each of these was counted once.
fn are_ones(counts: &[AtomicU64; 5]) -> bool {
    for count in counts {
        if count.load(SeqCst) != 1 {
            return false;
        }
    }
    true
}

impl Meeting {
    pub fn of_nobody() -> Meeting {
        Meeting {
            numbers: none(),
            workers: none(),
            came: AtomicU64::new(0),
            alone: AtomicU64::new(0),
        }
    }

    pub fn enter(&self, worker: u32, number: u32) {
        if number > 4 {
            return;
        }
        self.numbers[number as usize].fetch_add(1, SeqCst);
        if worker <= 4 {
            self.workers[worker as usize].fetch_add(1, SeqCst);
        }
        self.came.fetch_add(1, SeqCst);
        for _ in 0..TURNS {
            if self.came.load(SeqCst) >= 5 {
                return;
            }
        }
        self.alone.fetch_add(1, SeqCst);
    }

    // Returns whether each of the five workers came with a number of its own, and none waited in vain.
    pub fn is_whole(&self) -> bool {
        self.alone.load(SeqCst) == 0 && are_ones(&self.numbers) && are_ones(&self.workers)
    }
}
