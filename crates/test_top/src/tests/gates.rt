// Threads make the pieces of each list of a run: two threads, or more if two lists are made at once.
use super::{MODEL, TRACE, files_with};
use mq_base::OutOfMemory;
use mq_chain::ChainSeat;
use mq_claims::ClaimSeat;
use mq_crew::Gate;
use mq_outside::MemSink;
use mq_top::{Outcome, simulate_gated};
use std::alloc::Global;
use std::sync::atomic::AtomicU64;
use std::sync::atomic::Ordering::SeqCst;
use std::test::Fail;
use std::thread::Threads;

// Three jobs, each of them a block.
const JOBS: &[u8] = b"source,time,a,b,c\nsrc,0,2,3,1\nsrc,1,1,1,4\nsrc,2,2,1,1\n";

// A run with this many workers and this form of the report, with or without job lines, and the number of pieces in each list that it makes, in
// order. A list of at most one piece enters no gate and isn't given here. Without job lines, nothing is computed for a source, and a station
// whose jobs leave in turn has no last pieces. After each wave come the totals of its nodes, with a piece for each node, and what leaves by the
// outputs that nobody reads, with a piece for each node that has one. With job lines, the 3 last pieces of the source come first (when its jobs
// leave, how many each found, and the jobs). The totals of all nodes, and what leaves, then come at the end.
#[derive(Clone, Copy)]
struct Case<'a> {
    model: &'a [u8],
    trace: &'a [u8],
    form: &'a str,
    jobs: bool,
    workers: &'a str,
    lists: &'a [usize],
    // The number of blocks of each single pass.
    passes: &'a [usize],
}

// A server. Only its blocks enter a gate: no list has more than one piece.
const SERVER: Case = Case {
    model: MODEL,
    trace: TRACE,
    form: "2",
    jobs: false,
    workers: "2",
    lists: &[],
    passes: &[3],
};

// The server with job lines. It has 5 last pieces: when the jobs leave, how many each found, the jobs, and the jobs and times of what came.
const SERVER_OF_A_KEPT_RUN: Case = Case {
    jobs: true,
    lists: &[3, 5, 2],
    ..SERVER
};

// The server, with two blocks left by the single pass, which the crew then applies.
const LEFT: Case = Case {
    lists: &[2],
    ..SERVER
};

// A tandem of three stages: a summary and an applied block for each job.
const TANDEM: Case = Case {
    model: b"model 1\nsource src\ntandem line a / 2 b / 1 c from src\n",
    trace: JOBS,
    form: "2",
    jobs: false,
    workers: "2",
    lists: &[3, 3],
    passes: &[],
};

// A tandem of two stages, whose jobs come at one time and block each other.
const BLOCKING: Case = Case {
    model: b"model 1\nsource src\ntandem t =1 / 1 =3 from src\n",
    trace: b"source,time\nsrc,0\nsrc,0\nsrc,0\n",
    ..TANDEM
};

// A fork-join of two branches, one of two servers and one of one: summaries and applied blocks of the first server of both branches, then of the
// second server of the first branch.
const FORKJOIN: Case = Case {
    model: b"model 1\nsource src\nforkjoin both a b | c from src\n",
    lists: &[6, 6, 3, 3],
    ..TANDEM
};

// A split: what leaves each block, and its 4 last pieces, which are when the jobs leave, how many each found, and the jobs and times of what
// came.
const SPLIT: Case = Case {
    model: b"model 1\nsource src\nsplit ways 2 turn from src\n",
    lists: &[3, 4],
    ..TANDEM
};

// Two forks that are ready at once, after another fork, which is alone. The two make a list of two pieces, and so do their totals and what leaves
// them.
const FORKS: Case = Case {
    model: b"model 2\nsource src\nfork f 2 from src\nfork a 2 from f\nfork b 2 from f.1\n",
    lists: &[2, 2, 2],
    ..TANDEM
};

// A delay in which a job overtakes another. Its 5 last pieces are how many each job found, with a piece for each job, and the jobs and times of
// what came.
const DELAY: Case = Case {
    model: b"model 1\nsource src\ndelay w b from src\n",
    lists: &[5],
    ..TANDEM
};

// A delay in which no job overtakes another, though two leave at one time: no list has more than one piece.
const DELAY_IN_TURN: Case = Case {
    model: b"model 1\nsource src\ndelay w a from src\n",
    lists: &[],
    ..TANDEM
};

// That delay with job lines. Its last pieces are those of a server.
const DELAY_IN_TURN_OF_A_KEPT_RUN: Case = Case {
    jobs: true,
    lists: &[3, 5, 2],
    ..DELAY_IN_TURN
};

// Two sources: the rows of each. Then come three blocks of what both let out, merged. The loss station itself is one piece, and it has two last
// pieces.
const MERGE: Case = Case {
    model: b"model 1\nsource src\nsource web\nloss l 1 a from src web\n",
    trace: b"source,time,a\nsrc,0,1\nweb,1,1\nsrc,2,1\n",
    lists: &[2, 3, 2],
    ..TANDEM
};

// Two tandems of one wave, at which jobs wait: the rows of both sources, how each tandem is computed, their summaries and applied blocks, their
// totals with the counts of the waits, and what leaves each.
const WAITS: Case = Case {
    model: b"model 1\nsource src\nsource web\ntandem left =1 / 1 =2 from src\ntandem right =1 / 1 =3 from web\n",
    trace: b"source,time\nsrc,0\nweb,0\nsrc,0\nweb,0\nsrc,0\nweb,0\n",
    lists: &[2, 2, 6, 6, 2, 2],
    ..TANDEM
};

// The two tandems with waits too long to be counted: after the totals, the percentiles have a piece for each node, and then comes what leaves
// each.
const LONG_WAITS: Case = Case {
    model: b"model 1\nsource src\nsource web\ntandem left =1 / 1 =20000 from src\ntandem right =1 / 1 =30000 from web\n",
    lists: &[2, 2, 6, 6, 2, 2, 2],
    ..WAITS
};

// The first form of the report has no percentiles.
const UNTOLD_WAITS: Case = Case {
    form: "1",
    lists: &[2, 2, 6, 6, 2, 2],
    ..LONG_WAITS
};

// Two tandems of two waves, with job lines: after the totals of all nodes come the percentiles of all nodes.
const LONG_WAITS_OF_A_KEPT_RUN: Case = Case {
    model: b"model 1\nsource src\ntandem first =1 / 1 =20000 from src\ntandem then =1 / 1 =30000 from first\n",
    jobs: true,
    lists: &[3, 3, 3, 5, 3, 3, 5, 3, 3],
    ..TANDEM
};

// A loss station with two ports beside three tandems: the rows of all sources. The station gets 6 of 15 jobs, more than a third, so it has a
// worker of its own, which merges what comes, settles it and makes its two last pieces. The other two workers have the tandems, whose lists have
// no piece of the station: how each is computed, their summaries and applied blocks. All workers make the totals of all four, and what leaves
// them.
const LOSS_BESIDE_TANDEMS: Case = Case {
    model: b"model 1\nsource src\nsource web\nsource a\nsource b\nsource c\nloss l 1 =2 from src web\n\
        tandem one =1 / 1 =2 from a\ntandem two =1 / 1 =2 from b\ntandem three =1 / 1 =2 from c\n",
    trace: b"source,time\nsrc,0\nweb,0\na,0\nb,0\nc,0\nsrc,1\nweb,1\na,1\nb,1\nc,1\nsrc,2\nweb,2\na,2\nb,2\nc,2\n",
    form: "1",
    workers: "3",
    lists: &[5, 3, 9, 9, 2, 4, 4],
    ..TANDEM
};

// The same nodes with less than a third of the jobs at the loss station: one list has its piece and the summaries of the tandems, and one its two
// last pieces and the applied blocks of the tandems.
const SHORT_LOSS_AMONG_TANDEMS: Case = Case {
    trace: b"source,time\nsrc,0\nweb,0\na,0\nb,0\nc,0\na,1\nb,1\nc,1\na,2\nb,2\nc,2\n",
    lists: &[5, 2, 4, 10, 11, 4, 4],
    ..LOSS_BESIDE_TANDEMS
};

// Two loss stations, each with 5 of 15 jobs, beside a tandem, with four workers: the rows of all sources; for the stations, how each is computed,
// both stations, and their last pieces with the copies of what came; for the tandem, its summaries and applied blocks; and all totals, and what
// leaves all three.
const LOSSES_BESIDE_A_TANDEM: Case = Case {
    model: b"model 1\nsource a\nsource b\nsource c\nloss one 1 =2 from a\nloss two 1 =2 from b\n\
        tandem line =1 / 1 =2 from c\n",
    trace: b"source,time\na,0\nb,0\nc,0\na,1\nb,1\nc,1\na,2\nb,2\nc,2\na,3\nb,3\nc,3\na,4\nb,4\nc,4\n",
    form: "1",
    workers: "4",
    lists: &[3, 2, 2, 8, 5, 5, 3, 3],
    ..TANDEM
};

// The same with a trunk group in place of the second station.
const A_TRUNK_GROUP_BESIDE_A_TANDEM: Case = Case {
    model: b"model 2\nsource a\nsource b\nsource c\nloss one 1 =2 from a\ntrunk two 1 =2 from b\n\
        tandem line =1 / 1 =2 from c\n",
    ..LOSSES_BESIDE_A_TANDEM
};

// How many times a held entry checks whether the others have come.
const TURNS: u64 = 2_000_000_000;

// Counts entries by their numbers. An entry with 0 or 1 is held until the numbers below `zero` or `one` have come as often as its own. So neither
// of the two goes on before the other has come, and each of them needs a thread.
#[derive(Drop)]
struct Entries {
    came: [AtomicU64; 11],
    above: AtomicU64,
    zero: usize,
    one: usize,
    run_out: AtomicU64,
}

impl Entries {
    fn held(zero: usize, one: usize) -> Entries {
        Entries {
            came: [
                AtomicU64::new(0),
                AtomicU64::new(0),
                AtomicU64::new(0),
                AtomicU64::new(0),
                AtomicU64::new(0),
                AtomicU64::new(0),
                AtomicU64::new(0),
                AtomicU64::new(0),
                AtomicU64::new(0),
                AtomicU64::new(0),
                AtomicU64::new(0),
            ],
            above: AtomicU64::new(0),
            zero,
            one,
            run_out: AtomicU64::new(0),
        }
    }

    fn enter(&self, number: u32) {
        let Some(own) = self.came.get(number as usize) else {
            self.above.fetch_add(1, SeqCst);
            return;
        };
        let before = own.fetch_add(1, SeqCst);
        let below = match number {
            0 => self.zero,
            1 => self.one,
            _ => 0,
        };
        for other in self.came.iter().take(below) {
            self.hold(other, before);
        }
    }

    // Waits until another number has come more than `before` times, and counts a wait that runs out.
    fn hold(&self, other: &AtomicU64, before: u64) {
        if !comes(other, before) {
            self.run_out.fetch_add(1, SeqCst);
        }
    }

    // Returns whether each number of lists of these sizes came once per list, nothing else came, and no hold ran out.
    fn are(&self, lists: &[usize]) -> bool {
        let mut right = self.above.load(SeqCst) == 0 && self.run_out.load(SeqCst) == 0;
        for number in 0..self.came.len() {
            if self.came[number].load(SeqCst) != longer(lists, number) {
                right = false;
            }
        }
        right
    }
}

// Returns whether a number comes more than `before` times before the turns run out.
fn comes(number: &AtomicU64, before: u64) -> bool {
    for _ in 0..TURNS {
        if number.load(SeqCst) > before {
            return true;
        }
    }
    false
}

// Returns how many lists have more pieces than `number`.
fn longer(lists: &[usize], number: usize) -> u64 {
    lists.iter().filter(|size| **size > number).count() as u64
}

// Counts the pieces, and apart from them the blocks of a single pass.
#[derive(Drop)]
struct Held {
    pieces: Entries,
    blocks: Entries,
}

impl Gate for Held {
    fn enter(&self, _seat: &ClaimSeat, _worker: u32, piece: u32) {
        self.pieces.enter(piece);
    }

    fn enter_block(&self, _seat: &ChainSeat, _worker: u32, block: u32) {
        self.blocks.enter(block);
    }
}

// Holds block 1 until block 2 has come, and so until block 0 is done and its carry is there: at most one block is left.
fn with_carries() -> Held {
    Held {
        pieces: Entries::held(2, 2),
        blocks: Entries::held(2, 3),
    }
}

// Holds block 0 until block 2 has come, and so until block 1 is left, which has no carry yet: then block 2 has none either.
fn without_carries() -> Held {
    Held {
        pieces: Entries::held(2, 2),
        blocks: Entries::held(3, 2),
    }
}

// Holds one entry with a number, the one after `before` others with it, until another number has come more than `often` times.
#[derive(Drop)]
struct Hold {
    number: u32,
    before: u64,
    other: u32,
    often: u64,
    own: AtomicU64,
    others: AtomicU64,
    run_out: AtomicU64,
}

impl Hold {
    fn until(number: u32, before: u64, other: u32, often: u64) -> Hold {
        Hold {
            number,
            before,
            other,
            often,
            own: AtomicU64::new(0),
            others: AtomicU64::new(0),
            run_out: AtomicU64::new(0),
        }
    }
}

impl Gate for Hold {
    fn enter(&self, _seat: &ClaimSeat, _worker: u32, piece: u32) {
        if piece == self.other {
            self.others.fetch_add(1, SeqCst);
        }
        if piece == self.number
            && self.own.fetch_add(1, SeqCst) == self.before
            && !comes(&self.others, self.often)
        {
            self.run_out.fetch_add(1, SeqCst);
        }
    }

    fn enter_block(&self, _seat: &ChainSeat, _worker: u32, _block: u32) {}
}

// Returns whether a run, whose workers enter this gate, is done.
fn is_done<R: Threads + Sync, G: Gate>(
    rt: &R,
    alloc: Global,
    case: Case<'_>,
    gate: &G,
) -> Result<bool, OutOfMemory> {
    let mut files = files_with(alloc, case.model, case.trace, 0)?;
    let mut out = MemSink::new(alloc, 1024, Vec::new(alloc));
    let mut err = MemSink::new(alloc, 1024, Vec::new(alloc));
    let words = [
        "m",
        "t",
        "--workers",
        case.workers,
        "--block",
        "1",
        "--report",
        case.form,
        "--jobs",
    ];
    let count = if case.jobs { 9 } else { 8 };
    let words = &words[..count];
    let outcome = simulate_gated(rt, alloc, words, &mut files, &mut out, &mut err, gate);
    Ok(outcome == Outcome::Done)
}

// Returns whether a run, whose workers enter this gate, is done and has these lists.
fn has_lists<R: Threads + Sync>(
    rt: &R,
    alloc: Global,
    case: Case<'_>,
    gate: &Held,
) -> Result<bool, OutOfMemory> {
    let done = is_done(rt, alloc, case, gate)?;
    Ok(done && gate.pieces.are(case.lists) && gate.blocks.are(case.passes))
}

#[test]
fn two_threads_enter_the_gate_at_a_server(rt: HostRuntime) -> Result<(), Fail> {
    assert!(rt; has_lists(&rt, rt.alloc(), SERVER, &with_carries())?);
    Ok(())
}

#[test]
fn two_threads_enter_the_gate_at_a_server_of_a_kept_run(rt: HostRuntime) -> Result<(), Fail> {
    assert!(rt; has_lists(&rt, rt.alloc(), SERVER_OF_A_KEPT_RUN, &with_carries())?);
    Ok(())
}

#[test]
fn two_threads_enter_the_gate_at_blocks_that_were_left(rt: HostRuntime) -> Result<(), Fail> {
    assert!(rt; has_lists(&rt, rt.alloc(), LEFT, &without_carries())?);
    Ok(())
}

#[test]
fn two_threads_enter_the_gate_at_a_tandem(rt: HostRuntime) -> Result<(), Fail> {
    assert!(rt; has_lists(&rt, rt.alloc(), TANDEM, &with_carries())?);
    Ok(())
}

#[test]
fn two_threads_enter_the_gate_at_a_tandem_of_two_stages(rt: HostRuntime) -> Result<(), Fail> {
    assert!(rt; has_lists(&rt, rt.alloc(), BLOCKING, &with_carries())?);
    Ok(())
}

#[test]
fn two_threads_enter_the_gate_at_a_forkjoin(rt: HostRuntime) -> Result<(), Fail> {
    assert!(rt; has_lists(&rt, rt.alloc(), FORKJOIN, &with_carries())?);
    Ok(())
}

#[test]
fn two_threads_enter_the_gate_at_a_split(rt: HostRuntime) -> Result<(), Fail> {
    assert!(rt; has_lists(&rt, rt.alloc(), SPLIT, &with_carries())?);
    Ok(())
}

#[test]
fn two_threads_enter_the_gate_at_two_forks(rt: HostRuntime) -> Result<(), Fail> {
    assert!(rt; has_lists(&rt, rt.alloc(), FORKS, &with_carries())?);
    Ok(())
}

#[test]
fn two_threads_enter_the_gate_at_a_delay(rt: HostRuntime) -> Result<(), Fail> {
    assert!(rt; has_lists(&rt, rt.alloc(), DELAY, &with_carries())?);
    Ok(())
}

#[test]
fn nobody_enters_the_gate_at_a_delay_whose_jobs_leave_in_turn(rt: HostRuntime) -> Result<(), Fail> {
    assert!(rt; has_lists(&rt, rt.alloc(), DELAY_IN_TURN, &with_carries())?);
    Ok(())
}

#[test]
fn two_threads_enter_the_gate_at_such_a_delay_of_a_kept_run(rt: HostRuntime) -> Result<(), Fail> {
    assert!(rt;
        has_lists(
            &rt,
            rt.alloc(),
            DELAY_IN_TURN_OF_A_KEPT_RUN,
            &with_carries()
        )?
    );
    Ok(())
}

#[test]
fn two_threads_enter_the_gate_at_a_merge(rt: HostRuntime) -> Result<(), Fail> {
    assert!(rt; has_lists(&rt, rt.alloc(), MERGE, &with_carries())?);
    Ok(())
}

#[test]
fn two_threads_enter_the_gate_at_totals_with_waits(rt: HostRuntime) -> Result<(), Fail> {
    assert!(rt; has_lists(&rt, rt.alloc(), WAITS, &with_carries())?);
    Ok(())
}

#[test]
fn two_threads_enter_the_gate_at_percentiles_of_long_waits(rt: HostRuntime) -> Result<(), Fail> {
    assert!(rt; has_lists(&rt, rt.alloc(), LONG_WAITS, &with_carries())?);
    Ok(())
}

#[test]
fn nobody_enters_the_gate_at_percentiles_that_are_not_told(rt: HostRuntime) -> Result<(), Fail> {
    assert!(rt; has_lists(&rt, rt.alloc(), UNTOLD_WAITS, &with_carries())?);
    Ok(())
}

#[test]
fn two_threads_enter_the_gate_at_percentiles_of_a_kept_run(rt: HostRuntime) -> Result<(), Fail> {
    assert!(rt; has_lists(&rt, rt.alloc(), LONG_WAITS_OF_A_KEPT_RUN, &with_carries())?);
    Ok(())
}

#[test]
fn a_loss_station_is_in_no_list_of_tandems_beside_it(rt: HostRuntime) -> Result<(), Fail> {
    assert!(rt; has_lists(&rt, rt.alloc(), LOSS_BESIDE_TANDEMS, &with_carries())?);
    Ok(())
}

#[test]
fn a_short_loss_station_is_in_the_lists_of_tandems(rt: HostRuntime) -> Result<(), Fail> {
    assert!(rt; has_lists(&rt, rt.alloc(), SHORT_LOSS_AMONG_TANDEMS, &with_carries())?);
    Ok(())
}

#[test]
fn two_loss_stations_have_lists_of_their_own_beside_a_tandem(rt: HostRuntime) -> Result<(), Fail> {
    assert!(rt; has_lists(&rt, rt.alloc(), LOSSES_BESIDE_A_TANDEM, &with_carries())?);
    Ok(())
}

#[test]
fn a_trunk_group_has_a_list_with_a_loss_station_beside_a_tandem(
    rt: HostRuntime,
) -> Result<(), Fail> {
    assert!(rt;
        has_lists(
            &rt,
            rt.alloc(),
            A_TRUNK_GROUP_BESIDE_A_TANDEM,
            &with_carries()
        )?
    );
    Ok(())
}

// Returns whether the run of two loss stations beside a tandem is done with this gate, and no hold ran out.
fn goes_on<R: Threads + Sync>(rt: &R, alloc: Global, gate: Hold) -> Result<bool, OutOfMemory> {
    let done = is_done(rt, alloc, LOSSES_BESIDE_A_TANDEM, &gate)?;
    Ok(done && gate.run_out.load(SeqCst) == 0)
}

// The second entry with 1, the first after the rows of the sources, is held until some list has a fifth piece. Only the tandem's lists have one.
#[test]
fn a_tandem_goes_on_while_a_list_of_loss_stations_is_held(rt: HostRuntime) -> Result<(), Fail> {
    assert!(rt; goes_on(&rt, rt.alloc(), Hold::until(1, 1, 4, 0))?);
    Ok(())
}

// The first fifth piece, one of the tandem's, is held until a second piece has come three times: of the sources, the tandem and the loss
// stations.
#[test]
fn loss_stations_go_on_while_a_list_of_a_tandem_is_held(rt: HostRuntime) -> Result<(), Fail> {
    assert!(rt; goes_on(&rt, rt.alloc(), Hold::until(4, 0, 1, 2))?);
    Ok(())
}
