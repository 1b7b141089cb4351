// A tandem's jobs as a scan: they act on the latest departures one after another.
ghost use Rattle.std.specs.Prelude.{◌≡◌, ℕ, ◌+◌, ◌-◌, ◌<◌, ◌≤◌, All, Some, drop, length, slice_get, sum};
ghost use Rattle.mq_core.specs.Sequences.{IsSoundLoad};
ghost use Rattle.mq_maxplus.specs.Maxplus.{mp_or_zero, Fits};
ghost use Rattle.mq_maxplus.specs.Matrices.{entry, matrix_act, matrix_then, CanMatrixThen};
ghost use Rattle.mq_maxplus.proofs.MatrixLaws.{acts as acts_law, joins as joins_law};
ghost use Rattle.mq_tandem.specs.Stages.{AreStages};
ghost use Rattle.mq_tandem.specs.Rows.{job_act, job_matrix, kept, last_row, none_kept, room_row, zero_row, CanActOnTimes, IsTandemLoad};
ghost use Rattle.mq_scan.specs.Folds.{extended};
ghost use Rattle.mq_tandem.specs.Bounds.{folds_size, spans_join as joins_of};
ghost use Rattle.mq_tandem.specs.Times.{spans_act as acts_of};

use crate::Latest;
use mq_asked::Asked;
use mq_base::List;
use mq_core::Stream;
use mq_maxplus::Matrix;
use mq_scan::{Step, Timed};

// The least number of jobs in a run. After each run, columns are compared again.
const SHORTEST_RUN: u32 = 4;

/// The jobs of a tandem as a scan. One after another they act on the latest departures: the last one
/// from the first stage, and from each other stage as many as it has places. Those of a stage come
/// latest first, and a zero follows all of them. Before the first job each of them is 0. Several jobs
/// together are a matrix (Greenberg, Lubachevsky and Mitrani, 1991).
#[derive(Clone, Copy)]
pub struct TandemStep<'a> {
    /// The arrival time of each job, by position, in ticks.
    pub arrive: &'a List<u64>,
    /// The demands at each stage, by position, in ticks of service.
    pub demands: &'a List<Asked<'a>>,
    /// The number of jobs that each stage holds, including the one in service.
    pub places: &'a List<u8>,
    // The number of departures that are kept, plus one for the zero.
    pub(crate) rows: u8,
    // The row of the latest departure from the last stage.
    pub(crate) last: u8,
    ghost load: { IsTandemLoad arrive.now demands.now places.now },
    ghost all_rows: { rows ≡ zero_row places.now + 1 },
    ghost few_rows: { rows ≤ 14 },
    ghost last_is: { last ≡ last_row (kept places.now) },
    ghost last_inside: { last < rows },
}

impl<'a> TandemStep<'a> {
    /// Returns the jobs of a stream as a scan. `demands` has one list per stage, with one demand per
    /// job, in ticks of service. `places` says how many jobs each stage holds, including the one in
    /// service. There are 2 to 4 stages, and each after the first holds 1 to 4 jobs. The first has room
    /// for all jobs, and its number is ignored. It takes no memory.
    pub fn new(
        stream: &'a Stream,
        demands: &'a List<Asked<'a>>,
        places: &'a List<u8>,
    ) -> TandemStep<'a>
        requires load { All (λ column. IsSoundLoad stream.now.time column) demands.now }
        requires stages { AreStages places.now demands.now }
        ensures arrive { result.arrive.now ≡ stream.now.time }
        ensures demands { result.demands.now ≡ demands.now }
        ensures places { result.places.now ≡ places.now }
    {
        let rows = rows_of(places);
        TandemStep {
            arrive: &stream.time,
            demands,
            places,
            rows,
            last: rows - 1 - *places.get(places.len() - 1),
        }
    }

    // Takes the job at an index through the stages, and updates the latest departures.
    fn serve(&self, latest: &mut Latest, at: usize)
        requires inside { at < length self.now.arrive.now }
        requires size { length latest.old ≡ self.now.rows }
        requires fits { (row : ℕ) → Fits (entry (job_act self.now.places.now self.now.arrive.now self.now.demands.now at latest.old) row) }
        ensures { latest.new ≡ job_act self.now.places.now self.now.arrive.now self.now.demands.now at latest.old }
    {
        let mut time = latest.get(self.rows - 1) + *self.arrive.get(at);
        let mut row = 0;
        for stage in 0..self.places.len() {
            let behind = row + kept_of(self.places, stage);
            let done = time.max(latest.get(row)) + self.demands.get(stage).at(at);
            time = done.max(room_at(latest, self.places, stage + 1, behind));
            latest.put(row, behind, time);
            row = behind;
        }
    }
}

// Returns where the next run of a range ends. It has as many jobs as all runs before it, and at least 4.
// After few jobs nearly all columns differ by numbers, and then long runs save comparisons.
fn run_end(from: u32, at: u32, to: u32) -> u32
    requires begun { from ≤ at }
    requires some { at < to }
    ensures more { at < result }
    ensures within { result ≤ to }
{
    let run = (at - from).max(SHORTEST_RUN);
    if to - at < run { to } else { at + run }
}

// Returns the number of departures that are kept, of all stages, plus one for the zero.
fn rows_of(places: &List<u8>) -> u8
    requires some { 1 ≤ length places.now }
    requires few { length places.now ≤ 4 }
    requires narrow { All (λ count. count ≤ 4) (drop 1 places.now) }
    ensures all { result ≡ zero_row places.now + 1 }
    ensures few { result ≤ 14 }
{
    let mut rows = 2;
    for stage in 1..places.len() {
        rows += *places.get(stage);
    }
    rows
}

// Returns the number of departures of a stage that are kept.
#[inline]
pub(crate) fn kept_of(places: &List<u8>, stage: usize) -> u8
    requires { stage < length places.now }
    ensures { slice_get (kept places.now) stage ≡ Some result }
{
    if stage == 0 { 1 } else { *places.get(stage) }
}

// Returns when a stage after the first has room for another job. Its departures begin at `row`. After
// the last stage there is always room.
#[inline]
pub(crate) fn room_at(latest: &Latest, places: &List<u8>, stage: usize, row: u8) -> u64
    requires room { All (λ count. 1 ≤ count) (drop stage places.now) }
    requires inside { row + sum (drop stage places.now) < length latest.now }
    requires few { length latest.now ≤ 14 }
    ensures { result ≡ mp_or_zero (room_row (drop stage places.now) (drop row latest.now)) }
{
    if stage < places.len() {
        latest.get(row + (*places.get(stage) - 1))
    } else {
        0
    }
}

impl<'a> Step for TandemStep<'a> {
    type Carry = Latest;

    type Summary = Matrix;

    ghost size = { λ s. length s.arrive.now };

    ghost start = { λ s. none_kept s.places.now };

    ghost part = { λ s at. job_matrix s.places.now s.arrive.now s.demands.now at };

    ghost joined = { matrix_then };

    ghost acted = { matrix_act };

    ghost can_join = { CanMatrixThen };

    ghost can_act = { CanActOnTimes };

    fn count(&self) -> u32 {
        self.arrive.len() as u32
    }

    fn first(&self) -> Latest {
        Latest::zeros(self.rows)
    }

    fn one(&self, at: u32) -> Matrix {
        let mut all = Matrix::unit(self.rows);
        self.run_each(&mut all, at as usize, at as usize + 1);
        all
    }

    fn then(a: Matrix, b: Matrix) -> Matrix
        requires { CanMatrixThen a b }
        ensures { result ≡ matrix_then a b }
    {
        a.then(&b)
    }

    fn act(s: Matrix, c: Latest) -> Latest
        requires { CanActOnTimes s c }
        ensures { result ≡ matrix_act s c }
    {
        let mut rows = c.vector();
        s.act(&mut rows);
        Latest::of(&rows)
    }

    // Most entries of a job's matrix are void, so the job goes through each column as it does through
    // departures, and no matrix is made of it.
    fn extend(&self, sum: &mut Matrix, from: u32, to: u32)
        requires order { from ≤ to }
        requires inside { to ≤ length self.now.arrive.now }
        requires can { (n : ℕ) → from + n < to → CanMatrixThen (extended matrix_then (job_matrix self.now.places.now self.now.arrive.now self.now.demands.now) sum.old from n) (job_matrix self.now.places.now self.now.arrive.now self.now.demands.now (from + n)) }
        ensures { sum.new ≡ extended matrix_then (job_matrix self.now.places.now self.now.arrive.now self.now.demands.now) sum.old from (to - from) }
    {
        let mut at = from;
        while at < to {
            let end = run_end(from, at, to);
            self.run_each(sum, at as usize, end as usize);
            at = end;
        }
    }

    fn advance(&self, carry: &mut Latest, at: u32)
        requires inside { at < length self.now.arrive.now }
        requires can { CanActOnTimes (job_matrix self.now.places.now self.now.arrive.now self.now.demands.now at) carry.old }
        ensures { carry.new ≡ matrix_act (job_matrix self.now.places.now self.now.arrive.now self.now.demands.now at) carry.old }
    {
        self.serve(carry, at as usize);
    }

    ghost spans_join = { λ s from n m le. joins_of s.arrive.now s.demands.now s.places.now s.load from n m le };

    ghost spans_act = { λ s from n le. acts_of s.arrive.now s.demands.now s.places.now s.load from n le };

    ghost joins = { λ a b c _ _ _ _. joins_law a b c };

    ghost acts = { λ a b c _ _ _ _. acts_law a b c };
}

impl<'a> Timed for TandemStep<'a> {
    ghost time_of = { λ s carry. mp_or_zero (entry carry (last_row (kept s.places.now))) };

    ghost can_time = { λ s carry. length carry ≡ s.rows };

    // Returns the latest departure from the last stage.
    fn time(&self, carry: &Latest) -> u64 {
        carry.get(self.last)
    }

    ghost folds_time = { λ s n le. folds_size s.arrive.now s.demands.now s.places.now s.load s.rows s.all_rows n le };
}
