// How runs of jobs act on the columns of a matrix.
ghost use Rattle.std.specs.Prelude.{◌≡◌, ℕ, ◌+◌, ◌-◌, ◌<◌, ◌≤◌, [], ◌∷◌, ◌++◌, All, IfSome, drop, length, map, slice_index_or, sum, take};
ghost use Rattle.mq_maxplus.specs.Maxplus.{Fits};
ghost use Rattle.mq_maxplus.specs.Matrices.{entry};
ghost use Rattle.mq_tandem.specs.Rows.{job_act, ran, room_row, RunFits};
ghost use Rattle.mq_tandem.specs.Bare.{AreBoth};

use crate::TandemStep;
use crate::both::Both;
use crate::likeness::{lower, raise, rise};
use crate::step::kept_of;
use mq_base::List;
use mq_maxplus::{Matrix, Mp, Vector};

impl<'a> TandemStep<'a> {
    // Applies the job at an index to a column.
    fn pass(&self, rows: &mut Vector, at: usize)
        requires inside { at < length self.now.arrive.now }
        requires size { length rows.old ≡ self.now.rows }
        requires fits { (row : ℕ) → Fits (entry (job_act self.now.places.now self.now.arrive.now self.now.demands.now at rows.old) row) }
        ensures acted { rows.new ≡ job_act self.now.places.now self.now.arrive.now self.now.demands.now at rows.old }
        ensures size { length rows.new ≡ length rows.old }
    {
        let mut time = rows.get(self.rows - 1).plus(Mp::At(*self.arrive.get(at)));
        let mut row = 0;
        for stage in 0..self.places.len() {
            let behind = row + kept_of(self.places, stage);
            let served = time
                .max(rows.get(row))
                .plus(Mp::At(self.demands.get(stage).at(at)));
            time = served.max(room_behind(rows, self.places, stage + 1, behind));
            put_latest(rows, row, behind, time);
            row = behind;
        }
    }

    // Applies the jobs of a range to a column.
    fn run(&self, rows: &mut Vector, from: usize, to: usize)
        requires order { from ≤ to }
        requires inside { to ≤ length self.now.arrive.now }
        requires size { length rows.old ≡ self.now.rows }
        requires fits { RunFits self.now.places.now self.now.arrive.now self.now.demands.now from (to - from) rows.old }
        ensures acted { rows.new ≡ ran self.now.places.now self.now.arrive.now self.now.demands.now from (to - from) rows.old }
        ensures size { length rows.new ≡ length rows.old }
    {
        for at in from..to {
            self.pass(rows, at);
        }
    }

    // Applies the jobs of a range, at least one, to each column of a matrix.
    pub(crate) fn run_each(&self, all: &mut Matrix, from: usize, to: usize)
        requires some { from < to }
        requires inside { to ≤ length self.now.arrive.now }
        requires size { length all.old ≡ self.now.rows }
        requires fits { All (RunFits self.now.places.now self.now.arrive.now self.now.demands.now from (to - from)) all.old }
        ensures ran { all.new ≡ map (ran self.now.places.now self.now.arrive.now self.now.demands.now from (to - from)) all.old }
        ensures size { length all.new ≡ length all.old }
    {
        let old = *all;
        let both = self.both_behind(&old, from, to);
        for index in 0..self.rows {
            let column = self.column_at(&both, &old, all, index, from, to);
            all.set_column(index, &column);
        }
    }

    // Returns what the jobs of a range make of a column. For the first and the last column, that may be
    // known already.
    fn column_at(
        &self,
        both: &Option<Both>,
        old: &Matrix,
        now: &Matrix,
        index: u8,
        from: usize,
        to: usize,
    ) -> Vector
        requires some { from < to }
        requires inside { to ≤ length self.now.arrive.now }
        requires index { index < self.now.rows }
        requires old { length old.now ≡ self.now.rows }
        requires now { length now.now ≡ self.now.rows }
        requires fits { All (RunFits self.now.places.now self.now.arrive.now self.now.demands.now from (to - from)) old.now }
        requires done { take index now.now ≡ take index (map (ran self.now.places.now self.now.arrive.now self.now.demands.now from (to - from)) old.now) }
        requires both { IfSome both.now (AreBoth self.now.places.now self.now.arrive.now self.now.demands.now from (to - from) old.now) }
        ensures acted { result ≡ ran self.now.places.now self.now.arrive.now self.now.demands.now from (to - from) (slice_index_or old.now index []) }
        ensures size { length result ≡ self.now.rows }
    {
        if let Some(both) = both {
            if index == 0 {
                return both.first;
            }
            if index + 1 == self.rows {
                return both.zero;
            }
        }
        self.column_behind(old, now, index, from, to)
    }

    // Returns what the jobs of a range make of a column of a matrix. What they make of the earlier columns
    // is known. If two columns differ by a number, they still do so after the jobs. In a tandem's matrices
    // that happens after few jobs, for all columns but that of the zero (the memory of a max-plus product
    // is short). From then on the jobs go through two columns only.
    fn column_behind(&self, old: &Matrix, now: &Matrix, index: u8, from: usize, to: usize) -> Vector
        requires some { from < to }
        requires inside { to ≤ length self.now.arrive.now }
        requires index { index < self.now.rows }
        requires old { length old.now ≡ self.now.rows }
        requires now { length now.now ≡ self.now.rows }
        requires fits { All (RunFits self.now.places.now self.now.arrive.now self.now.demands.now from (to - from)) old.now }
        requires done { take index now.now ≡ take index (map (ran self.now.places.now self.now.arrive.now self.now.demands.now from (to - from)) old.now) }
        ensures acted { result ≡ ran self.now.places.now self.now.arrive.now self.now.demands.now from (to - from) (slice_index_or old.now index []) }
        ensures size { length result ≡ self.now.rows }
    {
        for earlier in 0..index {
            if let Some(by) = rise(old.column(earlier), old.column(index), self.last) {
                let mut rows = *now.column(earlier);
                raise(&mut rows, by);
                return rows;
            }
            if let Some(by) = rise(old.column(index), old.column(earlier), self.last) {
                let mut rows = *now.column(earlier);
                lower(&mut rows, by);
                return rows;
            }
        }
        let mut rows = *old.column(index);
        self.run(&mut rows, from, to);
        rows
    }
}

// Returns when a stage after the first has room for another job. Its departures begin at this row of a
// column. After the last stage there is always room.
#[inline]
fn room_behind(rows: &Vector, places: &List<u8>, stage: usize, row: u8) -> Mp
    requires room { All (λ count. 1 ≤ count) (drop stage places.now) }
    requires inside { row + sum (drop stage places.now) < length rows.now }
    requires few { length rows.now ≤ 14 }
    ensures { result ≡ room_row (drop stage places.now) (drop row rows.now) }
{
    if stage < places.len() {
        rows.get(row + (*places.get(stage) - 1))
    } else {
        Mp::Void
    }
}

// Puts a departure before those of a stage. The earliest of the stage is dropped.
#[inline]
fn put_latest(rows: &mut Vector, row: u8, behind: u8, time: Mp)
    requires some { row ≤ behind }
    requires inside { behind ≤ length rows.old }
    ensures put { rows.new ≡ take row rows.old ++ (take (behind - row) (time ∷ drop row rows.old) ++ drop behind rows.old) }
    ensures size { length rows.new ≡ length rows.old }
{
    let mut moved = time;
    for index in row..behind {
        let earlier = rows.get(index);
        rows.set(index, moved);
        moved = earlier;
    }
}
