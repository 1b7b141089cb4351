// Two columns of a matrix, the first and that of the zero, through which jobs go in one loop over plain
// numbers.
ghost use Rattle.std.specs.Prelude.{◌≡◌, ℕ, ◌+◌, ◌-◌, ◌<◌, ◌≤◌, ◌∷◌, ◌++◌, [], All, IfSome, length, take};
ghost use Rattle.mq_maxplus.specs.declared.mp.Mp.TheVariants.{Void};
ghost use Rattle.mq_maxplus.specs.Maxplus.{Fits};
ghost use Rattle.mq_maxplus.specs.Matrices.{entry};
ghost use Rattle.mq_tandem.specs.Rows.{job_act, ran, RunFits};
ghost use Rattle.mq_tandem.specs.Bare.{bare, AreBoth};

use crate::step::{kept_of, room_at};
use crate::{Latest, TandemStep};
use mq_maxplus::{Matrix, Mp, Vector};

/// What jobs make of the first column of a matrix and of the last, which is that of the zero.
#[derive(Clone, Copy)]
pub(crate) struct Both {
    pub(crate) first: Vector,
    pub(crate) zero: Vector,
}

impl<'a> TandemStep<'a> {
    // Returns what the jobs of a range make of the first and the last column of a matrix, if the entry of
    // the first in the row of the zero is minus infinity, and all other entries of both are numbers. After
    // few jobs they are.
    pub(crate) fn both_behind(&self, old: &Matrix, from: usize, to: usize) -> Option<Both>
        requires some { from < to }
        requires inside { to ≤ length self.now.arrive.now }
        requires old { length old.now ≡ self.now.rows }
        requires fits { All (RunFits self.now.places.now self.now.arrive.now self.now.demands.now from (to - from)) old.now }
        ensures { IfSome result (AreBoth self.now.places.now self.now.arrive.now self.now.demands.now from (to - from) old.now) }
    {
        let mut first = numbers_but_last(old.column(0))?;
        let mut zero = numbers_of(old.column(self.rows - 1), self.rows)?;
        self.run_both(&mut first, &mut zero, from, to);
        let mut bare = first.vector();
        bare.set(self.rows - 1, Mp::Void);
        Some(Both {
            first: bare,
            zero: zero.vector(),
        })
    }

    // Applies the jobs of a range to both columns. The first has no entry in the row of the zero.
    fn run_both(&self, first: &mut Latest, zero: &mut Latest, from: usize, to: usize)
        requires order { from ≤ to }
        requires inside { to ≤ length self.now.arrive.now }
        requires first_size { length first.old ≡ self.now.rows }
        requires zero_size { length zero.old ≡ self.now.rows }
        requires first_fits { RunFits self.now.places.now self.now.arrive.now self.now.demands.now from (to - from) (bare self.now.places.now first.old) }
        requires zero_fits { RunFits self.now.places.now self.now.arrive.now self.now.demands.now from (to - from) zero.old }
        ensures first { bare self.now.places.now first.new ≡ ran self.now.places.now self.now.arrive.now self.now.demands.now from (to - from) (bare self.now.places.now first.old) }
        ensures zero { zero.new ≡ ran self.now.places.now self.now.arrive.now self.now.demands.now from (to - from) zero.old }
        ensures first_size { length first.new ≡ length first.old }
        ensures zero_size { length zero.new ≡ length zero.old }
    {
        for at in from..to {
            self.serve_both(first, zero, at);
        }
    }

    // Takes the job at an index through the stages, in both columns at once. The first column has no
    // zero, so no arrival time enters it: there the job comes when the one before it leaves the first stage.
    fn serve_both(&self, first: &mut Latest, zero: &mut Latest, at: usize)
        requires inside { at < length self.now.arrive.now }
        requires first_size { length first.old ≡ self.now.rows }
        requires zero_size { length zero.old ≡ self.now.rows }
        requires first_fits { (row : ℕ) → Fits (entry (job_act self.now.places.now self.now.arrive.now self.now.demands.now at (bare self.now.places.now first.old)) row) }
        requires zero_fits { (row : ℕ) → Fits (entry (job_act self.now.places.now self.now.arrive.now self.now.demands.now at zero.old) row) }
        ensures first { bare self.now.places.now first.new ≡ job_act self.now.places.now self.now.arrive.now self.now.demands.now at (bare self.now.places.now first.old) }
        ensures zero { zero.new ≡ job_act self.now.places.now self.now.arrive.now self.now.demands.now at zero.old }
        ensures first_size { length first.new ≡ length first.old }
        ensures zero_size { length zero.new ≡ length zero.old }
    {
        let mut time = zero.get(self.rows - 1) + *self.arrive.get(at);
        let mut bare = first.get(0);
        let mut row = 0;
        for stage in 0..self.places.len() {
            let behind = row + kept_of(self.places, stage);
            let demand = self.demands.get(stage).at(at);
            let done = time.max(zero.get(row)) + demand;
            let bare_done = bare.max(first.get(row)) + demand;
            time = done.max(room_at(zero, self.places, stage + 1, behind));
            bare = bare_done.max(room_at(first, self.places, stage + 1, behind));
            zero.put(row, behind, time);
            first.put(row, behind, bare);
            row = behind;
        }
    }
}

// Returns the numbers of a column, if minus infinity is in its last row and nowhere else. That row gets 0.
fn numbers_but_last(rows: &Vector) -> Option<Latest>
    requires few { length rows.now ≤ 14 }
    ensures is { IfSome result (λ numbers. rows.now ≡ take (length rows.now - 1) numbers ++ (Void ∷ [])) }
    ensures size { IfSome result (λ numbers. length numbers ≡ length rows.now) }
{
    let last = rows.size() - 1;
    if rows.get(last) == Mp::Void {
        numbers_of(rows, last)
    } else {
        None
    }
}

// Returns the numbers in the first `many` rows of a column, if none of them is minus infinity, and zeros
// in the rows after them.
fn numbers_of(rows: &Vector, many: u8) -> Option<Latest>
    requires few { length rows.now ≤ 14 }
    requires inside { many ≤ length rows.now }
    ensures are { IfSome result (λ numbers. take many numbers ≡ take many rows.now) }
    ensures size { IfSome result (λ numbers. length numbers ≡ length rows.now) }
{
    let mut all = Latest::zeros(rows.size());
    for row in 0..many {
        let Mp::At(time) = rows.get(row) else {
            return None;
        };
        all.set(row, time);
    }
    Some(all)
}
