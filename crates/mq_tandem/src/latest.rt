// The latest departures from the stages of a tandem, as plain numbers.
ghost use Rattle.std.specs.Prelude.{◌≡◌, ◌+◌, ◌-◌, ◌<◌, ◌≤◌, ◌∷◌, ◌++◌, All, drop, length, replicate, slice_set, take};
ghost use Rattle.mq_maxplus.specs.declared.mp.Mp.TheVariants.{At};
ghost use Rattle.mq_maxplus.specs.Matrices.{entry};
ghost use Rattle.mq_tandem.specs.Rows.{IsTime};

use mq_maxplus::{Mp, Vector};
use std::marker::Model;

/// What a job of a tandem leaves to the next job: the latest departures from the stages, in ticks.
/// Those of a stage come latest first, and a zero follows all of them. They are 1 to 14 numbers, and
/// none is minus infinity.
#[derive(Clone, Copy)]
pub struct Latest {
    rows: u8,
    times: [u64; 14],
}

impl Model for Latest {
    ghost use Rattle.std.specs.Prelude.{◌-◌, ◌++◌, List, length, map, replicate, take};
    ghost use Rattle.mq_maxplus.specs.declared.mp.Mp.{Mp};
    ghost use Rattle.mq_maxplus.specs.declared.mp.Mp.TheVariants.{At};
    ghost use Rattle.mq_maxplus.specs.Maxplus.{mp_or_zero};
    ghost use Rattle.mq_tandem.specs.Padded.{ArePadded, rows-back, times-back};

    ghost Value = { List Mp };

    ghost view = { λ l. map At (take l.rows l.times) };

    // Zeros follow the last row.
    ghost invariant = { λ l. ArePadded l.rows l.times };

    ghost inverse = { λ xs. record { rows = length xs; times = map mp_or_zero xs ++ replicate (14 - length xs) 0 } };

    ghost inverse_ok = { λ l h i. record { rows = rows-back l.rows l.times h i; times = times-back l.rows l.times h i } };
}

impl Latest {
    // Returns zeros, in 1 to 14 rows.
    pub(crate) fn zeros(rows: u8) -> Latest
        requires some { 1 ≤ rows }
        requires few { rows ≤ 14 }
        ensures { result ≡ replicate rows (At 0) }
    {
        Latest {
            rows,
            times: [0; 14],
        }
    }

    // Returns the numbers of a vector that has no minus infinity.
    pub(crate) fn of(rows: &Vector) -> Latest
        requires few { length rows.now ≤ 14 }
        requires times { All IsTime rows.now }
        ensures { result ≡ rows.now }
    {
        let mut all = Latest::zeros(rows.size());
        for row in 0..rows.size() {
            all.set(row, rows.get(row).or_zero());
        }
        all
    }

    /// Returns these departures as a vector, with one entry per row.
    pub fn vector(&self) -> Vector
        ensures same { result ≡ self.now }
        ensures few { length result ≤ 14 }
    {
        let mut all = Vector::new(self.rows);
        for row in 0..self.rows {
            all.set(row, Mp::At(self.get(row)));
        }
        all
    }

    #[inline]
    pub(crate) fn get(&self, row: u8) -> u64
        requires { row < length self.now }
        ensures { entry self.now row ≡ At result }
    {
        self.times[row as usize]
    }

    #[inline]
    pub(crate) fn set(&mut self, row: u8, time: u64)
        requires { row < length self.old }
        ensures { self.new ≡ slice_set self.old row (At time) }
    {
        self.times[row as usize] = time;
    }

    // Puts a departure before those of a stage, which are at most four. The earliest of the stage is
    // dropped. The moves are written out, because in a loop they take twice as long.
    #[inline]
    pub(crate) fn put(&mut self, row: u8, behind: u8, time: u64)
        requires some { row ≤ behind }
        requires inside { behind ≤ length self.old }
        requires few { behind ≤ row + 4 }
        ensures put { self.new ≡ take row self.old ++ (take (behind - row) (At time ∷ drop row self.old) ++ drop behind self.old) }
        ensures size { length self.new ≡ length self.old }
    {
        let kept = behind - row;
        if kept == 0 {
            return;
        }
        let second = self.replaced(row, time);
        if kept == 1 {
            return;
        }
        let third = self.replaced(row + 1, second);
        if kept == 2 {
            return;
        }
        let fourth = self.replaced(row + 2, third);
        if kept == 3 {
            return;
        }
        self.set(row + 3, fourth);
    }

    // Writes the number in a row, and returns the one before.
    #[inline]
    fn replaced(&mut self, row: u8, time: u64) -> u64
        requires { row < length self.old }
        ensures earlier { entry self.old row ≡ At result }
        ensures set { self.new ≡ slice_set self.old row (At time) }
    {
        let earlier = self.get(row);
        self.set(row, time);
        earlier
    }
}
