// Vectors under max and plus.
ghost use Rattle.std.specs.Prelude.{◌≡◌, ℕ, ◌<◌, ◌≤◌, length, slice_set};
ghost use Rattle.mq_maxplus.specs.Matrices.{entry, vec_max, vec_plus, voids};
ghost use Rattle.mq_maxplus.specs.Maxplus.{mp_plus, Fits};

use crate::Mp;
use std::marker::Model;

/// A column of 1 to 16 numbers, each of which may be minus infinity.
#[derive(Clone, Copy)]
pub struct Vector {
    size: u8,
    items: [Mp; 16],
}

impl Model for Vector {
    ghost use Rattle.std.specs.Prelude.{◌-◌, ◌++◌, List, length, take};
    ghost use Rattle.mq_maxplus.specs.declared.mp.Mp.{Mp};
    ghost use Rattle.mq_maxplus.specs.Matrices.{voids};
    ghost use Rattle.mq_maxplus.specs.Padded.{IsPadded, items-back, size-back};

    ghost Value = { List Mp };

    ghost view = { λ v. take v.size v.items };

    // After the last row there is only minus infinity.
    ghost invariant = { λ v. IsPadded v.size v.items };

    ghost inverse = { λ xs. record { size = length xs; items = xs ++ voids (16 - length xs) } };

    ghost inverse_ok = { λ v h i. record { size = size-back v.size v.items h i; items = items-back v.size v.items h i } };
}

impl Vector {
    /// Returns a vector of this size, 1 to 16, that is minus infinity everywhere.
    pub fn new(size: u8) -> Vector
        requires some { 1 ≤ size }
        requires few { size ≤ 16 }
        ensures { result ≡ voids size }
    {
        Vector {
            size,
            items: [Mp::Void; 16],
        }
    }

    /// Returns the number of rows.
    #[inline]
    pub fn size(&self) -> u8
        ensures size { result ≡ length self.now }
        ensures some { 1 ≤ result }
        ensures few { result ≤ 16 }
    {
        self.size
    }

    /// Returns the number in a row, from 0 and below the size.
    #[inline]
    pub fn get(&self, row: u8) -> Mp
        requires { row < length self.now }
        ensures { result ≡ entry self.now row }
    {
        self.items[row as usize]
    }

    /// Writes the number in a row, below the size.
    #[inline]
    pub fn set(&mut self, row: u8, value: Mp)
        requires { row < length self.old }
        ensures { self.new ≡ slice_set self.old row value }
    {
        self.items[row as usize] = value;
    }

    // Takes, row by row, the greater of this vector and of another with a number added.
    pub(crate) fn cover(&mut self, other: &Vector, by: Mp)
        requires same { length other.now ≡ length self.old }
        requires sums { (row : ℕ) → Fits (mp_plus by (entry other.now row)) }
        ensures covered { self.new ≡ vec_max (vec_plus by other.now) self.old }
        ensures size { length self.new ≡ length self.old }
    {
        for row in 0..self.size() {
            self.set(row, by.plus(other.get(row)).max(self.get(row)));
        }
    }
}
