// Square matrices under max and plus.
ghost use Rattle.std.specs.Prelude.{◌≡◌, ℕ, ◌<◌, ◌≤◌, List as Items, [], Some, length, slice_get, slice_index_or, slice_set};
ghost use Rattle.mq_maxplus.specs.declared.mp.Mp.{Mp as Number};
ghost use Rattle.mq_maxplus.specs.declared.mp.Mp.TheVariants.{At};
ghost use Rattle.mq_maxplus.specs.Matrices.{entry, greatest_sum, matrix_act, matrix_entry, matrix_then, unit_matrix, voids, CanMatrixAct, CanMatrixThen};

use crate::{Mp, Vector};
use std::marker::Model;

/// A square matrix of 1 to 16 rows, which maps vectors of its size: the result is the greatest, row by
/// row, of its columns, each with the vector's number of that index added.
#[derive(Clone, Copy)]
pub struct Matrix {
    size: u8,
    columns: [Vector; 16],
}

impl Model for Matrix {
    ghost use Rattle.std.specs.Prelude.{◌-◌, ◌++◌, List, length, replicate, take};
    ghost use Rattle.mq_maxplus.specs.declared.mp.Mp.{Mp};
    ghost use Rattle.mq_maxplus.specs.Matrices.{voids};
    ghost use Rattle.mq_maxplus.specs.Padded.{IsPaddedMatrix, columns-back, columns-size-back};

    ghost Value = { List (List Mp) };

    ghost view = { λ m. take m.size m.columns };

    // After the last column there is only minus infinity.
    ghost invariant = { λ m. IsPaddedMatrix m.size m.columns };

    ghost inverse = { λ cs. record { size = length cs; columns = cs ++ replicate (16 - length cs) (voids (length cs)) } };

    ghost inverse_ok = { λ m h i. record { size = columns-size-back m.size m.columns h i; columns = columns-back m.size m.columns h i } };
}

impl Matrix {
    /// Returns the matrix of this size, 1 to 16, that leaves each vector unchanged: zero on the
    /// diagonal, minus infinity elsewhere.
    pub fn unit(size: u8) -> Matrix
        requires some { 1 ≤ size }
        requires few { size ≤ 16 }
        ensures { result ≡ unit_matrix size }
    {
        let mut columns = [Vector::new(size); 16];
        for index in 0..size {
            let mut column = Vector::new(size);
            column.set(index, Mp::At(0));
            columns[index as usize] = column;
        }
        Matrix { size, columns }
    }

    /// Returns the number of rows, which is also the number of columns.
    #[inline]
    pub fn size(&self) -> u8
        ensures size { result ≡ length self.now }
        ensures some { 1 ≤ result }
        ensures few { result ≤ 16 }
    {
        self.size
    }

    /// Returns the number in a row and a column, both from 0 and below the size.
    #[inline]
    pub fn get(&self, row: u8, column: u8) -> Mp
        requires row { row < length self.now }
        requires column { column < length self.now }
        ensures { result ≡ matrix_entry self.now row column }
    {
        self.columns[column as usize].get(row)
    }

    /// Writes the number in a row and a column, both below the size.
    pub fn set(&mut self, row: u8, column: u8, value: Mp)
        requires row { row < length self.old }
        requires column { column < length self.old }
        ensures { self.new ≡ slice_set self.old column (slice_set (slice_index_or self.old column []) row value) }
    {
        let mut changed = *self.column(column);
        changed.set(row, value);
        self.set_column(column, &changed);
    }

    /// Returns a column, from 0 and below the size.
    #[inline]
    pub fn column(&self, column: u8) -> &Vector
        requires { column < length self.now }
        ensures item { slice_get self.now column ≡ Some result.now }
        ensures size { length result.now ≡ length self.now }
    {
        &self.columns[column as usize]
    }

    /// Replaces a column, below the size, by a vector of that size.
    #[inline]
    pub fn set_column(&mut self, column: u8, value: &Vector)
        requires column { column < length self.old }
        requires size { length value.now ≡ length self.old }
        ensures { self.new ≡ slice_set self.old column value.now }
    {
        self.columns[column as usize] = *value;
    }

    /// Returns the composition in which this matrix acts first, with a matrix of the same size. The sums
    /// in it must fit.
    pub fn then(&self, next: &Matrix) -> Matrix
        requires { CanMatrixThen self.now next.now }
        ensures { result ≡ matrix_then self.now next.now }
    {
        let mut all = *self;
        for index in 0..self.size() {
            let mut column = *self.column(index);
            next.act(&mut column);
            all.set_column(index, &column);
        }
        all
    }

    /// Replaces a vector of the matrix's size by what the matrix makes of it. The sums in it must fit.
    pub fn act(&self, on: &mut Vector)
        requires { CanMatrixAct self.now on.old }
        ensures acted { on.new ≡ matrix_act self.now on.old }
        ensures size { length on.new ≡ length on.old }
    {
        let mut all = Vector::new(self.size);
        for index in (0..self.size).rev() {
            all.cover(self.column(index), on.get(index));
        }
        *on = all;
    }
}

/// Laws. Each row of what a matrix makes of a vector is the greatest, over the columns, of the sum of
/// the number there and the vector's number of the column's index. Each entry of a composition is that
/// greatest sum of the second matrix in that row, with the column of the first matrix as the vector.
/// Acting by a composition is acting by its first matrix and then by its second, and composition is
/// associative. A column of the unit matrix has a zero in the row of its index and minus infinity
/// elsewhere; the unit matrix leaves each vector of its size unchanged.
pub fn matrix_laws()
    ensures rows { (s : Items (Items Number)) (x : Items Number) (row : ℕ) → entry (matrix_act s x) row ≡ greatest_sum s x row }
    ensures acts { (s t : Items (Items Number)) (x : Items Number) → matrix_act (matrix_then s t) x ≡ matrix_act t (matrix_act s x) }
    ensures joins { (s t u : Items (Items Number)) → matrix_then (matrix_then s t) u ≡ matrix_then s (matrix_then t u) }
    ensures products { (s t : Items (Items Number)) (row column : ℕ) → matrix_entry (matrix_then s t) row column ≡ greatest_sum t (slice_index_or s column []) row }
    ensures diagonal { (size index : ℕ) → index < size → slice_index_or (unit_matrix size) index [] ≡ slice_set (voids size) index (At 0) }
    ensures units { (x : Items Number) → matrix_act (unit_matrix (length x)) x ≡ x }
{}
