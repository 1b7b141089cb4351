// Vectors that differ by a number.
ghost use Rattle.std.specs.Prelude.{◌≡◌, ℕ, ◌<◌, length, map, IfSome, IsTrue};
ghost use Rattle.mq_maxplus.specs.declared.mp.Mp.TheVariants.{At};
ghost use Rattle.mq_maxplus.specs.Maxplus.{mp_plus, Fits};
ghost use Rattle.mq_maxplus.specs.Matrices.{entry, vec_plus};
ghost use Rattle.mq_tandem.specs.Rows.{mp_minus};

use mq_maxplus::{Mp, Vector};

// Returns the difference of two vectors, if `high` is above `low` by the same number in each row. The
// number is read in this row.
pub(crate) fn rise(low: &Vector, high: &Vector, row: u8) -> Option<u64>
    requires same { length low.now ≡ length high.now }
    requires row { row < length low.now }
    ensures { IfSome result (λ by. high.now ≡ vec_plus (At by) low.now) }
{
    match (low.get(row), high.get(row)) {
        (Mp::At(x), Mp::At(y)) if x <= y && is_above(low, high, y - x) => Some(y - x),
        _ => None,
    }
}

fn is_above(low: &Vector, high: &Vector, by: u64) -> bool
    requires same { length low.now ≡ length high.now }
    ensures { IsTrue result → high.now ≡ vec_plus (At by) low.now }
{
    for row in 0..low.size() {
        if !is_sum(low.get(row), by, high.get(row)) {
            return false;
        }
    }
    true
}

fn is_sum(low: Mp, by: u64, high: Mp) -> bool
    ensures { IsTrue result → high ≡ mp_plus (At by) low }
{
    match (low, high) {
        (Mp::Void, Mp::Void) => true,
        (Mp::At(x), Mp::At(y)) => by <= y && y - by == x,
        _ => false,
    }
}

// Adds a number to each row.
pub(crate) fn raise(rows: &mut Vector, by: u64)
    requires { (row : ℕ) → Fits (mp_plus (At by) (entry rows.old row)) }
    ensures raised { rows.new ≡ vec_plus (At by) rows.old }
    ensures size { length rows.new ≡ length rows.old }
{
    for row in 0..rows.size() {
        rows.set(row, Mp::At(by).plus(rows.get(row)));
    }
}

// Subtracts a number from each row.
pub(crate) fn lower(rows: &mut Vector, by: u64)
    ensures lowered { rows.new ≡ map (mp_minus by) rows.old }
    ensures size { length rows.new ≡ length rows.old }
{
    for row in 0..rows.size() {
        rows.set(row, less(rows.get(row), by));
    }
}

fn less(x: Mp, by: u64) -> Mp
    ensures { result ≡ mp_minus by x }
{
    match x {
        Mp::Void => Mp::Void,
        Mp::At(x) => Mp::At(x.saturating_sub(by)),
    }
}
