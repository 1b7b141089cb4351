ghost use Rattle.std.specs.Prelude.{◌≡◌, ◌^◌, ◌∷◌, []};
ghost use Rattle.mq_maxplus.specs.declared.mp.Mp.TheVariants.{Void, At};
ghost use Rattle.mq_maxplus.specs.Within.{IsWithin};

use mq_maxplus::{Matrix, Mp, Vector};
use std::test::Fail;

// Returns the matrix of a job of a server, or of several jobs together. It acts on the last
// departure and a zero.
fn job(add: u32, least: u32) -> Matrix
    ensures { result ≡ (At add ∷ Void ∷ []) ∷ (At least ∷ At 0 ∷ []) ∷ [] }
{
    let mut all = Matrix::unit(2);
    all.set(0, 0, Mp::At(u64::from(add)));
    all.set(0, 1, Mp::At(u64::from(least)));
    all
}

// Returns the last departure and a zero.
fn rows(last: Mp) -> Vector
    ensures { result ≡ last ∷ At 0 ∷ [] }
{
    let mut all = Vector::new(2);
    all.set(0, last);
    all.set(1, Mp::At(0));
    all
}

// Returns the first row of the matrix of two jobs together.
fn composed(add: u32, least: u32, next_add: u32, next_least: u32) -> [Mp; 2] {
    let all = job(add, least).then(&job(next_add, next_least));
    [all.get(0, 0), all.get(0, 1)]
}

// Returns when the last of some jobs leaves.
fn departure(add: u32, least: u32, last: Mp) -> Mp
    requires { IsWithin (2 ^ 32) last }
{
    let mut all = rows(last);
    job(add, least).act(&mut all);
    all.get(0)
}

#[test]
fn the_jobs_of_a_server_are_matrices(rt: HostRuntime) -> Result<(), Fail> {
    assert!(rt; composed(4, 4, 1, 2) == [Mp::At(5), Mp::At(5)]);
    assert!(rt; departure(4, 4, Mp::Void) == Mp::At(4));
    assert!(rt; departure(1, 2, Mp::At(4)) == Mp::At(5));
    assert!(rt; departure(5, 5, Mp::Void) == Mp::At(5));
    assert!(rt; departure(3, 5, Mp::At(5)) == Mp::At(8));
    Ok(())
}
