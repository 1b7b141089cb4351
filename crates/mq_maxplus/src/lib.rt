//! Numbers under max and plus, with minus infinity, and the maps by which a job acts on the
//! departures before it: affine maps of one number, and matrices.
#![tactic(auto)]

mod affine;
mod matrix;
mod mp;
mod vector;

pub use affine::{Affine, affine_laws};
pub use matrix::{Matrix, matrix_laws};
pub use mp::Mp;
pub use vector::Vector;
