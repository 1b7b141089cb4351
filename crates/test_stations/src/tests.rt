// One file per crate.
mod delay;
mod join;
mod loss;
mod maxplus;
mod merge;
mod server;
mod split;
mod trunk;
