// Compares kept runs with whole runs over the same rows.
mod calls;
mod cases;
mod draws;
mod kept;
mod networks;
mod rows;
mod same;
