// The lines of a table: the table's own type with its limits, and the function that takes one line's numbers.
#![tactic(auto)]

mod shape; // shape.rt: Shape, which line is due and what the lines before it said; the limits
mod fits; // fits.rt: whether one line's numbers fit, a test for each kind of line
mod next; // next.rt: the shape that comes after a line
mod line; // line.rt: one line's numbers taken in

pub use fits::{fits_go, fits_item_of, fits_state};
pub use shape::{Due, Limits, Shape};
