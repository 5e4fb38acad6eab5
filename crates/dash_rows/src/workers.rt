//! Steps taken on a row of parts by several workers, each part apart from the others.

mod deal;
pub mod gate;
mod halves;
pub mod held;
pub mod lane;
pub mod run;
