//! Two workers at once, over connections in memory.

mod gate;
mod pools;
mod screen;
mod staged;
