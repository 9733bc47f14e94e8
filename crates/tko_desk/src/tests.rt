//! Passes that change hands, between real threads.

mod hammering;
