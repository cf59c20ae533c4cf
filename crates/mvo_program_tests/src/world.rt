//! Tests of what no script asks of a world.
mod in_turn;
mod runs;
