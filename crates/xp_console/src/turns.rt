//! Turns of other threads, while a text of thousands of items is written.

use std::thread;

/// How many items are written at most before other threads get a turn. They take some 0.2 milliseconds.
const ITEMS_OF_A_TURN: usize = 64;

/// Gives other threads a turn behind each 64 items, where this is the number of the next one, from 0 on. A thread that computes for long
/// keeps its processor for some milliseconds, although the threads of lines have work.
pub(crate) fn let_others_run(number: usize) {
    if number % ITEMS_OF_A_TURN == ITEMS_OF_A_TURN - 1 {
        thread::yield_now();
    }
}
