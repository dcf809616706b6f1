//! Parts of lines in memory, which do what a scene tells in words: links, ports, clocks, bells and pollers.
//!
//! A scene has a line of words for serving (`serve ..`) and one for each line of the exchange that gets a link (`a1 ..`). In the
//! words of a line `>NAME` is a packet that its link gives once it took all that is wanted before it, `<NAME` a packet that it is
//! to be given, and `|` stands before what it is to be given by a stop. The link ends with `>end`. Other words are settings:
//!
//! | Word of a line | Meaning |
//! |---|---|
//! | `none`, `broken` | no link comes, or the port has a fault |
//! | `pull-fault`, `push-fault` | the pull or push of the scene's number meets a fault |
//! | `most=N`, `all=N` | a push takes so many octets at most, and all pushes together |
//! | `meets=L..` | its link gives its first packet once the links of these lines have one to give |
//! | `pulled=L..`, `h1-took=N`, `recorded=N` | its link gives nothing until these lines were pulled from, h1's link took so many octets, and so many records were handed to the sink |
//! | `wakes=N` | where it has a thread, the line stops after the other line of its call, which wakes it so often |
//! | `counted`, `pushed` | it is told how often it was pulled from, time passed there and it was woken; how often it was pushed into |
#![tactic(auto)]

mod board;
mod part;
mod plan;

pub use board::{Board, Line};
pub use part::Part;
pub use plan::{Plan, words_of};
