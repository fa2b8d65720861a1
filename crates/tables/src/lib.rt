// The tables of all paths, as the walk over the statements holds them: a path for each declaration. What is asked before the
// statements and after them.
#![tactic(auto)]

pub mod build; // build.rt: the tables
pub mod shape; // shape.rt: flow and the count of paths
pub mod unused; // unused.rt: items left over
