// What walks a main level: the tests that stop at it, and the operations that turn it round, copy it or join to it.
// All is inlined where a pool is lent, so that its shape and words stay in registers.

#![tactic(auto)]

pub mod copy;
pub mod join;
pub mod turn;
pub mod walk;
