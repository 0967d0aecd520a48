// What a line of a session means, and the bytes that answer it. It reads and writes nothing itself.

#![tactic(auto)]

pub mod gather;
pub mod number;
pub mod order;
pub mod printed;
pub mod record;
