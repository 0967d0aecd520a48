// What each line of a session does, and the bytes that answer it. It reads and writes nothing itself.

#![tactic(auto)]

pub mod answer;
pub mod engine;
pub mod free;
pub mod texts;
