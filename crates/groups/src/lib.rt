// The two forms in which a list is stored: records of text, and groups.

#![tactic(auto)]

#[derive(Clone, Copy)]
pub enum Stored {
    Text,
    Groups,
}
