// The limits of text: constants of the kind of thing that they limit, which `specs/Tied` ties to the numbers of the definitions.
#[derive(Clone, Copy)]
pub struct Level;

impl Level {
    pub const MOST: u32 = 200;
}

#[derive(Clone, Copy)]
pub struct Digits;

impl Digits {
    pub const MOST: usize = 11;
}

// One for each level that may be open: an array, since nothing is allocated.
pub type PerLevel<T> = [T; Level::MOST as usize];
