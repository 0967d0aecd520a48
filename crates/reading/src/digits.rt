// An atom of a text that is known to be a list: its value, and where it ends, in one walk over its digits.
ghost use Rattle.std.specs.Prelude.{◌≡◌};
ghost use Rattle.reading.specs.Numbers.{number_at, Numbered};

use scan::octals;

#[derive(Clone, Copy)]
pub struct Number {
    pub value: u32,
    pub end: usize,
}

// The digits at `from`; of none the value is 0. Value and end come of one walk, which an iterator would have to do with both in a
// pair.
pub fn number_at(text: &[u8], from: usize) -> Number
    requires { Numbered text.now from }
    ensures { result ≡ number_at text.now from }
{
    let mut value = 0;
    let mut i = from;
    while octals::is_octal(text[i]) {
        value = value * 8 + u32::from(text[i] - b'0');
        i += 1;
    }
    Number { value, end: i }
}
