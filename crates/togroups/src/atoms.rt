// An atom of a text that is known to be a list, found from its end: its value, and where it begins.
ghost use Rattle.std.specs.Prelude.{◌+◌, drop};
ghost use Rattle.scan.specs.Runs.{digit_run};
ghost use Rattle.togroups.specs.Atoms.{Ends, Gathered, Before};

use scan::octals;

#[derive(Clone, Copy)]
pub struct Atom {
    pub value: u64,
    pub from: usize,
}

// The digits before some that were gathered: these have the value and begin at `from`, and a digit before them is worth
// `worth` times as much. A text begins with "(", so that a byte stands before. Value and place come of one walk, which
// an iterator would have to do with both in a tuple.
fn further(text: &[u8], from: usize, value: u64, worth: u64) -> Atom
    requires { Gathered text.now from value worth }
    ensures { Before text.now (from + digit_run (drop from text.now)) result }
{
    let mut i = from;
    let mut v = value;
    let mut w = worth;
    while octals::is_octal(text[i - 1]) {
        i -= 1;
        v += u64::from(text[i] - b'0') * w;
        w *= 8;
    }
    Atom { value: v, from: i }
}

// The digits that end before `at`. One digit alone is looked for first.
pub fn before(text: &[u8], at: usize) -> Atom
    requires { Ends text.now at }
    ensures { Before text.now at result }
{
    let last = at - 1;
    let value = u64::from(text[last] - b'0');
    if octals::is_octal(text[last - 1]) {
        return further(text, last, value, 8);
    }
    Atom { value, from: last }
}
