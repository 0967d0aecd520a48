// The way through a text from its end to its outermost "(", and the numbers of its groups from the last to the first.
// Where it stands is a place, the levels that are open, and the elements met of the innermost open list; each other
// open list has the elements met of it kept.
ghost use Rattle.std.specs.Prelude.{◌≡◌, ◌-◌, ◌≤◌, ◌<◌, get_or, set};
ghost use Rattle.text.specs.Limits.{levels, text_most};
ghost use Rattle.togroups.specs.Atoms.{Ends};
ghost use Rattle.togroups.specs.Listed.{Listed};
ghost use Rattle.togroups.specs.Walking.{behind, shut_at, open_at, AtomAt, Walking, Stepped};

use crate::atoms;
use scan::limits::PerLevel;
use scan::octals;

// With the number that the last step met, if it met one.
#[derive(Clone, Copy)]
pub struct Walk {
    pub at: usize,
    pub depth: usize,
    pub count: u32,
    pub number: Option<u64>,
}

// The elements met of each open list, the outermost first at 1, but for the innermost.
pub type Outer = PerLevel<u32>;

impl Walk {
    // behind the text
    pub fn behind(end: usize) -> Walk
        ensures { result ≡ behind end }
    {
        Walk {
            at: end,
            depth: 0,
            count: 0,
            number: None,
        }
    }
}

// ")"
fn shut(outer: &mut Outer, w: Walk) -> Walk
    requires { (1 ≤ w.at) × (w.depth < levels) }
    ensures { (result ≡ shut_at w) × (outer.new ≡ set outer.old w.depth w.count) }
{
    let depth = w.depth;
    outer[depth] = w.count;
    Walk {
        at: w.at - 1,
        depth: depth + 1,
        count: 0,
        number: None,
    }
}

// "(" of an element
fn open(outer: &Outer, w: Walk) -> Walk
    requires le_at { (1 ≤ w.at) × (1 ≤ w.depth) × (w.depth ≤ levels) × (w.count ≤ text_most) }
    requires depth_bound { get_or outer.now (w.depth - 1) 0 ≤ text_most }
    ensures { result ≡ open_at outer.now w }
{
    let depth = w.depth - 1;
    Walk {
        at: w.at - 1,
        depth,
        count: outer[depth] + 1,
        number: Some(2 * u64::from(w.count) + 1),
    }
}

// An atom.
fn atom(text: &[u8], w: Walk) -> Walk
    requires ends { Ends text.now w.at }
    requires count_le_text_most { w.count ≤ text_most }
    ensures { AtomAt text.now w result }
{
    let a = atoms::before(text, w.at);
    Walk {
        at: a.from,
        depth: w.depth,
        count: w.count + 1,
        number: Some(2 * a.value),
    }
}

// One element or bracket back, or one character that is neither. A "," has a step of its own: the processor then
// guesses where the walk goes on, and need not wait for the character. What is known of the text stays a clause: a slice
// with a type of its own would be made of it in one place and say no more.
pub fn step(text: &[u8], outer: &mut Outer, w: Walk) -> Walk
    requires listed { Listed text.now }
    requires walking { Walking text.now outer.old w }
    requires le_at { 2 ≤ w.at }
    ensures { Stepped text.now outer.new w result }
{
    let last = w.at - 1;
    if octals::is_octal(text[last]) {
        return atom(text, w);
    }
    if text[last] == b')' {
        return shut(outer, w);
    }
    if text[last] == b'(' {
        return open(outer, w);
    }
    Walk {
        at: last,
        depth: w.depth,
        count: w.count,
        number: None,
    }
}
