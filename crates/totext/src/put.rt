// The text of a list that is held in groups, each character in its place. The elements still to come are counted: in
// hand for the innermost list, kept for the lists around it.
ghost use Rattle.std.specs.Prelude.{◌≡◌, ◌≢◌, ◌+◌, ◌≤◌, length};
ghost use Rattle.groups.specs.Reading.{list_in};
ghost use Rattle.text.specs.Limits.{levels};
ghost use Rattle.text.specs.ListText.{text_of};
ghost use Rattle.writing.specs.Steps.{comma};
ghost use Rattle.totext.specs.Putting.{Ran};
ghost use Rattle.totext.specs.Standing.{Standing, Held};
ghost use Rattle.totext.specs.Turns.{parted, behind_list, behind_shut, Parts, PutShut, PutTurn};

use scan::limits::{Level, PerLevel};
use writing::atoms;

// Where the next number begins and the next character goes, the levels that are open, and the elements still to come in
// the innermost list. The check goes the same way, and counts the characters only.
#[derive(Clone, Copy)]
pub struct Walk {
    pub from: usize,
    pub to: usize,
    pub depth: usize,
    pub left: u32,
}

// The elements still to come in the list around each level.
pub type Kept = PerLevel<u32>;

impl Walk {
    // Out of a list that ends, into the one around it.
    pub(crate) fn shut(self, kept: &Kept) -> Walk
        requires { (1 ≤ self.depth) × (self.depth ≤ levels) }
        ensures { result ≡ behind_list kept.now self }
    {
        let depth = self.depth - 1;
        Walk {
            depth,
            left: kept[depth],
            ..self
        }
    }
}

// "," before a further element.
fn part(out: &mut [u8], w: Walk) -> Walk
    requires { w.to + length (comma w.left) ≤ length out.old }
    ensures { Parts w result out.old out.new (length out.old) }
{
    if w.left == 0 {
        return w;
    }
    let to = w.to;
    out[to] = b',';
    Walk { to: to + 1, ..w }
}

// ")"
fn put_shut(kept: &Kept, out: &mut [u8], w: Walk) -> Walk
    requires le_depth { (1 ≤ w.depth) × (w.depth ≤ levels) }
    requires w_bound { (parted (behind_shut kept.now w)).to ≤ length out.old }
    ensures { PutShut kept.now w result out.old out.new (length out.old) }
{
    let to = w.to;
    out[to] = b')';
    let shut = Walk {
        to: to + 1,
        ..w.shut(kept)
    };
    part(out, shut)
}

// An atom, or "(" of a list.
fn put_element(groups: &[u8], kept: &mut Kept, out: &mut [u8], w: Walk) -> Walk
    requires standing { Standing groups.now (text_of (list_in groups.now)) kept.old w }
    requires le_depth { (1 ≤ w.depth) × (w.left ≢ 0) }
    requires out_len { length out.old ≡ length (text_of (list_in groups.now)) }
    ensures put_turn { PutTurn groups.now (text_of (list_in groups.now)) kept.new w result
        out.old out.new (length out.old) }
    ensures le_depth_2 { 1 ≤ result.depth }
{
    let to = w.to;
    let depth = w.depth;
    let left = w.left - 1;
    let n = numbers::number_there(groups, w.from);
    let from = n.end;
    let half = (n.value / 2) as u32;
    if n.value % 2 == 0 {
        atoms::put_atom(out, to, half);
        let to = to + octal::count(half);
        return part(
            out,
            Walk {
                from,
                to,
                depth,
                left,
            },
        );
    }
    out[to] = b'(';
    kept[depth] = left;
    let to = to + 1;
    let depth = depth + 1;
    Walk {
        from,
        to,
        depth,
        left: half,
    }
}

// Atoms of one digit, up to the last element, each with the "," behind it. Most elements are such, and a loop of their
// own puts them quickest. No `for`: bytes, characters and elements go on together, and the loop ends where it must.
fn put_digits(groups: &[u8], kept: &Kept, out: &mut [u8], w: Walk) -> Walk
    requires standing { Standing groups.now (text_of (list_in groups.now)) kept.now w }
    requires le_depth { 1 ≤ w.depth }
    requires out_len { length out.old ≡ length (text_of (list_in groups.now)) }
    ensures { Ran groups.now (text_of (list_in groups.now)) (length out.old) kept.now
        out.old out.new w result }
{
    let mut r = w;
    while r.left > 1 {
        let from = r.from;
        let b = groups[from];
        if b >= 16 || b % 2 != 0 {
            return r;
        }
        let to = r.to;
        out[to] = b'0' + b / 2;
        out[to + 1] = b',';
        r.from = from + 1;
        r.to = to + 2;
        r.left -= 1;
    }
    r
}

// The text, which fills `out`.
pub fn put(groups: &[u8], out: &mut [u8])
    requires held { Held groups.now (list_in groups.now) }
    requires out_len { length out.old ≡ length (text_of (list_in groups.now)) }
    ensures { out.new ≡ text_of (list_in groups.now) }
{
    out[0] = b'(';
    let n = numbers::number_there(groups, 0);
    let mut kept = [0; Level::MOST as usize];
    let mut w = Walk {
        from: n.end,
        to: 1,
        depth: 1,
        left: (n.value / 2) as u32,
    };
    while w.depth > 0 {
        while w.left > 0 {
            let ran = put_digits(groups, &kept, out, w);
            w = put_element(groups, &mut kept, out, ran);
        }
        w = put_shut(&kept, out, w);
    }
}
