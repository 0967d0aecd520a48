// The check of groups for a move: the faults of the bytes, or the bytes taken and the size of the list's text. The two
// are found in one pass, and each open level has the elements still to come counted, as when the text is put.
ghost use Rattle.std.specs.Prelude.{◌≡◌, ◌≢◌, ◌≤◌, ◌<◌, length};
ghost use Rattle.groups.specs.Groups.{numbers_end};
ghost use Rattle.text.specs.Limits.{text_most};
ghost use Rattle.totext.specs.Checking.{Checks, Checking, Passes};
ghost use Rattle.totext.specs.Sizing.{chars, chars_most};

use crate::put::{Kept, Walk};
use answers::Refusal;
use scan::limits::Level;

// What the check tells of a list: the bytes taken and the characters of its text.
#[derive(Clone, Copy)]
pub struct Checked {
    pub taken: u32,
    pub size: usize,
}

// The characters that a number brings to the text. Many atoms have one digit.
fn chars(v: u64) -> usize
    requires { v < numbers_end }
    ensures { (result ≡ chars v) × (result ≤ chars_most) }
{
    if v % 2 == 0 {
        if v < 16 {
            return 2;
        }
        return octal::count((v / 2) as u32) + 1;
    }
    if v == 1 {
        return 3;
    }
    2
}

// The number of an element, as if its characters were put.
fn pass(groups: &[u8], kept: &mut Kept, w: Walk) -> Result<Walk, Refusal>
    requires groups_len_bound { length groups.now ≤ text_most }
    requires checking { Checking groups.now kept.old w }
    requires le_depth { (1 ≤ w.depth) × (w.left ≢ 0) }
    ensures { Passes groups.now w kept.new result }
{
    let n = numbers::number_at(groups, w.from).ok_or(Refusal::Groups)?;
    let from = n.end;
    let to = w.to + chars(n.value);
    let depth = w.depth;
    let left = w.left - 1;
    if n.value % 2 == 0 {
        return Ok(Walk {
            from,
            to,
            depth,
            left,
        });
    }
    if depth >= Level::MOST as usize {
        return Err(Refusal::Deep);
    }
    kept[depth] = left;
    Ok(Walk {
        from,
        to,
        depth: depth + 1,
        left: (n.value / 2) as u32,
    })
}

// The outermost list is no atom, and its ")" has nothing behind it.
pub fn check(groups: &[u8]) -> Result<Checked, Refusal>
    requires { length groups.now ≤ text_most }
    ensures { Checks groups.now result }
{
    let n = numbers::number_at(groups, 0).ok_or(Refusal::Groups)?;
    if n.value % 2 == 0 {
        return Err(Refusal::Groups);
    }
    let mut kept = [0; Level::MOST as usize];
    let mut w = Walk {
        from: n.end,
        to: chars(n.value),
        depth: 1,
        left: (n.value / 2) as u32,
    };
    while w.depth > 0 {
        while w.left > 0 {
            w = pass(groups, &mut kept, w)?;
        }
        w = w.shut(&kept);
    }
    Ok(Checked {
        taken: w.from as u32,
        size: w.to - 1,
    })
}
