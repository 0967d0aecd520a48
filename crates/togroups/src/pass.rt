// The pass over a text from its end: the groups of its list put out with the last byte first, or only counted.
ghost use Rattle.std.specs.Prelude.{◌≡◌, true, ◌≤◌, length};
ghost use Rattle.groups.specs.Groups.{groups_of};
ghost use Rattle.text.specs.Marks.{list_in};
ghost use Rattle.togroups.specs.Laid.{over_back};
ghost use Rattle.togroups.specs.Listed.{Listed};

use crate::put::Give;
use crate::walk::{self, Walk};
use scan::limits::Level;

// What is given is the number of bytes.
pub fn pass<G: Give>(text: &[u8], out: &mut [u8]) -> usize
    requires listed { Listed text.now }
    requires text_in_bounds { G.puts ≡ true → length (groups_of (list_in text.now)) ≤ length out.old }
    ensures value { result ≡ length (groups_of (list_in text.now)) }
    ensures out_after { out.new ≡ over_back G.puts (groups_of (list_in text.now)) out.old }
{
    let mut outer = [0; Level::MOST as usize];
    let mut w = Walk::behind(text.len());
    let mut size = 0;
    while w.at > 1 {
        w = walk::step(text, &mut outer, w);
        if let Some(v) = w.number {
            size = G::give(out, size, v);
        }
    }
    G::give(out, size, 2 * u64::from(w.count) + 1)
}
