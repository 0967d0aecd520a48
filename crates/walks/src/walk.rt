// Where a walk through a list and its lists stands, and its steps along the cells. What a step passes has so many characters
// or bytes as the form says that is written.
ghost use Rattle.std.specs.Prelude.{◌≡◌, ◌<◌, ◌≤◌};
ghost use Rattle.cells.specs.Views.{pool_of};
ghost use Rattle.table.specs.View.{IsCell};
ghost use Rattle.text.specs.Limits.{levels};
ghost use Rattle.walks.specs.Steps.{walk, shut_at, pass_at, Opened};

use crate::Kept;
use cells::seen::Seen;

// Where the next comes from: a cell, or 0 where the innermost list ends, as in the words; how many levels are open, and what
// is passed.
#[derive(Clone, Copy)]
pub struct Walk {
    pub at: usize,
    pub depth: usize,
    pub size: usize,
}

impl Walk {
    // behind the beginning of the whole list
    pub fn started(x: usize, size: usize) -> Walk
        ensures { result ≡ walk x 1 size }
    {
        Walk {
            at: x,
            depth: 1,
            size,
        }
    }

    // A list has ended.
    pub fn shut(self, after: &Kept) -> Walk
        requires { (1 ≤ self.depth) × (self.depth ≤ levels) }
        ensures { result ≡ shut_at after.now self }
    {
        let depth = self.depth - 1;
        Walk {
            at: after[depth],
            depth,
            size: self.size,
        }
    }

    // An atom, which ends at `end`.
    pub fn pass(self, t: Seen, end: usize) -> Walk
        requires { IsCell t.shape self.at }
        ensures { result ≡ pass_at (pool_of t.entry).cells self end }
    {
        Walk {
            at: t.next_of(self.at),
            depth: self.depth,
            size: end,
        }
    }

    // A list, whose beginning ends at `end`.
    pub fn open(self, t: Seen, after: &mut Kept, end: usize) -> Walk
        requires cell { IsCell t.shape self.at }
        requires depth_lt_levels { self.depth < levels }
        ensures { Opened (pool_of t.entry).cells after.old self end after.new result }
    {
        after[self.depth] = t.next_of(self.at);
        Walk {
            at: t.elem_of(self.at) as usize,
            depth: self.depth + 1,
            size: end,
        }
    }
}
