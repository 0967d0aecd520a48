// The entry of a call on a table: TABLE SIZE and WORK SPACE, and the shape of a table that passes them.

#![tactic(auto)]

ghost use Rattle.std.specs.Prelude.{◌≡◌, ◌≤◌, IfOk};
ghost use Rattle.answers.specs.Refusals.{answer_no};
ghost use Rattle.calls.specs.Entry.{entry_fault};
ghost use Rattle.table.specs.Sizes.{shape_of};

use answers::Refusal;
use table::{Form, Shape};

// Work space: the words for each cell that a script run, reading and writing need.
#[derive(Clone, Copy)]
pub struct Work;

impl Work {
    pub const WORDS: usize = 2;
}

// For a call that is lent some words of work space and needs so many for each cell.
pub fn enter(f: Form, table: &[u32], lent: usize, words: usize) -> Result<Shape, Refusal>
    requires { words ≤ 4 }
    ensures refused { answer_no result ≡ entry_fault words f table.now lent }
    ensures entered { IfOk result (λ s. s ≡ shape_of f table.now) }
{
    let s = table::shape_of(f, table);
    if s.cells == 0 {
        return Err(Refusal::TableSize);
    }
    if lent < words * s.cells {
        return Err(Refusal::WorkSpace);
    }
    Ok(s)
}
