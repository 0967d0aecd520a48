// The call that sets up a pool: every cell free, each followed by the next.

#![tactic(auto)]

ghost use Rattle.std.specs.Prelude.{◌≡◌};
ghost use Rattle.answers.specs.Refusals.{answer_no};
ghost use Rattle.pool.specs.Operations.{laid};
ghost use Rattle.pool.specs.Setters.{celled};
ghost use Rattle.table.specs.View.{view, Table, Shows};
ghost use Rattle.calls.specs.SetUp.{set_up, set_up_in};
ghost use Rattle.calls.specs.Promised.{SetsUp};
ghost use Rattle.setup.specs.Laws.Linked.{linked};

use answers::Refusal;
use table::{Form, Holder, Shape};

// Each cell but the last gets the next for its successor. Over words, which are no table before they are laid out.
fn link(s: Shape, t: &mut [u32])
    requires table { Table s t.old }
    requires t_value { (view s t.old).cells ≡ linked 1 s.cells }
    ensures { Shows s t.new (celled (laid 0 s.cells) (view s t.old)) }
{
    for c in 1..s.cells {
        table::set_next(s, t, c, c + 1);
    }
}

// A pool of n cells and h holders, if the words are as many as that asks.
pub fn set_up_form(f: Form, t: &mut [u32], n: u32, h: u32) -> Result<(), Refusal>
    ensures { SetsUp (answer_no result) t.new (set_up_in f t.old n h) }
{
    let s = Shape {
        form: f,
        cells: n as usize,
        holders: h as usize,
    };
    if !table::fits(s, t.len()) {
        return Err(Refusal::TableSize);
    }
    table::lay_out(s, t);
    table::set_free(s, t, 1);
    link(s, t);
    Ok(())
}

// On a table with four words a cell: 0, or the number of the refusal, as `tab_set_up` gives it.
pub fn set_up(t: &mut [u32], n: u32) -> u32
    ensures { SetsUp result t.new (set_up t.old n) }
{
    let done = set_up_form(Form::Four, t, n, Holder::MOST as u32);
    done.err().map_or(0, u32::from)
}
