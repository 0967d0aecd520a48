// The free cells of a table, counted.
ghost use Rattle.std.specs.Prelude.{◌≡◌};
ghost use Rattle.pool.specs.Pool.{frees};
ghost use Rattle.table.specs.View.{view, Table};
ghost use Rattle.answering.specs.Session.{free_cells};

use table::{Form, Shape};

fn count_free(s: Shape, t: &[u32]) -> u32
    requires { Table s t.now }
    ensures { result ≡ frees (view s t.now).cells }
{
    let mut free = 0;
    for c in 0..s.cells {
        free += u32::from(table::count_of(s, t, c + 1) == 0);
    }
    free
}

// Words that are no table have none.
pub fn free_cells(t: &[u32]) -> u32
    ensures { result ≡ free_cells t.now }
{
    let s = table::shape_of(Form::Four, t);
    if s.cells == 0 {
        return 0;
    }
    count_free(s, t)
}
