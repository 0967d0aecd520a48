// The bytes of the number of an atom, and of the number of a list. A pool has too few cells for a list whose number
// takes three groups.
ghost use Rattle.std.specs.Prelude.{◌≡◌, ltb, length};
ghost use Rattle.cells.specs.Views.{pool_of};
ghost use Rattle.groups.specs.Groups.{number, atom_number};
ghost use Rattle.grouping.specs.Steps.{elements_at, list_number_at};
ghost use Rattle.pool.specs.Laws.Level.{Left};

use cells::seen::Seen;

// The elements of a list whose number is one group.
const FEW: usize = 63;

pub fn of_atom(v: u32) -> usize
    ensures { result ≡ length (number (atom_number v)) }
{
    numbers::size(2 * u64::from(v))
}

// Whether the main level at x is longer: at most so many cells are looked at.
fn is_long(t: Seen, x: usize) -> bool
    requires { Left (pool_of t).cells x }
    ensures { result ≡ ltb 63 (elements_at (pool_of t.entry).cells x) }
{
    let mut c = x;
    for _ in 0..FEW {
        if c == 0 {
            return false;
        }
        c = t.next_of(c);
    }
    c != 0
}

pub fn of_list(t: Seen, x: usize) -> usize
    requires { Left (pool_of t).cells x }
    ensures { result ≡ length (number (list_number_at (pool_of t.entry).cells x)) }
{
    if is_long(t, x) { 2 } else { 1 }
}
