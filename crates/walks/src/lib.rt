// What a walk through a list and its lists needs, whatever form it puts the list into: where it stands, what it meets
// there and its steps, the cells with which the open levels go on, and the test for level 201.

#![tactic(auto)]

ghost use Rattle.std.specs.Prelude.{◌≡◌, ◌&&◌, ◌≢◌, leb};
ghost use Rattle.text.specs.Limits.{levels};
ghost use Rattle.cells.specs.Views.{pool_of};
ghost use Rattle.table.specs.View.{IsCell};
ghost use Rattle.walks.specs.Levels.{opens_at};

use cells::seen::Seen;
use scan::limits::{Level, PerLevel};

pub mod met;
pub mod walk;

pub use met::Met;
pub use walk::Walk;

// The cell with which each open level goes on.
pub type Kept = PerLevel<usize>;

// Whether a walk at x, with so many levels open, opens level 201.
pub fn too_deep(t: Seen, x: usize, depth: usize) -> bool
    requires { x ≢ 0 → IsCell t.shape x }
    ensures { result ≡ (leb levels depth && opens_at (pool_of t.entry).cells x) }
{
    depth >= Level::MOST as usize && x != 0 && t.kind_of(x) != 0
}
