// The two stored forms as a reading goes over them: their size, the check, and the list put into cells.
ghost use Rattle.std.specs.Prelude.{◌≡◌, ◌≤◌, ◌<◌};
ghost use Rattle.answers.specs.Answers.{DONE};
ghost use Rattle.answers.specs.Refusals.{answer_no};
ghost use Rattle.groups.specs.Stored.{size_fault, scanned, verdict, list_in};
ghost use Rattle.lists.specs.Lst.{extent};
ghost use Rattle.pool.specs.Operations.{read};
ghost use Rattle.pool.specs.Pool.{frees, Sound};
ghost use Rattle.scan.specs.Outcomes.{Says};
ghost use Rattle.table.specs.View.{holder_count, view, Table, Shows};

use crate::build;
use answers::Refusal;
use groups::Stored;
use scan::Scanned;
use table::Shape;

// What is wrong with the bytes before they are read as a list.
pub fn size_fault(b: Stored, bytes: &[u8]) -> Result<(), Refusal>
    ensures { answer_no result ≡ size_fault b bytes.now }
{
    match b {
        Stored::Text => records::size_fault(bytes),
        Stored::Groups => ungrouping::size_fault(bytes),
    }
}

// The earliest fault, or the bytes taken and the extent.
pub fn scan(b: Stored, bytes: &[u8]) -> Result<Scanned, Refusal>
    requires { size_fault b bytes.now ≡ DONE }
    ensures { Says (scanned b bytes.now) (extent (list_in b bytes.now)) result }
{
    match b {
        Stored::Text => scan::scan(bytes),
        Stored::Groups => ungrouping::scan(bytes),
    }
}

// The list of bytes that were taken goes into holder h.
pub fn build(b: Stored, s: Shape, t: &mut [u32], h: usize, bytes: &[u8])
    requires table { Table s t.old }
    requires h_bound { h < holder_count s }
    requires sound { Sound (view s t.old) }
    requires bytes_value { (verdict b bytes.now).no ≡ DONE }
    requires bytes_bound { extent (list_in b bytes.now) ≤ frees (view s t.old).cells }
    ensures { Shows s t.new (read (view s t.old) h (list_in b bytes.now)) }
{
    match b {
        Stored::Text => build::build(s, t, h, bytes),
        Stored::Groups => storing::build(s, t, h, bytes),
    }
}
