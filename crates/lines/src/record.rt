// READ's text and the blanks that complete its last record.
ghost use Rattle.std.specs.Prelude.{◌*◌, ◌≤◌, length};
ghost use Rattle.text.specs.Limits.{record_bytes};
ghost use Rattle.lines.specs.Printed.{filled};
ghost use Rattle.lines.specs.Splitting.{line_most};
ghost use Rattle.lines.specs.Meaning.{Puts};

use records::Record;

// A line's text at the start of the bytes lent; gives the place behind its last record.
pub fn fill_record(text: &[u8], page: &mut [u8]) -> usize
    requires { (length text.now ≤ line_most) × (3 * record_bytes ≤ length page.old) }
    ensures { Puts (filled text.now) 0 page.old result page.new }
{
    let len = text.len();
    let end = len.next_multiple_of(Record::BYTES);
    page[..len].copy_from_slice(text);
    page[len..end].fill(b' ');
    end
}
