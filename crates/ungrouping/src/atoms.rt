// Atoms of one group: a byte each, which is below 128 and even. Most elements are such, and a loop of their own takes
// them quickest.
ghost use Rattle.std.specs.Prelude.{◌≤◌, length};
ghost use Rattle.ungrouping.specs.Places.{Atoms};

// The place behind those that come first, of at most so many elements.
pub fn past(bytes: &[u8], from: usize, most: u64) -> usize
    requires { from ≤ length bytes.now }
    ensures { Atoms bytes.now from most result }
{
    let stop = from + most.min((bytes.len() - from) as u64) as usize;
    // by `position` reading groups would take a twentieth longer
    for at in from..stop {
        if bytes[at] >= 128 || bytes[at] % 2 != 0 {
            return at;
        }
    }
    stop
}
