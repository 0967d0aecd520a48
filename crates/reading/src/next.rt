// The places of a text that is known to be a list: what may follow is known, so few characters are looked at.
// The check's own steps stay called from one place, which keeps them quick.
ghost use Rattle.std.specs.Prelude.{◌≡◌};
ghost use Rattle.scan.specs.Places.{closed_at, Closing};
ghost use Rattle.reading.specs.Accepting.{Taken, Amid, Said, Goes, Closes};
ghost use Rattle.reading.specs.Numbers.{end_at};

use scan::step::Place;

// What follows a ")": the check's `closed` without its tests, a twin that DECISIONS.md gives the reason for.
fn closed(text: &[u8], depth: u32, elements: u32, at: usize) -> Place
    requires taken { Taken text.now }
    requires closing { Closing text.now depth elements at }
    requires said { Said text.now (closed_at depth at) at }
    ensures { Closes text.now depth elements at result }
{
    for shut in 0..depth {
        let i = at + shut as usize;
        if text[i] == b',' {
            return Place {
                at: i + 1,
                depth: depth - shut,
                elements,
                first: false,
            };
        }
    }
    Place {
        at: at + depth as usize,
        depth: 0,
        elements,
        first: false,
    }
}

// Digits that begin at p, or none, end at `end`.
pub fn next(text: &[u8], p: Place, end: usize) -> Place
    requires amid { Amid text.now p }
    requires end_value { end ≡ end_at text.now p.at }
    ensures { Goes text.now p result }
{
    let at = p.at;
    if text[at] == b'(' {
        return Place {
            at: at + 1,
            depth: p.depth + 1,
            elements: p.elements + 1,
            first: true,
        };
    }
    if text[at] == b')' {
        return closed(text, p.depth - 1, p.elements, at + 1);
    }
    if text[end] == b',' {
        return Place {
            at: end + 1,
            depth: p.depth,
            elements: p.elements + 1,
            first: false,
        };
    }
    closed(text, p.depth - 1, p.elements + 1, end + 1)
}
