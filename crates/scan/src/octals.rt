// Octal digits: one, and a run of them, eight bytes at a time.
ghost use Rattle.std.specs.Prelude.{◌≡◌, ◌+◌, ◌≤◌, ◌<◌, length, drop};
ghost use Rattle.text.specs.ListText.{is_digit_byte};
ghost use Rattle.scan.specs.Runs.{digit_run, Near};

pub fn is_octal(b: u8) -> bool
    ensures { result ≡ is_digit_byte b }
{
    matches!(b, b'0'..=b'7')
}

// Where the digits end, a byte at a time.
fn run_by_one(text: &[u8], from: usize) -> usize
    requires { from ≤ length text.now }
    ensures { result ≡ from + digit_run (drop from text.now) }
{
    let rest = &text[from..];
    from + rest
        .iter()
        .position(|b| !is_octal(*b))
        .unwrap_or(rest.len())
}

// Where the digits that begin at `from` end, but not where eight stand there: more may follow. A byte other than a digit
// differs from 0x30 above its three low bits.
pub fn near_end(text: &[u8], from: usize) -> Option<usize>
    requires { from ≤ length text.now }
    ensures { Near text.now from result }
{
    let Some(bytes) = text[from..].first_chunk() else {
        return Some(run_by_one(text, from));
    };
    let others = (u64::from_le_bytes(*bytes) & 0xf8f8f8f8f8f8f8f8) ^ 0x3030303030303030;
    if others == 0 {
        return None;
    }
    Some(from + (others.trailing_zeros() / 8) as usize)
}

// Where the digits that begin at `from` end, however many they are.
pub fn run_end(text: &[u8], from: usize) -> usize
    requires { from ≤ length text.now }
    ensures { result ≡ from + digit_run (drop from text.now) }
{
    let mut i = from;
    loop {
        if let Some(end) = near_end(text, i) {
            return end;
        }
        i += 8;
    }
}
