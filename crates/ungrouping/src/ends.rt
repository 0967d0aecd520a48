// The numbers in a run of bytes, each counted by its last group. In blocks, and with a count of one byte in each, the
// compiler can look at many bytes at once.
ghost use Rattle.std.specs.Prelude.{◌≡◌, ◌≤◌, length};
ghost use Rattle.text.specs.Limits.{text_most};
ghost use Rattle.groups.specs.LastGroups.{last_groups};

// The bytes of a block: a count of one byte holds as many.
const BLOCK: usize = 192;

// Those that end in a block.
fn ends(block: &[u8]) -> u8
    requires { length block.now ≤ BLOCK }
    ensures { result ≡ last_groups block.now }
{
    let mut count = 0;
    for &b in block {
        count += u8::from(b < 128);
    }
    count
}

// Those that end in the bytes.
pub fn numbers_in(bytes: &[u8]) -> u32
    requires { length bytes.now ≤ text_most }
    ensures { result ≡ last_groups bytes.now }
{
    let mut count = 0;
    for block in bytes.chunks(BLOCK) {
        count += u32::from(ends(block));
    }
    count
}
