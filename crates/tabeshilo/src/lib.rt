// The C boundary: the calls that C links, each one line over the crate that does it, and each with the contract that it
// is the engine of which the demands are proved: `ours` at the four-word form. The header is include/tabeshilo.h.

#![tactic(auto)]

ghost use Rattle.std.specs.Prelude.{◌≡◌};
ghost use Rattle.calls.specs.Promised.{SetsUp, Runs, Reads, Writes, Moves};
ghost use Rattle.groups.specs.declared.Stored.TheVariants.{Text, Groups};
ghost use Rattle.promises.specs.Engine.{ours};
ghost use Rattle.scan.specs.Outcomes.{answered_as};
ghost use Rattle.table.specs.Limits.{holders_most};
ghost use Rattle.table.specs.declared.Form.TheVariants.{Four};

use answers::{Moved, Outcome};
use groups::Stored;

// Of the calls as a whole: major * 10000 + minor * 100 + patch. The header's TAB_VERSION and CHANGELOG.md have it too.
const VERSION: u32 = 10200;

#[unsafe(no_mangle)]
pub extern "C" fn tab_version() -> u32
    ensures { result ≡ 10200 }
{
    VERSION
}

#[unsafe(no_mangle)]
pub extern "C" fn tab_set_up(table: &mut [u32], cells: u32) -> u32
    ensures { SetsUp result table.new ((ours Four).set_up table.old cells holders_most) }
{
    setup::set_up(table, cells)
}

// count: operations done
#[unsafe(no_mangle)]
pub extern "C" fn tab_run(
    table: &mut [u32],
    work: &mut [u32],
    script: &[u32],
    results: &mut [u32],
) -> Outcome
    ensures { Runs result table.new work.new results.new
        ((ours Four).run table.old work.old script.now results.old) }
{
    scripts::run(table, work, script, results)
}

// count: bytes taken
#[unsafe(no_mangle)]
pub extern "C" fn tab_read(table: &mut [u32], work: &mut [u32], holder: u32, text: &[u8]) -> Outcome
    ensures { Reads result table.new work.new
        ((ours Four).read Text table.old work.old holder text.now) }
{
    reading::read(Stored::Text, table, work, holder, text)
}

// count: bytes written
#[unsafe(no_mangle)]
pub extern "C" fn tab_write(table: &[u32], work: &mut [u32], holder: u32, out: &mut [u8]) -> Outcome
    ensures { Writes result work.new out.new
        ((ours Four).write Text table.now work.old holder out.old) }
{
    writing::write(Stored::Text, table, work, holder, out)
}

// count: bytes taken
#[unsafe(no_mangle)]
pub extern "C" fn tab_read_groups(
    table: &mut [u32],
    work: &mut [u32],
    holder: u32,
    groups: &[u8],
) -> Outcome
    ensures { Reads result table.new work.new
        ((ours Four).read Groups table.old work.old holder groups.now) }
{
    reading::read(Stored::Groups, table, work, holder, groups)
}

// count: bytes written
#[unsafe(no_mangle)]
pub extern "C" fn tab_write_groups(
    table: &[u32],
    work: &mut [u32],
    holder: u32,
    out: &mut [u8],
) -> Outcome
    ensures { Writes result work.new out.new
        ((ours Four).write Groups table.now work.old holder out.old) }
{
    writing::write(Stored::Groups, table, work, holder, out)
}

#[unsafe(no_mangle)]
pub extern "C" fn tab_text_to_groups(text: &[u8], out: &mut [u8]) -> Moved
    ensures { Moves result out.new ((ours Four).move Text text.now out.old) }
{
    togroups::to_groups(text, out)
}

#[unsafe(no_mangle)]
pub extern "C" fn tab_groups_to_text(groups: &[u8], out: &mut [u8]) -> Moved
    ensures { Moves result out.new ((ours Four).move Groups groups.now out.old) }
{
    totext::to_text(groups, out)
}

// count: bytes taken
#[unsafe(no_mangle)]
pub extern "C" fn tab_check(text: &[u8]) -> Outcome
    ensures { result ≡ answered_as ((ours Four).check text.now) }
{
    scan::check(text)
}

// where the records after the first list begin
#[unsafe(no_mangle)]
pub extern "C" fn tab_rest(text: &[u8]) -> usize
    ensures { result ≡ (ours Four).rest text.now }
{
    scan::rest_at(text)
}
