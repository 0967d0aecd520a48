// The session on each stored transcript, one after another, with a line between.

#![tactic(auto)]

use std::fs::File;
use std::io::Write;

fn one(rt: HostRuntime, name: &str) {
    match File::open(&rt, name) {
        Ok(mut file) => {
            let mut out = rt.stdout();
            console::session(&rt, &mut file, &mut out);
            let _ = out.write_all(b"--\n");
        }
        Err(e) => {
            let _ = eprintln!(rt; "{name}: {e}");
        }
    }
}

fn main(rt: HostRuntime) {
    let names = [
        "before_new",
        "malformed",
        "numbers",
        "long_lines",
        "refusals",
        "easy_to_get_wrong",
        "full_and_empty",
        "new_again",
        "read",
        "written",
        "deep",
        "too_long",
        "empty",
        "no_last_line_feed",
        "ends_in_a_long_line",
        "line_feeds_only",
    ];
    for name in names {
        one(rt, name);
    }
}
