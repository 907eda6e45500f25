// The program as other languages start it: a crate by itself, since a library is proved once more whenever it is built. The three streams take
// no bytes, so that C passes nothing for them, and of what they give and take nothing is known.
#![tactic(auto)]

ghost use Rattle.std.specs.Prelude.{None};
ghost use Rattle.program.specs.Running.{Moves, Runs};

use std::io::{Stderr, Stdin, Stdout};

#[unsafe(no_mangle)]
pub extern "C" fn dustmap_run(stdin: Stdin, stdout: Stdout, stderr: Stderr) -> i32
    ensures { Runs (Moves None None None None) result }
{
    let mut reader = stdin;
    let mut writer = stdout;
    program::whole_run(&mut reader, &mut writer, &stderr)
}
