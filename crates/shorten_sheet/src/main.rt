// Reads a sheet of the archive from standard input and writes it in shortest form to standard output, or, if it is refused, one line.
#![tactic(auto)]

use board::hall_limits;
use program::{program, run};
use reader::{archive_edition, edition_1};
use rewriting::rewrite_input;

fn main(rt: HostRuntime) {
    let program = program!(
        "shorten_sheet",
        "\
Rewrites a day sheet of the archive: the same records, each number in its shortest form.
A sheet that is refused gives one line instead: the reply number, a space, and the
offset of the number that is refused (15 and 16), or 0.
"
    );
    let old = archive_edition(hall_limits());
    let new = edition_1(hall_limits());
    run(
        &rt,
        &mut rt.stdout(),
        &mut rt.stderr(),
        &program,
        |to, errors| {
            rewrite_input(&mut rt.stdin(), to, errors, old, new, &program.messages);
        },
    );
}
