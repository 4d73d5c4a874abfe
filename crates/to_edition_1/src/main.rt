// Reads a sheet of edition 2 from standard input and writes it in edition 1 to standard output, or, if it is refused, one line.
#![tactic(auto)]

use board::hall_limits;
use program::{program, run};
use reader::{edition_1, edition_2};
use rewriting::rewrite_input;

fn main(rt: HostRuntime) {
    let program = program!(
        "to_edition_1",
        "\
Rewrites a day sheet of edition 2 in edition 1: the same records, in other bytes.
A sheet that is refused gives one line instead: the reply number, a space, and the
offset of the number that is refused (15, 16 and 19), or 0. An output of more than
65,536 bytes is refused with 18.
"
    );
    let old = edition_2(hall_limits());
    let new = edition_1(hall_limits());
    run(
        &rt,
        &mut rt.stdout(),
        &mut rt.stderr(),
        &program,
        |to, errors| {
            rewrite_input(&mut rt.stdin(), to, errors, old, new, &program.messages);
        },
    );
}
