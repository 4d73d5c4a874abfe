// The sheet program: reads a day sheet of edition 2 from standard input and prints its lines.
#![tactic(auto)]

use board::hall_limits;
use printing::print_input;
use program::{program, run};
use reader::edition_2;

fn main(rt: HostRuntime) {
    let program = program!(
        "day_sheet_2",
        "\
Runs the steps of a day sheet of edition 2 on a session board and prints a line for
each record: record number, step code, reply number, session. With 15, 16 and 19 the
last number is not a session: it is the offset of the number that is refused. The last
line is 'end', steps accepted, steps refused by the board, sessions handed back.
"
    );
    let edition = edition_2(hall_limits());
    run(
        &rt,
        &mut rt.stdout(),
        &mut rt.stderr(),
        &program,
        |to, errors| {
            print_input(&mut rt.stdin(), to, errors, edition, &program.messages);
        },
    );
}
