// The sheet program of the training room: reads a day sheet of edition 1 from standard input and prints its lines.
#![tactic(auto)]

use board::training_limits;
use printing::print_input;
use program::{program, run};
use reader::edition_1;

fn main(rt: HostRuntime) {
    let program = program!(
        "training_sheet",
        "\
Runs the steps of a day sheet of edition 1 on the session board of a training room, of at
most 4 desks with 1 screen each and sessions up to 999, and prints a line for each record:
record number, step code, reply number, session. With 15, 16 and 19 the last number is not
a session: it is the offset of the number that is refused. A larger room is refused with
22, and a larger session with 16. The last line is 'end', steps accepted, steps refused by
the board, sessions handed back.
"
    );
    let edition = edition_1(training_limits());
    run(
        &rt,
        &mut rt.stdout(),
        &mut rt.stderr(),
        &program,
        |to, errors| {
            print_input(&mut rt.stdin(), to, errors, edition, &program.messages);
        },
    );
}
