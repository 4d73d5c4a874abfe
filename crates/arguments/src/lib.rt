// What a program's arguments ask for; the same for every program that reads a sheet from standard input.
#![tactic(auto)]

ghost use Rattle.std.specs.Prelude.{◌≤◌, length, IfSome};
ghost use Rattle.arguments.specs.Asks.{Asks};

use std::env::FillError;
use std::rt::Env;

#[derive(Clone, Copy)]
pub enum Request {
    // There are no arguments.
    Run,
    // The only argument is `--help`.
    Help,
    // Other arguments.
    Unknown,
}

// What a command line asks for: how many arguments it has, with the program's name, and the first after the name.
pub fn request_for(arguments: usize, first: &[u8]) -> Request
    ensures { Asks result arguments first.now }
{
    if arguments < 2 {
        Request::Run
    } else if arguments == 2 && first == b"--help".as_slice() {
        Request::Help
    } else {
        Request::Unknown
    }
}

// How many arguments a program has, with its name.
pub fn argument_count<E: Env>(env: &E) -> usize {
    let mut byte = [0u8; 1];
    for index in 0..usize::MAX {
        if let Err(FillError::NotPresent) = env.arg(index, &mut byte) {
            return index;
        }
    }
    usize::MAX
}

// Puts an argument at the start of the buffer, and returns its length; or `None` where there is none, or it does not fit.
pub fn argument<E: Env>(env: &E, index: usize, buffer: &mut [u8]) -> Option<usize>
    ensures { IfSome result (λ n. n ≤ length buffer.new) }
{
    env.arg(index, buffer).ok()
}
