// What every program does that reads a sheet from standard input, whatever its work is.
#![tactic(auto)]

ghost use Rattle.std.specs.Prelude.{◌≡◌, ◌⊎◌, IsOk, IsErr};
ghost use Rattle.output.specs.Line.{BeginsToSay};
ghost use Rattle.output.specs.Taken.{TakesFront};
ghost use Rattle.program.specs.Outcome.{Helps, Works, WorksOn};

use arguments::{Request, argument, argument_count, request_for};
use input::read_to_end;
use output::{Handed, fail, write_all};
use reader::READ_BYTES;
use std::io::{Read, Write};
use std::rt::Env;

// What a program says before the reason where it cannot read or write.
#[derive(Clone, Copy)]
pub struct Messages<'a> {
    pub cannot_read: &'a [u8],
    pub cannot_write: &'a [u8],
}

// What a program says, beside its work.
#[derive(Clone, Copy)]
pub struct Program<'a> {
    // What `--help` prints.
    pub help: &'a [u8],
    // The answer to arguments that it does not know.
    pub usage: &'a [u8],
    pub messages: Messages<'a>,
}

// A program of this name, with this help: what all of them say, in the same words.
#[macro_export]
macro_rules! program {
    ($name:literal, $help:literal) => {
        $crate::Program {
            help: concat!(
                "usage: ",
                $name,
                " < SHEET\n\n",
                $help,
                "\nAn error of reading or writing is a line on standard error; the exit status stays 0.\n",
            )
            .as_bytes(),
            usage: concat!("usage: ", $name, " < SHEET, or ", $name, " --help\n").as_bytes(),
            messages: $crate::Messages {
                cannot_read: concat!($name, ": cannot read standard input").as_bytes(),
                cannot_write: concat!($name, ": cannot write standard output").as_bytes(),
            },
        }
    };
}

// Does what a program's arguments ask for: its work, or it prints the help, or says, to `errors`, which arguments it knows.
pub fn run<V: Env, W: Write, E: Write, F: FnOnce(&mut W, &mut E)>(
    env: &V,
    to: &mut W,
    errors: &mut E,
    program: &Program,
    work: F,
)
    requires { F.IsAlwaysCallable work }
    ensures { Works (λ shown said left told. F.post work shown said tt left told) to.old to.new errors.old errors.new
        ⊎ (Helps (W.contents to.old) (W.contents to.new) program.now.help.now (errors.new ≡ errors.old)
        (BeginsToSay (E.contents errors.old) (E.contents errors.new) program.now.messages.cannot_write.now)
        ⊎ ((to.new ≡ to.old) × TakesFront (E.contents errors.old) (E.contents errors.new) program.now.usage.now)) }
{
    // A longer argument does not fit, and is read as an empty one.
    let mut first = [0u8; 8];
    let n = argument(env, 1, &mut first).unwrap_or(0);
    match request_for(argument_count(env), &first[..n]) {
        Request::Run => work(to, errors),
        Request::Help => {
            if let Err(why) = write_all(to, program.help) {
                fail(errors, program.messages.cannot_write, why);
            }
        }
        Request::Unknown => {
            let _ = write_all(errors, program.usage);
        }
    }
}

// Does its work on the bytes of an input. If it cannot read or write, it says so, to `errors`, with one of these messages and the reason.
// After a failed read it does nothing else.
pub fn work_on_input<R: Read, W: Write, E: Write, F: FnOnce(&[u8], &mut W) -> Handed>(
    from: &mut R,
    to: &mut W,
    errors: &mut E,
    messages: &Messages,
    work: F,
) -> Handed
    requires { F.IsAlwaysCallable work }
    ensures outcome { (IsErr result.taken × (result.bytes ≡ 0) × (to.new ≡ to.old) × BeginsToSay (E.contents errors.old) (E.contents errors.new) messages.now.cannot_read.now)
        ⊎ (WorksOn (R.remaining from.old) READ_BYTES (λ sheet shown left. F.post work sheet shown result left) to.old to.new
        × (IsErr result.taken → BeginsToSay (E.contents errors.old) (E.contents errors.new) messages.now.cannot_write.now)) }
    ensures quiet { IsOk result.taken → errors.new ≡ errors.old }
{
    let mut bytes = [0u8; READ_BYTES];
    match read_to_end(from, &mut bytes) {
        Err(why) => {
            fail(errors, messages.cannot_read, why);
            Handed {
                bytes: 0,
                taken: Err(why),
            }
        }
        Ok(n) => {
            let handed = work(&bytes[..n], to);
            if let Err(why) = handed.taken {
                fail(errors, messages.cannot_write, why);
            }
            handed
        }
    }
}
