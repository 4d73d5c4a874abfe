#![tactic(auto)]

ghost use Rattle.std.specs.Prelude.{◌≡◌};
ghost use Rattle.codes.specs.Code.{code_of};
ghost use Rattle.reply.specs.Answer.{answer_with};
ghost use Rattle.sheet_rules.specs.Tally.{add_step, is_handed_back, one_more_if};
ghost use Rattle.tally.specs.Counts.{to_tally};

use codes::Code;

// The counts of the last line: steps accepted, steps refused by the board, sessions handed back.
#[derive(Clone, Copy, Default, PartialEq, Eq)]
pub struct Tally {
    pub accepted: u32,
    pub refused: u32,
    pub handed_back: u32,
}

// The count, plus one if `yes`; a count stays at its largest once there.
fn one_more_if(yes: bool, count: u32) -> u32
    ensures { result ≡ one_more_if yes count }
{
    count.saturating_add(u32::from(yes))
}

// Whether a step with this code and answer hands a session back: an accepted collect that replies one.
fn hands_back(code: Code, number: u16, session: u16) -> bool
    ensures { result ≡ is_handed_back (code_of code) (answer_with number session) }
{
    code == Code::Collect && number == 0 && session != 0
}

impl Tally {
    // Counts a step with this code and answer. A code outside 1 to 5 counts nothing. (Numbers, as the promise is for every pair of them.)
    pub fn add_step(&mut self, code: u16, number: u16, session: u16)
        ensures { to_tally self.new ≡ add_step (to_tally self.old) code (answer_with number session) }
    {
        if let Ok(step) = Code::try_from(code) {
            self.accepted = one_more_if(number == 0, self.accepted);
            self.refused = one_more_if(number != 0, self.refused);
            self.handed_back = one_more_if(hands_back(step, number, session), self.handed_back);
        }
    }
}
