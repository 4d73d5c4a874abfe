// The five steps by their codes, as a run and a day sheet send them.
#![tactic(auto)]

ghost use Rattle.std.specs.Prelude.{◌≡◌};
ghost use Rattle.codes.specs.Code.{Decodes, code_of};

use reply::Reason;

#[derive(Clone, Copy, PartialEq, Eq)]
pub enum Code {
    Take = 1,
    Drop = 2,
    Swap = 3,
    Retire = 4,
    Collect = 5,
}

impl Code {
    // The step's code.
    pub fn number(self) -> u16
        ensures { result ≡ code_of self }
    {
        self as u16
    }
}

impl TryFrom<u16> for Code {
    type Error = Reason;

    ghost try_from_gives = { Decodes };

    fn try_from(code: u16) -> Result<Self, Reason> {
        match code {
            1 => Ok(Code::Take),
            2 => Ok(Code::Drop),
            3 => Ok(Code::Swap),
            4 => Ok(Code::Retire),
            5 => Ok(Code::Collect),
            0 | 6..=65535 => Err(Reason::NoCode),
        }
    }
}
