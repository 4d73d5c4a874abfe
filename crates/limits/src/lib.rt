// The limits of a room, a value that the board and the readers of sheets are given.
#![tactic(auto)]

ghost use Rattle.std.specs.Prelude.{◌≡◌};
ghost use Rattle.rules.specs.Hall.{hall_of};
ghost use Rattle.rules.specs.Table.{within as within_limits};
ghost use Rattle.limits.specs.Room.{limits_of};

// The most desks, screens per desk and positions of a board, and the largest session.
#[derive(Clone, Copy)]
pub struct Limits {
    pub desks: u16,
    pub screens: u16,
    pub positions: u16,
    pub sessions: u16,
}

// Whether P, c and L do not exceed the limits.
pub fn within(limits: Limits, desks: u16, screens: u16, positions: u16) -> bool
    ensures { result ≡ within_limits (limits_of limits) (hall_of desks screens positions) }
{
    desks <= limits.desks && screens <= limits.screens && positions <= limits.positions
}
