// The names of the six hints, and their numbers.
ghost use Rattle.std.specs.Prelude.{◌≡◌};
ghost use Rattle.hints.specs.Hints.{number_of};

#[derive(Clone, Copy, PartialEq, Eq, Debug)]
pub enum Hint {
    Main = 1,
    Rest = 2,
    Lift = 3,
    Keep = 4,
    Drop = 5,
    Up = 6,
}

impl From<Hint> for u32 {
    ghost from_gives = { λ hint number. number ≡ number_of hint };

    fn from(hint: Hint) -> u32 {
        hint as u32
    }
}
