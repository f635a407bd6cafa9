// How much of something was done.
ghost use Rattle.std.specs.Prelude.{◌≡◌};
ghost use Rattle.tell.specs.Amount.{amount_of};

use std::fmt;

#[derive(Clone, Copy, Debug, PartialEq, Eq)]
pub enum Amount {
    Nothing,
    Part,
    All,
}

impl Amount {
    pub fn of(none: bool, all: bool) -> Amount
        ensures { result ≡ amount_of none all }
    {
        if none {
            Amount::Nothing
        } else if all {
            Amount::All
        } else {
            Amount::Part
        }
    }
}

impl fmt::Display for Amount {
    fn fmt<W: fmt::Write>(&self, f: &mut fmt::Formatter<W>) -> fmt::Result {
        f.write_str(match self {
            Amount::Nothing => "nothing",
            Amount::Part => "some",
            Amount::All => "all",
        })
    }
}
