// The sides of a mode.

ghost use Rattle.std.specs.Prelude.{◌≡◌, ◌≤◌};
ghost use Rattle.robinx.specs.Groups.{has};
ghost use Rattle.robinx.specs.Timetable.{side};
ghost use Rattle.opponents.specs.Sides.{code_of};

// The sides on which games count.
#[derive(Clone, Copy, Debug, PartialEq, Eq)]
pub enum Sides {
    Home,
    Away,
    Both,
}

impl Sides {
    // The sides of a mode. It is no `From`, since 0 is no mode.
    pub fn of_mode(mode: u8) -> Self
        requires { 1 ≤ mode }
        ensures { code_of result ≡ side mode }
    {
        match (mode - 1) % 3 {
            0 => Sides::Home,
            1 => Sides::Away,
            _ => Sides::Both,
        }
    }

    // Home is one of the sides. It and `asks_away` are a line each: one function for both would want a type of two sides.
    pub fn asks_home(self) -> bool
        ensures { result ≡ has (code_of self) 0 }
    {
        self != Sides::Away
    }

    // Away is one of the sides.
    pub fn asks_away(self) -> bool
        ensures { result ≡ has (code_of self) 1 }
    {
        self != Sides::Home
    }
}

// Home is one of the sides of a number, which may be no mode's.
pub fn asks_home(sides: u8) -> bool
    ensures { result ≡ has sides 0 }
{
    sides % 2 == 1
}

// Away is one of them.
pub fn asks_away(sides: u8) -> bool
    ensures { result ≡ has sides 1 }
{
    (sides >> 1) % 2 == 1
}
