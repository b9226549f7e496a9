// What a row is of.
ghost use Rattle.std.specs.Prelude.{◌≡◌};
ghost use Rattle.layout.specs.Kinds.{kind_of};

// `Other` is a number that document 01 gives to no kind.
#[derive(Clone, Copy, Debug, PartialEq, Eq)]
pub enum Kind {
    Host,
    Interface,
    Other(u16),
}

impl From<u16> for Kind {
    ghost from_gives = { λ n k. k ≡ kind_of n };

    fn from(n: u16) -> Kind {
        match n {
            1 => Kind::Host,
            2 => Kind::Interface,
            _ => Kind::Other(n),
        }
    }
}
