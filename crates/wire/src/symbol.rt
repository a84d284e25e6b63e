// What a symbol on the wire can be.
ghost use Rattle.std.specs.Prelude.{◌≡◌};
ghost use Rattle.wire.specs.Symbol.{kind_of, is_escape, is_count};

#[derive(Clone, Copy)]
pub enum Kind {
    Syn,
    Escape,
    Count,
    Plain,
}

#[tactic(auto, unfolding(crate::specs::Symbol::kind_of))]
pub fn kind_of(symbol: u8) -> Kind
    ensures { result ≡ kind_of symbol }
{
    match symbol {
        0xAA => Kind::Syn,
        0xA9 => Kind::Escape,
        0..=16 => Kind::Count,
        _ => Kind::Plain,
    }
}

impl Kind {
    pub(crate) fn is_escape(self) -> bool
        ensures { result ≡ is_escape self }
    {
        matches!(self, Kind::Escape)
    }

    pub(crate) fn is_count(self) -> bool
        ensures { result ≡ is_count self }
    {
        matches!(self, Kind::Count)
    }
}
