//! The first byte of a spelling: the family of the value, and its size.
ghost use Rattle.std.specs.Prelude.{◌≡◌};
ghost use Rattle.std.specs.Prelude.{◌≤◌, ◌<◌};
ghost use Rattle.al_msgpack.specs.Heads.{head_at, is_open, count};

/// How many bytes a number or a length takes after the head.
#[derive(Clone, Copy, Debug, PartialEq, Eq)]
pub enum Width {
    One,
    Two,
    Four,
    Eight,
}

impl Width {
    /// That many bytes, 1 to 8.
    pub fn bytes(self) -> u8
        ensures value { result ≡ count self }
        ensures bound { result ≤ 8 }
    {
        match self {
            Width::One => 1,
            Width::Two => 2,
            Width::Four => 4,
            Width::Eight => 8,
        }
    }
}

/// A number or a length: it stands in the head, or in so many bytes after it and is not below the least.
#[derive(Clone, Copy, Debug, PartialEq, Eq)]
pub enum Size {
    /// In the head itself.
    Fixed(u64),
    /// In so many bytes, and the least that has no shorter form.
    Wide(Width, u64),
}

/// The kind of a value, by its first byte.
#[derive(Clone, Copy, Debug, PartialEq, Eq)]
pub enum Head {
    Num(Size),
    Flag(bool),
    Str(Size),
    Bin(Size),
    List(Size),
    Map(Size),
}

/// The head of a first byte.
#[tactic(auto, unfolding(crate::specs::Heads::head_at))]
pub fn head_of(b: u8) -> Option<Head>
    ensures { result ≡ head_at b }
{
    if b < 0x80 {
        return Some(Head::Num(Size::Fixed(b as u64)));
    }
    if b < 0x90 {
        return Some(Head::Map(Size::Fixed((b - 0x80) as u64)));
    }
    if b < 0xa0 {
        return Some(Head::List(Size::Fixed((b - 0x90) as u64)));
    }
    if b < 0xc0 {
        return Some(Head::Str(Size::Fixed((b - 0xa0) as u64)));
    }
    match b {
        0xc2 => Some(Head::Flag(false)),
        0xc3 => Some(Head::Flag(true)),
        0xc4 => Some(Head::Bin(Size::Wide(Width::One, 0))),
        0xc5 => Some(Head::Bin(Size::Wide(Width::Two, 0x100))),
        0xc6 => Some(Head::Bin(Size::Wide(Width::Four, 0x10000))),
        0xcc => Some(Head::Num(Size::Wide(Width::One, 0x80))),
        0xcd => Some(Head::Num(Size::Wide(Width::Two, 0x100))),
        0xce => Some(Head::Num(Size::Wide(Width::Four, 0x10000))),
        0xcf => Some(Head::Num(Size::Wide(Width::Eight, 0x1_0000_0000))),
        0xd9 => Some(Head::Str(Size::Wide(Width::One, 32))),
        0xda => Some(Head::Str(Size::Wide(Width::Two, 0x100))),
        0xdb => Some(Head::Str(Size::Wide(Width::Four, 0x10000))),
        0xdc => Some(Head::List(Size::Wide(Width::Two, 16))),
        0xdd => Some(Head::List(Size::Wide(Width::Four, 0x10000))),
        0xde => Some(Head::Map(Size::Wide(Width::Two, 16))),
        0xdf => Some(Head::Map(Size::Wide(Width::Four, 0x10000))),
        _ => None,
    }
}

impl Head {
    /// A container is open only above depth 0.
    pub fn is_open(self, depth: u8) -> bool
        ensures { result ≡ is_open depth self }
    {
        match self {
            Head::List(_) | Head::Map(_) => 0 < depth,
            Head::Num(_) | Head::Flag(_) | Head::Str(_) | Head::Bin(_) => true,
        }
    }
}
