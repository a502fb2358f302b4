//! How much a load or a store moves, and which way.
ghost use Rattle.std.specs.Prelude.{◌≡◌};
ghost use Rattle.i9_isa.specs.Transfers.{byte_count, register_count};

/// How much is moved between memory and registers.
#[derive(Clone, Copy, Debug, PartialEq, Eq)]
pub enum Size {
    /// A byte, of one register.
    Byte,
    /// Two bytes, of one register.
    Half,
    /// From one to four words, each of a register of its own.
    Words(u8),
}

/// Whether registers are loaded from memory or stored there.
#[derive(Clone, Copy, Debug, PartialEq, Eq)]
pub enum Direction {
    Load,
    Store,
}

/// What a load or a store moves.
#[derive(Clone, Copy, Debug, PartialEq, Eq)]
pub struct Transfer {
    pub direction: Direction,
    pub size: Size,
    /// Whether a byte or a half is a number with a sign.
    pub signed: bool,
}

impl Size {
    /// How many bytes it has.
    pub fn bytes(self) -> u32
        ensures { result ≡ byte_count self }
    {
        match self {
            Size::Byte => 1,
            Size::Half => 2,
            Size::Words(n) => 4 * u32::from(n),
        }
    }

    /// How many registers take part.
    pub fn registers(self) -> u8
        ensures { result ≡ register_count self }
    {
        match self {
            Size::Byte | Size::Half => 1,
            Size::Words(n) => n,
        }
    }
}
