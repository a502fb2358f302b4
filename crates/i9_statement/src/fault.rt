//! Faults of a line, and parts that may be at fault.
ghost use Rattle.std.specs.Prelude.{◌≡◌};
ghost use Rattle.i9_statement.specs.Noted.{kind_of, fine, wrong, least};

/// Why a line of a source is refused. The faults and their kinds are this project's own.
#[derive(Clone, Copy, Debug, PartialEq, Eq)]
pub enum Fault {
    /// Kind 1: no such mnemonic or directive.
    UnknownMnemonic,
    /// Kind 2: the form of the line or of an operand, or a byte past ASCII.
    Form,
    /// Kind 3: a register that is not allowed there.
    Register,
    /// Kind 4: a number out of range, or bytes past FFFFFFFF.
    Range,
    /// Kind 5: no such name.
    UnknownName,
    /// Kind 6: a name that was defined before.
    NameTwice,
    /// Kind 7: a branch target that is not a multiple of 4 away, or out of range.
    Target,
    /// Kind 8: more than 4,194,304 bytes.
    TooMany,
}

impl Fault {
    /// The kind, from 1 to 8. Of several faults of a line that with the least kind counts.
    pub fn kind(self) -> u8
        ensures { result ≡ kind_of self }
    {
        match self {
            Fault::UnknownMnemonic => 1,
            Fault::Form => 2,
            Fault::Register => 3,
            Fault::Range => 4,
            Fault::UnknownName => 5,
            Fault::NameTwice => 6,
            Fault::Target => 7,
            Fault::TooMany => 8,
        }
    }
}

/// A part of a line as it was read, and its least fault. At fault the value stands for what is
/// missing.
#[derive(Clone, Copy, Debug, PartialEq, Eq)]
pub struct Noted<T> {
    pub value: T,
    pub fault: Option<Fault>,
}

/// A part without fault.
pub fn fine<T>(value: T) -> Noted<T>
    ensures { result ≡ fine value }
{
    Noted { value, fault: None }
}

/// A part at fault.
pub fn wrong<T>(fault: Fault, value: T) -> Noted<T>
    ensures { result ≡ wrong fault value }
{
    Noted {
        value,
        fault: Some(fault),
    }
}

/// The least of two faults.
pub fn least(a: Option<Fault>, b: Option<Fault>) -> Option<Fault>
    ensures { result ≡ least a b }
{
    match (a, b) {
        (None, _) => b,
        (Some(_), None) => a,
        (Some(first), Some(second)) => { if second.kind() < first.kind() { b } else { a } }
    }
}
