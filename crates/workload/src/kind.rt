// The numbers that a workload draws, and what is made of each.
ghost use Rattle.std.specs.Prelude.{◌≡◌};
ghost use Rattle.workload.specs.Numbers.{next_number, kind_of, has_row};

/// What is made of an item.
#[derive(Clone, Copy, Debug, PartialEq, Eq, Drop)]
pub enum Kind {
    /// A message, in order.
    Message,
    /// An envelope with a statement about the artifact, in order.
    Envelope,
    /// A message; the artifact that is handed in has one byte more.
    OtherArtifact,
    /// A message whose signature isn't good.
    BadSignature,
}

/// The number after one.
pub fn next_number(number: u32) -> u32
    ensures { result ≡ next_number number }
{
    ((1_664_525 * u64::from(number) + 1_013_904_223) % 4_294_967_296) as u32
}

/// What a number draws.
pub fn kind_of(number: u32) -> Kind
    ensures { result ≡ kind_of number }
{
    match number / 16_777_216 % 4 {
        0 => Kind::Message,
        1 => Kind::Envelope,
        2 => Kind::OtherArtifact,
        _ => Kind::BadSignature,
    }
}

impl Kind {
    /// Whether the signature is good.
    pub fn has_row(self) -> bool
        ensures { result ≡ has_row self }
    {
        match self {
            Kind::BadSignature => false,
            _ => true,
        }
    }
}
