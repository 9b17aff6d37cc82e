// The calls that records are of.
use std::error::Error;
use std::fmt;

#[derive(Clone, Copy, Debug, PartialEq, Eq)]
pub enum Call {
    New,
    IsValid,
    Get,
    Pop,
    Push,
    Update,
    Walk,
    Draw,
    IsSound,
    NumberBelow,
    AliasNew,
    AliasDraw,
    AliasWeights,
    AliasCheck,
    BinomialNew,
    BinomialDraw,
    ZigguratRound,
}

// A number that no call has.
#[derive(Clone, Copy, Debug, PartialEq, Eq)]
pub struct UnknownCall;

impl fmt::Display for UnknownCall {
    fn fmt<W: fmt::Write>(&self, f: &mut fmt::Formatter<W>) -> fmt::Result {
        f.write_str("no call has this number")
    }
}

impl Error for UnknownCall {}

impl Call {
    // The calls in the order of their numbers, the first of which is 1.
    pub const ALL: [Call; 17] = [
        Call::New,
        Call::IsValid,
        Call::Get,
        Call::Pop,
        Call::Push,
        Call::Update,
        Call::Walk,
        Call::Draw,
        Call::IsSound,
        Call::NumberBelow,
        Call::AliasNew,
        Call::AliasDraw,
        Call::AliasWeights,
        Call::AliasCheck,
        Call::BinomialNew,
        Call::BinomialDraw,
        Call::ZigguratRound,
    ];
}

impl TryFrom<u64> for Call {
    type Error = UnknownCall;

    fn try_from(number: u64) -> Result<Call, UnknownCall> {
        let place = number.checked_sub(1).ok_or(UnknownCall)?;
        Call::ALL.get(place as usize).copied().ok_or(UnknownCall)
    }
}

impl fmt::Display for Call {
    fn fmt<W: fmt::Write>(&self, f: &mut fmt::Formatter<W>) -> fmt::Result {
        f.write_str(match self {
            Call::New => "new",
            Call::IsValid => "is_valid",
            Call::Get => "get",
            Call::Pop => "pop",
            Call::Push => "push",
            Call::Update => "update",
            Call::Walk => "walk",
            Call::Draw => "draw",
            Call::IsSound => "is_sound",
            Call::NumberBelow => "number_below",
            Call::AliasNew => "alias new",
            Call::AliasDraw => "alias draw",
            Call::AliasWeights => "alias weights",
            Call::AliasCheck => "alias check",
            Call::BinomialNew => "binomial new",
            Call::BinomialDraw => "binomial draw",
            Call::ZigguratRound => "ziggurat round",
        })
    }
}
