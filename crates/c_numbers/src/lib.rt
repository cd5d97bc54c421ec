// Answers in plain numbers, as C takes them.
#![tactic(auto)]

ghost use Rattle.std.specs.Prelude.{◌≡◌};
ghost use Rattle.refusals.specs.Refusal.{numbered};
ghost use Rattle.c_numbers.specs.Numbers.{yes_no, nothing, refused_by};

use refusals::Refusal;

// A refusal's number and place; both 0 where there is none.
#[repr(C)]
#[derive(Drop)]
pub struct Refused {
    // the paper's number of it: 1 to 14
    pub number: u32,
    // where it is, by the number: an address, a line, a pixel, which length, a record, or 0
    pub place: u32,
}

// A yes as 1, a no as 0.
pub fn yes_no(yes: bool) -> u32
    ensures { result ≡ yes_no yes }
{
    u32::from(yes)
}

// Nothing is refused.
pub fn nothing() -> Refused
    ensures { result ≡ nothing }
{
    Refused {
        number: 0,
        place: 0,
    }
}

// A refusal's number and place.
pub fn refused_by(refusal: Refusal) -> Refused
    ensures { result ≡ refused_by (numbered refusal) }
{
    Refused {
        number: refusal.number(),
        place: refusal.place(),
    }
}
