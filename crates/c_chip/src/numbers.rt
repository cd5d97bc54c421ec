// The chip's answers in plain numbers.
ghost use Rattle.std.specs.Prelude.{◌≡◌};
ghost use Rattle.refusals.specs.Refusal.{outcome_of};
ghost use Rattle.c_numbers.specs.Numbers.{refusal_of};
ghost use Rattle.c_chip.specs.Reports.{in_numbers};

use c_numbers::{Refused, nothing, refused_by, yes_no};
use chip_timing::Signals;
use refusals::Refusal;

// Whether a dot was made, and the signals of the last one, each 1 or 0.
#[repr(C)]
#[derive(Drop)]
pub struct Reported {
    // 1 where a dot was made, else 0 and so are the others
    pub reported: u32,
    // 1 where horizontal sync holds
    pub hsync: u32,
    // 1 where vertical sync holds
    pub vsync: u32,
    // 1 where the dot is blanked
    pub blank: u32,
}

// Why a call was refused, or 0 and 0.
pub(crate) fn refusal_of<A: Drop>(answer: Result<A, Refusal>) -> Refused
    ensures { result ≡ refusal_of (outcome_of answer) }
{
    match answer {
        Ok(_) => nothing(),
        Err(refusal) => refused_by(refusal),
    }
}

impl From<Option<Signals>> for Reported {
    ghost from_gives = { λ report reported. reported ≡ in_numbers report };

    // What dots report: the signals of the last, if a dot was made.
    fn from(report: Option<Signals>) -> Self
        ensures { result ≡ in_numbers report }
    {
        match report {
            None => Self {
                reported: 0,
                hsync: 0,
                vsync: 0,
                blank: 0,
            },
            Some(signals) => Self {
                reported: 1,
                hsync: yes_no(signals.hsync),
                vsync: yes_no(signals.vsync),
                blank: yes_no(signals.blank),
            },
        }
    }
}
