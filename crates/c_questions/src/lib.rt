// The two questions that C asks, and the version of what it calls: plain numbers in, a plain number out.
#![tactic(auto)]

ghost use Rattle.std.specs.Prelude.{◌≡◌};
ghost use Rattle.c_questions.specs.Questions.{entry_defined, signal_holds, interface_version};

use c_numbers::yes_no;

// Whether a window entry is defined at a depth: 1 or 0.
#[tactic(auto, using(line_colour::proofs::Kept::decoded_kept), unfolding(crate::specs::Questions::entry_defined, line_colour::specs::Entry::is_defined))]
pub fn bulitampaw_entry_defined(entry: u32, depth: u32) -> u32
    ensures { result ≡ entry_defined entry depth }
{
    yes_no(line_colour::entry::decode(entry, depth).is_some())
}

// Whether a signal holds at p, by its window from on to off: 1 or 0.
#[tactic(auto, unfolding(crate::specs::Questions::signal_holds))]
pub fn bulitampaw_signal_holds(on: u32, off: u32, p: u32) -> u32
    ensures { result ≡ signal_holds on off p }
{
    yes_no(chip_timing::in_window(on, off, p))
}

// The version of the header that this library goes with. The name has the number too, so that another version's header and this library don't link.
pub fn bulitampaw_version_1() -> u32
    ensures { result ≡ interface_version }
{
    1
}
