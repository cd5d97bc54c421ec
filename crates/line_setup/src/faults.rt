// What a line is refused for before anything is read.
ghost use Rattle.std.specs.Prelude.{◌+◌, ◌≡◌, ltb};
ghost use Rattle.rules.specs.Checked.{verdict};
ghost use Rattle.refusals.specs.Refusal.{outcome_of};
ghost use Rattle.line_setup.specs.Faults.{above_total, normal_length, table_too_long, overlay_wrong, length_faults, line_faults};

use crate::controls::Controls;
use crate::setup::Setup;
use refusals::Refusal;

// Whether an origin and a size go beyond a total.
fn beyond(total: u32, origin: u32, size: u32) -> bool
    ensures { result ≡ ltb total (origin + size) }
{
    total < size || total - size < origin
}

impl Controls {
    // Whether the picture is wider or higher than what the total leaves behind its origin.
    #[tactic(auto, unfolding(crate::specs::Faults::above_total))]
    fn above_total(self) -> bool
        ensures { result ≡ above_total self }
    {
        beyond(self.columns, self.left, self.width) || beyond(self.lines, self.top, self.height)
    }

    // The bytes of a normal row.
    fn normal_length(self) -> usize
        ensures { result ≡ normal_length self }
    {
        (self.width as usize) * ((self.depth / 8) as usize)
    }
}

impl Setup {
    // Whether the table is too long, where it is looked at.
    #[tactic(auto, unfolding(crate::specs::Faults::table_too_long))]
    fn table_too_long(self) -> bool
        ensures { result ≡ table_too_long self }
    {
        self.controls.ids && line_windows::MOST_TABLE_BYTES < self.lengths.table
    }

    // Whether the overlay row has another length than the active width, where it is looked at.
    #[tactic(auto, unfolding(crate::specs::Faults::overlay_wrong))]
    fn overlay_wrong(self) -> bool
        ensures { result ≡ overlay_wrong self }
    {
        self.controls.overlay && self.lengths.overlay != self.controls.width as usize
    }

    // The lengths, at the lowest place: 5.
    #[tactic(auto, using(crate::proofs::Lengths::store_wrong, crate::proofs::Lengths::table_wrong, crate::proofs::Lengths::normal_wrong, crate::proofs::Lengths::overlay_bad, crate::proofs::Lengths::output_short, crate::proofs::Lengths::lengths_right))]
    fn lengths_check(self) -> Result<(), Refusal>
        ensures { outcome_of result ≡ verdict (length_faults self) }
    {
        let controls = self.controls;
        if self.lengths.store != chip_registers::STORE_WORDS {
            return Err(Refusal::StoreLength);
        }
        if self.table_too_long() {
            return Err(Refusal::TableLength);
        }
        if self.lengths.normal != controls.normal_length() {
            return Err(Refusal::NormalLength);
        }
        if self.overlay_wrong() {
            return Err(Refusal::OverlayLength);
        }
        if self.lengths.output < controls.width as usize {
            return Err(Refusal::OutputLength);
        }
        Ok(())
    }

    // 11, 10, 6, 5, in this order.
    #[tactic(auto, using(crate::proofs::Lengths::state_bad, crate::proofs::Lengths::above, crate::proofs::Lengths::below, crate::proofs::Lengths::by_lengths))]
    pub fn line_check(self) -> Result<(), Refusal>
        ensures { outcome_of result ≡ verdict (line_faults self) }
    {
        let controls = self.controls;
        if !self.good {
            return Err(Refusal::BadState);
        }
        if controls.above_total() {
            return Err(Refusal::AboveTotal);
        }
        if controls.height <= self.y {
            return Err(Refusal::BelowActive(self.y));
        }
        self.lengths_check()
    }
}
