// Overlay over a run that is drawn already: in a long one the colours of all 256 bytes are made once, through gamma.
ghost use Rattle.std.specs.Prelude.{ℕ, ◌+◌, ◌≤◌, ◌<◌, ◌≡◌, length, get_or};
ghost use Rattle.rules.specs.Lists.{changed};
ghost use Rattle.line_pixels.specs.Inner.{overlaid_or, overlaid_by};
ghost use Rattle.line_pixels.specs.Source.{view_of, OverlayLaid};
ghost use Rattle.rules.specs.Rule.{value};

use crate::correction::correct;
use crate::layers::OVERLAY_COLOURS;
use crate::lengths::OVERLAY_RUN;
use crate::mapped::map_colours;
use crate::runs::{FourByFour, OneByOne, Stepping};
use crate::source::Source;

// The colour of a byte, or what is under it where the byte is 0.
fn over(colours: &[u32; 256], byte: u8, under: u32) -> u32
    ensures { result ≡ overlaid_by colours.now byte under }
{
    let colour = colours[byte as usize];
    if byte == 0 { under } else { colour }
}

// Overlay by the colours of all bytes.
fn lay_by(colours: &[u32; 256], overlay: &[u8], x: usize, out: &mut [u32])
    requires { x + length out.old ≤ length overlay.now }
    ensures bytes { (p : ℕ) → get_or overlay.now p 0 < 256 }
    ensures laid { out.new ≡ changed (λ p under. overlaid_by colours.now (get_or overlay.now p 0) under) x out.old (length out.old) }
{
    FourByFour::change(|i, under| over(colours, overlay[x + i], under), out);
}

impl Source<'_> {
    // The colour of an overlay byte, or what is under it where the byte is 0.
    #[tactic(auto, unfolding(crate::specs::Inner::overlaid_or))]
    fn overlay_or(&self, byte: u8, under: u32) -> u32
        ensures { result ≡ value (view_of self.now) (overlaid_or self.now.entry byte under) }
    {
        if byte == 0 {
            return under;
        }
        self.overlay_shown(byte)
    }

    // Overlay over a short run: each colour is worked out for its pixel.
    fn lay_short(&self, x: usize, out: &mut [u32])
        requires { x + length out.old ≤ length self.now.overlay.now }
        ensures { OverlayLaid self.now x out.old out.new }
    {
        // A copy of its own, of which the loop need not read anything again.
        let source = *self;
        OneByOne::change(
            |i, under| source.overlay_or(source.overlay[x + i], under),
            out,
        );
    }

    // Overlay over a long run.
    fn lay_long(&self, x: usize, out: &mut [u32])
        requires { x + length out.old ≤ length self.now.overlay.now }
        ensures { OverlayLaid self.now x out.old out.new }
    {
        let mut colours = [0; 256];
        map_colours(self.store, OVERLAY_COLOURS, &mut colours);
        correct(self.store, self.entry.bypass, &mut colours);
        lay_by(&colours, self.overlay, x, out);
    }

    // Overlay over a run.
    pub(crate) fn lay_overlay(&self, x: usize, out: &mut [u32])
        requires { x + length out.old ≤ length self.now.overlay.now }
        ensures { OverlayLaid self.now x out.old out.new }
    {
        if OVERLAY_RUN <= out.len() {
            self.lay_long(x, out);
        } else {
            self.lay_short(x, out);
        }
    }
}
