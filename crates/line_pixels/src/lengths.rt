// From which length on a run is drawn in which way: where the quick way begins to pay. docs/DECISIONS.md has the measurement.
ghost use Rattle.std.specs.Prelude.{◌≡◌, cond};

// The shortest run that is drawn layer by layer. A single pixel is drawn by the function that says what any pixel shows.
pub(crate) const LAYERED_RUN: usize = 2;

// The shortest run of 8-bit samples past gamma for which the colours of all samples are made first.
const LOOKED_UP_BYPASSED: usize = 64;

// The shortest such run through gamma.
const LOOKED_UP_CORRECTED: usize = 192;

// The shortest run for which the colours of all overlay bytes are made first.
pub(crate) const OVERLAY_RUN: usize = 256;

// The shortest run in RGB 4-4-4 or 5-5-5 through gamma for which the final words of red and green together are made first.
pub(crate) const PAIRED_RUN: usize = 128;

// The fewest words for which the gamma map is split into its channels first.
pub(crate) const SPLIT_WORDS: usize = 128;

// The shortest run of 8-bit samples for which the colours of all samples are made first.
pub(crate) fn shortest_looked_up(bypass: bool) -> usize
    ensures { result ≡ cond bypass 64 192 }
{
    if bypass {
        LOOKED_UP_BYPASSED
    } else {
        LOOKED_UP_CORRECTED
    }
}
