// What the control words say of a line.
ghost use Rattle.std.specs.Prelude.{◌+◌, ◌-◌, ◌^◌, ◌<◌, ◌≤◌, ◌≡◌};
ghost use Rattle.words.specs.Field.{field};
ghost use Rattle.line_setup.specs.Controls.{switch, depth_of, controls_of};

// The fields of the control words that a line goes by. Sizes and totals are the fields plus 1.
#[derive(Clone, Copy)]
pub struct Controls {
    // Whether overlay is on.
    pub overlay: bool,
    // Whether window IDs come from the table; else all pixels are window 0's.
    pub ids: bool,
    // Whether the cursor is on.
    pub cursor: bool,
    // Whether the cursor is a cross-hair, and not the glyph.
    pub crosshair: bool,
    // The bits of a pixel of the normal row: 16 or 32.
    pub depth: u32,
    // The total width.
    pub columns: u32,
    // The total lines.
    pub lines: u32,
    // x of the active origin.
    pub left: u32,
    // y of the active origin.
    pub top: u32,
    // The active width.
    pub width: u32,
    // The active height.
    pub height: u32,
    // x of the cursor.
    pub cx: u32,
    // y of the cursor.
    pub cy: u32,
}

// A switch of control word 0.
#[tactic(auto, unfolding(crate::specs::Controls::switch))]
fn switch(word: u32, bit: u32) -> bool
    requires { bit < 32 }
    ensures { result ≡ switch word bit }
{
    words::field(word, bit, bit) == 1
}

// The depth.
#[tactic(auto, unfolding(crate::specs::Controls::depth_of))]
fn depth(word: u32) -> u32
    ensures { result ≡ depth_of word }
{
    if switch(word, 4) { 32 } else { 16 }
}

// A size or a total: a field of at most 12 bits plus 1.
fn size(word: u32, high: u32, low: u32) -> u32
    requires { (low ≤ high) × (high < 32) × (2 ^ (high + 1 - low) ≤ 4096) }
    ensures { result ≡ field word high low + 1 }
{
    words::field(word, high, low) + 1
}

impl From<[u32; 9]> for Controls {
    ghost from_gives = { λ control says. says ≡ controls_of control };

    // What nine control words say.
    #[tactic(auto, unfolding(crate::specs::Controls::controls_of))]
    fn from(control: [u32; 9]) -> Self
        ensures { result ≡ controls_of control }
    {
        let switches = control[0];
        let total = control[1];
        let origin = control[6];
        let active = control[7];
        let cursor = control[8];
        Self {
            overlay: switch(switches, 0),
            ids: switch(switches, 1),
            cursor: switch(switches, 2),
            crosshair: switch(switches, 3),
            depth: depth(switches),
            columns: size(total, 11, 0),
            lines: size(total, 27, 16),
            left: words::field(origin, 11, 0),
            top: words::field(origin, 27, 16),
            width: size(active, 10, 0),
            height: size(active, 26, 16),
            cx: words::field(cursor, 11, 0),
            cy: words::field(cursor, 27, 16),
        }
    }
}
