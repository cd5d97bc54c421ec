// Timing: the circular window, the signals of a position, its moves, and the walk to the next blanked one.
#![tactic(auto)]

ghost use Rattle.std.specs.Prelude.{ℕ, ◌+◌, ◌≤◌, ◌<◌, min, ◌≡◌, false, ◌&&◌};
ghost use Rattle.words.specs.Field.{field};
ghost use Rattle.chip_timing.specs.Window.{in_window};
ghost use Rattle.chip_timing.specs.Signals.{window_holds, is_empty, signals_at};
ghost use Rattle.chip_timing.specs.Move.{next_position, position_after};
ghost use Rattle.chip_timing.specs.Walk.{walked};

// Whether p is in the window from on to off.
#[tactic(auto, unfolding(crate::specs::Window::in_window))]
pub fn in_window(on: u32, off: u32, p: u32) -> bool
    ensures { result ≡ in_window on off p }
{
    if on < off {
        on <= p && p < off
    } else if off < on {
        on <= p || p < off
    } else {
        false
    }
}

// Whether p is in the window of a control word.
#[tactic(auto, unfolding(crate::specs::Signals::window_holds))]
fn window_holds(word: u32, p: u32) -> bool
    ensures { result ≡ window_holds word p }
{
    in_window(words::field(word, 11, 0), words::field(word, 27, 16), p)
}

// Whether the window of a control word is empty.
#[tactic(auto, unfolding(crate::specs::Signals::is_empty))]
fn is_empty(word: u32) -> bool
    ensures { result ≡ is_empty word }
{
    words::field(word, 11, 0) == words::field(word, 27, 16)
}

// Where the beam is.
#[repr(C)]
#[derive(Clone, Copy)]
pub struct Position {
    // which dot of the line, from 0 on
    pub x: u32,
    // which line, from 0 on
    pub y: u32,
}

impl Position {
    // The next position, under control word 1.
    #[tactic(auto, using(crate::proofs::Move::move_along, crate::proofs::Move::move_down, crate::proofs::Move::move_home))]
    pub fn next(self, total: u32) -> Self
        ensures { result ≡ next_position self total }
    {
        let last_x = words::field(total, 11, 0);
        let last_y = words::field(total, 27, 16);
        if self.x < last_x {
            Self {
                x: self.x + 1,
                y: self.y,
            }
        } else if self.y < last_y {
            Self {
                x: 0,
                y: self.y + 1,
            }
        } else {
            Self { x: 0, y: 0 }
        }
    }

    // The position after a run of moves of which only the last may leave the line.
    #[tactic(auto, using(crate::proofs::After::after_run))]
    fn along(self, run: u32, total: u32) -> Self
        requires { (0 < run) × (min self.x (field total 11 0) + run ≤ field total 11 0 + 1) }
        ensures { result ≡ position_after self run total }
    {
        let last = Self {
            x: self.x + (run - 1),
            y: self.y,
        };
        last.next(total)
    }

    // The position after so many moves, under control word 1: in closed form.
    #[tactic(auto, using(crate::proofs::After::after_along, crate::proofs::After::after_ends), unfolding(crate::specs::Move::position_after))]
    pub fn after(self, count: u32, total: u32) -> Self
        ensures { result ≡ position_after self count total }
    {
        if count == 0 {
            return self;
        }
        let last_x = words::field(total, 11, 0);
        let last_y = words::field(total, 27, 16);
        let dots = u64::from(self.x.min(last_x)) + u64::from(count);
        let width = u64::from(last_x) + 1;
        let ends = dots / width;
        let x = (dots % width) as u32;
        if ends == 0 {
            return Self { x, y: self.y };
        }
        let lines = u64::from(self.y.min(last_y)) + ends;
        let height = u64::from(last_y) + 1;
        Self {
            x,
            y: (lines % height) as u32,
        }
    }
}

// What a position reports.
#[derive(Clone, Copy)]
pub struct Signals {
    // whether horizontal sync holds
    pub hsync: bool,
    // whether vertical sync holds
    pub vsync: bool,
    // whether horizontal or vertical blank holds
    pub blank: bool,
}

// How far a walk came: the position, and the moves left.
#[derive(Drop)]
pub struct Walk {
    // where it ended
    pub at: Position,
    // how many of its moves are left
    pub left: u32,
}

// Control words 2 to 5: a window each.
#[derive(Clone, Copy)]
pub struct Windows {
    // control word 2: horizontal sync, by x
    pub hsync: u32,
    // control word 3: vertical sync, by y
    pub vsync: u32,
    // control word 4: horizontal blank, by x
    pub hblank: u32,
    // control word 5: vertical blank, by y
    pub vblank: u32,
}

impl Windows {
    // The signals of a position.
    #[tactic(auto, unfolding(crate::specs::Signals::signals_at))]
    pub fn signals(self, at: Position) -> Signals
        ensures { result ≡ signals_at self at }
    {
        Signals {
            hsync: window_holds(self.hsync, at.x),
            vsync: window_holds(self.vsync, at.y),
            blank: window_holds(self.hblank, at.x) || window_holds(self.vblank, at.y),
        }
    }

    // Whether no position is blanked, since both windows are empty.
    fn never_blank(self) -> bool
        ensures { result ≡ (is_empty self.hblank && is_empty self.vblank) }
    {
        is_empty(self.hblank) && is_empty(self.vblank)
    }

    // How many positions of a line are clear, from a clear one on, up to where horizontal blank may come on: at least 1.
    #[tactic(auto, using(crate::proofs::Run::run_one, crate::proofs::Run::run_along))]
    fn clear_run(self, at: Position, total: u32) -> u32
        ensures { (0 < result) × (min at.x (field total 11 0) + result ≤ field total 11 0 + 1) × ((signals_at self at).blank ≡ false → (i : ℕ) → i < result → (signals_at self (position_after at i total)).blank ≡ false) }
    {
        let last = words::field(total, 11, 0);
        let on = words::field(self.hblank, 11, 0);
        if last <= at.x {
            1
        } else if at.x < on {
            on.min(last + 1) - at.x
        } else {
            last + 1 - at.x
        }
    }

    // On to the first blanked position, by at most so many moves.
    #[tactic(auto, using(crate::proofs::Run::run_for_ever, crate::proofs::Walked::walk_out, crate::proofs::Walked::walk_here, crate::proofs::Walked::walk_clear_all))]
    pub fn to_blank(self, from: Position, total: u32, most: u32) -> Walk
        ensures { result ≡ walked self from total most }
    {
        if self.never_blank() {
            return Walk {
                at: from.after(most, total),
                left: 0,
            };
        }
        let mut at = from;
        let mut left = most;
        while left != 0 {
            if self.signals(at).blank {
                return Walk { at, left };
            }
            let run = self.clear_run(at, total).min(left);
            at = at.along(run, total);
            left -= run;
        }
        Walk { at, left }
    }
}
