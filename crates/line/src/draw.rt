// One line of the picture.
ghost use Rattle.std.specs.Prelude.{◌≡◌, length};
ghost use Rattle.refusals.specs.Refusal.{outcome_of};
ghost use Rattle.chip_registers.specs.Store.{store_length};
ghost use Rattle.line.specs.Screen.{screen_in};
ghost use Rattle.line.specs.Cells.{lent_of};
ghost use Rattle.line.specs.Drawn.{setup_of, drawn};
ghost use Rattle.line.specs.Inner.{StartAnswer};

use crate::passes::{check_runs, draw_runs};
use crate::request::Request;
use chip::answered::Answered;
use chip_registers::STORE_WORDS;
use line_pixels::Screen;
use line_setup::controls::Controls;
use line_setup::setup::{Lengths, Setup};
use refusals::Refusal;

// What a line goes by, with so many words of output.
#[tactic(auto, unfolding(crate::specs::Drawn::setup_of))]
fn setup(
    request: Request,
    store: &[u32],
    table: &[u8],
    normal: &[u8],
    overlay: &[u8],
    output: usize,
) -> Setup
    ensures { result ≡ setup_of request (lent_of store.now table.now normal.now overlay.now) output }
{
    let state = request.state;
    let control = state.control;
    Setup {
        good: state.good(),
        controls: Controls::from(control),
        y: request.y,
        lengths: Lengths {
            store: store.len(),
            table: table.len(),
            normal: normal.len(),
            overlay: overlay.len(),
            output,
        },
    }
}

// Where the line table of line y starts; with window IDs off there is none.
fn start(controls: Controls, table: &[u8], y: u32) -> Result<usize, Refusal>
    ensures { StartAnswer controls table.now y result }
{
    if controls.ids {
        return line_windows::frame::line_table(table, y);
    }
    Ok(0)
}

// What a line goes by of every pixel.
fn screen(setup: Setup) -> Screen
    ensures { result ≡ screen_in setup }
{
    let controls = setup.controls;
    Screen {
        overlay: controls.overlay,
        cursor: controls.cursor,
        crosshair: controls.crosshair,
        depth: controls.depth,
        cx: controls.cx as usize,
        cy: controls.cy as usize,
        y: setup.y as usize,
    }
}

// A store that has its length.
fn whole(store: &[u32]) -> &[u32; STORE_WORDS]
    requires { length store.now ≡ store_length }
    ensures { result.now ≡ store.now }
{
    store.try_into().unwrap()
}

// Every check of a line, pixel by pixel too, and then its colours: done, or the refusal.
fn checked_and_drawn(
    request: Request,
    store: &[u32],
    table: &[u8],
    normal: &[u8],
    overlay: &[u8],
    out: &mut [u32],
) -> Result<(), Refusal>
    ensures { ((request.state, out.new), outcome_of result) ≡ drawn request (lent_of store.now table.now normal.now overlay.now) out.old }
{
    let setup = setup(request, store, table, normal, overlay, out.len());
    setup.line_check()?;
    let store = whole(store);
    let controls = setup.controls;
    let start = start(controls, table, setup.y)?;
    check_runs(controls, store, table, start)?;
    let screen = screen(setup);
    draw_runs(controls, screen, store, table, start, normal, overlay, out);
    Ok(())
}

// Draws the line that is asked for into the front of the output, or refuses it and leaves all as it was.
pub fn draw(
    request: Request,
    store: &[u32],
    table: &[u8],
    normal: &[u8],
    overlay: &[u8],
    out: &mut [u32],
) -> Answered<()>
    ensures { ((result.state, out.new), outcome_of result.answer) ≡ drawn request (lent_of store.now table.now normal.now overlay.now) out.old }
{
    Answered {
        state: request.state,
        answer: checked_and_drawn(request, store, table, normal, overlay, out),
    }
}
