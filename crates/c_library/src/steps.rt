// The calls on a recorded session, for C.
ghost use Rattle.std.specs.Prelude.{◌≡◌, not, eqb};
ghost use Rattle.session.specs.Held.{nothing_held};
ghost use Rattle.session.specs.Lent.{rooms_of, session_of};
ghost use Rattle.c_session.specs.Steps.{step_in_numbers};

use c_session::steps::SteppedNumbers;
use session::session::Session;

// A session before its first record.
#[unsafe(no_mangle)]
pub extern "C" fn bulitampaw_fresh_session() -> Session
    ensures { result ≡ session_of nothing_held }
{
    c_session::steps::bulitampaw_fresh_session()
}

// The record at a place of some bytes, on the lent store, table, rows and output, and its text. A last other than 0 says that the file ends with these bytes.
#[unsafe(no_mangle)]
pub extern "C" fn bulitampaw_step(
    session: Session,
    bytes: &[u8],
    place: usize,
    last: u32,
    store: &mut [u32],
    table: &mut [u8],
    normal: &mut [u8],
    overlay: &mut [u8],
    output: &mut [u32],
    text: &mut [u8],
) -> SteppedNumbers
    ensures { (result, (rooms_of store.new table.new normal.new overlay.new output.new, text.new)) ≡ step_in_numbers session (rooms_of store.old table.old normal.old overlay.old output.old) text.old bytes.now place (not (eqb last 0)) }
{
    c_session::steps::bulitampaw_step(
        session, bytes, place, last, store, table, normal, overlay, output, text,
    )
}
