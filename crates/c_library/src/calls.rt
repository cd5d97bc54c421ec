// The calls on the chip, for C.
ghost use Rattle.std.specs.Prelude.{◌≡◌};
ghost use Rattle.chip.specs.State.{fresh};
ghost use Rattle.line.specs.Cells.{lent_of};
ghost use Rattle.line.specs.Request.{request_of};
ghost use Rattle.c_chip.specs.Calls.{written_in_numbers, read_in_numbers, dotted_in_numbers, ran_in_numbers, drawn_in_numbers};

use c_chip::calls::{DottedNumbers, DrawnNumbers, ReadBackNumbers, WrittenNumbers};
use chip::state::State;

// A fresh state: all zero, its queue empty.
#[unsafe(no_mangle)]
pub extern "C" fn bulitampaw_fresh() -> State
    ensures { result ≡ fresh }
{
    c_chip::calls::bulitampaw_fresh()
}

// One register write.
#[unsafe(no_mangle)]
pub extern "C" fn bulitampaw_write(
    state: State,
    store: &mut [u32],
    address: u32,
    value: u32,
) -> WrittenNumbers
    ensures { (result, store.new) ≡ written_in_numbers (state, store.old) address value }
{
    c_chip::calls::bulitampaw_write(state, store, address, value)
}

// One register read. It changes nothing, so the state that came goes back.
#[unsafe(no_mangle)]
pub extern "C" fn bulitampaw_read(state: State, store: &[u32], address: u32) -> ReadBackNumbers
    ensures { result ≡ read_in_numbers (state, store.now) address }
{
    c_chip::calls::bulitampaw_read(state, store, address)
}

// One dot.
#[unsafe(no_mangle)]
pub extern "C" fn bulitampaw_dot(state: State, store: &mut [u32]) -> DottedNumbers
    ensures { (result, store.new) ≡ dotted_in_numbers (state, store.old) }
{
    c_chip::calls::bulitampaw_dot(state, store)
}

// So many dots.
#[unsafe(no_mangle)]
pub extern "C" fn bulitampaw_dots(state: State, store: &mut [u32], count: u32) -> DottedNumbers
    ensures { (result, store.new) ≡ ran_in_numbers (state, store.old) count }
{
    c_chip::calls::bulitampaw_dots(state, store, count)
}

// One drawn line. It changes no state, so the one that came goes back.
#[unsafe(no_mangle)]
pub extern "C" fn bulitampaw_line(
    state: State,
    y: u32,
    store: &[u32],
    table: &[u8],
    normal: &[u8],
    overlay: &[u8],
    output: &mut [u32],
) -> DrawnNumbers
    ensures { (result, output.new) ≡ drawn_in_numbers (request_of state y) (lent_of store.now table.now normal.now overlay.now) output.old }
{
    c_chip::calls::bulitampaw_line(state, y, store, table, normal, overlay, output)
}
