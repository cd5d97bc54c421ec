// Words of the lent store.
ghost use Rattle.std.specs.Prelude.{◌≡◌, length};
ghost use Rattle.chip_registers.specs.Store.{store_length, store_place, Within, stored};

use chip_registers::{Register, STORE_WORDS};

// The kept bits of a register's word.
pub(crate) fn stored(store: &[u32; STORE_WORDS], register: Register) -> u32
    requires { Within store_length (store_place register) }
    ensures { result ≡ stored store.now register }
{
    let place = register.store_place();
    match place {
        Some(at) => register.kept(store[at]),
        // Not taken: the register stands in the store.
        None => 0,
    }
}

// A store that has its length.
pub(crate) fn whole(store: &[u32]) -> &[u32; STORE_WORDS]
    requires { length store.now ≡ store_length }
    ensures { result.now ≡ store.now }
{
    store.try_into().unwrap()
}
