// The questions and the version, for C.
ghost use Rattle.std.specs.Prelude.{◌≡◌};
ghost use Rattle.c_questions.specs.Questions.{entry_defined, signal_holds, interface_version};

// Whether a window entry is defined at a depth: 1 or 0.
#[unsafe(no_mangle)]
pub extern "C" fn bulitampaw_entry_defined(entry: u32, depth: u32) -> u32
    ensures { result ≡ entry_defined entry depth }
{
    c_questions::bulitampaw_entry_defined(entry, depth)
}

// Whether a signal holds at p, by its window from on to off: 1 or 0.
#[unsafe(no_mangle)]
pub extern "C" fn bulitampaw_signal_holds(on: u32, off: u32, p: u32) -> u32
    ensures { result ≡ signal_holds on off p }
{
    c_questions::bulitampaw_signal_holds(on, off, p)
}

// The version of the header that this library goes with. The name has the number too, so that another version's header and this library don't link.
#[unsafe(no_mangle)]
pub extern "C" fn bulitampaw_version_1() -> u32
    ensures { result ≡ interface_version }
{
    c_questions::bulitampaw_version_1()
}
