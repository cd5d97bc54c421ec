// Messages on standard error.
use std::io;

// What the system says of an error, without the number that the library puts behind it.
fn reason(text: &str) -> &str {
    match text.split_once(" (os error ") {
        Some((words, _)) => words,
        None => text,
    }
}

// Says what failed and why, as `NAME: No such file or directory`. Where that can't be written, nobody can be told.
pub(crate) fn tell(rt: &HostRuntime, what: &[u8], error: io::Error) {
    let told = rt.stderr();
    let _ = told.write_all(what);
    let _ = told.write_all(b": ");
    let _ = match format!(in rt.alloc(); "{error}") {
        Ok(text) => told.println(reason(text.as_str())),
        Err(_) => told.println(error),
    };
}
