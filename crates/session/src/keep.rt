// Bytes of a record go into a lent room.
ghost use Rattle.std.specs.Prelude.{◌+◌, ◌≤◌, ◌≡◌, length};
ghost use Rattle.std.proofs.Math.Seq.{paste};

// Some bytes go into a room, from a place of it on.
pub(crate) fn keep(room: &mut [u8], at: usize, bytes: &[u8])
    requires { at + length bytes.now ≤ length room.old }
    ensures { room.new ≡ paste room.old at bytes.now (length bytes.now) }
{
    room[at..at + bytes.len()].copy_from_slice(bytes);
}
