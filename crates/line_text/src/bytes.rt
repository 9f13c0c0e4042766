//! Bytes, appended.

ghost use Rattle.std.specs.Prelude.{◌≡◌, ◌+◌, ◌≤◌, ◌++◌, length, vec_len, vec_capacity};

use std::mem::{forget, replace};

/// Appends bytes for which there is room. It takes no memory.
pub fn append(more: &[u8], out: &mut Vec<u8>)
    requires { vec_len out.old + length more.now ≤ vec_capacity out.old }
    ensures bytes { out.new.items ≡ out.old.items ++ more.now }
    ensures len { vec_len out.new ≡ vec_len out.old + length more.now }
    ensures room { vec_capacity out.new ≡ vec_capacity out.old }
{
    // Meanwhile the vector stands by itself, so that where its bytes are isn't read again behind each of them.
    let empty = Vec::new(*out.allocator());
    let mut whole = replace(out, empty);
    for byte in more {
        whole.push_reserved(*byte);
    }
    forget(replace(out, whole));
}
