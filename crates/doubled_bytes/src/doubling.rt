//! Bytes with each DLE twice.
ghost use Rattle.std.specs.Prelude.{◌≡◌, ◌+◌, ◌≤◌, [], ◌∷◌, ◌++◌, length};
ghost use Rattle.std.specs.Prelude.{vec_len, vec_capacity};
ghost use Rattle.doubled_bytes.specs.Doubled.{doubled};

/// Appends bytes, each `dle` among them twice. It takes no memory.
#[inline(always)]
pub fn push_doubled(dle: u8, bytes: &[u8], out: &mut Vec<u8>)
    requires { vec_len out.old + length (doubled dle bytes.now) ≤ vec_capacity out.old }
    ensures doubled { out.new.items ≡ out.old.items ++ doubled dle bytes.now }
    ensures room { vec_capacity out.new ≡ vec_capacity out.old }
{
    for byte in bytes {
        push_byte(dle, *byte, out);
    }
}

// Appends a byte, twice where it is `dle`.
#[inline(always)]
fn push_byte(dle: u8, byte: u8, out: &mut Vec<u8>)
    requires { vec_len out.old + length (doubled dle (byte ∷ [])) ≤ vec_capacity out.old }
    ensures doubled { out.new.items ≡ out.old.items ++ doubled dle (byte ∷ []) }
    ensures room { vec_capacity out.new ≡ vec_capacity out.old }
{
    out.push_reserved(byte);
    if byte == dle {
        out.push_reserved(dle);
    }
}
