// Words of four bytes, the lowest first.
ghost use Rattle.std.specs.Prelude.{◌≡◌, ◌+◌, ◌<◌, length};
ghost use Rattle.file.specs.Word.{word_at, put_word};

// The word at byte i. For our crates above too, which see to what is required here.
pub fn word_at(bytes: &[u8], i: usize) -> u32
    requires { i + 3 < length bytes.now }
    ensures { result ≡ word_at bytes.now i }
{
    u32::from_le_bytes([bytes[i], bytes[i + 1], bytes[i + 2], bytes[i + 3]])
}

// Puts word w at byte i.
pub(crate) fn put_word(out: &mut [u8], i: usize, w: u32)
    requires { i + 3 < length out.old }
    ensures { out.new ≡ put_word out.old i w }
{
    out[i..i + 4].copy_from_slice(&w.to_le_bytes());
}
