//! Names of fields.

ghost use Rattle.std.specs.Prelude.{◌≡◌, slice_index};

/// The third byte of a name, 0 where it has none. It mostly says that a name is none of a table, without a comparison of texts.
#[inline(always)]
pub fn third_byte(name: &str) -> u8
    ensures { result ≡ slice_index name.now 2 }
{
    let bytes = name.as_bytes();
    if bytes.len() > 2 { bytes[2] } else { 0 }
}
