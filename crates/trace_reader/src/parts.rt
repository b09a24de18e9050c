// Bytes that are cut at marks, and fields that spaces divide.
ghost use Rattle.std.specs.Prelude.{◌≡◌, ◌==◌, ◌∷◌, ◌<◌, IfSome, length};
ghost use Rattle.std.specs.List.{position};
ghost use Rattle.std.specs.Option.{option_map};
ghost use Rattle.trace_reader.specs.Fields.{is_only, three_of, two_of};
ghost use Rattle.trace_reader.specs.Parts.{parts, parts_behind};

/// What divides fields.
pub const SPACE: u8 = b' ';

/// What stands before the first mark, and what stands behind it, if there is one.
pub fn cut(bytes: &[u8], mark: u8) -> (&[u8], Option<&[u8]>)
    ensures parts { parts mark bytes.now ≡ result.0.now ∷ parts_behind mark result.1 }
    ensures shorter { IfSome result.1 (λ behind. length behind.now < length bytes.now) }
{
    match first_mark(bytes, mark) {
        Some(at) => (&bytes[..at], Some(&bytes[at + 1..])),
        None => (bytes, None),
    }
}

/// The place of the first mark.
fn first_mark(bytes: &[u8], mark: u8) -> Option<usize>
    ensures { result ≡ position (λ byte. byte == mark) bytes.now }
{
    bytes.iter().position(|byte| *byte == mark)
}

/// Whether the field is that one byte.
pub fn is_only(field: &[u8], byte: u8) -> bool
    ensures { result ≡ is_only byte field.now }
{
    match field {
        [only] => *only == byte,
        _ => false,
    }
}

/// The fields of these bytes, where there are two.
pub fn two_fields(bytes: Option<&[u8]>) -> Option<(&[u8], &[u8])>
    ensures { option_map (λ two. (two.0.now, two.1.now)) result ≡ two_of (parts_behind 32 bytes.entry) }
{
    let (one, behind) = cut(bytes?, SPACE);
    let (two, behind) = cut(behind?, SPACE);
    match behind {
        None => Some((one, two)),
        Some(_) => None,
    }
}

/// The fields of these bytes, where there are three.
pub fn three_fields(bytes: Option<&[u8]>) -> Option<(&[u8], &[u8], &[u8])>
    ensures { option_map (λ three. (three.0.now, three.1.now, three.2.now)) result ≡ three_of (parts_behind 32 bytes.entry) }
{
    let (one, behind) = cut(bytes?, SPACE);
    let (two, behind) = cut(behind?, SPACE);
    let (three, behind) = cut(behind?, SPACE);
    match behind {
        None => Some((one, two, three)),
        Some(_) => None,
    }
}
