ghost use Rattle.std.specs.Prelude.{◌≡◌, ◌==◌, ◌++◌};
ghost use Rattle.std.specs.List.{list_all, slice_split};
ghost use Rattle.std.specs.Str.{bytes_eq};
ghost use Rattle.ato_words.specs.PlainNames.{is_segment, is_path_byte, is_plain, is_put};

fn has_path_bytes(name: &[u8]) -> bool
    ensures { result ≡ list_all is_path_byte name.now }
{
    name.iter().all(|byte| *byte != b'\\' && *byte != 0)
}

fn is_segment(text: &[u8]) -> bool
    ensures { result ≡ is_segment text.now }
{
    text != b"".as_slice() && text != b".".as_slice() && text != b"..".as_slice()
}

fn has_segments(name: &[u8]) -> bool
    ensures { result ≡ list_all is_segment (slice_split (λ b. b == 47) name.now) }
{
    name.split(|byte| *byte == b'/')
        .all(|segment| is_segment(segment))
}

/// Whether a name is plain: it has no backslash and no NUL, and each part between slashes is neither
/// empty nor `.` nor `..`.
pub fn is_plain(name: &str) -> bool
    ensures { result ≡ is_plain name.now }
{
    let bytes = name.as_bytes();
    has_path_bytes(bytes) && has_segments(bytes)
}

/// Whether a name is `out` and then the ending.
fn has_ending(out: &str, name: &str, ending: &[u8]) -> bool
    ensures { result ≡ bytes_eq name.now (out.now ++ ending.now) }
{
    match name.as_bytes().strip_prefix(out.as_bytes()) {
        None => false,
        Some(rest) => rest == ending,
    }
}

/// Whether a name is one of the files that a build for `out` may put.
pub(crate) fn is_put(out: &str, name: &str) -> bool
    ensures { result ≡ is_put out.now name.now }
{
    has_ending(out, name, b".net")
        || has_ending(out, name, b".csv")
        || has_ending(out, name, b".cert")
}
