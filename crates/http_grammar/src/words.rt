//! Words of lists, compared without case.
ghost use Rattle.std.specs.Prelude.{◌≡◌, ◌≤◌, ◌-◌, length};
ghost use Rattle.std.specs.Str.{str_eq_ignore_ascii_case};
ghost use Rattle.std.specs.List.{list_any, list_all, slice_split};
ghost use Rattle.httparse.specs.Grammar.{is_ows, trim_ows};
ghost use Rattle.http_grammar.specs.Fields.{is_comma, is_element, names_word, names_only};

/// Whether the two are equal but for the case of letters.
pub(crate) fn same_word(a: &[u8], b: &[u8]) -> bool
    ensures { result ≡ str_eq_ignore_ascii_case a.now b.now }
{
    a.eq_ignore_ascii_case(b)
}

fn is_blank(b: u8) -> bool
    ensures { result ≡ is_ows b }
{
    b == b' ' || b == b'\t'
}

/// The bytes without the white space around them.
pub(crate) fn trimmed(bytes: &[u8]) -> &[u8]
    ensures { result.now ≡ trim_ows bytes.now }
{
    let mut start = 0;
    let mut end = bytes.len();
    while start < end && is_blank(bytes[start]) {
        start += 1;
    }
    while start < end && is_blank(bytes[end - 1]) {
        end -= 1;
    }
    &bytes[start..end]
}

/// Whether some element of the list is the word.
pub(crate) fn has_word(value: &[u8], word: &[u8]) -> bool
    ensures { result ≡ names_word word.now value.now }
{
    value
        .split(|b| *b == b',')
        .any(|element| same_word(trimmed(element), word))
}

/// Whether each element of the list is the word.
pub(crate) fn has_only_word(value: &[u8], word: &[u8]) -> bool
    ensures { result ≡ names_only word.now value.now }
{
    value
        .split(|b| *b == b',')
        .all(|element| same_word(trimmed(element), word))
}
