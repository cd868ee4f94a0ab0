// The words of a line, which stand between spaces.
ghost use Rattle.std.specs.Prelude.{◌≡◌, ◌≤◌, length};
ghost use Rattle.script.specs.Words.{up_to, past, blank, trimmed as trimmed_text};

// How many bytes stand before the first that is `byte`, or all of them.
pub fn index_of(text: &[u8], byte: u8) -> usize
    ensures is { result ≡ length (up_to byte text.now) }
    ensures within { result ≤ length text.now }
{
    text.iter().position(|b| *b == byte).unwrap_or(text.len())
}

// What stands before the first `byte`, or everything.
pub fn before(text: &[u8], byte: u8) -> &[u8]
    ensures { result.now ≡ up_to byte text.now }
{
    &text[..index_of(text, byte)]
}

// What stands behind the first `byte`; nothing where there is none.
pub fn behind(text: &[u8], byte: u8) -> &[u8]
    ensures { result.now ≡ past byte text.now }
{
    match text.iter().position(|b| *b == byte) {
        Some(at) => &text[at + 1..],
        None => &[],
    }
}

// Spaces, tabs and carriage returns do not count at the end of a word or of a number.
pub fn is_blank(byte: u8) -> bool
    ensures { result ≡ blank byte }
{
    matches!(byte, b' ' | b'\t' | b'\r')
}

// The text without the blanks at its end.
pub fn trimmed(text: &[u8]) -> &[u8]
    ensures { result.now ≡ trimmed_text text.now }
{
    match text.iter().rposition(|b| !is_blank(*b)) {
        Some(last) => &text[..=last],
        None => &[],
    }
}
