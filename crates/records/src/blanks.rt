// A text without the blanks around it.
ghost use Rattle.std.specs.Prelude.{◌≡◌};
ghost use Rattle.records.specs.Blanks.{fronted as fronted_text, stripped as stripped_text};

use script::words::{is_blank, trimmed};

// The text without the blanks at its front.
fn fronted(text: &[u8]) -> &[u8]
    ensures { result.now ≡ fronted_text text.now }
{
    match text.iter().position(|b| !is_blank(*b)) {
        Some(at) => &text[at..],
        None => &[],
    }
}

pub(crate) fn stripped(text: &[u8]) -> &[u8]
    ensures { result.now ≡ stripped_text text.now }
{
    fronted(trimmed(text))
}
