// What is left of a text from a place on.
ghost use Rattle.std.specs.Prelude.{◌≡◌, ◌+◌, ◌^◌, ◌<◌, ◌≤◌, length, drop};
ghost use Rattle.refusal.specs.declared.Refusal.{Refusal};

use refusal::{Cause, Refusal};

#[derive(Clone, Copy)]
pub struct Rest<'a> {
    pub bytes: &'a [u8],
    pub place: usize,
    ghost numbered: { place + length bytes.now < 2 ^ 64 },
}

impl<'a> Rest<'a> {
    pub fn of(text: &'a [u8], place: usize) -> Rest<'a>
        requires { place ≤ length text.now }
        ensures bytes { result.bytes.now ≡ drop place text.now }
        ensures place { result.place ≡ place }
    {
        Rest {
            bytes: &text[place..],
            place,
        }
    }

    // What is left behind the first `width` bytes.
    pub fn behind(self, width: usize) -> Rest<'a>
        requires { width ≤ length self.bytes.now }
        ensures bytes { result.bytes.now ≡ drop width self.entry.bytes.now }
        ensures place { result.place ≡ self.entry.place + width }
    {
        Rest {
            bytes: &self.bytes[width..],
            place: self.place + width,
        }
    }

    // The refusal that names the place where it begins.
    pub fn refused(self, cause: Cause) -> Refusal
        ensures { result ≡ record { cause = cause; place = self.entry.place } }
    {
        Refusal {
            cause,
            place: self.place,
        }
    }
}
