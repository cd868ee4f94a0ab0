// Tests as they are printed.
ghost use Rattle.std.specs.Prelude.{Some};
ghost use Rattle.symbols.specs.Printing.{byte_test_text, event_test_text};

use super::{ByteTest, EventTest};
use std::fmt;

// The set's bytes in hexadecimal digits.
impl fmt::Display for ByteTest {
    ghost output = { λ test. Some (byte_test_text test) };

    fn fmt<W: fmt::Write>(&self, f: &mut fmt::Formatter<W>) -> fmt::Result {
        for part in self.bits {
            write!(f, "{part:02x}")?;
        }
        Ok(())
    }
}

// The lowest code, the highest, and 1 if the test is inverted.
impl fmt::Display for EventTest {
    ghost output = { λ test. Some (event_test_text test) };

    fn fmt<W: fmt::Write>(&self, f: &mut fmt::Formatter<W>) -> fmt::Result {
        let low = self.low;
        let high = self.high;
        let inverted = u8::from(self.inverted);
        write!(f, "{low} {high} {inverted}")
    }
}
