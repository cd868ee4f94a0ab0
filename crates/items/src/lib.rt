// What a pattern text is made of: signs and atoms, one after another, in some notation.
#![tactic(auto)]

ghost use Rattle.std.specs.Prelude.{◌≡◌, ℕ, ◌<◌, List, length, drop, Result};
ghost use Rattle.refusal.specs.declared.Refusal.{Refusal};
ghost use Rattle.items.specs.declared.Lexeme.{Lexeme};
ghost use Rattle.items.specs.Lexemes.{Within, signed, atom};

mod rest;

use refusal::Refusal;
pub use rest::Rest;

// The operators, the same in every notation.
#[derive(Clone, Copy, Debug, PartialEq, Eq)]
pub enum Sign {
    Open,
    Close,
    Bar,
    Star,
    Plus,
    Query,
}

#[derive(Clone, Copy, Debug, PartialEq, Eq)]
pub enum Item {
    Atom,
    Sign(Sign),
}

// An item and the place of its first byte in the text.
#[derive(Clone, Copy, Debug, PartialEq, Eq)]
pub struct Placed {
    pub item: Item,
    pub place: usize,
}

// What stands at a place: a space between items, a sign, or an atom with its test.
#[derive(Clone, Copy, Debug, PartialEq, Eq)]
pub enum Token<T> {
    Space,
    Sign(Sign),
    Atom(T),
}

// A token and how many bytes it takes.
#[derive(Clone, Copy, Debug, PartialEq, Eq)]
pub struct Lexeme<T> {
    pub token: Token<T>,
    pub width: usize,
}

impl<T> Lexeme<T> {
    // A sign, which takes one byte.
    pub fn sign(sign: Sign) -> Lexeme<T>
        ensures { result ≡ signed sign }
    {
        Lexeme {
            token: Token::Sign(sign),
            width: 1,
        }
    }

    pub fn atom(test: T, width: usize) -> Lexeme<T>
        ensures { result ≡ atom test width }
    {
        Lexeme {
            token: Token::Atom(test),
            width,
        }
    }
}

// A way to write atoms. Its meaning is what it reads at a place, from the bytes that stand there and behind.
pub trait Notation {
    type Test: Copy;

    ghost lexed: { ℕ → List ℕ → Result (Lexeme Self.Test) Refusal };

    fn next(text: &[u8], place: usize) -> Result<Lexeme<Self::Test>, Refusal>
        requires { place < length text.now }
        ensures is { result ≡ lexed place (drop place text.now) }
        ensures within { Within place (length text.now) result };
}
