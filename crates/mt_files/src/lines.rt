//! The lines of a text, and the fields of a line, lent and not copied.

ghost use Rattle.std.specs.Prelude.{◌≡◌, ◌==◌, ◌≢◌, ◌∷◌, [], ◌<◌, length, IfSome, IfNone, MatchOption};
ghost use Rattle.std.specs.List.{position};
ghost use Rattle.mt_files.specs.Lines.{fields_of, lines_of, parts_of};

use memchr::memchr;

/// The first line of a text that is not empty, without its end, and what stands behind it.
pub fn cut_line(text: &[u8]) -> (&[u8], &[u8])
    requires { 0 < length text.now }
    ensures lines { lines_of text.now ≡ result.0.now ∷ lines_of result.1.now }
    ensures shorter { length result.1.now < length text.now }
{
    match place_of(b'\n', text) {
        Some(at) => (&text[..at], &text[at + 1..]),
        None => (text, &[]),
    }
}

/// The first part of a text, and what stands behind the separator that ends it; None where there is
/// one part alone.
pub fn cut(separator: u8, text: &[u8]) -> Option<(&[u8], &[u8])>
    ensures parts { MatchOption result (parts_of separator text.now ≡ text.now ∷ []) (λ cut. parts_of separator text.now ≡ cut.0.now ∷ parts_of separator cut.1.now) }
    ensures more { IfSome result (λ cut. 0 < length (parts_of separator cut.1.now)) }
{
    match place_of(separator, text) {
        Some(at) => Some((&text[..at], &text[at + 1..])),
        None => None,
    }
}

// The place of the first such byte.
#[tactic(auto, using(crate::proofs::Places::first_is_position))]
fn place_of(byte: u8, text: &[u8]) -> Option<usize>
    ensures { result ≡ position (λ other. other == byte) text.now }
{
    memchr(byte, text)
}

/// The field of a line that has one.
pub fn one_field(line: &[u8]) -> Option<&[u8]>
    ensures one { IfSome result (λ field. fields_of line.now ≡ field.now ∷ []) }
    ensures other { IfNone result (length (fields_of line.now) ≢ 1) }
{
    match cut(b' ', line) {
        Some(_) => None,
        None => Some(line),
    }
}

/// The fields of a line that has two.
pub fn two_fields(line: &[u8]) -> Option<(&[u8], &[u8])>
    ensures two { IfSome result (λ f. fields_of line.now ≡ f.0.now ∷ f.1.now ∷ []) }
    ensures other { IfNone result (length (fields_of line.now) ≢ 2) }
{
    let (first, rest) = cut(b' ', line)?;
    let second = one_field(rest)?;
    Some((first, second))
}

/// The fields of a line that has three.
pub fn three_fields(line: &[u8]) -> Option<(&[u8], &[u8], &[u8])>
    ensures three { IfSome result (λ f. fields_of line.now ≡ f.0.now ∷ f.1.now ∷ f.2.now ∷ []) }
    ensures other { IfNone result (length (fields_of line.now) ≢ 3) }
{
    let (first, rest) = cut(b' ', line)?;
    let (second, third) = two_fields(rest)?;
    Some((first, second, third))
}

/// The fields of a line that has four.
pub fn four_fields(line: &[u8]) -> Option<(&[u8], &[u8], &[u8], &[u8])>
    ensures four { IfSome result (λ f. fields_of line.now ≡ f.0.now ∷ f.1.now ∷ f.2.now ∷ f.3.now ∷ []) }
    ensures other { IfNone result (length (fields_of line.now) ≢ 4) }
{
    let (first, rest) = cut(b' ', line)?;
    let (second, third, fourth) = three_fields(rest)?;
    Some((first, second, third, fourth))
}

/// The fields of a line that has five.
pub fn five_fields(line: &[u8]) -> Option<(&[u8], &[u8], &[u8], &[u8], &[u8])>
    ensures five { IfSome result (λ f. fields_of line.now ≡ f.0.now ∷ f.1.now ∷ f.2.now ∷ f.3.now ∷ f.4.now ∷ []) }
    ensures other { IfNone result (length (fields_of line.now) ≢ 5) }
{
    let (first, rest) = cut(b' ', line)?;
    let (second, rest) = cut(b' ', rest)?;
    let (third, fourth, fifth) = three_fields(rest)?;
    Some((first, second, third, fourth, fifth))
}
