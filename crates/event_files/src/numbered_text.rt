//! Parses texts in which numbers stand between literals.
ghost use Rattle.std.specs.Bool.{Decides};
ghost use Rattle.std.specs.Prelude.{◌≡◌, ◌≢◌, ◌<◌, ◌≤◌, ◌^◌, ◌++◌, ℕ, List, IfOk, IfSome, IsSomeAnd, MatchOption, Some, decimal, length, min, take, true};
ghost use Rattle.std.specs.List.{position_or_len};
ghost use Rattle.std.specs.Str.Parse.{AllDigits, digits_value};
ghost use Rattle.event_files.specs.EventFile.{is_no_digit};
ghost use Rattle.event_files.specs.NumberedText.{AreSmall, is_after_number, is_after_numbers, after_spaces};
ghost use Rattle.event_files.specs.Refutations.{label_and_number};

use std::alloc::Global;
use trace_model::NoMemory;

/// Returns whether the text is the literal.
pub(crate) fn is_literal(text: &[u8], literal: &[u8]) -> bool
    ensures { Decides result (text.now ≡ literal.now) }
{
    text == literal
}

/// Returns the text after the literal, or `None` if the text does not begin with it.
pub(crate) fn after<'a>(text: &'a [u8], literal: &[u8]) -> Option<&'a [u8]>
    ensures { MatchOption result ((rest : List ℕ) → text.now ≢ literal.now ++ rest)
        (λ rest. text.now ≡ literal.now ++ rest.now) }
{
    text.strip_prefix(literal)
}

/// The greatest number of digits of a number that fits in 32 bits.
const MAX_DIGITS: usize = 10;

/// Returns how many digits the text begins with, at most `MAX_DIGITS`, and their value.
#[inline(always)]
fn digits_in(text: &[u8]) -> (usize, u64)
    ensures count { result.0 ≡ min 10 (position_or_len is_no_digit text.now) }
    ensures within { result.0 ≤ length text.now }
    ensures digits { AllDigits 10 (take result.0 text.now) }
    ensures value { result.1 ≡ digits_value 10 (take result.0 text.now) }
{
    let most = text.len().min(MAX_DIGITS);
    let mut count = 0;
    let mut value = 0;
    while count < most && text[count].is_ascii_digit() {
        value = value * 10 + u64::from(text[count] - b'0');
        count += 1;
    }
    (count, value)
}

/// Returns the number at the beginning of the text and the rest, or `None` if there is no number.
#[inline(always)]
pub(crate) fn number_in(text: &[u8]) -> Option<(u32, &[u8])>
    ensures sound { IfSome result (λ found. text.now ≡ decimal found.0 ++ found.1.now) }
    ensures complete { (n : ℕ) (rest : List ℕ) → n < 2 ^ 32 → is_after_number rest ≡ true →
        text.now ≡ decimal n ++ rest →
        IsSomeAnd result (λ found. (found.0 ≡ n) × (found.1.now ≡ rest)) }
{
    let (count, value) = digits_in(text);
    if count == 0 {
        return None;
    }
    if text[0] == b'0' && count > 1 {
        return None;
    }
    if value > u64::from(u32::MAX) {
        return None;
    }
    Some((value as u32, &text[count..]))
}

/// Returns the number after the literal and the rest, or `None`.
pub(crate) fn number_after<'a>(text: &'a [u8], literal: &[u8]) -> Option<(u32, &'a [u8])>
    ensures sound { IfSome result (λ found. text.now ≡ label_and_number literal.now found.0
        ++ found.1.now) }
    ensures complete { (n : ℕ) (rest : List ℕ) → n < 2 ^ 32 → is_after_number rest ≡ true →
        text.now ≡ label_and_number literal.now n ++ rest →
        IsSomeAnd result (λ found. (found.0 ≡ n) × (found.1.now ≡ rest)) }
{
    number_in(after(text, literal)?)
}

/// Returns the two numbers of a text that is a label, the first number, another label, the second
/// number and an ending, or `None`.
pub(crate) fn pair_in(text: &[u8], label: &[u8], next: &[u8], ending: &[u8]) -> Option<(u32, u32)>
    ensures sound { IfSome result (λ pair. text.now ≡
        label_and_number label.now pair.0 ++ label_and_number next.now pair.1 ++ ending.now) }
    ensures complete { (m n : ℕ) → m < 2 ^ 32 → n < 2 ^ 32 →
        is_after_number (label_and_number next.now n ++ ending.now) ≡ true →
        is_after_number ending.now ≡ true →
        text.now ≡ label_and_number label.now m ++ label_and_number next.now n ++ ending.now →
        result ≡ Some (m, n) }
{
    let (first, rest) = number_after(text, label)?;
    let (second, rest) = number_after(rest, next)?;
    if is_literal(rest, ending) {
        Some((first, second))
    } else {
        None
    }
}

/// Returns the numbers at the beginning of the text, each after a space, and the rest.
///
/// # Errors
///
/// `NoMemory` if an allocation fails.
pub(crate) fn numbers_in(alloc: Global, text: &[u8]) -> Result<(Vec<u32>, &[u8]), NoMemory>
    ensures sound { IfOk result (λ found. text.now ≡ after_spaces found.0.items ++ found.1.now) }
    ensures small { IfOk result (λ found. AreSmall found.0.items) }
    ensures complete { (numbers rest : List ℕ) → AreSmall numbers → is_after_numbers rest ≡ true →
        text.now ≡ after_spaces numbers ++ rest →
        IfOk result (λ found. (found.0.items ≡ numbers) × (found.1.now ≡ rest)) }
{
    let mut numbers = Vec::new(alloc);
    let mut rest = text;
    while let Some((number, more)) = number_after(rest, b" ") {
        numbers.push(number)?;
        rest = more;
    }
    Ok((numbers, rest))
}
