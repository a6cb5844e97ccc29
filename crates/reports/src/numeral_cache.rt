//! A cache of the text of small numbers, so that a run of consecutive numbers is written by one
//! copy, and the text of the numbers that are not in it.
//!
//! The places of a witness are mostly consecutive. One copy of their text takes a small part of the
//! processor time of writing each number. If each is written, only the last digit changes from most
//! numbers to the next.

ghost use Rattle.std.specs.Prelude.{◌≡◌, ◌+◌, ◌-◌, ◌++◌, ◌<◌, ◌≤◌, ◌%◌, ◌^◌, codes, decimal, OnOk};
ghost use Rattle.reports.specs.Text.{run_text};

use crate::run_measure::RunMeasure;
use arrayvec::ArrayVec;
use itoa::Buffer;
use std::alloc::{AllocError, Global};
use trace_model::NoMemory;

/// Returns the last decimal digit of a number.
#[inline(always)]
fn last_digit(number: u32) -> u8
    ensures { result ≡ 48 + number % 10 }
{
    b'0' + (number % 10) as u8
}

/// Appends a number of at most four digits in decimal, by copies whose lengths the compiler knows.
///
/// # Errors
/// `AllocError` if an allocation fails.
#[inline(always)]
fn append_short(text: &mut Vec<u8>, number: u32) -> Result<(), AllocError>
    requires { number < 10000 }
    ensures { OnOk result (text.new.items ≡ text.old.items ++ decimal number) }
{
    let ones = last_digit(number);
    if number < 10 {
        return text.extend_from_slice(&[ones]);
    }
    let tens = last_digit(number / 10);
    if number < 100 {
        return text.extend_from_slice(&[tens, ones]);
    }
    let hundreds = last_digit(number / 100);
    if number < 1000 {
        return text.extend_from_slice(&[hundreds, tens, ones]);
    }
    let thousands = last_digit(number / 1000);
    text.extend_from_slice(&[thousands, hundreds, tens, ones])
}

/// Appends the number in decimal. Most numbers of a row are short.
///
/// # Errors
/// `AllocError` if an allocation fails.
fn append_decimal(text: &mut Vec<u8>, digits: &mut Buffer, number: u64) -> Result<(), AllocError>
    ensures { OnOk result (text.new.items ≡ text.old.items ++ decimal number) }
{
    if number < 10_000 {
        append_short(text, number as u32)
    } else {
        text.extend_from_slice(digits.format(number).as_bytes())
    }
}

/// Appends `before` and then the number in decimal.
///
/// # Errors
/// `NoMemory` if an allocation fails; a part may have been appended.
#[inline(always)]
pub(crate) fn append_number(
    text: &mut Vec<u8>,
    digits: &mut Buffer,
    before: &[u8],
    number: u64,
) -> Result<(), NoMemory>
    ensures { OnOk result (text.new.items ≡ text.old.items ++ (before.now ++ decimal number)) }
{
    text.extend_from_slice(before)?;
    append_decimal(text, digits, number)?;
    Ok(())
}

/// The greatest number of bytes of a space and a number in decimal.
const LONGEST: usize = 21;

/// A number, and its text: a space and the number in decimal.
#[derive(Drop)]
struct Numeral {
    number: usize,
    text: ArrayVec<u8, LONGEST>,
    ghost is: { text.items ≡ codes " " ++ decimal number },
}

impl Numeral {
    /// Returns the numeral of a number.
    fn of(number: usize) -> Numeral
        ensures { result.number ≡ number }
    {
        let mut digits = Buffer::new();
        let mut text = ArrayVec::new();
        text.push(b' ');
        let Ok(()) = text.try_extend_from_slice(digits.format(number as u64).as_bytes()) else {
            unreachable!()
        };
        Numeral { number, text }
    }

    /// Goes on to the next number. In nine of ten cases only the last digit changes.
    #[inline(always)]
    fn advance(&mut self)
        requires { self.old.number + 1 < 2 ^ 64 }
        ensures { self.new.number ≡ self.old.number + 1 }
    {
        let digit = self.text.as_slice()[self.text.len() - 1];
        if digit < b'9' {
            self.text.pop();
            self.text.push(digit + 1);
            self.number += 1;
        } else {
            *self = Numeral::of(self.number + 1);
        }
    }
}

/// Appends the numbers from `first` up to but not including `end`, each in decimal after a space.
///
/// # Errors
/// `NoMemory` if an allocation fails; a part may have been appended.
pub(crate) fn append_run(text: &mut Vec<u8>, first: usize, end: usize) -> Result<(), NoMemory>
    ensures { OnOk result (text.new.items ≡ text.old.items ++ run_text first (end - first)) }
{
    let mut numeral = Numeral::of(first);
    while numeral.number < end {
        text.extend_from_slice(numeral.text.as_slice())?;
        numeral.advance();
    }
    Ok(())
}

/// The text of the numbers below `count`, each in decimal after a space.
#[derive(Drop)]
pub(crate) struct NumeralCache {
    text: Vec<u8>,
    pub(crate) count: usize,
    ghost whole: { text.items ≡ run_text 0 count },
}

impl NumeralCache {
    /// Returns an empty cache. Does not allocate.
    pub(crate) fn new(alloc: Global) -> NumeralCache {
        NumeralCache {
            text: Vec::new(alloc),
            count: 0,
        }
    }

    /// Returns the cache of the numbers below `count`.
    ///
    /// # Errors
    /// `NoMemory` if an allocation fails.
    pub(crate) fn up_to(alloc: Global, count: u32) -> Result<NumeralCache, NoMemory> {
        let mut text = Vec::new(alloc);
        append_run(&mut text, 0, count as usize)?;
        Ok(NumeralCache {
            text,
            count: count as usize,
        })
    }

    /// Returns the text of `count` consecutive numbers from `first` on. Does not allocate.
    pub(crate) fn run(&self, first: u32, count: usize) -> &[u8]
        requires few { first + count ≤ 2 ^ 32 }
        requires kept { first + count ≤ self.now.count }
        ensures { result.now ≡ run_text first count }
    {
        let mut run_measure = RunMeasure::new();
        let start = run_measure.run(0, first as usize) as usize;
        let end = start + run_measure.run(first, count) as usize;
        &self.text[start..end]
    }
}
