// The numbers of a line of a study text: one to five digits, a minus if below zero, no spare leading zero, no minus zero.
ghost use Rattle.std.specs.Prelude.{◌≡◌, ◌↔◌, ◌<◌, [], List, Option, ℤ, IsTrue, MatchOption, None, length, slice_index, option_copied};
ghost use Rattle.lines.specs.Numbers.{values_of, values_left, first_number, after_number, number_at};
ghost use Rattle.lines.specs.Private.{InFront};

use std::marker::Model;

// What is left to read of a line's numbers: the bytes behind the space after the last one read, none behind the line's last.
#[derive(Drop)]
pub struct Numbers<'a> {
    rest: Option<&'a [u8]>,
}

impl<'a> Model for Numbers<'a> {
    ghost Value = { List (Option ℤ) };

    ghost view = { λ n. values_left (option_copied n.rest) };
}

// A number above zero at the front of some words, by its digits, and the words after it. Read by hand, here and below, for std's `parse` takes
// a plus sign and spare zeros, which 01 refuses, and would need the word's end first.
#[inline(always)]
fn above_zero(words: &[u8]) -> Option<(i32, Option<&[u8]>)>
    requires { (0 < length words.now) × (48 < slice_index words.now 0) }
    ensures { MatchOption result (first_number (values_of words.now) ≡ None) (λ r. InFront words.now r.0 (option_copied r.1)) }
{
    let mut value: u32 = 0;
    for (i, byte) in words.iter().enumerate() {
        let digit = byte.wrapping_sub(b'0');
        if 9 < digit {
            if *byte == b' ' {
                return Some((value as i32, Some(&words[i + 1..])));
            }
            return None;
        }
        if 5 <= i {
            return None;
        }
        value = value * 10 + u32::from(digit);
    }
    Some((value as i32, None))
}

// The number at the front of some words, by the bytes that it begins with, and the words after it.
#[inline(always)]
fn number_in_front(words: &[u8]) -> Option<(i32, Option<&[u8]>)>
    ensures { MatchOption result (first_number (values_of words.now) ≡ None) (λ r. InFront words.now r.0 (option_copied r.1)) }
{
    let (first, tail) = words.split_first()?;
    if b'0' < *first {
        return above_zero(words);
    }
    match *first {
        b'0' => match tail {
            [] => Some((0, None)),
            [b' ', rest @ ..] => Some((0, Some(rest))),
            _ => None,
        },
        b'-' => {
            if *tail.first()? <= b'0' {
                return None;
            }
            let (value, rest) = above_zero(tail)?;
            Some((-value, rest))
        }
        _ => None,
    }
}

// The number that starts at a place of a line, and the place behind the space that ends it: one past the length for the line's last. For
// callers that keep places; what walks a line is `Numbers`.
pub fn number_at(line: &[u8], at: usize) -> Option<(i32, usize)>
    ensures { result ≡ number_at line.now at }
{
    if line.len() < at {
        return None;
    }
    let (value, rest) = number_in_front(&line[at..])?;
    match rest {
        Some(left) => Some((value, line.len() - left.len())),
        None => Some((value, line.len() + 1)),
    }
}

impl<'a> Numbers<'a> {
    pub fn new(line: &'a [u8]) -> Self
        ensures { result ≡ values_of line.now }
    {
        Numbers { rest: Some(line) }
    }

    // Whether all are read.
    pub fn is_empty(&self) -> bool
        ensures { IsTrue result ↔ (self.now ≡ []) }
    {
        self.rest.is_none()
    }

    // The next one, or none where there is none or the next word is no number: then nothing is passed. No `Iterator`: one that ends tells
    // nothing, and `is_empty` tells the line's end from a word that is no number, at which this stands still.
    #[inline(always)]
    pub fn next_number(&mut self) -> Option<i32>
        ensures number { result ≡ first_number self.old }
        ensures left { self.new ≡ after_number self.old }
    {
        let (value, rest) = number_in_front(self.rest?)?;
        self.rest = rest;
        Some(value)
    }
}
