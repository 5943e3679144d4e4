//! Parts of texts. Places and counts are those of characters.
ghost use Rattle.std.specs.Prelude.{◌≡◌, pos, take, drop, IfOk};
ghost use Rattle.std.specs.Str.{chars, encode_utf8_all, str_to_ascii_lowercase, str_to_ascii_uppercase};
ghost use Rattle.plain_operations.specs.Texts as spec;

use chan_values::{NoMemory, Text};
use std::alloc::Global;

/// How many characters a text has.
#[tactic(auto, using(crate::proofs::Characters::chars_from_encodes))]
pub fn count_characters(s: &str) -> usize
    ensures { result ≡ spec.character_count s.now }
{
    s.chars().count()
}

/// A number as a count, where one below 0 counts as 0.
fn count_of(n: i64) -> usize
    ensures { result ≡ spec.counted n }
{
    if n < 0 { 0 } else { n as usize }
}

/// How many characters stand before a place.
pub fn before_place(p: i64) -> usize
    ensures { result ≡ spec.before_place p }
{
    count_of(p).saturating_sub(1)
}

/// The number of the first character, 0 for the empty text.
pub fn first_character(s: &str) -> i32
    ensures { result ≡ pos (spec.first_character s.now) }
{
    match s.chars().next() {
        Some(c) => u32::from(c) as i32,
        None => 0,
    }
}

pub fn character_text(alloc: Global, n: i64) -> Result<Text, NoMemory>
    ensures { IfOk result (λ t. t ≡ spec.character_text n) }
{
    let mut text = Text::new(alloc);
    if n > 0 && n <= 0x10_ffff {
        if let Some(c) = char::from_u32(n as u32) {
            text.push(c)?;
        }
    }
    Ok(text)
}

/// The text behind the first n characters.
pub fn rest_after(s: &str, n: usize) -> &str
    ensures { result.now ≡ encode_utf8_all (drop n (chars s.now)) }
{
    let mut rest = s.chars();
    for _i in 0..n {
        match rest.next() {
            Some(_) => {}
            None => return "",
        }
    }
    rest.as_str()
}

/// The first n characters.
fn front_of(s: &str, n: usize) -> &str
    ensures { result.now ≡ encode_utf8_all (take n (chars s.now)) }
{
    &s[..s.len() - rest_after(s, n).len()]
}

pub fn left_part(alloc: Global, s: &str, n: i64) -> Result<Text, NoMemory>
    ensures { IfOk result (λ t. t ≡ spec.left_part s.now n) }
{
    copy_text(alloc, front_of(s, count_of(n)))
}

pub fn right_part(alloc: Global, s: &str, n: i64) -> Result<Text, NoMemory>
    ensures { IfOk result (λ t. t ≡ spec.right_part s.now n) }
{
    let before = count_characters(s).saturating_sub(count_of(n));
    copy_text(alloc, rest_after(s, before))
}

pub fn rest_from(alloc: Global, s: &str, p: i64) -> Result<Text, NoMemory>
    ensures { IfOk result (λ t. t ≡ spec.rest_from s.now p) }
{
    copy_text(alloc, rest_after(s, before_place(p)))
}

#[tactic(auto, using(crate::proofs::Characters::chars_of_rest))]
pub fn middle_part(alloc: Global, s: &str, p: i64, n: i64) -> Result<Text, NoMemory>
    ensures { IfOk result (λ t. t ≡ spec.middle_part s.now p n) }
{
    let rest = rest_after(s, before_place(p));
    copy_text(alloc, front_of(rest, count_of(n)))
}

pub fn lower_case(alloc: Global, s: &str) -> Result<Text, NoMemory>
    ensures { IfOk result (λ t. t ≡ str_to_ascii_lowercase s.now) }
{
    match s.to_ascii_lowercase(alloc) {
        Ok(string) => Ok(Text::from_string(string)),
        Err(_) => Err(NoMemory),
    }
}

pub fn upper_case(alloc: Global, s: &str) -> Result<Text, NoMemory>
    ensures { IfOk result (λ t. t ≡ str_to_ascii_uppercase s.now) }
{
    match s.to_ascii_uppercase(alloc) {
        Ok(string) => Ok(Text::from_string(string)),
        Err(_) => Err(NoMemory),
    }
}

pub fn copy_text(alloc: Global, s: &str) -> Result<Text, NoMemory>
    ensures { IfOk result (λ t. t ≡ s.now) }
{
    let mut text = Text::new(alloc);
    text.push_str(s)?;
    Ok(text)
}
