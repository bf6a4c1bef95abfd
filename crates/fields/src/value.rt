// What a value says: each call reads the value behind a key in word k of a line, and answers none where that word starts otherwise or says nothing.
ghost use Rattle.std.specs.Prelude.{◌≡◌};
ghost use Rattle.fields.specs.Words.{word_in};
ghost use Rattle.fields.specs.Value.{number_field, name_field, shape_field, flag_field, whole_field, level_field, name_of, flag_of, level_of, signed};

use super::words::value_at;
use decimal::digits::figures;
use naming::{Name, from_bytes};
use sheet::names::blank;

pub fn number_in(line: &[u8], k: usize, key: &[u8]) -> Option<f64>
    ensures { result ≡ number_field key.now (word_in line.now k) }
{
    let number = value_at(line, k, key)?;
    decimal::number::read(&line[number.from..number.to])
}

// A whole number of 1 to 15 digits.
pub fn whole_in(line: &[u8], k: usize, key: &[u8]) -> Option<u64>
    ensures { result ≡ whole_field key.now (word_in line.now k) }
{
    let value = value_at(line, k, key)?;
    figures(&line[value.from..value.to])
}

// A name that breaks document 01's rule is handed on as the name of no bytes, which breaks it too.
pub fn name_in(line: &[u8], k: usize, key: &[u8]) -> Option<Name>
    ensures { result ≡ name_field key.now (word_in line.now k) }
{
    let value = value_at(line, k, key)?;
    Some(name_of(&line[value.from..value.to]))
}

// Nothing behind the key is no shape.
pub fn shape_in(line: &[u8], k: usize, key: &[u8]) -> Option<Option<Name>>
    ensures { result ≡ shape_field key.now (word_in line.now k) }
{
    let value = value_at(line, k, key)?;
    if value.from == value.to {
        return Some(None);
    }
    Some(Some(name_of(&line[value.from..value.to])))
}

pub fn flag_in(line: &[u8], k: usize, key: &[u8]) -> Option<bool>
    ensures { result ≡ flag_field key.now (word_in line.now k) }
{
    let value = value_at(line, k, key)?;
    flag_of(&line[value.from..value.to])
}

// An optional `-` and 1 to 9 digits.
pub fn level_in(line: &[u8], k: usize, key: &[u8]) -> Option<i32>
    ensures { result ≡ level_field key.now (word_in line.now k) }
{
    let value = value_at(line, k, key)?;
    level_of(&line[value.from..value.to])
}

#[tactic(auto, unfolding(crate::specs::Value::name_of))]
fn name_of(text: &[u8]) -> Name
    ensures { result ≡ name_of text.now }
{
    from_bytes(text).unwrap_or(blank())
}

#[tactic(auto, unfolding(crate::specs::Value::flag_of))]
fn flag_of(text: &[u8]) -> Option<bool>
    ensures { result ≡ flag_of text.now }
{
    match text {
        [b'0'] => Some(false),
        [b'1'] => Some(true),
        _ => None,
    }
}

#[tactic(auto, unfolding(crate::specs::Value::level_of))]
fn level_of(text: &[u8]) -> Option<i32>
    ensures { result ≡ level_of text.now }
{
    match text {
        [] => None,
        [b'-', size @ ..] => level_from(true, size),
        _ => level_from(false, text),
    }
}

fn level_from(minus: bool, text: &[u8]) -> Option<i32>
    ensures { result ≡ signed minus text.now }
{
    if 9 < text.len() {
        return None;
    }
    let size = figures(text)? as i32;
    Some(if minus { -size } else { size })
}
