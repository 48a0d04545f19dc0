//! What is wrong with words that aren't a command, in a sentence.
use crate::application::application;
use crate::command::MOST_ASKS;
use crate::network::{MOST_PORT, MOST_WORKERS};
use crate::reading::{number_found, turned};
use crate::table::rows;
use adx_units::{OutOfMemory, Text};
use clap::ArgMatches;
use clap::error::ErrorKind;
use std::alloc::Global;
use strsim::osa_distance;

/// What is said of words that `clap` takes and that name no command.
const NO_COMMAND: &str = "no command; 'adx --help' shows them";

/// The options whose values are numbers: the least that is taken, and the greatest.
const NUMBERS: [(&str, u64, u64); 4] = [
    ("seed", 0, u64::MAX),
    ("asks", 0, MOST_ASKS),
    ("port", 0, MOST_PORT),
    ("workers", 1, MOST_WORKERS),
];

/// A paragraph as one line, with its words one blank apart at its lines' ends.
fn push_paragraph(out: &mut String, paragraph: &str) -> Result<(), OutOfMemory> {
    for line in paragraph.lines() {
        if !out.is_empty() {
            out.push_str(" ")?;
        }
        out.push_str(line.trim())?;
    }
    Ok(())
}

/// The first tip of a paragraph of tips: what is meant instead.
fn tip_of(paragraph: Option<&str>) -> Option<&str> {
    let tip = paragraph?.trim().lines().next()?.strip_prefix("tip:")?;
    Some(tip.trim())
}

/// What `clap` says is wrong, as one line without the word that it begins with: its first paragraph, and the second where that
/// names what is meant instead.
fn sentence_of(alloc: Global, text: &str) -> Result<Text, OutOfMemory> {
    let mut sentence = String::new(alloc);
    let mut paragraphs = text.split("\n\n");
    if let Some(first) = paragraphs.next() {
        push_paragraph(&mut sentence, first)?;
    }
    if let Some(tip) = tip_of(paragraphs.next()) {
        sentence.push_str(";")?;
        push_paragraph(&mut sentence, tip)?;
    }
    match sentence.strip_prefix("error: ") {
        Some(rest) => Ok(Text::of(alloc, rest)?),
        None => Ok(Text::from(sentence)),
    }
}

/// Whether the value that was found for an option isn't a number that it takes.
fn is_no_number(found: &ArgMatches<'_>, name: &str, least: u64, most: u64) -> bool {
    match number_found(found, name, most) {
        Some(number) => number < least,
        None => true,
    }
}

/// What is wrong with the number of an option: its value and the numbers that are taken.
fn number_text(
    alloc: Global,
    (name, least, most): (&str, u64, u64),
    value: &str,
) -> Result<Text, OutOfMemory> {
    let text = format!(in alloc;
        "'--{name}' is a decimal number from {least} to {most} without a sign or a leading zero, and not '{value}'"
    )?;
    Ok(Text::from(text))
}

/// What is wrong with the first number that isn't taken.
fn number_complaint(alloc: Global, found: &ArgMatches<'_>) -> Result<Text, OutOfMemory> {
    for (name, least, most) in NUMBERS {
        if let Some(value) = found.get_str(name) {
            if is_no_number(found, name, least, most) {
                return number_text(alloc, (name, least, most), value);
            }
        }
    }
    Ok(Text::of(alloc, NO_COMMAND)?)
}

/// The option that this word is, where its values are numbers.
fn number_option(word: &str) -> Option<(&'static str, u64, u64)> {
    let name = word.strip_prefix("--")?;
    for number in NUMBERS {
        if number.0 == name {
            return Some(number);
        }
    }
    None
}

/// What is wrong with the first number below 0, which `clap` would take as another option.
fn below_zero(alloc: Global, words: &[&str]) -> Result<Option<Text>, OutOfMemory> {
    let mut option = None;
    for word in words {
        if let [b'-', b'0'..=b'9', ..] = word.as_bytes() {
            if let Some(number) = option {
                return Ok(Some(number_text(alloc, number, word)?));
            }
        }
        option = number_option(word);
    }
    Ok(None)
}

/// The command whose word is one step from this one: a letter too many, one that is missing, a wrong one, or two in the wrong
/// order.
fn one_step_off(alloc: Global, word: &str) -> Result<Option<&'static str>, OutOfMemory> {
    for row in rows() {
        if osa_distance(alloc, word, row.0)? == 1 {
            return Ok(Some(row.0));
        }
    }
    Ok(None)
}

/// The command that is meant by a first word that is none, where what is said of it names none yet.
fn meant(
    alloc: Global,
    words: &[&str],
    kind: ErrorKind,
    said: &str,
) -> Result<Option<&'static str>, OutOfMemory> {
    match words {
        [word, ..] if matches!(kind, ErrorKind::InvalidSubcommand) && !said.contains(';') => {
            one_step_off(alloc, word)
        }
        _ => Ok(None),
    }
}

/// What is wrong with words that `clap` refuses with an error of this kind and text.
fn refused(
    alloc: Global,
    words: &[&str],
    kind: ErrorKind,
    text: &str,
) -> Result<Text, OutOfMemory> {
    if let Some(text) = below_zero(alloc, words)? {
        return Ok(text);
    }
    let sentence = sentence_of(alloc, text)?;
    match meant(alloc, words, kind, sentence.as_str())? {
        Some(word) => {
            let said = sentence.as_str();
            let text = format!(in alloc; "{said}; a similar subcommand exists: '{word}'")?;
            Ok(Text::from(text))
        }
        None => Ok(sentence),
    }
}

/// What is wrong with words that ask for nothing that the program has, in a sentence without a newline: that of `clap`, with the
/// nearest word where there is one; that they name no command; or which number isn't one, and which are taken.
pub fn complaint_of(alloc: Global, words: &[Text]) -> Result<Text, OutOfMemory> {
    let texts = turned(alloc, words)?;
    let program = application(alloc)?;
    match program.try_get_matches_from(texts.as_slice()) {
        Ok(matches) => match matches.subcommand() {
            Some((_, found)) => number_complaint(alloc, found),
            None => Ok(Text::of(alloc, NO_COMMAND)?),
        },
        Err(error) => {
            let text = format!(in alloc; "{error}")?;
            refused(alloc, texts.as_slice(), error.kind(), text.as_str())
        }
    }
}
