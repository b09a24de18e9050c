// The request of a command line.
ghost use Rattle.std.specs.Prelude.{◌≡◌, ◌≤◌, ◌⊎◌, ◌^◌, IfOk, IfSome, List, [], codes, map, string_bytes};
ghost use Rattle.clap.specs.Words.{Text, first_value, found_of, kind_of};
ghost use Rattle.hier_types.specs.Settings.{AreWithinRules, IsPowerOfTwo, IsWithin, default_settings};
ghost use Rattle.sim_words.specs.Requests.{Answers, AnswersAsMatched, asked, command_asked, given_or, first_level_asked, is_command, number_asked, second_level_asked, settings_asked, span_asked};
ghost use Rattle.sim_words.specs.Spelling.{Given, IsPlainSpelling, plain_value};
ghost use Rattle.sim_words.specs.Values.{number_within, power_within};

use crate::command_line::command_line;
use crate::request::{Command, Request, WordsFault};
use crate::values::{beats_of, codec_of, number_within, power_within};
use clap::error::ErrorKind;
use clap::{ArgMatches, Error};
use hier_types::{Geometry, SettingName, Settings};
use std::alloc::Global;

/// The text that the matches give to a name, or the default.
fn given_or<'a>(matches: &ArgMatches<'a>, name: &str, default: &'a str) -> &'a str
    ensures { result.now ≡ given_or (first_value (found_of matches.now)) name.now default.entry.now }
{
    match matches.get_str(name) {
        Some(text) => text,
        None => default,
    }
}

/// The number that is given to a name, where it is from `low` to `high`.
fn number_or<'a>(
    matches: &ArgMatches<'a>,
    name: &str,
    default: &'a str,
    low: u32,
    high: u32,
) -> Option<u32>
    ensures rule { result ≡ number_within low high (given_or (first_value (found_of matches.now)) name.now default.entry.now) }
    ensures range { IfSome result (λ n. (low ≤ n) × (n ≤ high)) }
{
    let number = number_within(given_or(matches, name, default), low as u64, high as u64)?;
    Some(number as u32)
}

/// The power of two that is given to a name, where it is at most `most`.
fn power_or<'a>(matches: &ArgMatches<'a>, name: &str, default: &'a str, most: u32) -> Option<u32>
    ensures power { IfSome result (IsPowerOfTwo most) }
    ensures rule { result ≡ power_within most (given_or (first_value (found_of matches.now)) name.now default.entry.now) }
{
    let number = power_within(given_or(matches, name, default), most as u64)?;
    Some(number as u32)
}

/// The span of the guest.
fn span_of(matches: &ArgMatches) -> Result<Geometry, SettingName>
    ensures asked { result ≡ span_asked (first_value (found_of matches.now)) }
    ensures pages { IfOk result (λ span. IsWithin 1 65536 span.pages) }
{
    let Some(base) = number_or(matches, "base", "16", 0, 1_048_574) else {
        return Err(SettingName::Base);
    };
    let most = (1_048_575 - base).min(65_536);
    let Some(pages) = number_or(matches, "pages", "4096", 1, most) else {
        return Err(SettingName::Pages);
    };
    Ok(Geometry { base, pages })
}

/// The sets and the ways of the first level.
fn first_level_of(matches: &ArgMatches) -> Result<(u32, u32), SettingName>
    ensures asked { result ≡ first_level_asked (first_value (found_of matches.now)) }
    ensures rules { IfOk result (λ level. IsPowerOfTwo 1024 level.0 × IsWithin 1 16 level.1) }
{
    let Some(sets) = power_or(matches, "l1-sets", "64", 1024) else {
        return Err(SettingName::L1Sets);
    };
    let Some(ways) = number_or(matches, "l1-ways", "8", 1, 16) else {
        return Err(SettingName::L1Ways);
    };
    Ok((sets, ways))
}

/// The sets and the ways of the second level.
fn second_level_of(matches: &ArgMatches) -> Result<(u32, u32), SettingName>
    ensures asked { result ≡ second_level_asked (first_value (found_of matches.now)) }
    ensures rules { IfOk result (λ level. IsPowerOfTwo 4096 level.0 × IsWithin 1 16 level.1) }
{
    let Some(sets) = power_or(matches, "l2-sets", "512", 4096) else {
        return Err(SettingName::L2Sets);
    };
    let Some(ways) = number_or(matches, "l2-ways", "8", 1, 16) else {
        return Err(SettingName::L2Ways);
    };
    Ok((sets, ways))
}

/// The settings, or the first of them whose value breaks its rule.
fn settings_of(matches: &ArgMatches) -> Result<Settings, SettingName>
    ensures asked { result ≡ settings_asked (first_value (found_of matches.now)) }
    ensures rules { IfOk result AreWithinRules }
{
    let geometry = match span_of(matches) {
        Ok(geometry) => geometry,
        Err(name) => return Err(name),
    };
    let Some(frames) = number_or(matches, "frames", "4096", 1, 65_536) else {
        return Err(SettingName::Frames);
    };
    let Some(codec) = codec_of(given_or(matches, "codec", "bdi")) else {
        return Err(SettingName::Codec);
    };
    let (l1_sets, l1_ways) = match first_level_of(matches) {
        Ok(level) => level,
        Err(name) => return Err(name),
    };
    let (l2_sets, l2_ways) = match second_level_of(matches) {
        Ok(level) => level,
        Err(name) => return Err(name),
    };
    let Some(meta) = number_or(matches, "meta", "64", 1, 1024) else {
        return Err(SettingName::Meta);
    };
    let Some(budget) = budget_of(matches) else {
        return Err(SettingName::Budget);
    };
    let Some(beats) = beats_of(given_or(matches, "beats", "hhhhhhhmhhhhhhhc")) else {
        return Err(SettingName::Beats);
    };
    Ok(Settings {
        geometry,
        frames,
        codec,
        l1_sets,
        l1_ways,
        l2_sets,
        l2_ways,
        meta,
        budget,
        beats,
        json: given_or(matches, "json", "false") == "true",
    })
}

/// How many instructions or accesses a run makes at most.
fn budget_of(matches: &ArgMatches) -> Option<u64>
    ensures range { IfSome result (λ n. n ≤ 10 ^ 15) }
    ensures rule { result ≡ number_within 0 1000000000000000 (given_or (first_value (found_of matches.now)) (codes "budget") (codes "1000000000000")) }
{
    let text = given_or(matches, "budget", "1000000000000");
    number_within(text, 0, 1_000_000_000_000_000)
}

/// Whether the word is in the table of commands.
fn is_command(word: &str) -> bool
    ensures { result ≡ is_command word.now }
{
    word == "run"
        || word == "image"
        || word == "layout"
        || word == "flat"
        || word == "trace"
        || word == "survey"
        || word == "gen"
        || word == "demo"
}

/// The number of a generated file.
fn number_of(file: &str) -> Option<u32>
    ensures { result ≡ number_asked file.now }
{
    let number = number_within(file, 0, u32::MAX as u64)?;
    Some(number as u32)
}

/// The command of a word of the table, or of any other word the last one. None where its number breaks the rule.
fn command_of(word: &str, file: &str) -> Option<Command>
    ensures { result ≡ command_asked word.now file.now }
{
    match word {
        "run" => Some(Command::Run),
        "image" => Some(Command::Image),
        "layout" => Some(Command::Layout),
        "flat" => Some(Command::Flat),
        "trace" => Some(Command::Trace),
        "survey" => Some(Command::Survey),
        "gen" => Some(Command::Gen {
            number: number_of(file)?,
        }),
        other => Some(Command::Demo {
            number: number_of(file)?,
        }),
    }
}

/// The request that the matches make.
fn request_of(alloc: Global, matches: &ArgMatches) -> Result<Request, WordsFault>
    ensures asked { Answers (asked (first_value (found_of matches.now))) result }
    ensures rules { IfOk result (λ request. AreWithinRules request.settings) }
{
    let word = given_or(matches, "command", "");
    if !is_command(word) {
        return Err(WordsFault::Setting(SettingName::Command));
    }
    let settings = match settings_of(matches) {
        Ok(settings) => settings,
        Err(name) => return Err(WordsFault::Setting(name)),
    };
    let file = given_or(matches, "file", "");
    let Some(command) = command_of(word, file) else {
        return Err(WordsFault::Setting(SettingName::Number));
    };
    match String::from_str(alloc, file) {
        Ok(file) => Ok(Request {
            command,
            file,
            settings,
        }),
        Err(_) => Err(WordsFault::NoMemory),
    }
}

/// What the words, which are those after the program's name, ask for. `Usage` where they are no command line, which
/// never comes for a command, a file and then options with their values; `Setting` for the first value that breaks
/// its rule, in the order of `SettingName`.
pub fn read_words(alloc: Global, words: &[String]) -> Result<Request, WordsFault>
    ensures plain { (command file : Text) (options : List Given) → IsPlainSpelling command file options (map string_bytes words.now)
        → Answers (asked (plain_value command file options)) result }
    ensures defaults { (command file : Text) → IsPlainSpelling command file [] (map string_bytes words.now)
        → IfOk result (λ request. request.settings ≡ default_settings) }
    ensures matched { AnswersAsMatched (map string_bytes words.now) result }
    ensures rules { IfOk result (λ request. AreWithinRules request.settings) }
{
    let command = match command_line(alloc) {
        Ok(command) => command,
        Err(_) => return Err(WordsFault::NoMemory),
    };
    match command.try_get_matches_from(words) {
        Ok(matches) => request_of(alloc, &matches),
        Err(error) => Err(fault_of(&error)),
    }
}

/// A fault of the words, unless memory was wanting.
fn fault_of(error: &Error) -> WordsFault
    ensures wanting { kind_of error.now ≡ ErrorKind.OutOfMemory → result ≡ WordsFault.NoMemory }
    ensures words { ((kind_of error.now ≡ ErrorKind.OutOfMemory) × (result ≡ WordsFault.NoMemory)) ⊎ (result ≡ WordsFault.Usage) }
{
    if error.kind() == ErrorKind::OutOfMemory {
        WordsFault::NoMemory
    } else {
        WordsFault::Usage
    }
}
