ghost use Rattle.std.specs.Prelude.{◌≡◌};

use super::*;
use hier_types::{Codec, SettingName};
use std::alloc::Global;
use std::test::Fail;

/// Words, and the fault that they are.
type Refused = (&'static [&'static str], WordsFault);

static REFUSED: [Refused; 8] = [
    (&["run"], WordsFault::Usage),
    (&["run", "a.elf", "b.elf"], WordsFault::Usage),
    (
        &["walk", "a.elf", "--base", "x"],
        WordsFault::Setting(SettingName::Command),
    ),
    (
        &["run", "a.elf", "--base", "1048574"],
        WordsFault::Setting(SettingName::Pages),
    ),
    (
        &["run", "a.elf", "--frames", "+1"],
        WordsFault::Setting(SettingName::Frames),
    ),
    (
        &["run", "a.elf", "--l1-sets", "3"],
        WordsFault::Setting(SettingName::L1Sets),
    ),
    (
        &["run", "a.elf", "--beats", "mc"],
        WordsFault::Setting(SettingName::Beats),
    ),
    (
        &["gen", "4294967296"],
        WordsFault::Setting(SettingName::Number),
    ),
];

fn words_of(alloc: Global, texts: &[&str]) -> Result<Vec<String>, Fail> {
    let mut words = Vec::new(alloc);
    for text in texts {
        words.push(String::from_str(alloc, text)?)?;
    }
    Ok(words)
}

#[test]
fn reads_options(rt: HostRuntime) -> Result<(), Fail> {
    let alloc = rt.alloc();
    let texts = [
        "demo",
        "7",
        "--l2-sets",
        "1024",
        "--json",
        "--codec",
        "fpc",
        "--beats",
        "hc",
    ];
    let words = words_of(alloc, &texts)?;
    let request = read_words(alloc, words.as_slice()).ok().ok_or("a request")?;
    assert!(rt; request.command == Command::Demo { number: 7 } && request.file.as_str() == "7");
    let settings = request.settings;
    assert!(rt; settings.json && settings.l2_sets == 1024 && settings.codec == Codec::Fpc);
    assert!(rt; settings.beats.len() == 2 && settings.frames == 4096);
    Ok(())
}

#[test]
fn refuses_words(rt: HostRuntime) -> Result<(), Fail> {
    let alloc = rt.alloc();
    for (texts, fault) in &REFUSED {
        let words = words_of(alloc, texts)?;
        let found = match read_words(alloc, words.as_slice()) {
            Ok(request) => None,
            Err(found) => Some(found),
        };
        assert!(rt; found == Some(*fault));
    }
    Ok(())
}
