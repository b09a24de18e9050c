// What a user sets.
ghost use Rattle.std.specs.Prelude.{◌≡◌};
ghost use Rattle.hier_types.specs.Settings.{default_settings};

use crate::beats::{Beat, BeatWord};
use crate::geometry::Geometry;

/// How lines are compressed.
#[derive(Clone, Copy, Debug, PartialEq, Eq)]
pub enum Codec {
    /// Base-delta-immediate lines.
    Bdi,
    /// Lines of frequent patterns.
    Fpc,
}

/// What a user may set, and what else the words tell, in the order in which they are tested.
#[derive(Clone, Copy, Debug, PartialEq, Eq)]
pub enum SettingName {
    Command,
    Base,
    Pages,
    Frames,
    Codec,
    L1Sets,
    L1Ways,
    L2Sets,
    L2Ways,
    Meta,
    Budget,
    Beats,
    Number,
}

/// The sizes of the hierarchy, and how a run goes. `docs/FORMATS.md` has the rule of each.
#[derive(Debug, Drop)]
pub struct Settings {
    pub geometry: Geometry,
    /// The frames of 4,096 bytes that the memory has.
    pub frames: u32,
    pub codec: Codec,
    pub l1_sets: u32,
    pub l1_ways: u32,
    pub l2_sets: u32,
    pub l2_ways: u32,
    /// The entries of the metadata cache.
    pub meta: u32,
    /// How many instructions, or accesses of a trace, a run makes at most.
    pub budget: u64,
    pub beats: BeatWord,
    /// Whether the report is JSON.
    pub json: bool,
}

/// 16 MiB from address 00010000 on with a frame for each page, 32 KiB and 256 KiB of cache, a budget of 10^12, and
/// one turn of the mover and one of the cleaner in 16 beats.
impl Default for Settings {
    ghost is_default = { λ settings. settings ≡ default_settings };

    fn default() -> Self {
        Settings {
            geometry: Geometry {
                base: 16,
                pages: 4096,
            },
            frames: 4096,
            codec: Codec::Bdi,
            l1_sets: 64,
            l1_ways: 8,
            l2_sets: 512,
            l2_ways: 8,
            meta: 64,
            budget: 1_000_000_000_000,
            beats: default_beats(),
            json: false,
        }
    }
}

/// Seven beats of the hart and one of the mover, then seven of the hart and one of the cleaner.
fn default_beats() -> BeatWord
    ensures { result ≡ default_settings.beats }
{
    let hart = Beat::Hart;
    let beats = [
        hart,
        hart,
        hart,
        hart,
        hart,
        hart,
        hart,
        Beat::Mover,
        hart,
        hart,
        hart,
        hart,
        hart,
        hart,
        hart,
        Beat::Cleaner,
    ];
    BeatWord::new(&beats).unwrap()
}
