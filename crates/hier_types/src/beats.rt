// Who acts in a beat, and the word of beats that a run repeats.
ghost use Rattle.std.specs.Prelude.{◌≡◌, ◌<◌, length, slice_get, Some};
ghost use Rattle.std.specs.Option.{SomeIff};
ghost use Rattle.std.specs.List.{list_any};
ghost use Rattle.hier_types.specs.Beats.{IsBeatWord, is_hart};

use arrayvec::ArrayVec;
use std::alloc::AllocError;
use std::marker::Model;

/// What acts in one beat: the hart by one instruction, the mover by one turn, the cleaner by one turn.
#[derive(Clone, Copy, Debug, Default, PartialEq, Eq)]
pub enum Beat {
    #[default]
    Hart,
    Mover,
    Cleaner,
}

/// Whether one of the beats is the hart's.
fn has_hart(beats: &[Beat]) -> bool
    ensures { result ≡ list_any is_hart beats.now }
{
    beats.iter().any(|beat| matches!(beat, Beat::Hart))
}

/// 1 to 64 beats, at least one of them the hart's. A run repeats them without end.
#[derive(Debug, Drop)]
pub struct BeatWord {
    beats: ArrayVec<Beat, 64>,
}

impl Model for BeatWord {
    ghost use Rattle.std.specs.Prelude.{List};
    ghost use Rattle.hier_types.specs.declared.beats.Beat.{Beat};
    ghost use Rattle.hier_types.specs.Beats.{IsBeatWord};

    ghost Value = { List Beat };

    ghost view = { λ word. word.beats.items };

    ghost invariant = { λ word. IsBeatWord word.beats.items };
}

impl Clone for BeatWord {
    ghost is_clone = { λ word copy. copy ≡ word };

    ghost is_infallible = { λ _. Unit {0} };

    fn clone(&self) -> Result<Self, AllocError> {
        Ok(BeatWord::new(self.beats.as_slice()).unwrap())
    }
}

impl BeatWord {
    /// The word of these beats. None for any other list than one of 1 to 64 beats with a `Hart` among them.
    pub fn new(beats: &[Beat]) -> Option<BeatWord>
        ensures { SomeIff result (IsBeatWord beats.now) beats.now }
    {
        if !has_hart(beats) {
            return None;
        }
        let mut word = ArrayVec::new();
        match word.try_extend_from_slice(beats) {
            Ok(()) => Some(BeatWord { beats: word }),
            Err(_) => None,
        }
    }

    /// The number of beats, 1 to 64.
    pub fn len(&self) -> u8
        ensures len { result ≡ length self.now }
        ensures word { IsBeatWord self.now }
    {
        self.beats.len() as u8
    }

    /// One beat, counted from 0.
    pub fn beat_at(&self, index: u8) -> Beat
        requires { index < length self.now }
        ensures { slice_get self.now index ≡ Some result }
    {
        self.beats[index as usize]
    }
}
