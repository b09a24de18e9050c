ghost use Rattle.std.specs.Prelude.{◌≡◌, ◌≤◌, ◌↔◌, ℕ, List, Some};
ghost use Rattle.arrayvec.specs.ArrayVec.{array_vec_len};
ghost use Rattle.line_codec.specs.Slots.{size_under};
ghost use Rattle.line_codec.specs.Payloads.{line_of, SaysLine, form_under, payload_under};

use crate::slots::LAST_ROW;
use arrayvec::ArrayVec;
use bdi_codec::{bdi_decode, bdi_encode};
use fpc_codec::{fpc_decode, fpc_encode};
use hier_types::Codec;

/// How the payload of a line is read back.
#[derive(Clone, Copy, Debug, PartialEq, Eq)]
pub enum Form {
    /// The payload is the line itself.
    Plain,
    /// Base-delta-immediate (Pekhimenko et al., PACT 2012): a row, and the mask that belongs to the payload.
    Deltas { row: u8, mask: u32 },
    /// Frequent patterns (Alameldeen and Wood, Wisconsin TR 1500).
    Patterns,
}

/// A line's payload under a codec, and how it is read back.
#[derive(Debug, Drop)]
pub struct Packed {
    /// What reads the payload back, which the payload itself does not tell.
    pub form: Form,
    /// As many bytes as the line's size under the codec, 1 to 64.
    pub payload: ArrayVec<u8, 64>,
}

fn pack_plain(line: &[u8; 64]) -> Packed
    ensures form { result.form ≡ Form.Plain }
    ensures payload { result.payload.items ≡ line.now }
{
    Packed {
        form: Form::Plain,
        payload: ArrayVec::from_array_in((), *line),
    }
}

fn pack_deltas(line: &[u8; 64]) -> Packed
    ensures form { result.form ≡ form_under Codec.Bdi line.now }
    ensures payload { result.payload.items ≡ payload_under Codec.Bdi line.now }
{
    let coded = bdi_encode(line);
    if coded.row > LAST_ROW {
        return pack_plain(line);
    }
    Packed {
        form: Form::Deltas {
            row: coded.row,
            mask: coded.mask,
        },
        payload: coded.payload,
    }
}

fn pack_patterns(line: &[u8; 64]) -> Packed
    ensures form { result.form ≡ form_under Codec.Fpc line.now }
    ensures payload { result.payload.items ≡ payload_under Codec.Fpc line.now }
{
    let Some(payload) = fpc_encode(line) else {
        return pack_plain(line);
    };
    Packed {
        form: Form::Patterns,
        payload,
    }
}

/// The line's payload under the codec, with neither header nor padding, and its form: base-delta-immediate in the
/// line's least row, frequent patterns in its least codes, and the line itself where the codec does not shorten
/// it. Makes the payload once, on the stack.
pub fn pack(codec: Codec, line: &[u8; 64]) -> Packed
    ensures size { array_vec_len result.payload ≡ size_under codec line.now }
    ensures some { 1 ≤ array_vec_len result.payload }
    ensures reads_back { SaysLine result.form result.payload.items line.now }

    // The form and the payload are those of the definitions, and no others that say the line.
    ensures form { result.form ≡ form_under codec line.now }
    ensures payload { result.payload.items ≡ payload_under codec line.now }
{
    match codec {
        Codec::Bdi => pack_deltas(line),
        Codec::Fpc => pack_patterns(line),
    }
}

// The line that the payload says in the form, and none where it says none.
#[tactic(auto, unfolding(crate::specs::Payloads::SaysLine))]
fn read(form: Form, payload: &[u8]) -> Option<[u8; 64]>
    ensures { (line : List ℕ) → (result ≡ Some line) ↔ SaysLine form payload.now line }
{
    match form {
        Form::Plain => payload.as_array::<64>().copied(),
        Form::Deltas { row, mask } => bdi_decode(row, mask, payload),
        Form::Patterns => fpc_decode(payload),
    }
}

/// The line that the payload says in the form. It wants a payload that says one, as [`pack`] makes it.
pub fn unpack(form: Form, payload: &[u8]) -> [u8; 64]
    requires { SaysLine form payload.now (line_of form payload.now) }
    ensures { result ≡ line_of form payload.now }
{
    read(form, payload).unwrap()
}
