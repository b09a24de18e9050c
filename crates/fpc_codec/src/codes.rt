// What a code is: its pattern's prefix, the width of its payload, and the word that both say.

ghost use Rattle.std.specs.Prelude.{◌≡◌, ◌≢◌, ◌<◌, ◌≤◌, ◌*◌, ◌^◌};
ghost use Rattle.fpc_codec.specs.Codes.{prefix_of, payload_bits, sign_extended, word_of, run_of, IsCode, code_bits};
ghost use Rattle.fpc_codec.specs.Least.{IsLeastFor};

/// A pattern of the words that a code stands for, in the order of the prefixes.
#[derive(Debug, Clone, Copy, PartialEq, Eq)]
pub enum Pattern {
    /// One to eight zero words.
    ZeroRun,
    /// A word that is sign-extended from 4 bits.
    Signed4,
    /// A word that is sign-extended from 8 bits.
    Signed8,
    /// A word that is sign-extended from 16 bits.
    Signed16,
    /// A word whose lower half is zero.
    PaddedHalf,
    /// A word of two halves, each of them sign-extended from 8 bits.
    TwoSignedBytes,
    /// A word of four equal bytes.
    RepeatedByte,
    /// Any word.
    Uncompressed,
}

impl Pattern {
    #[tactic(auto, unfolding(crate::specs::Codes::prefix_of))]
    pub fn from_prefix(prefix: u8) -> Self
        requires { prefix < 8 }
        ensures { prefix_of result ≡ prefix }
    {
        match prefix {
            0 => Pattern::ZeroRun,
            1 => Pattern::Signed4,
            2 => Pattern::Signed8,
            3 => Pattern::Signed16,
            4 => Pattern::PaddedHalf,
            5 => Pattern::TwoSignedBytes,
            6 => Pattern::RepeatedByte,
            _ => Pattern::Uncompressed,
        }
    }

    #[tactic(auto, unfolding(crate::specs::Codes::prefix_of))]
    pub fn prefix(self) -> u8
        ensures value { result ≡ prefix_of self }
        ensures below { result < 8 }
    {
        self as u8
    }

    /// Bits of the payload.
    #[tactic(auto, unfolding(crate::specs::Codes::payload_bits))]
    pub fn payload_bits(self) -> u32
        ensures value { result ≡ payload_bits self }
        ensures below { result ≤ 32 }
    {
        match self {
            Pattern::ZeroRun => 3,
            Pattern::Signed4 => 4,
            Pattern::Signed8 | Pattern::RepeatedByte => 8,
            Pattern::Signed16 | Pattern::PaddedHalf | Pattern::TwoSignedBytes => 16,
            Pattern::Uncompressed => 32,
        }
    }
}

/// A pattern and its payload.
#[derive(Debug, Clone, Copy, PartialEq, Eq)]
pub struct Code {
    pub pattern: Pattern,
    pub payload: u32,
}

impl Code {
    /// The code of the fewest bits for a word that is not zero, the lower prefix on a tie.
    #[tactic(auto, unfolding(crate::specs::Codes::payload_bits, crate::specs::Codes::prefix_of, crate::specs::Codes::word_of, crate::specs::Codes::run_of))]
    pub fn least_for(word: u32) -> Code
        requires { word ≢ 0 }
        ensures { IsLeastFor word result }
    {
        let low = word % (1 << 16);
        let high = word >> 16;
        let (pattern, payload) = if word < 1 << 3 || word >= 0xffff_fff8 {
            (Pattern::Signed4, word % (1 << 4))
        } else if word < 1 << 7 || word >= 0xffff_ff80 {
            (Pattern::Signed8, word % (1 << 8))
        } else if word == word % (1 << 8) * 0x0101_0101 {
            (Pattern::RepeatedByte, word % (1 << 8))
        } else if word < 1 << 15 || word >= 0xffff_8000 {
            (Pattern::Signed16, low)
        } else if low == 0 {
            (Pattern::PaddedHalf, high)
        } else if (low < 1 << 7 || low >= 0xff80) && (high < 1 << 7 || high >= 0xff80) {
            (
                Pattern::TwoSignedBytes,
                low % (1 << 8) + (high % (1 << 8) << 8),
            )
        } else {
            (Pattern::Uncompressed, word)
        };
        Code { pattern, payload }
    }

    /// Bits of the prefix and the payload.
    pub fn bits(self) -> u16
        ensures value { result ≡ code_bits self }
        ensures below { result ≤ 35 }
    {
        3 + self.pattern.payload_bits() as u16
    }

    /// How many words the code says.
    #[tactic(auto, unfolding(crate::specs::Codes::run_of, crate::specs::Codes::payload_bits))]
    pub fn run(self) -> usize
        requires { IsCode self }
        ensures value { result ≡ run_of self.pattern self.payload }
        ensures some { 1 ≤ result }
    {
        match self.pattern {
            Pattern::ZeroRun => self.payload as usize + 1,
            _ => 1,
        }
    }

    /// The word that each of its words is.
    #[tactic(auto, unfolding(crate::specs::Codes::word_of, crate::specs::Codes::payload_bits))]
    pub fn word(self) -> u32
        requires { IsCode self }
        ensures { result ≡ word_of self.pattern self.payload }
    {
        let payload = self.payload;
        match self.pattern {
            Pattern::ZeroRun => 0,
            Pattern::Signed4 => sign_extended(payload, 1 << 3),
            Pattern::Signed8 => sign_extended(payload, 1 << 7),
            Pattern::Signed16 => sign_extended(payload, 1 << 15),
            Pattern::PaddedHalf => payload << 16,
            Pattern::TwoSignedBytes => {
                half_of_byte(payload % (1 << 8)) + (half_of_byte(payload >> 8) << 16)
            }
            Pattern::RepeatedByte => payload * 0x0101_0101,
            Pattern::Uncompressed => payload,
        }
    }
}

// The number as a word, where values from `half` to `2 * half` stand for negative ones.
fn sign_extended(number: u32, half: u32) -> u32
    requires number_in { number < 2 * half }
    requires half_in { half < 2 ^ 31 }
    ensures { result ≡ sign_extended (2 ^ 32) half number }
{
    if number < half {
        number
    } else {
        number + (u32::MAX - 2 * half + 1)
    }
}

// The byte sign-extended to half a word.
fn half_of_byte(byte: u32) -> u32
    requires { byte < 2 ^ 8 }
    ensures value { result ≡ sign_extended (2 ^ 16) (2 ^ 7) byte }
    ensures below { result < 2 ^ 16 }
{
    if byte < 1 << 7 { byte } else { byte + 0xff00 }
}
