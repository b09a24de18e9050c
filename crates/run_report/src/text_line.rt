// One line of text, which takes no memory.
ghost use Rattle.std.specs.Prelude.{◌≡◌, ◌+◌, ◌*◌, ◌/◌, ◌%◌, ◌^◌, ◌<◌, ◌≤◌, [], ◌∷◌, ◌++◌, length, decimal};
ghost use Rattle.arrayvec.specs.ArrayString.{array_string_len};
ghost use Rattle.run_report.specs.Texts as texts;
ghost use Rattle.run_report.specs.ReportLines as lines;

use arrayvec::ArrayString;
use itoa::Buffer;

/// A line of text of at most 192 bytes.
#[derive(Clone, Copy)]
pub(crate) struct TextLine {
    text: ArrayString<192>,
}

impl TextLine {
    pub(crate) fn new() -> Self
        ensures { result.text.bytes ≡ [] }
    {
        TextLine {
            text: ArrayString::new(),
        }
    }

    /// The line of a word and some numbers, each behind a space.
    pub(crate) fn of_numbers(word: &str, numbers: &[u64]) -> Self
        requires { length word.now + 21 * length numbers.now < 192 }
        ensures { result.text.bytes ≡ lines.numbers_line word.now numbers.now }
    {
        let mut line = TextLine::new();
        line.word(word);
        line.numbers(numbers);
        line.word("\n");
        line
    }

    pub(crate) fn as_str(&self) -> &str
        ensures { result.now ≡ self.now.text.bytes }
    {
        self.text.as_str()
    }

    /// Appends a text as it is.
    pub(crate) fn word(&mut self, text: &str)
        requires room { array_string_len self.old.text + length text.now ≤ 192 }
        ensures text { self.new.text.bytes ≡ self.old.text.bytes ++ text.now }
        ensures len { array_string_len self.new.text ≡ array_string_len self.old.text + length text.now }
    {
        self.text.push_str(text);
    }

    /// Appends a number in decimal digits.
    pub(crate) fn number(&mut self, n: u64)
        requires room { array_string_len self.old.text + 20 ≤ 192 }
        ensures text { self.new.text.bytes ≡ self.old.text.bytes ++ decimal n }
        ensures len { array_string_len self.new.text ≤ array_string_len self.old.text + 20 }
    {
        let mut buffer = Buffer::new();
        self.word(buffer.format(n));
    }

    /// Appends some numbers, each behind a space.
    pub(crate) fn numbers(&mut self, numbers: &[u64])
        requires room { array_string_len self.old.text + 21 * length numbers.now ≤ 192 }
        ensures text { self.new.text.bytes ≡ self.old.text.bytes ++ texts.counts_text numbers.now }
        ensures len { array_string_len self.new.text ≤ array_string_len self.old.text + 21 * length numbers.now }
    {
        for number in numbers {
            self.next_number(*number);
        }
    }

    /// Appends a number behind a space.
    fn next_number(&mut self, n: u64)
        requires room { array_string_len self.old.text + 21 ≤ 192 }
        ensures text { self.new.text.bytes ≡ self.old.text.bytes ++ texts.count_text n }
        ensures len { array_string_len self.new.text ≤ array_string_len self.old.text + 21 }
    {
        self.word(" ");
        self.number(n);
    }

    /// Appends a number below 100 in two decimal digits.
    pub(crate) fn two_digits(&mut self, n: u8)
        requires below { n < 100 }
        requires room { array_string_len self.old.text + 2 ≤ 192 }
        ensures text { self.new.text.bytes ≡ self.old.text.bytes ++ (48 + n / 10) ∷ (48 + n % 10) ∷ [] }
        ensures len { array_string_len self.new.text ≡ array_string_len self.old.text + 2 }
    {
        self.text.push((b'0' + n / 10) as char);
        self.text.push((b'0' + n % 10) as char);
    }

    /// Appends a number in eight hexadecimal digits.
    pub(crate) fn address(&mut self, n: u32)
        requires room { array_string_len self.old.text + 8 ≤ 192 }
        ensures text { self.new.text.bytes ≡ self.old.text.bytes ++ texts.address n }
        ensures len { array_string_len self.new.text ≡ array_string_len self.old.text + 8 }
    {
        self.digit(n, 28);
        self.digit(n, 24);
        self.digit(n, 20);
        self.digit(n, 16);
        self.digit(n, 12);
        self.digit(n, 8);
        self.digit(n, 4);
        self.digit(n, 0);
    }

    /// Appends the hexadecimal digit of the four bits from `low` on.
    fn digit(&mut self, n: u32, low: u32)
        requires bits { low < 32 }
        requires room { array_string_len self.old.text < 192 }
        ensures text { self.new.text.bytes ≡ self.old.text.bytes ++ texts.hex_digit (n / 2 ^ low % 16) ∷ [] }
        ensures len { array_string_len self.new.text ≡ array_string_len self.old.text + 1 }
    {
        self.text.push(hex_digit(n, low) as char);
    }
}

/// The hexadecimal digit, in lower case, of the four bits of `n` from bit `low` on.
pub fn hex_digit(n: u32, low: u32) -> u8
    requires { low < 32 }
    ensures digit { result ≡ texts.hex_digit (n / 2 ^ low % 16) }
    ensures ascii { result < 128 }
{
    let digit = ((n >> low) % 16) as u8;
    if digit < 10 {
        b'0' + digit
    } else {
        b'a' + (digit - 10)
    }
}
