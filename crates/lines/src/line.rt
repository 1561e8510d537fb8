// A whole line, written into memory that the caller lends.

ghost use Rattle.std.specs.Prelude.{◌≡◌, ◌+◌, ◌≤◌, ◌∷◌, ◌++◌, length, drop, decimal};
ghost use Rattle.lines.specs.Line.{line_of, refusal_line};
ghost use Rattle.std.proofs.Math.Seq.{paste};

use crate::word::Word;
use arrayvec::ArrayVec;
use itoa::Buffer;
use refusals::Refusal;

// The bytes of the longest line, "throughout 65535 65535 65535" and its newline.
pub const LINE: usize = 29;

// Writes the text into the line at a place, and says where it ends.
fn lay(line: &mut [u8], at: usize, text: &[u8]) -> usize
    requires { at + length text.now ≤ length line.old }
    ensures ends { result ≡ at + length text.now }
    ensures bytes { line.new ≡ paste line.old at text.now (length text.now) }
{
    let end = at + text.len();
    line[at..end].copy_from_slice(text);
    end
}

// Writes a space and the number into the line at a place, and says where the number ends.
fn lay_number(line: &mut [u8], at: usize, number: u16) -> usize
    requires { at + 6 ≤ length line.old }
    ensures ends { result ≡ at + length (32 ∷ decimal number) }
    ensures bytes { line.new ≡ paste line.old at (32 ∷ decimal number) (length (32 ∷ decimal number)) }
    ensures fits { result ≤ at + 6 }
{
    let digits_at = lay(line, at, b" ");
    lay(line, digits_at, Buffer::new().format(number).as_bytes())
}

// Writes the line of a message from the start of the memory, and says how many bytes it has; the bytes behind it stay. The memory is the
// caller's, as lines are to be written (docs/DECISIONS.md, "Forms").
pub fn write(word: Word, first: u16, second: u16, third: u16, line: &mut [u8; LINE]) -> usize
    ensures length { result ≡ length (line_of word first second third) }
    ensures bytes { line.new ≡ line_of word first second third ++ drop (length (line_of word first second third)) line.old }
    ensures fits { result ≤ 29 }
{
    let after_word = lay(line, 0, word.text());
    let after_first = lay_number(line, after_word, first);
    let after_second = lay_number(line, after_first, second);
    let after_third = lay_number(line, after_second, third);
    lay(line, after_third, b"\n")
}

// The line of a refusal: the word, and then the refusal's number, layer and place.
pub fn line_of_refusal(word: Word, refusal: Refusal) -> ArrayVec<u8, LINE>
    ensures { result.items ≡ refusal_line word refusal }
{
    let mut memory = [0; LINE];
    let end = write(
        word,
        refusal.number as u16,
        refusal.layer as u16,
        refusal.place,
        &mut memory,
    );
    let mut line = ArrayVec::new();
    line.try_extend_from_slice(&memory[..end]).unwrap();
    line
}
