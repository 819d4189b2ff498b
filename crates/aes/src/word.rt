// A word of FIPS 197: a column of the state, or a word of the key schedule.
ghost use Rattle.std.specs.Prelude.{◌≡◌, [], ◌∷◌, map, ◌+◌, ◌<◌};
ghost use Rattle.gf256.specs.Field.{tabulate, ◌·◌};
ghost use Rattle.aes.specs.Fips197.{◌‼◌, sum_word, mix_column, rot_word, sub_word, rcon};
ghost use Rattle.aes.specs.StateLayout.{word_of};

use crate::sbox::SBox;
use gf256::xtimes;

// The first bytes of the ten round constants.
const RCON: [u8; 10] = [0x01, 0x02, 0x04, 0x08, 0x10, 0x20, 0x40, 0x80, 0x1b, 0x36];

// Twice each of 4 bytes in GF(2^8).
// The bytes are named one by one: by `map`, here, in `sub_word` and over the columns of a state, a block takes three fifths more instructions.
fn doubles(bytes: [u8; 4]) -> [u8; 4]
    ensures { result ≡ tabulate 4 (λ i. 2 · (bytes ‼ i)) }
{
    [
        xtimes(bytes[0]),
        xtimes(bytes[1]),
        xtimes(bytes[2]),
        xtimes(bytes[3]),
    ]
}

// Four bytes as one number, that of row 0 lowest.
#[derive(Clone, Copy)]
pub(crate) struct Word {
    pub(crate) bits: u32,
}

impl Word {
    // The word of 4 bytes, from row 0 to row 3.
    pub(crate) fn load(bytes: [u8; 4]) -> Word
        ensures { word_of result ≡ bytes }
    {
        Word {
            bits: u32::from_le_bytes(bytes),
        }
    }

    // The 4 bytes of a word.
    pub(crate) fn store(self) -> [u8; 4]
        ensures { result ≡ word_of self }
    {
        self.bits.to_le_bytes()
    }

    // The round constant of round i + 1, for i below 10.
    pub(crate) fn round_constant(i: usize) -> Word
        requires { i < 10 }
        ensures { word_of result ≡ rcon (i + 1) }
    {
        Word::load([RCON[i], 0, 0, 0])
    }

    // The sum of two words.
    pub(crate) fn plus(self, other: Word) -> Word
        ensures { word_of result ≡ sum_word (word_of self) (word_of other) }
    {
        Word {
            bits: self.bits ^ other.bits,
        }
    }

    // RotWord: each byte goes one place to the left.
    pub(crate) fn rot_word(self) -> Word
        ensures { word_of result ≡ rot_word (word_of self) }
    {
        Word {
            bits: self.bits.rotate_right(8),
        }
    }

    // SubWord: the S-box at each byte.
    pub(crate) fn sub_word(self, s_box: &SBox) -> Word
        ensures { word_of result ≡ sub_word (word_of self) }
    {
        let bytes = self.store();
        Word::load([
            s_box.sub(bytes[0]),
            s_box.sub(bytes[1]),
            s_box.sub(bytes[2]),
            s_box.sub(bytes[3]),
        ])
    }

    // The word of byte 0 of the first word, byte 1 of the second, and so on.
    pub(crate) fn diagonal(first: Word, second: Word, third: Word, fourth: Word) -> Word
        ensures { word_of result ≡ word_of first ‼ 0 ∷ word_of second ‼ 1 ∷ word_of third ‼ 2 ∷ word_of fourth ‼ 3 ∷ [] }
    {
        let a = first.store();
        let b = second.store();
        let c = third.store();
        let d = fourth.store();
        Word::load([a[0], b[1], c[2], d[3]])
    }

    // Twice each byte in GF(2^8).
    fn doubled(self) -> Word
        ensures { word_of result ≡ map (λ x. 2 · x) (word_of self) }
    {
        Word::load(doubles(self.store()))
    }

    // A column times the fixed matrix of MixColumns.
    pub(crate) fn mix_column(self) -> Word
        ensures { word_of result ≡ mix_column (word_of self) }
    {
        let twice = self.doubled();
        let third = self.rot_word().rot_word();
        let fourth = third.rot_word();
        let next = twice.plus(self).rot_word();
        twice.plus(next).plus(third).plus(fourth)
    }
}
