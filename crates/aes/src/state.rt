// The state of the cipher and its round steps.
// The columns are named one by one: by `map` a block takes three fifths more instructions.
ghost use Rattle.std.specs.Prelude.{◌≡◌, ◌+◌, ◌<◌};
ghost use Rattle.aes.specs.Fips197.{sub_bytes, shift_rows, mix_columns, add_round_key, rcon, next_round_key, round, last_round};
ghost use Rattle.aes.specs.StateLayout.{bytes_of};

use crate::sbox::SBox;
use crate::word::Word;

// A state as its four columns, or a round key as its four words.
#[derive(Clone, Copy)]
pub(crate) struct State {
    pub(crate) columns: [Word; 4],
}

impl State {
    // The state of 16 bytes.
    pub(crate) fn load(bytes: [u8; 16]) -> State
        ensures { bytes_of result ≡ bytes }
    {
        State {
            columns: [
                Word::load([bytes[0], bytes[1], bytes[2], bytes[3]]),
                Word::load([bytes[4], bytes[5], bytes[6], bytes[7]]),
                Word::load([bytes[8], bytes[9], bytes[10], bytes[11]]),
                Word::load([bytes[12], bytes[13], bytes[14], bytes[15]]),
            ],
        }
    }

    // The 16 bytes of a state.
    pub(crate) fn store(self) -> [u8; 16]
        ensures { result ≡ bytes_of self }
    {
        let a = self.columns[0].store();
        let b = self.columns[1].store();
        let c = self.columns[2].store();
        let d = self.columns[3].store();
        [
            a[0], a[1], a[2], a[3], b[0], b[1], b[2], b[3], c[0], c[1], c[2], c[3], d[0], d[1],
            d[2], d[3],
        ]
    }

    // SubBytes: the S-box at each byte.
    fn sub_bytes(mut self, s_box: &SBox) -> State
        ensures { bytes_of result ≡ sub_bytes (bytes_of self) }
    {
        let [a, b, c, d] = self.columns;
        self.columns = [
            a.sub_word(s_box),
            b.sub_word(s_box),
            c.sub_word(s_box),
            d.sub_word(s_box),
        ];
        self
    }

    // ShiftRows: row r goes to the left by r columns.
    fn shift_rows(mut self) -> State
        ensures { bytes_of result ≡ shift_rows (bytes_of self) }
    {
        let [a, b, c, d] = self.columns;
        self.columns = [
            Word::diagonal(a, b, c, d),
            Word::diagonal(b, c, d, a),
            Word::diagonal(c, d, a, b),
            Word::diagonal(d, a, b, c),
        ];
        self
    }

    // MixColumns: each column times the fixed matrix.
    fn mix_columns(mut self) -> State
        ensures { bytes_of result ≡ mix_columns (bytes_of self) }
    {
        let [a, b, c, d] = self.columns;
        self.columns = [
            a.mix_column(),
            b.mix_column(),
            c.mix_column(),
            d.mix_column(),
        ];
        self
    }

    // AddRoundKey: the sum with a round key.
    fn add_round_key(mut self, key: State) -> State
        ensures { bytes_of result ≡ add_round_key (bytes_of self) (bytes_of key) }
    {
        let [a, b, c, d] = self.columns;
        let [p, q, r, s] = key.columns;
        self.columns = [a.plus(p), b.plus(q), c.plus(r), d.plus(s)];
        self
    }

    // The state before the first round: a block with the first round key added.
    pub(crate) fn begin(block: [u8; 16], key: State) -> State
        ensures { bytes_of result ≡ add_round_key block (bytes_of key) }
    {
        State::load(block).add_round_key(key)
    }

    // A round before the last. ShiftRows goes before SubBytes, with which it commutes.
    pub(crate) fn round(mut self, s_box: &SBox, key: State) -> State
        ensures { bytes_of result ≡ round (bytes_of self) (bytes_of key) }
    {
        self = self.shift_rows();
        self = self.sub_bytes(s_box);
        self = self.mix_columns();
        self.add_round_key(key)
    }

    // The last round, which has no MixColumns; its first two steps are exchanged likewise.
    pub(crate) fn last_round(mut self, s_box: &SBox, key: State) -> State
        ensures { bytes_of result ≡ last_round (bytes_of self) (bytes_of key) }
    {
        self = self.shift_rows();
        self = self.sub_bytes(s_box);
        self.add_round_key(key)
    }

    // From the round key of round i to that of round i + 1.
    pub(crate) fn next_round_key(mut self, s_box: &SBox, i: usize) -> State
        requires { i < 10 }
        ensures { bytes_of result ≡ next_round_key (rcon (i + 1)) (bytes_of self) }
    {
        let [a, b, c, d] = self.columns;
        let temp = d.rot_word().sub_word(s_box).plus(Word::round_constant(i));
        let a = a.plus(temp);
        let b = b.plus(a);
        let c = c.plus(b);
        let d = d.plus(c);
        self.columns = [a, b, c, d];
        self
    }
}
