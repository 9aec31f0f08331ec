// The words of symbols, Barker and CCK, as arrays of phases by value.
#![tactic(auto)]

ghost use Rattle.std.specs.Prelude.{◌≡◌, ◌+◌, ◌*◌, ◌/◌, ◌%◌};
ghost use Rattle.base.specs.Tables.{tabulate};
ghost use Rattle.rules_symbols.specs.Words.{barker_word, cck_word};
ghost use Rattle.common_words.specs.Octets.{quarters};

// The signs + - + + - + + + - - - as turns: none for a plus, a half turn for a minus.
pub const BARKER: [u8; 11] = [0, 2, 0, 0, 2, 0, 0, 0, 2, 2, 2];

// The words of 5.5 Mbit/s at p1 = 0, by 2 d2 + d3.
pub const FIVE: [[u8; 8]; 4] = [
    [1, 0, 1, 2, 1, 0, 3, 0],
    [3, 2, 3, 0, 1, 0, 3, 0],
    [3, 0, 3, 2, 3, 0, 1, 0],
    [1, 2, 1, 0, 3, 0, 1, 0],
];

// The Barker symbol with phase p.
fn barker_word(p: u8) -> [u8; 11]
    ensures answer { result ≡ barker_word p }
{
    let mut word = [0u8; 11];
    for k in 0..11 {
        word[k] = (p % 4 + BARKER[k]) % 4;
    }
    word
}

// The four Barker symbols by their phases, for a loop that writes many.
pub fn barker_words() -> [[u8; 11]; 4]
    ensures answer { result ≡ tabulate barker_word 4 }
{
    [0, 1, 2, 3].map(barker_word)
}

// The eight octets of a number, lowest first, modulo 4. Words are made as eight sums side by side in one number,
// so that they are written in one store. Taken apart one by one: by `map` a write at 1 Mbit/s is 2.4 % longer.
fn quarters(w: u64) -> [u8; 8]
    ensures answer { result ≡ quarters 8 w }
{
    let w1 = w / 256;
    let w2 = w1 / 256;
    let w3 = w2 / 256;
    let w4 = w3 / 256;
    let w5 = w4 / 256;
    let w6 = w5 / 256;
    let w7 = w6 / 256;
    [
        (w % 4) as u8,
        (w1 % 4) as u8,
        (w2 % 4) as u8,
        (w3 % 4) as u8,
        (w4 % 4) as u8,
        (w5 % 4) as u8,
        (w6 % 4) as u8,
        (w7 % 4) as u8,
    ]
}

// The CCK word of four phases. A phase below 64 is taken as it is: no sum of four fills an octet.
pub fn cck_word(p1: u8, p2: u8, p3: u8, p4: u8) -> [u8; 8]
    ensures answer { result ≡ cck_word p1 p2 p3 p4 }
{
    let w = 0x0101010101010101 * (p1 as u64 % 64)
        + 0x0001000100010001 * (p2 as u64 % 64)
        + 0x0000010100000101 * (p3 as u64 % 64)
        + 0x0000000001010101 * (p4 as u64 % 64);
    let q = quarters(w);
    [
        q[0],
        q[1],
        q[2],
        (q[3] + 2) % 4,
        q[4],
        q[5],
        (q[6] + 2) % 4,
        q[7],
    ]
}

// The word of 5.5 Mbit/s with phase p1, by d = 2 d2 + d3: p2 = 2 d2 + 1, p3 = 0, p4 = 2 d3.
pub fn five_word(p1: u8, d: u8) -> [u8; 8]
    ensures answer { result ≡ cck_word p1 (2 * (d / 2 % 2) + 1) 0 (2 * (d % 2)) }
{
    let w = u64::from_le_bytes(FIVE[(d % 4) as usize]);
    quarters(w + 0x0101010101010101 * (p1 as u64 % 4))
}
