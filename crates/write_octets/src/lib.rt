// Octets as chips: each octet scrambled, cut into symbols at a rate, and written as words over a buffer's front.
#![tactic(auto)]

ghost use Rattle.std.specs.Prelude.{◌≡◌, ◌+◌, ◌*◌, ◌/◌, ◌%◌, ◌≤◌, length};
ghost use Rattle.base.specs.Over.{over};
ghost use Rattle.base.specs.Tables.{tabulate};
ghost use Rattle.rules_rates.specs.Rates.{octet_symbols, octet_chips};
ghost use Rattle.rules_chips.specs.Chips.{turned};
ghost use Rattle.rules_symbols.specs.Words.{barker_word};
ghost use Rattle.rules_bits.specs.Bits.{bits_of};
ghost use Rattle.rules_bits.specs.Growths.{growth, half_turn, chips_from, last_phase};
ghost use Rattle.write_octets.specs.Sending.{symbols_at, emit, step, run, ran};
ghost use Rattle.write_octets.specs.Line.{state};

use common_lines::Line;
use rules_rates::Rate;

mod puts;

// The phase p grown by one bit.
fn grown_one(p: u8, b: u8) -> u8
    ensures answer { result ≡ turned p (2 * b) }
{
    (p % 4 + b % 2 * 2) % 4
}

// The phase p grown by the lowest of the pairs n.
fn grown(p: u8, n: u8) -> u8
    ensures answer { result ≡ turned p (growth (n / 2 % 2) (n % 2)) }
{
    (p % 4 + common_lines::growth(n)) % 4
}

// The phase p1 of the k-th CCK symbol: odd ones grow by 2 more.
fn grown_cck(p: u8, k: usize, n: u8) -> u8
    ensures answer { result ≡ turned p (growth (n / 2 % 2) (n % 2) + half_turn k) }
{
    (p % 4 + common_lines::growth(n) + (k % 2) as u8 * 2) % 4
}

// Eight scrambled bits as chips, at each rate; the answer is the last symbol's phase. `barkers` are the Barker words.
fn put_one(barkers: &[[u8; 11]; 4], p: u8, o: u8, chips: &mut [u8]) -> u8
    requires { (barkers.now ≡ tabulate barker_word 4) × (88 ≤ length chips.old) }
    ensures answer { result ≡ last_phase p (symbols_at Rate.One 0 (bits_of 8 o)) }
    ensures chips { chips.new ≡ over (chips_from Rate.One p (symbols_at Rate.One 0 (bits_of 8 o)))
        chips.old }
{
    let o1 = o / 2;
    let o2 = o1 / 2;
    let o3 = o2 / 2;
    let o4 = o3 / 2;
    let o5 = o4 / 2;
    let o6 = o5 / 2;
    let o7 = o6 / 2;
    let p0 = grown_one(p, o % 2);
    let p1 = grown_one(p0, o1 % 2);
    let p2 = grown_one(p1, o2 % 2);
    let p3 = grown_one(p2, o3 % 2);
    let p4 = grown_one(p3, o4 % 2);
    let p5 = grown_one(p4, o5 % 2);
    let p6 = grown_one(p5, o6 % 2);
    let p7 = grown_one(p6, o7 % 2);
    let phases = [p0, p1, p2, p3, p4, p5, p6, p7];
    puts::put_barkers(barkers, &phases, chips);
    p7
}

fn put_two(barkers: &[[u8; 11]; 4], p: u8, o: u8, chips: &mut [u8]) -> u8
    requires { (barkers.now ≡ tabulate barker_word 4) × (44 ≤ length chips.old) }
    ensures answer { result ≡ last_phase p (symbols_at Rate.Two 0 (bits_of 8 o)) }
    ensures chips { chips.new ≡ over (chips_from Rate.Two p (symbols_at Rate.Two 0 (bits_of 8 o)))
        chips.old }
{
    let s = common_lines::pairs(o);
    let p0 = grown(p, s);
    let p1 = grown(p0, s / 4);
    let p2 = grown(p1, s / 16);
    let p3 = grown(p2, s / 64);
    let phases = [p0, p1, p2, p3];
    puts::put_barkers(barkers, &phases, chips);
    p3
}

fn put_five(p: u8, o: u8, chips: &mut [u8]) -> u8
    requires { 16 ≤ length chips.old }
    ensures answer { result ≡ last_phase p (symbols_at Rate.Five 0 (bits_of 8 o)) }
    ensures chips { chips.new ≡ over (chips_from Rate.Five p (symbols_at Rate.Five 0 (bits_of 8 o)))
        chips.old }
{
    let s = common_lines::pairs(o);
    let p0 = grown_cck(p, 0, s);
    let p1 = grown_cck(p0, 1, s / 16);
    let first = common_words::five_word(p0, s / 4);
    let second = common_words::five_word(p1, s / 64);
    puts::put(&first, chips);
    puts::put(&second, &mut chips[8..]);
    p1
}

// The same for a part's k-th octet, which at 11 Mbit/s is its k-th symbol.
fn put_eleven(p: u8, k: usize, o: u8, chips: &mut [u8]) -> u8
    requires { 8 ≤ length chips.old }
    ensures answer { result ≡ last_phase p (symbols_at Rate.Eleven k (bits_of 8 o)) }
    ensures chips { chips.new ≡ over (chips_from Rate.Eleven p (symbols_at Rate.Eleven k (bits_of 8 o)))
        chips.old }
{
    let s = common_lines::pairs(o);
    let p1 = grown_cck(p, k, s);
    let word = common_words::cck_word(p1, s / 4, s / 16, s / 64);
    puts::put(&word, chips);
    p1
}

// Eight scrambled bits at a rate, the k-th octet of their part. At the other rates an octet starts even.
fn put_bits(barkers: &[[u8; 11]; 4], r: Rate, p: u8, k: usize, o: u8, chips: &mut [u8]) -> u8
    requires { (barkers.now ≡ tabulate barker_word 4) × (octet_chips r ≤ length chips.old) }
    ensures answer { result ≡ last_phase p (symbols_at r (octet_symbols r * k) (bits_of 8 o)) }
    ensures chips { chips.new
        ≡ over (chips_from r p (symbols_at r (octet_symbols r * k) (bits_of 8 o))) chips.old }
{
    match r {
        Rate::One => put_one(barkers, p, o, chips),
        Rate::Two => put_two(barkers, p, o, chips),
        Rate::Five => put_five(p, o, chips),
        Rate::Eleven => put_eleven(p, k, o, chips),
    }
}

// A part's k-th octet as chips over the front of chips.
fn put_octet(
    barkers: &[[u8; 11]; 4],
    r: Rate,
    line: Line,
    k: usize,
    x: u8,
    chips: &mut [u8],
) -> Line
    requires { (barkers.now ≡ tabulate barker_word 4) × (octet_chips r ≤ length chips.old) }
    ensures answer { state result ≡ step r k (state line) x }
    ensures chips { chips.new ≡ over (emit r k (state line) x) chips.old }
{
    let o = common_lines::scramble_octet(line.past, x);
    let phase = put_bits(barkers, r, line.phase, k, o, chips);
    Line { past: o, phase }
}

// A part's octets as chips over the front of chips.
pub fn put_octets(r: Rate, line: Line, octets: &[u8], chips: &mut [u8]) -> Line
    requires { octet_chips r * length octets.now ≤ length chips.old }
    ensures answer { state result ≡ ran r 0 (state line) octets.now }
    ensures chips { chips.new
        ≡ over (run r 0 (state line) octets.now) chips.old }
{
    let per = r.octet_chips();
    let barkers = common_words::barker_words();
    let mut l = line;
    for (i, &x) in octets.iter().enumerate() {
        l = put_octet(&barkers, r, l, i, x, &mut chips[per * i..]);
    }
    l
}
