// A piece of a batch taken: whole octets straight from it, or chips behind those held.
ghost use Rattle.std.specs.Prelude.{◌≡◌, ◌+◌, ◌-◌, ◌*◌, ◌/◌, ◌%◌, ◌≤◌, ◌<◌, length};
ghost use Rattle.rules_rates.specs.Rates.{octet_chips};
ghost use Rattle.receive_parts.specs.Pieces.{WholeCount, Joins, Takes};

use super::heard::Start;
use super::{Piece, Taking};
use rules_rates::Rate;
use rules_receiving::Ear;

// A row copied. By `copy_from_slice` the archive would want a memmove of the host, which has none.
fn copy(from: &[u8], to: &mut [u8])
    requires { length from.now ≡ length to.old }
    ensures to { to.new ≡ from.now }
{
    for k in 0..from.len() {
        to[k] = from[k];
    }
}

// Chips behind the h that are held, up to the end of their octet: it is heard if it is whole then.
fn join(start: Start, h: usize, hold: &mut [u8], piece: &[u8], octet: &mut [u8]) -> Piece
    requires { (h + length piece.now ≤ octet_chips start.rate) × (length octet.old ≡ 1) × (length hold.old ≡ 88)
        × (start.at ≤ 900000) × (start.symbol ≤ 1000000) × (start.ear.phase < 4) × (start.ear.last < 4) }
    ensures answer { Joins start.rate start.at start.symbol start.ear h hold.old piece.now octet.old result
        hold.new octet.new }
{
    let n = h + piece.len();
    copy(piece, &mut hold[h..n]);
    let row = &hold[..n];
    if n == start.rate.octet_chips() {
        return start.hear_whole(row, octet);
    }
    start.hold_part(h, row)
}

// How many whole octets are heard straight from so many chips, behind m of n octets and h chips held.
fn whole_count(rate: Rate, m: usize, h: usize, n: usize, len: usize) -> usize
    requires { m < n }
    ensures answer { WholeCount rate m h n len result }
{
    if h != 0 {
        return 0;
    }
    (len / rate.octet_chips()).min(n - m)
}

// A piece of the chips left, behind `count` chips of the recording, of a part that starts at chip `from` with symbol
// `first` and has n octets.
pub fn take_piece(
    rate: Rate,
    from: usize,
    first: usize,
    n: usize,
    count: usize,
    ear: Ear,
    hold: &mut [u8],
    rest: &[u8],
    out: &mut [u8],
) -> Taking
    requires { (from ≤ count) × (count < from + octet_chips rate * n) × (n ≤ length out.old) × (n ≤ 4095)
        × (from ≤ 2112) × (first ≤ 192) × (length hold.old ≡ 88) × (ear.phase < 4) × (ear.last < 4) }
    ensures answer { Takes rate from first n count ear hold.old rest.now
        out.old result hold.new out.new }
{
    let chips = rate.octet_chips();
    let symbols = rate.octet_symbols();
    let behind = count - from;
    let m = behind / chips;
    let h = behind % chips;
    let at = from + chips * m;
    let symbol = first + symbols * m;
    let start = Start {
        rate,
        at,
        symbol,
        ear,
    };
    let w = whole_count(rate, m, h, n, rest.len());
    if w == 0 {
        let taken = rest.len().min(chips - h);
        let piece = join(start, h, hold, &rest[..taken], &mut out[m..m + 1]);
        return Taking { piece, taken };
    }
    let taken = chips * w;
    let piece = start.hear_whole(&rest[..taken], &mut out[m..m + w]);
    Taking { piece, taken }
}
