// Two hard recordings of one kind compared: both are read, each into a buffer of its own, and then the chips are
// compared, whatever came of that, and the payloads where both were accepted.
ghost use Rattle.std.specs.Prelude.{◌≡◌, true, cond, ◌&&◌, ◌≤◌, eqb, length, take};
ghost use Rattle.rules_chips.specs.Chips.{hard_recording};
ghost use Rattle.rules_reading.specs.Reading.{octets_found};
ghost use Rattle.rules_compare.specs.Differences.{differences, laid};
ghost use Rattle.rules_compare.specs.Compared.{octet_list, compared_of};

use rules_calls::Record;
use rules_compare::Compared;

// n if two records have number 0, else 0.
fn if_both(one: u64, other: u64, n: u64) -> u64
    ensures answer { result ≡ cond (eqb one 0 && eqb other 0) n 0 }
{
    if one == 0 && other == 0 { n } else { 0 }
}

// Lists where the first n octets of one buffer and the first m of another differ; answers how many do.
fn list_payloads(first: &[u8], n: usize, second: &[u8], m: usize, row: &mut [u64]) -> u64
    requires { (n ≤ length first.now) × (m ≤ length second.now) }
    ensures answer { result ≡ length (differences (take n first.now) (take m second.now)) }
    ensures row { row.new ≡ laid (length row.old)
        (differences (take n first.now) (take m second.now)) }
{
    compare_rows::list(&first[..n], &second[..m], row)
}

// Both records, the two lists, and both payloads. Where one recording is refused, the payloads are compared as empty.
pub fn compare(
    kind: u64,
    a: &[u8],
    b: &[u8],
    chips: &mut [u64],
    octets: &mut [u64],
    first: &mut [u8],
    second: &mut [u8],
) -> Compared
    ensures answer { result ≡ compared_of kind a.now b.now
        (length first.old) (length second.old) }
    ensures chips { chips.new
        ≡ laid (length chips.old) (differences a.now b.now) }
    ensures octets { octets.new
        ≡ laid (length octets.old) (octet_list kind a.now b.now
        (length first.old) (length second.old)) }
    ensures first { first.new
        ≡ octets_found kind true (hard_recording a.now) (length first.old) }
    ensures second { second.new
        ≡ octets_found kind true (hard_recording b.now) (length second.old) }
{
    let read_a = read_frames::read_hard(kind, a, first);
    let read_b = read_frames::read_hard(kind, b, second);
    let n_a = if_both(read_a.number, read_b.number, read_a.n);
    let n_b = if_both(read_a.number, read_b.number, read_b.n);
    let chips_differ = compare_rows::list(a, b, chips);
    let octets_differ = list_payloads(first, n_a as usize, second, n_b as usize, octets);
    Compared {
        a: read_a,
        b: read_b,
        chips: chips_differ,
        octets: octets_differ,
        n_a,
        n_b,
    }
}
