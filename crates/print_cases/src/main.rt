// What a program in Rattle calls: a frame is written, read, asked what is coming, spoilt and read again; then readings
// that are refused. Nothing is proved of what a program writes but that it is safe and ends; what it writes is compared
// with the file stdout.
#![tactic(auto)]

use rules_calls::{Record, Written};
use rules_coming::Coming;
use std::io;

// Chips or octets, a space before each.
fn print_row(rt: &impl Print, row: &[u8]) -> io::Result<()> {
    for x in row {
        print!(rt; " {x}")?;
    }
    Ok(())
}

// A line: the case, the answer's number and place, and a row.
fn print_answer(
    rt: &impl Print,
    name: &str,
    number: u64,
    place: u64,
    row: &[u8],
) -> io::Result<()> {
    print!(rt; "{name} {number} at {place}:")?;
    print_row(rt, row)?;
    println!(rt; "")
}

// A hard recording of a short frame, read, and asked what is coming, of which the part with the payload's chips is
// printed.
fn read(rt: &impl Print, chips: &[u8], octets: &mut [u8]) -> io::Result<()> {
    let record: Record = read_frames::read_hard(1, chips, octets);
    print_answer(rt, "hard", record.number, record.place, octets)?;
    let told: Coming = small_calls::front::read_front(1, chips);
    let part = small_calls::front::part(told, chips);
    print_answer(rt, "coming", told.number, told.place, part)
}

// Readings that are refused: soft chips of which there are too few, and bytes of which there is one too many.
fn refused(rt: &impl Print, octets: &mut [u8]) -> io::Result<()> {
    let row = [1.0f32; 8];
    let soft: Record = read_frames::read_soft(1, &row, &row, octets);
    print_answer(rt, "soft", soft.number, soft.place, octets)?;
    let odd = [0i8; 3];
    let bytes: Record = read_frames::read_bytes(1, &odd, octets);
    print_answer(rt, "bytes", bytes.number, bytes.place, octets)
}

fn main(rt: HostRuntime) -> io::Result<()> {
    let payload = *b"ox";
    let mut chips = [0u8; 1076];
    let written: Written = write_frame::write(1, 110, 2, 1, &payload, &mut chips);
    print_answer(&rt, "written", written.number, 0, &payload)?;
    let mut octets = [99u8; 3];
    read(&rt, &chips, &mut octets)?;
    chips[1071] = 5;
    read(&rt, &chips, &mut octets)?;
    refused(&rt, &mut octets)
}
