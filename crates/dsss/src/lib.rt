// The board's C interface: each call is one of the proved functions below it, exported. include/dsss.h declares
// them for C, by their names without a number: a symbol keeps its parameters and its record for ever. A contract
// names the answer, and the lent buffer at the end where there is one, in one record: `answer` and `chips`, or `answer`
// and `octets`; where four rows are lent, each has a member of its own.
#![tactic(auto)]

ghost use Rattle.std.specs.Prelude.{map, length};
ghost use Rattle.promises.specs.Calls.{Wrote, ReadHard, ReadSoft, ReadBytes, ReadFront, Finds};
ghost use Rattle.promises_report.specs.Calls.{Adds, Lists, Spells};
ghost use Rattle.promises_store.specs.Calls.{StoreWrites, StoreReads, StoreChanges};
ghost use Rattle.promises_why.specs.Calls.{Explains};
ghost use Rattle.promises_compare.specs.Calls.{Compares};
ghost use Rattle.promises_1997.specs.Calls.{Read1997};
ghost use Rattle.rules_receiving.specs.Calls.{ReceiverOpens, ReceiverFeeds, ReceiverCloses};

use rules_calls::{Record, Written};
use rules_coming::Coming;
use rules_compare::Compared;
use rules_finding::Found;
use rules_receiving::{Closed, Ear, Fed, Progress, Receiver};
use rules_report::{Counted, Report, Spelled};
use rules_store::Settings;
use rules_why::Reason;

// A payload to the chips of its frame; 4s after the frame, or everywhere after a refusal.
#[unsafe(no_mangle)]
pub extern "C" fn dsss_write_2(
    kind: u64,
    rate: u64,
    phase: u64,
    clock: u64,
    payload: &[u8],
    chips: &mut [u8],
) -> Written
    ensures wrote { Wrote kind rate phase clock payload.now (length chips.old)
        result chips.new }
{
    write_frame::write(kind, rate, phase, clock, payload, chips)
}

// A hard recording to its payload; zeros after the payload, or everywhere after a refusal.
#[unsafe(no_mangle)]
pub extern "C" fn dsss_read_hard_3(kind: u64, chips: &[u8], octets: &mut [u8]) -> Record
    ensures read { ReadHard kind chips.now (length octets.old)
        result octets.new }
{
    read_frames::read_hard(kind, chips, octets)
}

// A soft recording, rows I and Q, to its payload; zeros as above.
#[unsafe(no_mangle)]
pub extern "C" fn dsss_read_soft_3(kind: u64, i: &[f32], q: &[f32], octets: &mut [u8]) -> Record
    ensures read { ReadSoft kind i.now q.now (length octets.old)
        result octets.new }
{
    read_frames::read_soft(kind, i, q, octets)
}

// A byte recording, I and Q in turn, to its payload; zeros as above.
#[unsafe(no_mangle)]
pub extern "C" fn dsss_read_bytes_3(kind: u64, bytes: &[i8], octets: &mut [u8]) -> Record
    ensures read { ReadBytes kind bytes.now (length octets.old)
        result octets.new }
{
    read_frames::read_bytes(kind, bytes, octets)
}

// A hard recording as a guide of 1997 reads it, to its payload; zeros as above.
#[unsafe(no_mangle)]
pub extern "C" fn dsss_read_1997(chips: &[u8], octets: &mut [u8]) -> Record
    ensures read { Read1997 chips.now (length octets.old)
        result octets.new }
{
    read_frames::read_1997(chips, octets)
}

// What is coming, from the front of a hard recording: what its header tells, the whole frame's chips, and where in the
// recording the payload's are. No buffer is lent.
#[unsafe(no_mangle)]
pub extern "C" fn dsss_read_front(kind: u64, chips: &[u8]) -> Coming
    ensures read { ReadFront kind chips.now result }
{
    small_calls::front::read_front(kind, chips)
}

// The smallest of so many offsets from which a read of a hard recording meets none of 8 to 15, and what the front there
// tells. No buffer is lent.
#[unsafe(no_mangle)]
pub extern "C" fn dsss_find(kind: u64, chips: &[u8], offsets: u64) -> Found
    ensures found { Finds kind offsets chips.now result }
{
    find_start::find(kind, chips, offsets)
}

// A hard recording more, read and counted in a report, which comes back by value. No buffer is lent.
#[unsafe(no_mangle)]
pub extern "C" fn dsss_report_add(report: Report, kind: u64, chips: &[u8]) -> Counted
    ensures counted { Adds report kind chips.now result }
{
    report_count::add(report, kind, chips)
}

// A whole list of hard recordings, each with its kind, counted from nothing. No buffer is lent.
#[unsafe(no_mangle)]
pub extern "C" fn dsss_report_list(kinds: &[u64], list: &[&[u8]]) -> Counted
    ensures counted { Lists kinds.now (map (λ r. r.now) list.now) result }
{
    report_count::of_list(kinds, list)
}

// A report's text; zeros after the text, or everywhere after a refusal.
#[unsafe(no_mangle)]
pub extern "C" fn dsss_report_text(report: Report, text: &mut [u8]) -> Spelled
    ensures spelled { Spells report (length text.old) result text.new }
{
    report_text::text(report, text)
}

// Why a read of a hard recording, with room for so many octets, is refused. No buffer is lent.
#[unsafe(no_mangle)]
pub extern "C" fn dsss_why(kind: u64, chips: &[u8], room: u64) -> Reason
    ensures why { Explains kind chips.now room result }
{
    small_calls::why::why(kind, chips, room)
}

// Two hard recordings of one kind, both read and compared: the chips that differ and the octets that differ, each list
// in a row of its own, with zeros behind it; a list that does not fit leaves only zeros.
#[unsafe(no_mangle)]
pub extern "C" fn dsss_compare(
    kind: u64,
    a: &[u8],
    b: &[u8],
    chip_row: &mut [u64],
    octet_row: &mut [u64],
    octets_a: &mut [u8],
    octets_b: &mut [u8],
) -> Compared
    ensures compared { Compares kind a.now b.now
        (length chip_row.old) (length octet_row.old)
        (length octets_a.old) (length octets_b.old)
        result chip_row.new octet_row.new octets_a.new octets_b.new }
{
    small_calls::compare::compare(kind, a, b, chip_row, octet_row, octets_a, octets_b)
}

// A store with the three settings, 17 octets, and zeros behind it; zeros everywhere after a refusal.
#[unsafe(no_mangle)]
pub extern "C" fn dsss_store_write(kind: u64, rate: u64, phase: u64, store: &mut [u8]) -> u64
    ensures written { StoreWrites kind rate phase (length store.old) result store.new }
{
    store_keep::write(kind, rate, phase, store)
}

// A store's three settings. The octets lent are the store, all of them; no buffer is lent for writing.
#[unsafe(no_mangle)]
pub extern "C" fn dsss_store_read(store: &[u8]) -> Settings
    ensures read { StoreReads store.now result }
{
    store_keep::read(store)
}

// One setting of a store changed, in its place; after a refusal the store is as it was.
#[unsafe(no_mangle)]
pub extern "C" fn dsss_store_change(store: &mut [u8], tag: u64, value: u64) -> u64
    ensures changed { StoreChanges store.old tag value result store.new }
{
    store_keep::change(store, tag, value)
}

// A receiver opened: whatever it was, it has been fed nothing, and the buffer is zeros.
#[unsafe(no_mangle)]
pub extern "C" fn dsss_open(receiver: &mut Receiver, kind: u64, octets: &mut [u8]) -> u64
    ensures { ReceiverOpens kind octets.old receiver.new result octets.new }
{
    let f = receive_calls::open_in(*receiver, kind, octets);
    *receiver = f.receiver;
    f.answer
}

// A batch of hard chips behind all that was fed; the buffer holds the octets whose chips have all come, then zeros.
#[unsafe(no_mangle)]
pub extern "C" fn dsss_feed(receiver: &mut Receiver, octets: &mut [u8], chips: &[u8]) -> u64
    ensures { ReceiverFeeds receiver.old octets.old chips.now
        receiver.new result octets.new }
{
    let f = receive_calls::feed_in(*receiver, octets, chips);
    *receiver = f.receiver;
    f.answer
}

// A receiver closed: the record of a hard read of all that was fed, and the buffer that it leaves.
#[unsafe(no_mangle)]
pub extern "C" fn dsss_close(receiver: &mut Receiver, octets: &mut [u8]) -> Record
    ensures { ReceiverCloses receiver.old octets.old receiver.new result
        octets.new }
{
    let f = receive_calls::close_in(*receiver, octets);
    *receiver = f.receiver;
    f.answer
}
