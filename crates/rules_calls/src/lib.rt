// The calls and their numbers: the refusals, and what writing and reading answer. Types only.
#![tactic(auto)]

use rules_frame::Kind;
use rules_rates::Rate;

// Every refusal of writing and reading, in the order of its number, 1 to 17. A place is a chip's index from the
// recording's start; a length is the LENGTH field, 0 where it is not to be told.
#[derive(Clone, Copy)]
pub enum Refusal {
    // promise: the kind is neither 0 (long) nor 1 (short)
    // rule: 6.4 (1), 5.4, 6.14
    // code: is_kind, rules_frame::try_from
    // with: is_kind
    NoKind,
    // promise: the rate code is not one of the four
    // rule: 6.4 (2), 5.8
    // code: is_code, rules_rates::try_from
    // with: is_code
    NoRate,
    // promise: rate code 10 with the short kind
    // rule: 6.4 (3), 5.8
    // code: goes_with
    // with: goes_with
    ShortRate,
    // promise: the payload is 0 octets or above 4,095
    // rule: 6.4 (4)
    // code: is_payload
    // with: is_payload
    PayloadSize,
    // promise: the starting phase is above 3
    // rule: 6.4 (5), 6.1
    // code: check_write
    // with: writing_of
    NoPhase,
    // promise: the chip buffer is shorter than the frame
    // rule: 6.4 (6), 5.2, 6.1
    // code: check_write, frame_chips
    // with: frame_chips
    ChipRoom,
    // promise: I and Q rows differ in length, or the number of bytes is odd; of a list, there are not as many kinds as
    // recordings
    // rule: 6.4 (7)
    // code: read_soft, read_bytes, of_list
    // with: reading_of, list_of
    RowsDiffer,
    // promise: the recording is shorter than the front
    // rule: 6.4 (8)
    // code: look_at_front
    // with: front_by
    ShorterThanFront,
    // promise: a chip of the part is unusable; place: the first such chip. A byte recording has none
    // rule: 6.4 (9), 2.3, 2.4, 6.3
    // code: first_unusable
    // with: first_unusable
    Unusable { place: usize, length: usize },
    // promise: a 1 Mbit/s symbol of the part, the recording's first excepted, has grown by 1 or 3; place: the first
    // chip of the first such symbol
    // rule: 6.4 (10), 6.3, 6.6
    // code: hear_blocks::first_odd, small_calls::first_odd
    // with: first_odd, odd_growth
    OddGrowth { place: usize, length: usize },
    // promise: the unscrambled SFD differs; SYNC is not compared
    // rule: 6.4 (11), 6.5
    // code: common_header::header_of
    // with: header_of, sfd_of
    Sfd,
    // promise: the CRC differs
    // rule: 6.4 (12), 5.13
    // code: common_header::header_of, crc_octets
    // with: crc_bits
    Crc,
    // promise: SIGNAL is not a rate of this kind; of a guide of 1997, it is neither 10 nor 20
    // rule: 6.4 (13), 5.8, 6.30
    // code: fields_of, signal_accepted, signal_allowed
    // with: fields_of
    Signal { length: usize },
    // promise: at 11 Mbit/s SERVICE is none of 0, 4, 128 and 132; at the other rates it is neither 0 nor 4; of a guide
    // of 1997, it is not 0
    // rule: 6.4 (14), 5.9, 5.14, 6.30
    // code: service_allowed, service_accepted
    // with: service_allowed
    Service { length: usize },
    // promise: n is outside 1 to 4,095, or the writer's LENGTH and bit 7 for n differ from those read
    // rule: 6.4 (15), 5.10 to 5.12
    // code: octets_told
    // with: length_holds
    Length { length: usize },
    // promise: the recording ends inside the payload
    // rule: 6.4 (16), 6.7
    // code: read_whole
    // with: rules_reading/whole_of
    Ends { length: usize },
    // promise: the octet buffer is shorter than n; of a report's text, than the text
    // rule: 6.4 (17)
    // code: read_payload, report_text::text
    // with: payload_reading, spelled_of
    OctetRoom { length: usize },
}

// A frame that a write is not refused for: its kind, its rate, and how many chips it is.
#[derive(Clone, Copy)]
pub struct Frame {
    pub kind: Kind,
    pub rate: Rate,
    pub chips: usize,
}

// What a good header tells: the rate, LENGTH, the payload's octets, and whether the clock bit is set.
#[derive(Clone, Copy)]
pub struct Told {
    pub rate: Rate,
    pub length: usize,
    pub n: usize,
    pub clock: bool,
}

// Who reads, and so which headers are accepted: our own readers, or the guides of 1997.
#[derive(Clone, Copy)]
pub enum Reader {
    Ours,
    Of1997,
}

// The smallest lead of symbols, in counts, and the number of the first symbol that has it.
#[derive(Clone, Copy)]
pub struct Least {
    pub lead: usize,
    pub symbol: usize,
}

// What a recording that is not refused comes to: what its header tells, the chips of the whole frame, and the smallest
// lead in it.
#[derive(Clone, Copy)]
pub struct Reading {
    pub told: Told,
    pub used: usize,
    pub least: Least,
}

// The writer's answer.
#[repr(C)]
#[derive(Clone, Copy)]
pub struct Written {
    pub number: u64,
    pub chips: u64,
}

// The readers' answer.
#[repr(C)]
#[derive(Clone, Copy)]
pub struct Record {
    pub number: u64,
    pub place: u64,
    pub rate: u64,
    pub length: u64,
    pub n: u64,
    pub used: u64,
    pub clock: u64,
    pub lead: u64,
    pub symbol: u64,
}
