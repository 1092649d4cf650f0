// Where each record stands; specs/Layout.antt lists the words. Numbers count from 1, so a base is one place (or row) below its region.
pub const STATE_WORDS: usize = 2048;

pub const N: usize = 0;

pub const TA: usize = 1;

pub const TS: usize = 2;

pub const OWN: usize = 3;

pub const SESSION: usize = 4;

pub const INPUT: usize = 5;

pub const WEIGHTS: usize = 141;

pub const BOXED: usize = 142;

pub const VERSION: usize = 143;

pub const TURNS: usize = 6;

pub const FLAGS: usize = 7;

pub const CLOSED_MARK: u64 = 1;

pub const SEND_SENT_MARK: u64 = 2;

pub const COMMIT_SENT_MARK: u64 = 3;

// A recorded bit 0 is marked so far above the coin itself.
pub const ZERO_MARKS: u64 = 32;

// One word for each vote or instance.
pub const COINS: usize = 7;

pub const ROUNDS: usize = 23;

pub const EST_SENT: usize = 39;

pub const AUX_SENT: usize = 55;

pub const SEND_VALUES: usize = 71;

pub const ECHO_MARKS: usize = 87;

pub const READY_MARKS: usize = 103;

pub const FINISH_MARKS: usize = 144;

pub const ONE_FIRST: usize = 160;
// One word for each sender.
pub const COMMIT_COUNTS: usize = 119;

// One mark for each instance or vote.
pub const ECHO_SENT: usize = 136;

pub const READY_SENT: usize = 137;

pub const DECIDED_ZERO: usize = 138;

pub const DECIDED_ONE: usize = 139;

pub const SEND_MARKS: usize = 140;

pub const FINISH_SENT: usize = 144;

// Rows of 16 words: for each instance by sender, for each sender by place.
pub const ECHO_VALUES: usize = 239;

pub const READY_VALUES: usize = 495;

pub const COMMIT_VALUES: usize = 751;
// Rows of 32 words: for each vote by round.
pub const VOTES: usize = 991;

// The groups of marks in such a word, 16 each: EST 0 and EST 1, then AUX 0 and AUX 1; FINISHes have two.
pub const GROUP: u64 = 16;

pub const AUX_ZERO: u64 = 32;

pub const AUX_ONE: u64 = 48;
