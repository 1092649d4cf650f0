// The theorems of the message bytes; their statements are in specs/.
#![tactic(auto)]

ghost use Rattle.wire_laws.specs.RoundTrip.{RoundTrip, OnlyEncodings};

// What is written is read back, message and values.
pub fn round_trip()
    ensures { RoundTrip }
{}

// What is taken is a message's own bytes.
pub fn only_encodings()
    ensures { OnlyEncodings }
{}
