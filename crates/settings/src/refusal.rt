// The refusals, and the number of each.
ghost use Rattle.std.specs.Prelude.{◌≡◌};
ghost use Rattle.settings.specs.Refusals.{number_of};

#[derive(Clone, Copy, Debug, PartialEq, Eq)]
pub enum Refusal {
    // Settings, weights, own number or coins outside the rules, or not exactly n weights or coin words.
    Settings,
    // Under 12 bytes, or not 12 + 8·count.
    Length,
    // Version or kind unknown.
    Kind,
    // Another session number.
    Session,
    // Byte 2 is not the link's concentrator, or that is not 1 to n.
    Sender,
    // Byte 3 to 7 against the layout.
    Field,
    // EST or AUX above 1, or COMMIT not rising.
    Value,
    // A turn or a restore lent under 140 bytes for the message, an opening, delivery, turn or recording lent under 512 for its line, a
    // report lent under 16 words for either set.
    Short,
    // Wrong word count, or stored numbers that the rules refuse.
    NoState,
    // Delivery, turn or recording after closing.
    Closed,
    // That place already holds a message.
    Held,
    // Windows of a calendar, a closing minute or a lead outside the rules.
    Windows,
    // A record or line that cannot be converted.
    Record,
    // No complete opening line, or a complete line of the journal that cannot be applied.
    Journal,
    // A bit that cannot be recorded: the session is printed, there is no such vote or round, the bit is above 1 or against the one
    // there; a request that cannot be made: the words are no box, or there is no such requester, vote or round.
    Coin,
}

impl From<Refusal> for u64 {
    ghost from_gives = { λ r n. n ≡ number_of r };

    fn from(refusal: Refusal) -> u64 {
        match refusal {
            Refusal::Settings => 1,
            Refusal::Length => 2,
            Refusal::Kind => 3,
            Refusal::Session => 4,
            Refusal::Sender => 5,
            Refusal::Field => 6,
            Refusal::Value => 7,
            Refusal::Short => 8,
            Refusal::NoState => 9,
            Refusal::Closed => 10,
            Refusal::Held => 11,
            Refusal::Windows => 12,
            Refusal::Record => 13,
            Refusal::Journal => 15,
            Refusal::Coin => 16,
        }
    }
}
