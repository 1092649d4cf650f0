// The kinds of messages, and the number of each: byte 1.
ghost use Rattle.std.specs.Prelude.{◌≡◌};
ghost use Rattle.wire.specs.Kinds.{byte_of, Decodes};
ghost use Rattle.wire.specs.Message.{kind_of, instance_of, round_of, count_of};

use crate::Message;

#[derive(Clone, Copy, Debug, PartialEq, Eq)]
pub enum Kind {
    Send,
    Echo,
    Ready,
    Est,
    Aux,
    Commit,
    Finish,
}

// A number that no kind has.
#[derive(Clone, Copy, Debug, PartialEq, Eq)]
pub struct UnknownKind(pub u8);

impl TryFrom<u8> for Kind {
    type Error = UnknownKind;

    ghost try_from_gives = { Decodes };

    fn try_from(number: u8) -> Result<Self, UnknownKind> {
        match number {
            1 => Ok(Kind::Send),
            2 => Ok(Kind::Echo),
            3 => Ok(Kind::Ready),
            4 => Ok(Kind::Est),
            5 => Ok(Kind::Aux),
            6 => Ok(Kind::Commit),
            7 => Ok(Kind::Finish),
            _ => Err(UnknownKind(number)),
        }
    }
}

impl From<Kind> for u8 {
    ghost from_gives = { λ kind n. n ≡ byte_of kind };

    fn from(kind: Kind) -> u8 {
        match kind {
            Kind::Send => 1,
            Kind::Echo => 2,
            Kind::Ready => 3,
            Kind::Est => 4,
            Kind::Aux => 5,
            Kind::Commit => 6,
            Kind::Finish => 7,
        }
    }
}

// Bytes 1 and 3 to 5 of a message.
impl Message {
    // The kind.
    pub fn kind(self) -> Kind
        ensures { byte_of result ≡ kind_of self }
    {
        match self {
            Message::Send { .. } => Kind::Send,
            Message::Echo { .. } => Kind::Echo,
            Message::Ready { .. } => Kind::Ready,
            Message::Est { .. } => Kind::Est,
            Message::Aux { .. } => Kind::Aux,
            Message::Commit { .. } => Kind::Commit,
            Message::Finish { .. } => Kind::Finish,
        }
    }

    // The instance; 0 for a COMMIT, which has none.
    pub(crate) fn instance(self) -> u8
        ensures { result ≡ instance_of self }
    {
        match self {
            Message::Send { instance, .. }
            | Message::Echo { instance, .. }
            | Message::Ready { instance, .. }
            | Message::Est { instance, .. }
            | Message::Aux { instance, .. }
            | Message::Finish { instance, .. } => instance,
            Message::Commit { .. } => 0,
        }
    }

    // The round; 0 for the kinds that have none.
    pub(crate) fn round(self) -> u8
        ensures { result ≡ round_of self }
    {
        match self {
            Message::Est { round, .. } | Message::Aux { round, .. } => round,
            _ => 0,
        }
    }

    // The number of values.
    pub(crate) fn count(self) -> u8
        ensures { result ≡ count_of self }
    {
        match self {
            Message::Commit { count } => count,
            _ => 1,
        }
    }
}
