//! The notifications of the protocols, and their kinds (WS-AtomicTransaction 1.2, section 3).

ghost use Rattle.std.specs.Prelude.{◌≡◌};
ghost use Rattle.at_base.specs.Names.{is_kind, kind_letter, kind_lettered, kind_name, kind_named, kind_place, notice_name, vote_name, vote_named};

/// Which of the two-phase commit protocols a participant registered for.
#[derive(Clone, Copy, Debug, PartialEq, Eq)]
pub enum Kind {
    /// Prepared first, and told the outcome without a promise (section 3.3.1).
    Volatile,
    /// Prepared after every volatile participant (section 3.3.2).
    Durable,
}

/// A notification of Completion or of two-phase commit (sections 3.2 and 3.3).
#[derive(Clone, Copy, Debug, PartialEq, Eq)]
pub enum Notice {
    Prepare,
    Commit,
    Rollback,
    Prepared,
    ReadOnly,
    Aborted,
    Committed,
}

/// What a participant answers to Prepare (WS-AtomicTransaction 1.2, section 3.3.3).
#[derive(Clone, Copy, Debug, PartialEq, Eq)]
pub enum Vote {
    Prepared,
    ReadOnly,
    Aborted,
}

/// The place of a kind in the order of the kinds.
fn kind_place(kind: Kind) -> u8
    ensures { result ≡ kind_place kind }
{
    match kind {
        Kind::Volatile => 0,
        Kind::Durable => 1,
    }
}

/// Whether two kinds are the same.
pub fn is_kind(kind: Kind, other: Kind) -> bool
    ensures { result ≡ is_kind kind other }
{
    kind_place(kind) == kind_place(other)
}

impl Kind {
    /// The letter of the kind in addresses and in schedules.
    pub fn letter(self) -> &'static str
        ensures { result.now ≡ kind_letter self }
    {
        match self {
            Kind::Durable => "d",
            Kind::Volatile => "v",
        }
    }

    /// The kind of this letter. None where no kind has it.
    pub fn lettered(word: &str) -> Option<Kind>
        ensures { result ≡ kind_lettered word.now }
    {
        match word {
            "d" => Some(Kind::Durable),
            "v" => Some(Kind::Volatile),
            _ => None,
        }
    }

    /// The name of the kind in messages.
    pub fn name(self) -> &'static str
        ensures { result.now ≡ kind_name self }
    {
        match self {
            Kind::Durable => "durable",
            Kind::Volatile => "volatile",
        }
    }

    /// The kind of this name. None where no kind has it.
    pub fn named(name: &str) -> Option<Kind>
        ensures { result ≡ kind_named name.now }
    {
        match name {
            "durable" => Some(Kind::Durable),
            "volatile" => Some(Kind::Volatile),
            _ => None,
        }
    }
}

impl Notice {
    /// The local name of the notification's element.
    pub fn name(self) -> &'static str
        ensures { result.now ≡ notice_name self }
    {
        match self {
            Notice::Prepare => "Prepare",
            Notice::Commit => "Commit",
            Notice::Rollback => "Rollback",
            Notice::Prepared => "Prepared",
            Notice::ReadOnly => "ReadOnly",
            Notice::Aborted => "Aborted",
            Notice::Committed => "Committed",
        }
    }
}

impl Vote {
    /// The name of the vote in messages and schedules.
    pub fn name(self) -> &'static str
        ensures { result.now ≡ vote_name self }
    {
        match self {
            Vote::Prepared => "prepared",
            Vote::ReadOnly => "readonly",
            Vote::Aborted => "aborted",
        }
    }

    /// The vote of this name. None where no vote has it.
    pub fn named(name: &str) -> Option<Vote>
        ensures { result ≡ vote_named name.now }
    {
        match name {
            "prepared" => Some(Vote::Prepared),
            "readonly" => Some(Vote::ReadOnly),
            "aborted" => Some(Vote::Aborted),
            _ => None,
        }
    }
}
