//! The names of a reply's texts, as members of its JSON object.
ghost use Rattle.std.specs.Prelude.{◌≡◌, map};
ghost use Rattle.agent_http.specs.Members as spec;

use agent_events::Reply;

/// The name of a member, and the place of its text among those of the reply, from that of the reply's own name on.
pub(crate) type Member = (&'static str, usize);

static ORDER: [Member; 5] = [
    ("account", 1),
    ("due", 4),
    ("receipt", 3),
    ("ref", 2),
    ("reply", 0),
];

static CANCEL: [Member; 4] = [("account", 1), ("ref", 2), ("reply", 0), ("target", 3)];

static NUMBER: [Member; 2] = [("number", 1), ("reply", 0)];

static CLOSE: [Member; 3] = [("calendar", 1), ("date", 2), ("reply", 0)];

static DIVIDEND: [Member; 3] = [("class", 1), ("moment", 2), ("reply", 0)];

static FIX: [Member; 3] = [("fix", 1), ("gains", 2), ("reply", 0)];

static SHOW: [Member; 3] = [("account", 1), ("positions", 2), ("reply", 0)];

static TRACE: [Member; 11] = [
    ("account", 1),
    ("cash", 8),
    ("charge", 9),
    ("due", 5),
    ("loose", 10),
    ("price", 6),
    ("receipt", 4),
    ("ref", 2),
    ("reply", 0),
    ("shares", 7),
    ("state", 3),
];

static STATEMENT: [Member; 3] = [("account", 1), ("reply", 0), ("text", 2)];

static BOOKS: [Member; 6] = [
    ("agent", 3),
    ("classes", 1),
    ("dealers", 4),
    ("holders", 5),
    ("reply", 0),
    ("underwriter", 2),
];

static REFUSED: [Member; 4] = [("code", 1), ("reply", 0), ("second", 3), ("value", 2)];

/// The members of a reply's object in the order of the bytes of their names.
pub(crate) fn members_of(reply: &Reply) -> &'static [Member]
    ensures { map (λ member. (member.0.now, member.1)) result.now ≡ spec.members_of reply.now }
{
    match reply {
        Reply::Order(_) => &ORDER,
        Reply::Cancel(_) => &CANCEL,
        Reply::Calendar(_) => &NUMBER,
        Reply::Class(_) => &NUMBER,
        Reply::Dealer(_) => &NUMBER,
        Reply::Household(_) => &NUMBER,
        Reply::Account(_) => &NUMBER,
        Reply::Close(_) => &CLOSE,
        Reply::Dividend { .. } => &DIVIDEND,
        Reply::Sheet(_) => &NUMBER,
        Reply::Fix { .. } => &FIX,
        Reply::Show { .. } => &SHOW,
        Reply::Trace(_) => &TRACE,
        Reply::Statement { .. } => &STATEMENT,
        Reply::Books(_) => &BOOKS,
        Reply::Refused(_) => &REFUSED,
    }
}
