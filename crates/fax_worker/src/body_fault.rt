//! Faults of bodies, by the words that replies have for them.

ghost use Rattle.std.specs.Prelude.{◌≡◌};
ghost use Rattle.fax_worker.specs.Reading.{fault_stated, is_fault, is_kind, kind_named, fault_named};

use fax_job::{BodyFault, LineKind, OrderFault};

static LINE_KINDS: [LineKind; 7] = [
    LineKind::NotText,
    LineKind::NoColon,
    LineKind::BadTag,
    LineKind::Twice,
    LineKind::BadValue,
    LineKind::OpenEnd,
    LineKind::NoMemory,
];

/// The faults that are of no line.
static FAULTS: [BodyFault; 21] = [
    BodyFault::Order(OrderFault::NoNumber),
    BodyFault::Order(OrderFault::BadDial),
    BodyFault::Order(OrderFault::BadModem),
    BodyFault::Order(OrderFault::BadJobtag),
    BodyFault::Order(OrderFault::BadTts),
    BodyFault::Order(OrderFault::BadKilltime),
    BodyFault::Order(OrderFault::BadPriority),
    BodyFault::Order(OrderFault::NoPages),
    BodyFault::Order(OrderFault::BadPages),
    BodyFault::Order(OrderFault::BadMaxtries),
    BodyFault::Order(OrderFault::BadMaxdials),
    BodyFault::Order(OrderFault::NotAlterable),
    BodyFault::Order(OrderFault::BadNpages),
    BodyFault::Order(OrderFault::BadNtries),
    BodyFault::Order(OrderFault::BadTottries),
    BodyFault::Order(OrderFault::BadNdials),
    BodyFault::Order(OrderFault::BadTotdials),
    BodyFault::Order(OrderFault::BadState),
    BodyFault::Order(OrderFault::NoMemory),
    BodyFault::BadJson,
    BodyFault::BadField,
];

/// The fault of a body that a reply states by its kind, and by its line where it has one.
pub(crate) fn fault_stated(line: Option<u64>, kind: &str) -> Option<BodyFault>
    ensures { result ≡ fault_stated line kind.now }
{
    match line {
        Some(line) => Some(BodyFault::Line {
            line,
            kind: kind_named(kind)?,
        }),
        None => fault_named(kind),
    }
}

fn kind_named(word: &str) -> Option<LineKind>
    ensures { result ≡ kind_named word.now }
{
    LINE_KINDS.iter().copied().find(|kind| is_kind(*kind, word))
}

fn is_kind(kind: LineKind, word: &str) -> bool
    ensures { result ≡ is_kind word.now kind }
{
    kind.word() == word
}

fn fault_named(word: &str) -> Option<BodyFault>
    ensures { result ≡ fault_named word.now }
{
    FAULTS.iter().copied().find(|fault| is_fault(*fault, word))
}

fn is_fault(fault: BodyFault, word: &str) -> bool
    ensures { result ≡ is_fault word.now fault }
{
    fault.word() == word
}
