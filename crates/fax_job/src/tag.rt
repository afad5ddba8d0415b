//! The tags of key lines.

ghost use Rattle.std.specs.Prelude.{◌≡◌};
ghost use Rattle.std.specs.List.{list_all, list_any};
ghost use Rattle.std.specs.Str.{bytes_eq};
ghost use Rattle.fax_job.specs.Tag.{is_tag_byte, is_tag, is_known};

/// The tags that a job description knows, in the order in which a job is written.
pub(crate) static KNOWN_TAGS: [&str; 17] = [
    "jobid", "number", "modem", "jobtag", "tts", "killtime", "priority", "npages", "totpages",
    "ntries", "tottries", "maxtries", "ndials", "totdials", "maxdials", "state", "status",
];

/// Whether a tag is one of the seventeen known ones.
pub fn is_known(tag: &str) -> bool
    ensures { result ≡ is_known tag.now }
{
    is_among(&KNOWN_TAGS, tag)
}

/// Whether a tag is one of some.
pub(crate) fn is_among(tags: &[&str], tag: &str) -> bool
    ensures { result ≡ list_any (λ known. bytes_eq known.now tag.now) tags.now }
{
    tags.iter().any(|known| *known == tag)
}

/// Whether a text is a tag: 1 to 64 bytes of 33 to 126 without `:`.
pub fn is_tag(text: &[u8]) -> bool
    ensures { result ≡ is_tag text.now }
{
    !text.is_empty() && text.len() <= 64 && is_of_tag_bytes(text)
}

fn is_of_tag_bytes(text: &[u8]) -> bool
    ensures { result ≡ list_all is_tag_byte text.now }
{
    text.iter().all(|byte| is_tag_byte(*byte))
}

fn is_tag_byte(byte: u8) -> bool
    ensures { result ≡ is_tag_byte byte }
{
    33 <= byte && byte <= 126 && byte != b':'
}
