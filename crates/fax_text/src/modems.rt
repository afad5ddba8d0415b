//! The modems, a line each.

ghost use Rattle.std.specs.Prelude.{◌≡◌, ◌++◌, OnOk};
ghost use Rattle.fax_text.specs.Modems.{call_word, held_shown, held_words, modem_line, standing_word};

use fax_job::Call;
use itoa::Buffer;
use std::alloc::AllocError;

/// Whether a modem takes jobs.
#[derive(Clone, Copy, Debug, PartialEq, Eq)]
pub enum Standing {
    Up,
    /// It is marked as down.
    Down,
    /// It isn't in the setup.
    Gone,
}

/// What is shown of the open grant of a modem.
#[derive(Clone, Copy)]
pub struct HeldGrant<'a> {
    pub grant: u32,
    pub job: u32,
    /// The number to dial, in its canonical form.
    pub dial: &'a str,
    /// The first page of the grant; pages count from 1.
    pub first_page: u16,
    /// The last page of the grant.
    pub last_page: u16,
    /// The result of its call, if that is reported.
    pub call: Option<Call>,
    /// How many of its pages are confirmed.
    pub confirmed: u16,
}

/// Adds the line of a modem: its name, `:`, whether it takes jobs, what it holds, and LF.
///
/// # Errors
///
/// Out of memory.
pub fn push_modem(
    text: &mut Vec<u8>,
    name: &str,
    standing: Standing,
    held: Option<HeldGrant<'_>>,
) -> Result<(), AllocError>
    ensures { OnOk result (text.new.items ≡ text.old.items ++ modem_line name.now standing (held_shown held.entry)) }
{
    push_pair(text, name, ":")?;
    push_pair(text, standing_word(standing), "")?;
    if let Some(held) = held {
        push_held(text, &held)?;
    }
    text.push(b'\n')?;
    Ok(())
}

fn push_held(text: &mut Vec<u8>, held: &HeldGrant<'_>) -> Result<(), AllocError>
    ensures { OnOk result (text.new.items ≡ text.old.items ++ held_words held.now) }
{
    push_pair(text, " grant ", Buffer::new().format(held.grant))?;
    push_pair(text, " job ", Buffer::new().format(held.job))?;
    push_pair(text, " number ", held.dial)?;
    push_pair(text, " pages ", Buffer::new().format(held.first_page))?;
    push_pair(text, "-", Buffer::new().format(held.last_page))?;
    push_pair(text, " call ", call_word(held.call))?;
    push_pair(text, " confirmed ", Buffer::new().format(held.confirmed))?;
    Ok(())
}

/// Adds two texts.
fn push_pair(text: &mut Vec<u8>, first: &str, second: &str) -> Result<(), AllocError>
    ensures { OnOk result (text.new.items ≡ text.old.items ++ (first.now ++ second.now)) }
{
    text.extend_from_slice(first.as_bytes())?;
    text.extend_from_slice(second.as_bytes())?;
    Ok(())
}

fn standing_word(standing: Standing) -> &'static str
    ensures { result.now ≡ standing_word standing }
{
    match standing {
        Standing::Up => "up",
        Standing::Down => "down",
        Standing::Gone => "gone",
    }
}

fn call_word(call: Option<Call>) -> &'static str
    ensures { result.now ≡ call_word call }
{
    match call {
        None => "none",
        Some(Call::Connected) => "connected",
        Some(Call::Busy) => "busy",
        Some(Call::NoAnswer) => "no-answer",
        Some(Call::NoCarrier) => "no-carrier",
        Some(Call::Other) => "other",
    }
}
