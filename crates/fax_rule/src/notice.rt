//! Notices of rejection.

ghost use Rattle.std.specs.Prelude.{◌≡◌};
ghost use Rattle.fax_rule.specs.Notice.{has_control};

use std::marker::Model;

/// What an administrator says to those whose number isn't served: 1 to 200 bytes without a control
/// character.
pub struct Notice {
    text: String,
}

// By hand, so that a proof lets it go in one step.
impl Drop for Notice {
    fn drop(self) {
        let Notice { text: _ } = self;
    }
}

impl Model for Notice {
    ghost use Rattle.std.specs.Prelude.{ℕ, List};
    ghost use Rattle.std.specs.String.{string_bytes};
    ghost use Rattle.fax_rule.specs.Notice.{IsNotice};

    ghost Value = { List ℕ };

    ghost view = { λ notice. string_bytes notice.text };

    ghost invariant = { λ notice. IsNotice (string_bytes notice.text) };
}

impl Notice {
    ghost use Rattle.std.specs.Prelude.{◌≡◌};
    ghost use Rattle.std.specs.String.{string_bytes};
    ghost use Rattle.fax_rule.specs.Notice.{IsNotice, is_notice};

    /// Whether a text is a notice: 1 to 200 bytes without a control character.
    pub fn is_notice(text: &str) -> bool
        ensures { result ≡ is_notice text.now }
    {
        !text.is_empty() && text.len() <= 200 && !has_control(text)
    }

    /// The notice of a text, which has to be one.
    pub fn new(text: String) -> Notice
        requires { IsNotice (string_bytes text) }
        ensures { result ≡ string_bytes text }
    {
        Notice { text }
    }

    pub fn as_str(&self) -> &str
        ensures text { result.now ≡ self.now }
        ensures formed { IsNotice self.now }
    {
        self.text.as_str()
    }
}

/// Whether a text has a character of Unicode's category Cc.
fn has_control(text: &str) -> bool
    ensures { result ≡ has_control text.now }
{
    text.chars().any(|c| c.is_control())
}
