//! The session that an id names.

ghost use Rattle.std.specs.Prelude.{◌≡◌, IfSome, find, option_copied};
ghost use Rattle.mt_model.specs.texts.Contents.{contents_of};
ghost use Rattle.mt_asking.specs.Rows.{IsUnicast, is_named, row_of};

use mt_model::{Config, SessionRow};

/// The row of boot 1 with this id, which is as a session needs it.
pub(crate) fn row_of(session: u16, config: &Config) -> Option<&SessionRow>
    ensures found { option_copied result ≡ row_of session (contents_of config.now) }
    ensures unicast { IfSome result (λ row. IsUnicast row.now) }
{
    row_among(session, config.sessions.as_slice())
}

// The first row of boot 1 with this id.
fn row_among(session: u16, rows: &[SessionRow]) -> Option<&SessionRow>
    ensures { option_copied result ≡ find (is_named session) rows.now }
{
    rows.iter()
        .find(|row| row.boot == 1 && row.session == session)
}
