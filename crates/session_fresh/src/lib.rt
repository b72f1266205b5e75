// Where a session comes from: a serial choice (01, "The words of demand 3"), or a reset in a capture.
#![tactic(auto)]

ghost use Rattle.std.specs.Prelude.{◌≡◌, ◌⊎◌};
ghost use Rattle.session_fresh.specs.Fresh.{fresh_session, configured, reset_session, no_session, fresh_in};

use boot::Mode;
use session_configuration::{Configuration, Entered};
use session_state::{Session, Stage};

// The fresh session of serial boot, with the password selected and how it was entered.
fn fresh_serial(password: [u8; 8], entered: Entered) -> Session
    ensures { result ≡ fresh_session (configured password entered) }
{
    Session {
        configuration: Configuration { password, entered },
        stage: Stage::Waiting,
        held: [0; 8],
        count: 0,
    }
}

// The session that a reset gives, and with which a capture begins.
pub fn reset_session() -> Session
    ensures { result ≡ reset_session }
{
    fresh_serial(boot_table::PUBLIC, Entered::Directly)
}

// The session that a choice gives, by how the head boots and the password selected: only serial boot gives one.
pub fn fresh_in(mode: Mode, password: [u8; 8]) -> Option<Session>
    ensures session { result ≡ fresh_in mode password }
    ensures otherwise { (mode ≡ Mode.Internal) ⊎ (mode ≡ Mode.External) → result ≡ no_session }
{
    match mode {
        Mode::Internal | Mode::External => None,
        Mode::Serial(entered) => Some(fresh_serial(password, entered)),
    }
}
