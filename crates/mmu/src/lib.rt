// The MMU rows (01, "MMU rows"; 000, Table 16-2) of internal boot, and of serial boot entered directly or from internal: those of a choice,
// and those of a session.
#![tactic(auto)]

ghost use Rattle.std.specs.Prelude.{◌≡◌};
ghost use Rattle.mmu.specs.Rows.{table_row, internal_rows, refusal_number, has_external_rows, mapping_for, choice_rows, session_rows};

use boot::Mode;
use session_configuration::Entered;
use session_state::Session;

// One MMU entry: base addresses, size in bytes, and attributes.
#[derive(Clone, Copy)]
pub struct Row {
    pub logical: u32,
    pub physical: u32,
    pub size: u32,
    pub inhibited: bool,
    pub guarded: bool,
    pub bigendian: bool,
    pub global: bool,
    pub vle: bool,
}

// Why there are no rows.
#[derive(Clone, Copy)]
pub enum NoRows {
    UnsoundSession,
    ExternalBoot,
}

// The number of a refusal.
impl From<NoRows> for u8 {
    ghost from_gives = { λ reason number. number ≡ refusal_number reason };

    fn from(reason: NoRows) -> u8 {
        match reason {
            NoRows::UnsoundSession => 8,
            NoRows::ExternalBoot => 11,
        }
    }
}

// A row of the table, whose attributes are all big endian and global PID.
fn row_of(logical: u32, physical: u32, size: u32, inhibited: bool, guarded: bool, vle: bool) -> Row
    ensures { result ≡ table_row logical physical size inhibited guarded vle }
{
    Row {
        logical,
        physical,
        size,
        inhibited,
        guarded,
        bigendian: true,
        global: true,
        vle,
    }
}

// Entries 0 to 4 of internal boot.
#[tactic(auto, unfolding(crate::specs::Rows::internal_rows))]
fn internal_rows(vle: bool) -> [Row; 5]
    ensures { result ≡ internal_rows vle }
{
    let b = row_of(0xFFF0_0000, 0xFFF0_0000, 0x10_0000, true, true, false);
    let flash = row_of(0x0000_0000, 0x0000_0000, 0x100_0000, false, false, vle);
    let ebi = row_of(0x2000_0000, 0x0000_0000, 0x100_0000, false, false, vle);
    let sram = row_of(0x4000_0000, 0x4000_0000, 0x4_0000, true, false, vle);
    let a = row_of(0xC3F0_0000, 0xC3F0_0000, 0x10_0000, true, false, false);
    [b, flash, ebi, sram, a]
}

// Whether a boot has the rows of external boot.
fn is_external(mode: Mode) -> bool
    ensures { result ≡ has_external_rows mode }
{
    matches!(mode, Mode::External | Mode::Serial(Entered::FromExternal))
}

// The rows of a boot, with VLE as it is.
#[tactic(auto, unfolding(crate::specs::Rows::mapping_for))]
fn rows_for(mode: Mode, vle: bool) -> Result<[Row; 5], NoRows>
    ensures { result ≡ mapping_for mode vle }
{
    if is_external(mode) {
        return Err(NoRows::ExternalBoot);
    }
    Ok(internal_rows(vle))
}

// The rows of a choice: no header was accepted.
pub fn choice_rows(mode: Mode) -> Result<[Row; 5], NoRows>
    ensures { result ≡ choice_rows mode }
{
    rows_for(mode, false)
}

// The rows of a session.
#[tactic(auto, unfolding(crate::specs::Rows::session_rows))]
pub fn session_rows(session: Session) -> Result<[Row; 5], NoRows>
    ensures { result ≡ session_rows session }
{
    if !session_state::is_sound(session) {
        return Err(NoRows::UnsoundSession);
    }
    let mode = Mode::Serial(session.configuration.entered);
    rows_for(mode, session_state::accepted_vle(session.stage))
}
