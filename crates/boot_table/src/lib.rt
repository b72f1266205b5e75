// The table of what BOOTCFG and the control that matters fix (01, "Choosing how to boot"; 000, Table 16-3).
#![tactic(auto)]

ghost use Rattle.std.specs.Prelude.{◌≡◌};
ghost use Rattle.boot_table.specs.Table.{asked_by, control_55aa, row_of, row_for};

// What BOOTCFG asks for.
#[derive(Clone, Copy)]
pub enum Asked {
    Internal,
    Serial,
    External,
}

// What a row of the boot table fixes: whether flash and Nexus are on, and the password selected.
#[derive(Clone, Copy)]
pub struct Row {
    pub flash: bool,
    pub nexus: bool,
    pub password: [u8; 8],
}

// The public password.
pub const PUBLIC: [u8; 8] = [0xFE, 0xED, 0xFA, 0xCE, 0xCA, 0xFE, 0xBE, 0xEF];

// What the column BOOTCFG of the table says.
#[tactic(auto, unfolding(crate::specs::Table::asked_by))]
impl From<u32> for Asked {
    ghost from_gives = { λ bootcfg asked. asked ≡ asked_by bootcfg };

    fn from(bootcfg: u32) -> Asked {
        match bootcfg {
            0 => Asked::Internal,
            1 => Asked::Serial,
            _ => Asked::External,
        }
    }
}

// Whether the control that matters is 0x55AA.
#[tactic(auto, unfolding(crate::specs::Table::control_55aa))]
fn has_55aa(asked: Asked, shadow: &[u8]) -> bool
    ensures { result ≡ control_55aa asked shadow.now }
{
    match asked {
        Asked::Internal | Asked::External => octets::half(shadow, 8) == 0x55AA,
        Asked::Serial => octets::half(shadow, 10) == 0x55AA,
    }
}

// The row of the table.
#[tactic(auto, unfolding(crate::specs::Table::row_of))]
fn row_of(asked: Asked, is_55aa: bool, shadow: &[u8]) -> Row
    ensures { result ≡ row_of asked is_55aa shadow.now }
{
    match (asked, is_55aa) {
        (Asked::Internal, false) | (Asked::Serial, true) => Row {
            flash: true,
            nexus: false,
            password: octets::first_eight(shadow),
        },
        (Asked::Internal | Asked::External, true) => Row {
            flash: true,
            nexus: true,
            password: PUBLIC,
        },
        (Asked::Serial | Asked::External, false) => Row {
            flash: false,
            nexus: true,
            password: PUBLIC,
        },
    }
}

// The row that holds, by BOOTCFG and the shadow row's controls.
#[tactic(auto, unfolding(crate::specs::Table::row_for))]
pub fn row_for(asked: Asked, shadow: &[u8]) -> Row
    ensures { result ≡ row_for asked shadow.now }
{
    row_of(asked, has_55aa(asked, shadow), shadow)
}
