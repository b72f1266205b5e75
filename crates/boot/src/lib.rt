// The boot choice (01, "Choosing how to boot"; 000, 16.3.2): from BOOTCFG, the flash, the shadow row and the first bytes of external
// memory to how the head boots.
#![tactic(auto)]

ghost use Rattle.std.specs.Prelude.{◌≡◌};
ghost use Rattle.boot_table.specs.Table.{asked_by};
ghost use Rattle.boot.specs.Choosing.{allowed, boot_from, serial_boot, settled, chosen};
ghost use Rattle.boot.specs.Claim.{ChoiceClaim};

use boot_rchw::Search;
use boot_table::{Asked, Row};
use session_configuration::Entered;

// How the head boots.
#[derive(Clone, Copy)]
pub enum Mode {
    Internal,
    External,
    Serial(Entered),
}

// How the head boots, from where, and what is on.
#[derive(Clone, Copy)]
pub struct Boot {
    pub mode: Mode,
    pub place: u32,
    pub examined: u8,
    pub jump: u32,
    pub watchdog: bool,
    pub bus16: bool,
    pub flash: bool,
    pub nexus: bool,
}

// The boot, and the password selected.
#[derive(Clone, Copy)]
pub struct Choice {
    pub boot: Boot,
    pub password: [u8; 8],
}

// What the choice is made from: BOOTCFG, the flash, the shadow row and the first bytes of external memory. BOOTCFG is a number, since every
// one has an answer (`Claim.ChoiceClaim`).
#[derive(Clone, Copy)]
pub struct Inputs<'a> {
    pub bootcfg: u32,
    pub flash: &'a [u8],
    pub shadow: &'a [u8],
    pub external: &'a [u8],
}

// The choice of a serial boot.
fn serial_boot(entered: Entered, examined: u8, row: Row) -> Choice
    ensures { result ≡ serial_boot entered examined row }
{
    let Row {
        flash,
        nexus,
        password,
    } = row;
    let boot = Boot {
        mode: Mode::Serial(entered),
        place: 0,
        examined,
        jump: 0,
        watchdog: false,
        bus16: false,
        flash,
        nexus,
    };
    Choice { boot, password }
}

// The choice of a boot from a good place.
fn boot_from(mode: Mode, memory: &[u8], place: u32, examined: u8, row: Row) -> Choice
    ensures { result ≡ boot_from mode memory.now place examined row }
{
    let Row {
        flash,
        nexus,
        password,
    } = row;
    let at = place as usize;
    let first = octets::byte(memory, at);
    let boot = Boot {
        mode,
        place,
        examined,
        jump: octets::word(memory, at + 4),
        watchdog: first / 4 % 2 == 1,
        bus16: first / 2 % 2 == 1,
        flash,
        nexus,
    };
    Choice { boot, password }
}

// The choice after a search: a boot from the place found, or serial boot. What differs between the two searches is handed over as values, since a
// closure would only wrap them.
#[tactic(auto, unfolding(crate::specs::Choosing::settled))]
fn settle(mode: Mode, entered: Entered, memory: &[u8], search: Search, row: Row) -> Choice
    ensures { result ≡ settled mode entered memory.now search row }
{
    match search.found {
        Some(place) => boot_from(mode, memory, place, search.examined, row),
        None => serial_boot(entered, search.examined, row),
    }
}

impl Inputs<'_> {
    // Whether the sizes of what is handed in are allowed.
    fn is_allowed(self) -> bool
        ensures { result
            ≡ allowed self.entry.bootcfg self.entry.flash.now self.entry.shadow.now self.entry.external.now }
    {
        (self.bootcfg <= 3)
            & (self.flash.len() <= 2097152)
            & (self.shadow.len() == 12)
            & (self.external.len() == 8)
    }

    // How the head boots, once the sizes are allowed.
    #[tactic(auto, unfolding(crate::specs::Choosing::chosen))]
    fn chosen(self) -> Choice
        ensures { result
            ≡ chosen (asked_by self.entry.bootcfg) self.entry.flash.now self.entry.shadow.now self.entry.external.now }
    {
        let asked = Asked::from(self.bootcfg);
        let row = boot_table::row_for(asked, self.shadow);
        match asked {
            Asked::Internal => settle(
                Mode::Internal,
                Entered::FromInternal,
                self.flash,
                boot_rchw::first_good(self.flash),
                row,
            ),
            Asked::Serial => serial_boot(Entered::Directly, 0, row),
            Asked::External => settle(
                Mode::External,
                Entered::FromExternal,
                self.external,
                boot_rchw::examine_external(self.external),
                row,
            ),
        }
    }

    // The boot choice, for every input, or none where the call is refused.
    #[tactic(auto, using(crate::proofs::Claim::claimed))]
    pub fn choose(self) -> Option<Choice>
        ensures { ChoiceClaim self.entry.bootcfg self.entry.flash.now self.entry.shadow.now self.entry.external.now result }
    {
        if self.is_allowed() {
            return Some(self.chosen());
        }
        None
    }
}
