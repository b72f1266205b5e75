// What a serial boot choice fixes for the session that it gives (01, "Choosing how to boot" and "The words of demand 3").
#![tactic(auto)]

// How serial boot was entered: by BOOTCFG, or because no good place was found. The MMU rows go by it (000, 16.3.2.3.1).
#[derive(Clone, Copy)]
pub enum Entered {
    Directly,
    FromInternal,
    FromExternal,
}

// The password selected, and how serial boot was entered.
#[derive(Clone, Copy)]
pub struct Configuration {
    pub password: [u8; 8],
    pub entered: Entered,
}
