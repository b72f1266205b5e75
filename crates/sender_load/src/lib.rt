// A load that is being sent (02, E1): its items, their echoes, and when it is sound.
#![tactic(auto)]

ghost use Rattle.std.specs.Prelude.{◌≡◌, take, drop};
ghost use Rattle.header.specs.Reading.{fits};
ghost use Rattle.session_answers.specs.Answers.{echo_of};
ghost use Rattle.sender_load.specs.Items.{width, load_header, role_at, identifier_for, source_by, sent_at, at_item, begins_item, sound_load};
ghost use Rattle.sender_load.specs.Echoes.{echo_due};

use session_answers::Echo;
use session_configuration::Configuration;
use session_items::{Role, Source};
use session_state::{Load, Port};

// A sender: whether a load is going; the head's configuration as far as the truck knows it, which has the password to send; the port;
// the start as given and the VLE bit; the length of the image that the load was begun with; the place of the item that is out, or else of the
// next one; and whether one is out.
// `going` stands beside a load's fields, not an Option round them: what is not going keeps all of them when asked (`sender: Calls.gives_none`).
#[derive(Clone, Copy)]
pub struct Sender {
    pub going: bool,
    pub configuration: Configuration,
    pub port: Port,
    pub start: u32,
    pub vle: bool,
    pub length: u32,
    pub place: u32,
    pub out: bool,
}

// An item that is sent: its source, and its bytes, which are the first `length` of `bytes`.
// A length stands beside eight places: a slice would need the memory behind it, and `sent_from` has zeroes in the places past it.
#[derive(Clone, Copy)]
pub struct Sent {
    pub source: Source,
    pub length: u8,
    pub bytes: [u8; 8],
}

// How many bytes an item has, but for the last one.
pub fn width_by(port: Port) -> u32
    ensures { result ≡ width port }
{
    match port {
        Port::Can => 8,
        Port::Serial => 1,
    }
}

// The echo of the bytes from a place of a list on, as many as an item has.
fn echo_from(role: Role, port: Port, all: &[u8], at: usize) -> Echo
    ensures { result ≡ echo_of role port (take (width port) (drop at all.now)) }
{
    let rest = &all[at.min(all.len())..];
    let count = rest.len().min(width_by(port) as usize);
    session_answers::echo_of(role, port, &rest[..count])
}

// The identifier of an item in a role.
fn identifier_for(role: Role) -> u32
    ensures { result ≡ identifier_for role }
{
    match role {
        Role::Password => 0x011,
        Role::Header => 0x012,
        Role::Data(_) => 0x013,
    }
}

// The source of an item.
fn source_by(port: Port, identifier: u32) -> Source
    ensures { result ≡ source_by port identifier }
{
    match port {
        Port::Can => Source::Can(identifier),
        Port::Serial => Source::Serial(0),
    }
}

// Whether an item may begin at a place, by the port.
fn is_at_item(port: Port, place: u32) -> bool
    ensures { result ≡ at_item port place }
{
    match port {
        Port::Can => place % 8 == 0,
        Port::Serial => true,
    }
}

impl Sender {
    // What the item at the load's place is.
    fn role_at(self) -> Role
        ensures { result ≡ role_at self }
    {
        match self.place {
            0..=7 => Role::Password,
            8..=15 => Role::Header,
            _ => {
                let start = sram::align(self.start);
                Role::Data(Load {
                    start,
                    vle: self.vle,
                    next: start.0,
                    owed: self.length,
                })
            }
        }
    }

    // The echo of the item at the load's place.
    #[tactic(auto, unfolding(crate::specs::Items::part))]
    pub fn echo_due(self, image: &[u8]) -> Echo
        ensures { result ≡ echo_due self image.now }
    {
        let role = self.role_at();
        let place = self.place as usize;
        match role {
            Role::Password => {
                let password = self.configuration.password; // lent from here, so that the sender is not copied, for speed
                echo_from(role, self.port, &password, place)
            }
            Role::Header => {
                let header = sender_header::write(
                    self.configuration,
                    self.start,
                    self.vle,
                    self.length,
                );
                echo_from(role, self.port, &header, place.saturating_sub(8))
            }
            Role::Data(_) => echo_from(role, self.port, image, place.saturating_sub(16)),
        }
    }

    // The item at the load's place: it has the bytes of its echo.
    pub fn sent_at(self, image: &[u8]) -> Sent
        ensures { result ≡ sent_at self image.now }
    {
        let echo = self.echo_due(image);
        let source = source_by(self.port, identifier_for(self.role_at()));
        let bytes = echo.bytes;
        Sent {
            source,
            length: echo.length,
            bytes,
        }
    }

    // Whether an item begins at the load's place.
    fn does_item_begin(self) -> bool
        ensures { result ≡ begins_item self }
    {
        is_at_item(self.port, self.place) && u64::from(self.place) < 16 + u64::from(self.length)
    }

    // Whether neither 3 nor 4 is due for the load's start and length.
    #[tactic(auto, unfolding(header::specs::Reading::validated))]
    fn does_header_fit(self) -> bool
        ensures { result ≡ fits self.configuration (load_header self) }
    {
        sender_header::judge(
            self.configuration,
            self.start,
            self.vle,
            self.length as usize,
        )
        .is_ok()
    }

    // Whether a load is sound, with the image that is handed in.
    #[tactic(auto, unfolding(crate::specs::Items::sound_load))]
    pub fn is_sound(self, image: &[u8]) -> bool
        ensures { result ≡ sound_load self image.now }
    {
        self.does_header_fit() && self.does_item_begin() && image.len() == self.length as usize
    }
}
