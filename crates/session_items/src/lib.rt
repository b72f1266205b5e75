// Items (01, "A serial session"): which are refused for their form, what a stage does with one, and an item by its kind.
#![tactic(auto)]

ghost use Rattle.std.specs.Prelude.{◌≡◌};
ghost use Rattle.octets.specs.Read.{half_at};
ghost use Rattle.session_items.specs.Items.{Item, well_formed, port_from, is_item, mark_of, source_of, leading};
ghost use Rattle.session_items.specs.Reacting.{eight_under, data_fitting, clean_byte, faulty_byte, counts_as, stops_by, heard, heard_opened, reaction};

use session_state::{Load, Port, Stage};
use std::marker::Model;

// Where an item's bytes come from: a CAN frame with an identifier, or the serial line with a mark, which is 0 for a clean byte and crosses the C
// interface as any number.
#[derive(Clone, Copy)]
pub enum Source {
    Can(u32),
    Serial(u32),
}

// What an item that is taken is: the password or a part of it, the header or a part of it, or data of a load.
#[derive(Clone, Copy)]
pub enum Role {
    Password,
    Header,
    Data(Load),
}

// What a stage does with an item. Role and port stay two values, since the table `counts_as` and all that comes of it go by each of them.
#[derive(Clone, Copy)]
pub enum Reaction {
    Ignores,
    Takes(Role, Port),
    Stops,
}

// An item: its source and its bytes.
#[derive(Drop)]
pub struct Item<'a> {
    pub source: Source,
    pub bytes: &'a [u8],
}

impl<'a> Model for Item<'a> {
    ghost Value = { Item };

    ghost view = { λ a. Item.Of a.source a.bytes.now };
}

// The port of an item.
impl From<Source> for Port {
    ghost from_gives = { λ source port. port ≡ port_from source };

    fn from(source: Source) -> Port {
        match source {
            Source::Can(_) => Port::Can,
            Source::Serial(_) => Port::Serial,
        }
    }
}

impl Item<'_> {
    // Whether the item is not refused for its form.
    pub fn is_formed(&self) -> bool
        ensures { result ≡ well_formed self.now }
    {
        match self.source {
            Source::Can(identifier) => identifier <= 2047 && self.bytes.len() <= 8,
            Source::Serial(_) => self.bytes.len() == 1,
        }
    }

    // Whether the item is a frame with the identifier wanted and 8 bytes.
    fn is_eight_under(&self, wanted: u32) -> bool
        ensures { result ≡ eight_under wanted self.now }
    {
        match self.source {
            Source::Can(identifier) => identifier == wanted && self.bytes.len() == 8,
            Source::Serial(_) => false,
        }
    }

    // Whether the item is a frame with data that fits what is owed.
    fn is_data_fitting(&self, owed: u32) -> bool
        ensures { result ≡ data_fitting owed self.now }
    {
        let count = self.bytes.len();
        match self.source {
            Source::Can(identifier) => {
                identifier == 0x013 && 1 <= count && count <= 8 && count <= owed as usize
            }
            Source::Serial(_) => false,
        }
    }

    // Whether the item is a clean serial byte.
    fn is_clean_byte(&self) -> bool
        ensures { result ≡ clean_byte self.now }
    {
        match self.source {
            Source::Can(_) => false,
            Source::Serial(mark) => self.bytes.len() == 1 && mark == 0,
        }
    }

    // Whether the item is a faulty serial byte. This and the one above are a rule of 01 each: one function would have the test as a parameter.
    fn is_faulty_byte(&self) -> bool
        ensures { result ≡ faulty_byte self.now }
    {
        match self.source {
            Source::Can(_) => false,
            Source::Serial(mark) => self.bytes.len() == 1 && mark != 0,
        }
    }

    // Whether the item counts for a role by a port.
    fn counts_as(&self, role: Role, port: Port) -> bool
        ensures { result ≡ counts_as role port self.now }
    {
        match (port, role) {
            (Port::Can, Role::Password) => self.is_eight_under(0x011),
            (Port::Can, Role::Header) => self.is_eight_under(0x012),
            (Port::Can, Role::Data(load)) => self.is_data_fitting(load.owed),
            (Port::Serial, _) => self.is_clean_byte(),
        }
    }

    // Whether the item stops a session that has opened a port, and is not taken.
    fn is_stopping(&self, port: Port) -> bool
        ensures { result ≡ stops_by port self.now }
    {
        match port {
            Port::Can => false,
            Port::Serial => self.is_faulty_byte(),
        }
    }

    // The item is taken in a role by a port, if it counts there.
    fn hear(&self, role: Role, port: Port) -> Reaction
        ensures { result ≡ heard role port self.now }
    {
        if !self.counts_as(role, port) {
            return Reaction::Ignores;
        }
        Reaction::Takes(role, port)
    }

    // Behind the opening it may stop the session.
    fn hear_opened(&self, role: Role, port: Port) -> Reaction
        ensures { result ≡ heard_opened role port self.now }
    {
        match self.hear(role, port) {
            Reaction::Ignores if self.is_stopping(port) => Reaction::Stops,
            reaction => reaction,
        }
    }

    // What a stage does with the item.
    #[tactic(auto, unfolding(crate::specs::Reacting::reaction))]
    pub fn react(&self, stage: Stage) -> Reaction
        ensures { result ≡ reaction stage self.now }
    {
        match stage {
            Stage::Waiting => self.hear(Role::Password, self.source.into()),
            Stage::Password => self.hear_opened(Role::Password, Port::Serial),
            Stage::Header(port) => self.hear_opened(Role::Header, port),
            Stage::Data(port, load) => self.hear_opened(Role::Data(load), port),
            Stage::Stopped(_) | Stage::Jumped(_) => Reaction::Ignores,
        }
    }
}

// A kind is a number in what follows, since these functions answer for every number that a caller or a list of C's may have.

// Whether an item of a kind can have so many bytes.
pub fn is_item(kind: u8, count: u32) -> bool
    ensures { result ≡ is_item kind count }
{
    match kind {
        1 => true,
        2 | 3 => count == 1,
        _ => false,
    }
}

// The mark of a serial byte of a kind.
fn mark_of(kind: u8) -> u32
    ensures { result ≡ mark_of kind }
{
    if kind == 2 { 0 } else { 1 }
}

// The source of an item of a kind.
#[tactic(auto, unfolding(crate::specs::Items::source_of))]
pub fn source_of(kind: u8, identifier: u32) -> Source
    ensures { result ≡ source_of kind identifier }
{
    match kind {
        1 => Source::Can(identifier),
        _ => Source::Serial(mark_of(kind)),
    }
}

// The source of the item in a record's body.
pub fn source_in(kind: u8, body: &[u8]) -> Source
    ensures { result ≡ source_of kind (half_at body.now 0) }
{
    source_of(kind, octets::half(body, 0).into())
}

// How many bytes of a record's body stand before the item's own.
pub fn leading_bytes(kind: u8) -> usize
    ensures { result ≡ leading kind }
{
    match kind {
        1 => 2,
        _ => 0,
    }
}
